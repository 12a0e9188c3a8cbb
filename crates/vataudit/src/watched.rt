//! What is read and written while progress is told of.

use crate::progress::RunProgress;
use byte_pieces::{PieceFault, Pieces};
use bytes::Bytes;
use case_files::{RememberingSource, Source, SourceError};
use cause_notes::SearchingSource;
use std::alloc::{AllocError, Global};
use std::io;
use std::io::{Eprint, Write};
use std::sync::Wait;

/// What reads a file piece by piece, whose bytes are counted.
#[derive(Drop)]
pub struct CountedReader<'a, P> {
    reader: P,
    progress: &'a RunProgress,
}

impl<P: Pieces> Pieces for CountedReader<'_, P> {
    ghost so_far = { λ counted. P.so_far counted.reader };

    fn more(
        &mut self,
        alloc: Global,
        rest: &[u8],
        wanted: usize,
    ) -> Result<Option<Bytes>, PieceFault> {
        let next = self.reader.more(alloc, rest, wanted)?;
        if let Some(window) = &next {
            self.progress.read_bytes(window.len() - rest.len());
        }
        Ok(next)
    }
}

/// A source whose files are counted as they are read.
#[derive(Drop)]
pub struct CountedSource<'a, S> {
    /// The source.
    pub source: S,
    /// What counts them.
    pub progress: &'a RunProgress,
}

impl<'a, S: Source> Source for CountedSource<'a, S> {
    type Reader = CountedReader<'a, S::Reader>;

    ghost read_gives = { λ old name read new. S.read_gives old.source name read new.source };

    ghost holds = { λ counted name. S.holds counted.source name };

    fn read(&mut self, name: &str) -> Result<Bytes, SourceError> {
        let read = self.source.read(name);
        self.progress.read_file();
        read
    }

    fn open(&mut self, name: &str) -> CountedReader<'a, S::Reader> {
        CountedReader {
            reader: self.source.open(name),
            progress: self.progress,
        }
    }

    fn close(
        &mut self,
        name: &str,
        reader: &CountedReader<'a, S::Reader>,
        failed: bool,
    ) -> Result<(), SourceError> {
        let closed = self.source.close(name, &reader.reader, failed);
        self.progress.read_file();
        closed
    }
}

impl<S: RememberingSource> RememberingSource for CountedSource<'_, S> {
    fn last(&self) -> Option<&str> {
        self.source.last()
    }

    fn refusal(&self) -> Option<&io::Error> {
        self.source.refusal()
    }

    fn look_back(&mut self) -> Result<(), AllocError> {
        self.source.look_back()
    }

    fn kept(&self) -> &[(String, Bytes)] {
        self.source.kept()
    }

    fn left_out(&self) -> &[String] {
        self.source.left_out()
    }

    fn open_again(&self, name: &str) -> Option<Self::Reader> {
        let reader = self.source.open_again(name)?;
        Some(CountedReader {
            reader,
            progress: self.progress,
        })
    }
}

impl<S: SearchingSource> SearchingSource for CountedSource<'_, S> {
    fn has(&self, name: &str) -> bool {
        self.source.has(name)
    }
}

/// A writer that has the line of progress wiped before it writes.
#[derive(Drop)]
pub struct WipingWriter<'a, R, W> {
    /// What wipes it.
    pub rt: &'a R,
    /// The line.
    pub progress: &'a RunProgress,
    /// The writer.
    pub out: W,
}

impl<R: Wait + Eprint, W: Write> Write for WipingWriter<'_, R, W> {
    fn write(&mut self, buf: &[u8]) -> io::Result<usize> {
        self.progress.wipe(self.rt);
        self.out.write(buf)
    }

    fn flush(&mut self) -> io::Result<()> {
        self.out.flush()
    }
}
