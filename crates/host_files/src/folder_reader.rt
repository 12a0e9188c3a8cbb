//! Files and standard input, handed out piece by piece.

ghost use Rattle.std.specs.Prelude.{◌≡◌, true, None, Some, IfSome, string_bytes};
ghost use Rattle.byte_pieces.specs.Coming.{IsFresh};
ghost use Rattle.case_files.specs.Opening.{IsOf};

use crate::host::{HostFile, HostInput};
use byte_pieces::{PieceFault, Pieces, ReadPieces};
use bytes::Bytes;
use bytes::buf::Reader;
use std::alloc::Global;
use std::io::{self, ErrorKind, Read};
use std::marker::Model;

/// How many bytes a file may have: 2^40.
const LIMIT: u64 = 1_099_511_627_776;

/// How many bytes are kept of what can't be read once more: 2^26.
const KEPT: usize = 67_108_864;

/// What stands under a name.
#[derive(Drop)]
pub enum Opened<F, I> {
    /// A file.
    File(F),
    /// Standard input.
    Input(I),
    /// The bytes of a file.
    Whole(Reader<Bytes>),
    /// Nothing that can be read.
    Nothing,
}

impl<F: Read, I: Read> Read for Opened<F, I> {
    ghost use Rattle.host_files.specs.Holding.{left_of};

    ghost remaining = { left_of F.remaining I.remaining };

    fn read(&mut self, buf: &mut [u8]) -> io::Result<usize> {
        match self {
            Opened::File(file) => file.read(buf),
            Opened::Input(input) => input.read(buf),
            Opened::Whole(bytes) => bytes.read(buf),
            Opened::Nothing => Err(io::Error::from(ErrorKind::Other)),
        }
    }
}

/// What hands out a file or standard input piece by piece, and counts its bytes. Of what can't be read once more it keeps them
/// where it is asked to, unless there are too many. To a contract it is the name under which it was opened, and what came, which is
/// of what stands under that name.
#[derive(Drop)]
pub struct FolderReader<F: HostFile, I: HostInput> {
    pieces: ReadPieces<Opened<F, I>>,
    name: Option<String>,
    lasts: bool,
    count: u64,
    kept: Option<Vec<u8>>,
    too_long: Option<io::Error>,
}

impl<F: HostFile, I: HostInput> Model for FolderReader<F, I> {
    ghost use Rattle.std.specs.Prelude.{IfSome, option_map, string_bytes};
    ghost use Rattle.case_files.specs.Opening.{IsOf};
    ghost use Rattle.host_files.specs.declared.folder_reader.TheConstants.{LIMIT};
    ghost use Rattle.host_files.specs.Holding.{NamedReader, as_read, held_under, within};

    ghost Value = { NamedReader };

    ghost view = { λ reader. record {
      name = option_map string_bytes reader.name;
      came = within LIMIT reader.count reader.pieces;
    } };

    ghost invariant = { λ reader. IfSome (option_map string_bytes reader.name)
        (λ name. IsOf (as_read (held_under F.in_file I.in_input name)) reader.pieces) };
}

impl<F: HostFile, I: HostInput> FolderReader<F, I> {
    ghost use Rattle.host_files.specs.Holding.{as_read, held_under, left_of};

    /// What hands out what was opened under a name, which can be read once more or can't; and where its bytes are kept, if they are.
    pub(crate) fn new(
        alloc: Global,
        name: &str,
        opened: Opened<F, I>,
        lasts: bool,
        kept: Option<Vec<u8>>,
    ) -> FolderReader<F, I>
        requires { IfSome (held_under F.in_file I.in_input name.now)
            (λ all. left_of F.remaining I.remaining opened ≡ Some all) }
        ensures fresh { IsFresh result.came }
        ensures of { IsOf (as_read (held_under F.in_file I.in_input name.now)) result.came }
    {
        FolderReader {
            pieces: ReadPieces::new(opened),
            name: String::from_str(alloc, name).ok(),
            lasts,
            count: 0,
            kept,
            too_long: None,
        }
    }

    /// What gives nothing, since what stands under a name can't be read, for this reason; whether it can be tried once more.
    pub(crate) fn refused(
        alloc: Global,
        name: &str,
        why: io::Error,
        lasts: bool,
    ) -> FolderReader<F, I>
        ensures fresh { IsFresh result.came }
        ensures of { IsOf (as_read (held_under F.in_file I.in_input name.now)) result.came }
    {
        FolderReader {
            pieces: ReadPieces::refused(Opened::Nothing, why),
            name: String::from_str(alloc, name).ok(),
            lasts,
            count: 0,
            kept: None,
            too_long: None,
        }
    }

    /// What hands out a file once more, for people.
    pub(crate) fn again(file: F) -> FolderReader<F, I>
        ensures { IsFresh result.came }
    {
        FolderReader {
            pieces: ReadPieces::new(Opened::File(file)),
            name: None,
            lasts: true,
            count: 0,
            kept: None,
            too_long: None,
        }
    }

    /// Whether it was opened under this name. Where memory was refused for its name, that isn't known.
    pub(crate) fn is_of(&self, name: &str) -> bool
        ensures { result ≡ true → IsOf (as_read (held_under F.in_file I.in_input name.now)) self.now.came }
    {
        match &self.name {
            Some(own) => own.as_str() == name,
            None => false,
        }
    }

    /// Whether it can be read once more.
    pub(crate) fn lasts(&self) -> bool {
        self.lasts
    }

    /// How many bytes came.
    pub(crate) fn count(&self) -> u64 {
        self.count
    }

    /// Why no more can be read, where that is known.
    pub(crate) fn refusal(&self) -> Option<&io::Error> {
        match &self.too_long {
            Some(why) => Some(why),
            None => self.pieces.refusal(),
        }
    }

    /// All bytes that came, where they are kept and aren't too many.
    pub(crate) fn kept(&self) -> Option<&[u8]> {
        self.kept.as_deref()
    }
}

/// Keeps a piece. Where there are too many bytes, or memory is refused, none is kept any more.
fn keep(kept: &mut Option<Vec<u8>>, piece: &[u8]) {
    let Some(bytes) = kept else {
        return;
    };
    let is_short = bytes.len().saturating_add(piece.len()) <= KEPT;
    if !is_short || bytes.extend_from_slice(piece).is_err() {
        *kept = None;
    }
}

impl<F: HostFile, I: HostInput> Pieces for FolderReader<F, I> {
    ghost so_far = { λ reader. reader.came };

    fn more(
        &mut self,
        alloc: Global,
        rest: &[u8],
        wanted: usize,
    ) -> Result<Option<Bytes>, PieceFault> {
        if self.count > LIMIT {
            self.too_long = Some(io::Error::other("it has over 1099511627776 bytes"));
            return Err(PieceFault::CannotRead);
        }
        let next = self.pieces.more(alloc, rest, wanted)?;
        if let Some(window) = &next {
            let piece = &window.as_slice()[rest.len()..];
            self.count = self.count.saturating_add(piece.len() as u64);
            keep(&mut self.kept, piece);
        }
        Ok(next)
    }
}

/// The same error once more, or its kind alone where memory is refused for its text.
pub fn copy_of(alloc: Global, error: &io::Error) -> io::Error {
    if let Some(code) = error.raw_os_error() {
        return io::Error::from_raw_os_error(code);
    }
    match format!(in alloc; "{error}") {
        Ok(text) => io::Error::new(error.kind(), text.as_str()),
        Err(_) => io::Error::from(error.kind()),
    }
}
