//! A folder that is made when it is first written to.

ghost use Rattle.std.specs.Prelude.{◌≤◌, length, IfOk};

use std::io::{Error, Write};
use std::rt::Files;
use std::{fs, io};

/// A folder, which is made at the first write and may not be there before, with its files: what is written up to a flush
/// stands in the first, what follows up to the next flush in the second, and so on. Where a write fails, the folder is taken
/// away again with all that was made in it.
#[derive(Drop)]
pub struct NewFolder<'a, R: Files> {
    rt: &'a R,
    name: &'a str,
    /// The paths of its files, in the order in which they are written.
    paths: Vec<String>,
    is_made: bool,
    /// How many files were begun.
    begun: usize,
    file: Option<R::File>,
}

impl<'a, R: Files + AllocGlobal> NewFolder<'a, R> {
    /// The folder of this name, which isn't made yet, with files of these paths.
    pub fn new(rt: &'a R, name: &'a str, paths: Vec<String>) -> NewFolder<'a, R> {
        NewFolder {
            rt,
            name,
            paths,
            is_made: false,
            begun: 0,
            file: None,
        }
    }

    /// Begins the next file, and makes the folder before the first one.
    fn begin(&mut self) -> io::Result<R::File> {
        if !self.is_made {
            fs::create_dir(self.rt, self.name)?;
            self.is_made = true;
        }
        let Some(path) = self.paths.get(self.begun) else {
            return Err(Error::other("the folder has all its files"));
        };
        self.begun = self.begun.saturating_add(1);
        fs::create(self.rt, path.as_str())
    }

    /// Writes to the file that was begun, or to the next one. As a write, it takes no more than it is given.
    fn write_on(&mut self, buf: &[u8]) -> io::Result<usize>
        ensures { IfOk result (λ n. n ≤ length buf.now) }
    {
        if self.file.is_none() {
            self.file = Some(self.begin()?);
        }
        match &mut self.file {
            Some(file) => file.write(buf),
            None => Ok(0),
        }
    }

    /// Ends the file that was begun.
    fn end(&mut self) -> io::Result<()> {
        match self.file.take() {
            Some(mut file) => file.flush(),
            None => Ok(()),
        }
    }

    /// Takes away what was made.
    fn take_away(&mut self) {
        self.file = None;
        if !self.is_made {
            return;
        }
        for path in self.paths.iter() {
            let _ = fs::remove_file(self.rt, path.as_str());
        }
        let _ = fs::remove_dir(self.rt, self.name);
        self.is_made = false;
        self.begun = 0;
    }
}

impl<R: Files + AllocGlobal> Write for NewFolder<'_, R> {
    fn write(&mut self, buf: &[u8]) -> io::Result<usize> {
        let written = self.write_on(buf);
        if written.is_err() || (matches!(written, Ok(0)) && !buf.is_empty()) {
            self.take_away();
        }
        written
    }

    fn flush(&mut self) -> io::Result<()> {
        let ended = self.end();
        if ended.is_err() {
            self.take_away();
        }
        ended
    }
}
