//! A file that is made when it is first written to.

use named_text::NamedMarkup;
use schema_names::SchemaNames;
use std::io::Write;
use std::rt::Files;
use std::{fs, io};

/// A file of the working directory, which is made at the first write, in the place of one of its name, or where none is there.
/// Without a name none is made, and nothing can be written.
#[derive(Drop)]
pub struct NewFile<'a, R: Files> {
    rt: &'a R,
    name: Option<&'a str>,
    has_to_be_new: bool,
    names: Option<&'a SchemaNames>,
    file: Option<R::File>,
}

impl<'a, R: Files> NewFile<'a, R> {
    /// The file of this name, which isn't made yet. What it held before is lost then.
    pub fn new(rt: &'a R, name: Option<&'a str>) -> NewFile<'a, R> {
        NewFile {
            rt,
            name,
            has_to_be_new: false,
            names: None,
            file: None,
        }
    }

    /// The file of this name, in which interfaces and methods have these names, if there are any. Names are put into each write by
    /// itself: what is drawn comes in one.
    pub fn drawn(rt: &'a R, name: &'a str, names: Option<&'a SchemaNames>) -> NewFile<'a, R> {
        NewFile {
            names,
            ..NewFile::new(rt, Some(name))
        }
    }

    /// The file of this name, which isn't made yet. Writing fails where there is one, so it can't be one that is read.
    pub fn beside(rt: &'a R, name: &'a str) -> NewFile<'a, R> {
        NewFile {
            has_to_be_new: true,
            ..NewFile::new(rt, Some(name))
        }
    }

    /// Makes the file.
    fn make(&self, name: &str) -> io::Result<R::File> {
        if self.has_to_be_new {
            fs::File::create_new(self.rt, name)
        } else {
            fs::create(self.rt, name)
        }
    }
}

impl<R: Files> Write for NewFile<'_, R> {
    fn write(&mut self, buf: &[u8]) -> io::Result<usize> {
        if let (None, Some(name)) = (&self.file, self.name) {
            self.file = Some(self.make(name)?);
        }
        let Some(file) = &mut self.file else {
            return Ok(0);
        };
        if let (Some(names), Ok(text)) = (self.names, std::str::from_utf8(buf)) {
            file.write_fmt(NamedMarkup { names, text })?;
            return Ok(buf.len());
        }
        file.write(buf)
    }

    fn flush(&mut self) -> io::Result<()> {
        match &mut self.file {
            Some(file) => file.flush(),
            None => Ok(()),
        }
    }
}
