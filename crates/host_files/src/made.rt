//! What a command writes beside its lines.

use crate::new_file::NewFile;
use crate::new_folder::NewFolder;
use case_files::{CASE_FILE, file_names};
use command_line::Command;
use schema_names::SchemaNames;
use std::alloc::{AllocError, Global};
use std::io;
use std::io::Write;
use std::rt::Files;

/// What a command writes: a file, or a folder of them. It is made at the first write.
#[derive(Drop)]
pub enum Made<'a, R: Files> {
    File(NewFile<'a, R>),
    Folder(NewFolder<'a, R>),
}

/// The paths of the files of a folder, in the order in which they are written: those of its logs, and that of the case file.
fn paths_of(alloc: Global, folder: &str, names: &[String]) -> Result<Vec<String>, AllocError> {
    let mut paths = Vec::new(alloc);
    for name in names {
        paths.push(format!(in alloc; "{folder}/{name}")?)?;
    }
    paths.push(format!(in alloc; "{folder}/{CASE_FILE}")?)?;
    Ok(paths)
}

/// The names of the logs that `wire` writes.
fn wire_names(alloc: Global) -> Result<Vec<String>, AllocError> {
    let mut names = Vec::new(alloc);
    for name in ["A.log", "B.log"] {
        names.push(String::from_str(alloc, name)?)?;
    }
    Ok(names)
}

impl<'a, R: Files + AllocGlobal> Made<'a, R> {
    /// What a command writes, which isn't made yet. What it draws has these names, if there are any.
    ///
    /// # Errors
    ///
    /// Out of memory, for the paths of a folder's files.
    pub fn of(
        rt: &'a R,
        command: &Command<'a>,
        names: Option<&'a SchemaNames>,
    ) -> Result<Made<'a, R>, AllocError> {
        match command {
            Command::Wire {
                out: Some(name),
                ..
            } => {
                let paths = paths_of(rt.alloc(), name, &wire_names(rt.alloc())?)?;
                Ok(Made::Folder(NewFolder::new(rt, name, paths)))
            }
            Command::Join { logs, out: name } => {
                let paths = paths_of(rt.alloc(), name, &file_names(rt.alloc(), logs)?)?;
                Ok(Made::Folder(NewFolder::new(rt, name, paths)))
            }
            Command::Draw { out: name, .. } => Ok(Made::File(NewFile::drawn(rt, name, names))),
            Command::Salvage { out: name, .. } => Ok(Made::File(NewFile::beside(rt, name))),
            command => Ok(Made::File(NewFile::new(rt, command.out()))),
        }
    }
}

impl<R: Files + AllocGlobal> Write for Made<'_, R> {
    fn write(&mut self, buf: &[u8]) -> io::Result<usize> {
        match self {
            Made::File(file) => file.write(buf),
            Made::Folder(folder) => folder.write(buf),
        }
    }

    fn flush(&mut self) -> io::Result<()> {
        match self {
            Made::File(file) => file.flush(),
            Made::Folder(folder) => folder.flush(),
        }
    }
}
