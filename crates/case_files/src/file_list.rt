//! Files in a list.

ghost use Rattle.std.specs.Prelude.{◌≡◌, map, option_map, string_bytes};
ghost use Rattle.case_files.specs.LookUp.{under};

use crate::listed_reader::ListedReader;
use crate::source::{Source, SourceError};
use byte_pieces::PieceFault;
use bytes::Bytes;
use std::marker::Model;

/// Files with their names, as a source: what is asked for is the first file of that name. Contracts see it as the list
/// of the names with the bytes.
#[derive(Drop)]
pub struct FileList {
    files: Vec<(String, Bytes)>,
}

impl Model for FileList {
    ghost use Rattle.std.specs.Prelude.{ℕ, List, map, string_bytes};

    ghost Value = { List (List ℕ × List ℕ) };

    ghost view = { λ list. map (λ file. (string_bytes file.0, file.1)) list.files.items };
}

impl FileList {
    /// The list of these files. It takes no memory.
    pub fn new(files: Vec<(String, Bytes)>) -> FileList
        ensures { result ≡ map (λ file. (string_bytes file.0, file.1)) files.items }
    {
        FileList { files }
    }
}

impl FileList {
    /// The bytes of the first file of this name.
    fn find(&self, name: &str) -> Option<&Bytes>
        ensures { option_map (λ bytes. bytes.now) result ≡ under self.now name.now }
    {
        for (listed, bytes) in &self.files {
            if listed.as_str() == name {
                return Some(bytes);
            }
        }
        None
    }
}

impl Source for FileList {
    ghost use Rattle.std.specs.Prelude.{Some};
    ghost use Rattle.case_files.specs.LookUp.{LooksUp, read_under};

    type Reader = ListedReader;

    ghost read_gives = { LooksUp };

    ghost holds = { λ files name. Some (read_under files name) };

    fn read(&mut self, name: &str) -> Result<Bytes, SourceError> {
        let bytes = self.find(name).ok_or(SourceError::CannotRead)?;
        Ok(bytes.clone()?)
    }

    fn open(&mut self, name: &str) -> ListedReader {
        match self.find(name) {
            Some(bytes) => ListedReader::of(bytes),
            None => ListedReader::failing(PieceFault::CannotRead),
        }
    }

    /// Where the list has a file of this name, its reader fails only where memory is refused; nor is one of another file taken.
    fn close(
        &mut self,
        name: &str,
        reader: &ListedReader,
        failed: bool,
    ) -> Result<(), SourceError> {
        match self.find(name) {
            Some(bytes) if !failed && reader.may_be_of(bytes) => Ok(()),
            Some(_) => Err(SourceError::OutOfMemory),
            None => Err(SourceError::CannotRead),
        }
    }
}
