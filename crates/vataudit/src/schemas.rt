//! The schemas whose names are printed.

use crate::manner::Manner;
use case_files::{Source, SourceError};
use host_files::{Folder, LogHost};
use json_lines::bad_schema_object;
use schema_names::{Limits, SchemaError, SchemaNames, read_names};
use std::alloc::{AllocError, Global};

/// Why a schema isn't read.
#[derive(Clone, Copy, PartialEq, Eq)]
pub enum SchemaFault {
    /// Its file can't be read, or isn't a schema.
    Bad(&'static str),
    /// Memory was refused.
    OutOfMemory,
}

impl From<AllocError> for SchemaFault {
    fn from(_e: AllocError) -> SchemaFault {
        SchemaFault::OutOfMemory
    }
}

impl From<SourceError> for SchemaFault {
    fn from(error: SourceError) -> SchemaFault {
        match error {
            SourceError::OutOfMemory => SchemaFault::OutOfMemory,
            SourceError::CannotRead => SchemaFault::Bad("the file can't be read"),
        }
    }
}

impl From<SchemaError> for SchemaFault {
    fn from(error: SchemaError) -> SchemaFault {
        match error {
            SchemaError::OutOfMemory => SchemaFault::OutOfMemory,
            SchemaError::Frame(_) => SchemaFault::Bad(
                "it isn't one message of Cap'n Proto: `capnp compile -o- x.capnp` writes one",
            ),
            SchemaError::Read(_) | SchemaError::NoNodes | SchemaError::BadName => {
                SchemaFault::Bad("it is a message, and not the one that `capnp compile -o-` writes")
            }
        }
    }
}

/// Puts the names of a file behind those that are there.
fn add_names<R: LogHost>(
    alloc: Global,
    folder: &mut Folder<'_, R>,
    file: &str,
    names: &mut SchemaNames,
) -> Result<(), SchemaFault> {
    let bytes = folder.read(file)?;
    let more = read_names(alloc, bytes, Limits::default())?;
    names.append(more)?;
    Ok(())
}

/// The names of all these files, or the first one that has none, and why.
pub fn names_of<'a, R: LogHost>(
    rt: &R,
    files: &'a [String],
) -> Result<SchemaNames, (&'a str, SchemaFault)> {
    let alloc = rt.alloc();
    let mut folder = Folder::new(rt);
    let mut names = SchemaNames::none(alloc);
    for file in files {
        if let Err(fault) = add_names(alloc, &mut folder, file.as_str(), &mut names) {
            return Err((file.as_str(), fault));
        }
    }
    Ok(names)
}

/// The note of why a file is no schema; none where none is wanted.
fn note_of(alloc: Global, file: &str, why: &str, manner: &Manner) -> Result<String, AllocError> {
    if manner.is_quiet {
        return Ok(String::new(alloc));
    }
    let file = file.escape_debug();
    format!(in alloc; "note: {file}: {why}\n")
}

/// Prints that a file is no schema, as a line with a note, or as an object.
///
/// # Errors
///
/// Out of memory, before anything is printed. What comes of a write that fails is left out: the status is that of a failed
/// write as it is.
pub fn say_bad_schema<R: Print + Eprint + AllocGlobal>(
    rt: &R,
    file: &str,
    why: &str,
    manner: &Manner,
) -> Result<(), AllocError> {
    let note = note_of(rt.alloc(), file, why, manner)?;
    if manner.is_json {
        let object = bad_schema_object(rt.alloc(), file, note.as_str())?;
        let _ = println!(rt; "{object}");
        return Ok(());
    }
    let file = file.escape_debug();
    let _ = println!(rt; "bad schema {file}");
    let _ = rt.eprint(note.as_str());
    Ok(())
}
