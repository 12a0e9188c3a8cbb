//! What a file is, by its bytes.

use serde_json::Value;
use std::alloc::{AllocError, Global};

/// What a file is.
#[derive(Clone, Copy, PartialEq, Eq)]
pub(crate) enum FileKind {
    /// It has no bytes.
    Empty,
    /// It begins as a log does.
    Log,
    /// It begins as an order does.
    Order,
    /// It is a JSON object that lists logs.
    Case,
    /// None of these.
    Other,
}

/// The JSON value that bytes are, if they are one.
pub(crate) fn value_of(alloc: Global, bytes: &[u8]) -> Result<Option<Value>, AllocError> {
    match Value::from_slice(alloc, bytes) {
        Ok(value) => Ok(Some(value)),
        Err(error) if error.is_memory() => Err(AllocError),
        Err(_) => Ok(None),
    }
}

/// What a file with these bytes is.
pub(crate) fn kind_of(alloc: Global, bytes: &[u8]) -> Result<FileKind, AllocError> {
    match bytes {
        [] => Ok(FileKind::Empty),
        [b'V', b'A', b'T', b'L', b'O', b'G', b'0', b'1'..=b'3', ..] => Ok(FileKind::Log),
        [b'V', b'A', b'T', b'O', b'R', b'D', b'0', b'1', ..] => Ok(FileKind::Order),
        _ => match value_of(alloc, bytes)? {
            Some(value) if value.is_object() && value.get("logs").is_some() => Ok(FileKind::Case),
            _ => Ok(FileKind::Other),
        },
    }
}

impl FileKind {
    /// What people are told of a file that is this and was to be something else.
    pub(crate) fn sentence(self) -> Option<&'static str> {
        match self {
            FileKind::Empty => Some("is empty"),
            FileKind::Log => Some(
                "is a log: vat and records read logs, and a case file names them",
            ),
            FileKind::Order => Some("is an order: a case file may name one"),
            FileKind::Case => Some("is a case file: check, graph, run and order read case files"),
            FileKind::Other => None,
        }
    }
}
