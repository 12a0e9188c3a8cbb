//! The logs that were read, by their vats.

use bytes::Bytes;
use case_book::Findings;
use std::alloc::{AllocError, Global};
use std::sync::Arc;
use vat_log::{LogError, VatLog, parse_log};

/// The files that were read, with their names, and what was found of their case, where it was judged.
#[derive(Clone, Copy)]
pub struct Logs<'a> {
    /// The files with their names.
    pub files: &'a [(String, Bytes)],
    /// What was found.
    pub findings: Option<&'a Findings>,
}

/// The vat of a log, by the first bytes of its file.
pub fn vat_of(bytes: &Bytes) -> Option<u32> {
    match bytes.as_slice() {
        [b'V', b'A', b'T', b'L', b'O', b'G', _, _, a, b, c, d, ..] => {
            Some(u32::from_le_bytes([*a, *b, *c, *d]))
        }
        _ => None,
    }
}

/// The log that a file is, if it is one.
pub fn log_of(alloc: Global, bytes: &Bytes) -> Result<Option<VatLog>, AllocError> {
    match parse_log(alloc, bytes.clone()?) {
        Ok(log) => Ok(Some(log)),
        Err(LogError::OutOfMemory) => Err(AllocError),
        Err(_) => Ok(None),
    }
}

/// The name of the first of these files that has the log of a vat.
pub(crate) fn name_in(files: &[(String, Bytes)], vat: u32) -> Option<&str> {
    let (name, _) = files.iter().find(|(_, bytes)| vat_of(bytes) == Some(vat))?;
    Some(name.as_str())
}

impl<'a> Logs<'a> {
    /// The name of the file that has the log of this vat, where it is kept.
    pub fn name_of(&self, vat: u32) -> Option<&'a str> {
        name_in(self.files, vat)
    }

    /// The log of this vat among the files that were read.
    fn read(&self, alloc: Global, vat: u32) -> Result<Option<Arc<VatLog>>, AllocError> {
        let files = self.files.iter();
        for (_, bytes) in files.filter(|(_, bytes)| vat_of(bytes) == Some(vat)) {
            if let Some(log) = log_of(alloc, bytes)? {
                return Ok(Some(Arc::new(alloc, log)?));
            }
        }
        Ok(None)
    }

    /// The log of this vat, where it was read.
    pub fn of_vat(&self, alloc: Global, vat: u32) -> Result<Option<Arc<VatLog>>, AllocError> {
        let Some(findings) = self.findings else {
            return self.read(alloc, vat);
        };
        match findings.case().logs().iter().find(|log| log.vat() == vat) {
            Some(log) => Ok(Some(Arc::try_clone(log)?)),
            None => Ok(None),
        }
    }
}
