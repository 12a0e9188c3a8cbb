//! Logs of which the bytes alone are kept.

ghost use Rattle.std.specs.Prelude.{◌≡◌, ◌≤◌, length};
ghost use Rattle.vat_log.specs.Spelling.{log_bytes};

use crate::body::Body;
use crate::header::LogHeader;
use bytes::Bytes;
use erased::Erased;
use std::fmt::{self, Debug, Formatter, Write};
use std::marker::Model;

/// A log of which the bytes alone are kept, and how many records they spell. To a contract it is the log.
pub struct SpelledLog {
    pub(crate) header: LogHeader,
    pub(crate) count: usize,
    pub(crate) records: Erased<Body>,
    pub(crate) bytes: Bytes,
}

impl Drop for SpelledLog {
    fn drop(self) {
        let Self {
            header: _,
            count: _,
            records: _,
            bytes: _,
        } = self;
    }
}

impl Model for SpelledLog {
    ghost use Rattle.std.specs.Prelude.{◌≡◌, length, reverse};
    ghost use Rattle.vat_log.specs.Log.{Log};
    ghost use Rattle.vat_log.specs.Parsed.{IsParsed};

    ghost Value = { Log };

    ghost view = { λ log. record {
      version = log.header.version;
      vat = log.header.vat;
      records = reverse log.records.items;
    } };

    ghost invariant = { λ log. (length log.records.items ≡ log.count)
        × IsParsed log.bytes
        (record { version = log.header.version; vat = log.header.vat; records = reverse log.records.items }) };
}

impl Debug for SpelledLog {
    fn fmt<W: Write>(&self, f: &mut Formatter<W>) -> fmt::Result {
        f.debug_struct("SpelledLog")
            .field("header", &self.header)
            .field("records", &self.count)
            .field("bytes", &self.bytes)
            .finish()
    }
}

impl SpelledLog {
    ghost use Rattle.vat_log.specs.Parsed.{IsParsed};

    /// The vat whose log this is.
    pub fn vat(&self) -> u32
        ensures { result ≡ self.now.vat }
    {
        self.header.vat
    }

    /// How many records there are, 4,294,967,295 at most.
    pub fn len(&self) -> usize
        ensures value { result ≡ length self.now.records }
        ensures bound { result ≤ 4294967295 }
    {
        self.count
    }

    /// The bytes of the log: its one spelling in its version.
    pub fn bytes(&self) -> &Bytes
        ensures spelled { result.now ≡ log_bytes self.now }
        ensures parsed { IsParsed result.now self.now }
    {
        &self.bytes
    }
}
