//! What stands in front of a log's records.

ghost use Rattle.std.specs.Prelude.{◌≡◌};
ghost use Rattle.vat_log.specs.Log.{version_number};

use crate::version::LogVersion;

/// The header of a log: the version of the format in which it stands, and its vat (docs/FORMATS.md).
#[derive(Clone, Copy, Debug, PartialEq, Eq)]
pub struct LogHeader {
    pub(crate) version: LogVersion,
    pub(crate) vat: u32,
}

impl LogHeader {
    /// The version of the format: 1, 2 or 3.
    pub fn version(self) -> u32
        ensures { result ≡ version_number self.version }
    {
        self.version.number()
    }

    /// The vat whose log this is.
    pub fn vat(self) -> u32
        ensures { result ≡ self.vat }
    {
        self.vat
    }
}
