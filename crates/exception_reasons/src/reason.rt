//! Reasons.

ghost use Rattle.std.specs.Prelude.{◌≡◌, Some};
ghost use Rattle.exception_reasons.specs.Printed.{printed};

use crate::printed::Printed;
use std::fmt;
use std::fmt::{Display, Formatter};
use std::marker::Model;

/// The reason of an Exception, at most its first 1,024 bytes, without the zero behind them. They needn't be UTF-8.
/// Contracts see it as the list of these. It is printed in printable ASCII, as [`Printed`] says.
#[derive(Drop)]
pub struct Reason {
    bytes: Vec<u8>,
}

impl Model for Reason {
    ghost use Rattle.std.specs.Prelude.{List, ℕ};

    ghost Value = { List ℕ };

    ghost view = { λ reason. reason.bytes.items };
}

impl Reason {
    /// The reason of these bytes. It takes no memory.
    pub(crate) fn new(bytes: Vec<u8>) -> Reason
        ensures { result ≡ bytes.items }
    {
        Reason { bytes }
    }

    /// Its bytes as they stand in the message.
    pub fn as_bytes(&self) -> &[u8]
        ensures { result.now ≡ self.now }
    {
        &self.bytes
    }
}

impl Display for Reason {
    ghost output = { λ reason. Some (printed reason) };

    fn fmt<W: fmt::Write>(&self, f: &mut Formatter<W>) -> fmt::Result {
        write!(f, "{}", Printed(&self.bytes))
    }
}
