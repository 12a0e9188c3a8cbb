//! Numbers as a vat names them on one of its connections.

ghost use Rattle.std.specs.Prelude.{◌≡◌};
ghost use Rattle.decoded_records.specs.Numbers.{id_of};

use crate::table_key::TableKey;

/// A number of a connection, as this vat sees it (rpc.capnp, the comments of ExportId, ImportId, QuestionId and
/// AnswerId).
#[derive(Clone, Copy, Debug, PartialEq, Eq)]
pub enum Number {
    /// A number that this vat gave out for a capability which it sent.
    Export(u32),
    /// A number that the peer gave out for a capability which this vat received.
    Import(u32),
    /// A number that this vat gave out for a Bootstrap or Call which it sent.
    Question(u32),
    /// A number that the peer gave out for a Bootstrap or Call which this vat received.
    Answer(u32),
}

impl Number {
    /// The number with its connection, and whether this vat gave it out.
    pub fn on(self, connection: u32) -> TableKey
        ensures { result ≡ id_of connection self }
    {
        match self {
            Number::Export(number) | Number::Question(number) => TableKey {
                connection,
                ours: true,
                number,
            },
            Number::Import(number) | Number::Answer(number) => TableKey {
                connection,
                ours: false,
                number,
            },
        }
    }
}
