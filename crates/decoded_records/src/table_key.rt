//! Numbers of a connection.

ghost use Rattle.std.specs.Prelude.{◌≡◌, not};
ghost use Rattle.decoded_records.specs.Past.{id};

/// An export, import, question or answer number of a connection (rpc.capnp, the comments of ExportId, ImportId,
/// QuestionId and AnswerId). Each end of a connection gives out its own.
#[derive(Clone, Copy, Debug, PartialEq, Eq, PartialOrd, Ord)]
pub struct TableKey {
    /// The connection's number, the same in the logs of both ends.
    pub connection: u32,
    /// Whether this vat gave the number out, as it does those of its own exports and questions.
    pub ours: bool,
    /// The number, as messages have it.
    pub number: u32,
}

impl TableKey {
    /// A number in a message that this vat sent, or else received, where the message's sender gave the number out:
    /// rpc.capnp's QuestionId in a Bootstrap, Call, Finish, promisedAnswer or receiverAnswer, its ExportId in a Resolve,
    /// senderHosted or senderPromise, and the embargo number of a senderLoopback.
    #[inline(always)]
    pub fn of_sender(sent: bool, connection: u32, number: u32) -> TableKey
        ensures { result ≡ id connection sent number }
    {
        TableKey {
            connection,
            ours: sent,
            number,
        }
    }

    /// A number in a message that this vat sent, or else received, where the message's receiver gave the number out:
    /// rpc.capnp's AnswerId in a Return, its ImportId in a Release, importedCap or receiverHosted, and the embargo
    /// number of a receiverLoopback.
    #[inline(always)]
    pub fn of_receiver(sent: bool, connection: u32, number: u32) -> TableKey
        ensures { result ≡ id connection (not sent) number }
    {
        TableKey {
            connection,
            ours: !sent,
            number,
        }
    }
}
