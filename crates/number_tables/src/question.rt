//! What is known of one question.

ghost use Rattle.std.specs.Prelude.{◌≡◌, ◌&&◌};
ghost use Rattle.number_tables.specs.Glue.QuestionTables.{just_opened};

use decoded_records::TableKeys;

/// What is known of a question by its last opening and what came since.
pub struct QuestionState {
    /// The call noted beside its opening.
    pub(crate) call: u64,
    /// Whether its opening is a Call whose results are to be sent elsewhere.
    pub(crate) tail: bool,
    /// Whether its Return has passed.
    pub(crate) returned: bool,
    /// Whether a Return of it has passed that says that no Finish is needed (rpc.capnp, `Return.noFinishNeeded`).
    pub(crate) returned_lightly: bool,
    /// Whether its Finish has passed.
    pub(crate) finished: bool,
    /// Whether a Finish of it with releaseResultCaps true has passed.
    pub(crate) released: bool,
    /// Whether a Return that takes its results has passed.
    pub(crate) taken: bool,
    /// The numbers that its opening introduced.
    pub(crate) asked: TableKeys,
    /// The numbers that its Return introduced.
    pub(crate) brought: TableKeys,
}

impl Drop for QuestionState {
    fn drop(self) {
        let Self {
            call: _,
            tail: _,
            returned: _,
            returned_lightly: _,
            finished: _,
            released: _,
            taken: _,
            asked: _,
            brought: _,
        } = self;
    }
}

impl QuestionState {
    /// What is known of a question right after its opening, which introduced these numbers.
    pub fn opened(call: u64, tail: bool, asked: TableKeys) -> QuestionState
        ensures { result ≡ just_opened call tail asked }
    {
        QuestionState {
            call,
            tail,
            returned: false,
            returned_lightly: false,
            finished: false,
            released: false,
            taken: false,
            asked,
            brought: TableKeys::none(),
        }
    }

    /// Whether both its Return and its Finish have passed, so that it stands for its call no longer.
    pub(crate) fn is_over(&self) -> bool
        ensures { result ≡ (self.now.returned && self.now.finished) }
    {
        self.returned && self.finished
    }
}
