//! What a message lacks, in words.

use past_records::NoteText;
use wire_cut::Lack;

/// What a message lacks of questions, as a sentence about one of this number.
fn question_sentence(lack: Lack) -> (&'static str, u32) {
    match lack {
        Lack::QuestionFree(question) => (
            "the Return and the Finish of question #, or its Return with noFinishNeeded",
            question,
        ),
        Lack::OwnQuestion(question) => ("an own question # without a Finish", question),
        Lack::QuestionReceived(question) => ("a received question # without a Return", question),
        Lack::CallAnswered(question) => (
            "the results of question #: its call reaches an object, or what it was passed on to returns",
            question,
        ),
        Lack::ResultsAgree(question) => (
            "results of question # that agree with what was told of them",
            question,
        ),
        Lack::AskedForResults(question) => (
            "a question # whose results are to come back: it has sendResultsTo yourself",
            question,
        ),
        Lack::AskedYourself(question) => ("a question # with sendResultsTo yourself", question),
        Lack::FinishReceived(question) => ("the Finish of question #", question),
        Lack::QuestionTakeable(question) => (
            "an own question # with sendResultsTo yourself, without a Finish, whose results no Return took",
            question,
        ),
        _ => ("something else", 0),
    }
}

/// What a message lacks, as a sentence about what has this number.
fn lack_sentence(lack: Lack) -> (&'static str, u32) {
    match lack {
        Lack::ImportHeld(id) => ("import # in life", id),
        Lack::ImportHeldOften(id, _) => ("import #, held # times", id),
        Lack::ExportFree(id) => (
            "export # released, or in life as it was before and without a Resolve",
            id,
        ),
        Lack::PromiseOpen(id) => ("export #, a promise in life without a Resolve", id),
        Lack::PromiseLeads(id) => (
            "an export # that became what its Resolve names: it was passed on while it was open",
            id,
        ),
        Lack::LoopbackFree(id) => ("the echo of loopback #", id),
        Lack::LeadsElsewhere(id) => (
            "a target of loopback # that leads to what isn't reached over this connection",
            id,
        ),
        Lack::LoopbackPending(id) => ("a received loopback # without an echo", id),
        Lack::LoopbackLeads(id) => ("a target of loopback # that led to where the echo goes", id),
        Lack::CallsGone(id) => (
            "the end of the calls that came before loopback # for its target",
            id,
        ),
        Lack::HandedOnCall(id) => ("the call that it hands on", id),
        lack => question_sentence(lack),
    }
}

/// Appends the end of the note of a message: what it lacks.
pub(super) fn put_lacking(text: &mut NoteText, message: u64, lack: Lack) {
    if lack == Lack::NotAborted {
        let words = "# comes behind an abort, which is the last message\n";
        return text.tell(words, &[message]);
    }
    let (sentence, number) = lack_sentence(lack);
    let count = match lack {
        Lack::ImportHeldOften(_, count) => count,
        _ => 0,
    };
    text.tell("# lacks ", &[message]);
    text.tell(sentence, &[u64::from(number), count]);
    text.words("\n");
}

/// Whether more from the other end could bring what a message lacks.
pub(super) fn may_come(lack: Lack) -> bool {
    !matches!(
        lack,
        Lack::OwnQuestion(_)
            | Lack::PromiseOpen(_)
            | Lack::ResultsAgree(_)
            | Lack::AskedForResults(_)
            | Lack::AskedYourself(_)
            | Lack::QuestionTakeable(_)
            | Lack::NotAborted
    )
}
