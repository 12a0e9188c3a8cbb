//! What a message lacks before it may be sent.

use crate::end::End;

/// What a message lacks: it may not be sent before this came about at its sender. Numbers are those of the frame.
#[derive(Clone, Copy, Debug, PartialEq, Eq)]
pub enum Lack {
    /// The question of this number was returned and finished, or returned with noFinishNeeded.
    QuestionFree(u32),
    /// An own question of this number is open: it was asked, and not finished.
    OwnQuestion(u32),
    /// The import of this number is held.
    ImportHeld(u32),
    /// The import of this number is held so often.
    ImportHeldOften(u32, u64),
    /// The export of this number is out of life, or a promise, or hosted, as it was before, and without a Resolve.
    ExportFree(u32),
    /// The export of this number is a promise in life, without a Resolve.
    PromiseOpen(u32),
    /// What the promise of this number stands for became what its Resolve names.
    PromiseLeads(u32),
    /// The question of this number was received, and isn't returned.
    QuestionReceived(u32),
    /// The call of this received question was delivered, or it was passed on and its own Return was received.
    CallAnswered(u32),
    /// What is sent at each path of the results is what was told of them.
    ResultsAgree(u32),
    /// The received question was asked for its results to be sent back, not with sendResultsTo yourself.
    AskedForResults(u32),
    /// The received question was asked with sendResultsTo yourself.
    AskedYourself(u32),
    /// The Finish of this received question.
    FinishReceived(u32),
    /// The own question of this number was asked with sendResultsTo yourself, isn't finished, and was taken by no Return.
    QuestionTakeable(u32),
    /// No senderLoopback of this number waits for its echo.
    LoopbackFree(u32),
    /// The target of the senderLoopback of this number leads to something that isn't reached over this connection.
    LeadsElsewhere(u32),
    /// A senderLoopback of this number was received, and waits for its echo.
    LoopbackPending(u32),
    /// The target of the senderLoopback of this number led to where its echo goes.
    LoopbackLeads(u32),
    /// No call that came before the senderLoopback of this number, for the same target, is still at its vat.
    CallsGone(u32),
    /// The call that this one hands on, or passes on, was received.
    HandedOnCall(u32),
    /// No abort was sent before. Nothing helps.
    NotAborted,
}

/// A message that waits, and what it lacks.
#[derive(Clone, Copy, Debug, PartialEq, Eq)]
pub struct Waiting {
    /// Who is to send it.
    pub end: End,
    /// Its number among the frames of its file, counted from 0.
    pub message: u64,
    /// What it lacks.
    pub lack: Lack,
}
