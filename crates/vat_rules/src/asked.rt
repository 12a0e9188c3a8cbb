//! Which rules a record may break, by its kind.

ghost use Rattle.std.specs.Prelude.{◌≡◌, IsTrue};
ghost use Rattle.std.specs.List.{filter};
ghost use Rattle.vat_rules.specs.Rules.{rules};
ghost use Rattle.vat_rules.specs.Glue.Asked.{own_may_break, bare_may_break, carrying_may_break, IsBare, Suffice};

use crate::rule::Rule;
use crate::rule::Rule::{
    Answer, Closed, Count, Desc, Emb, Goal, Here, QNew, QUse, RecvRef, Ref, Resolve, Result, Vow,
    XUse,
};
use rpc_view::RpcMessage;
use vat_view::DecodedRecord;

/// The rules that a record without a message may break.
fn asked_of_own(event: &DecodedRecord) -> &'static [Rule]
    ensures { result.now ≡ filter (own_may_break event.now) rules }
{
    match event {
        DecodedRecord::Host { .. }
        | DecodedRecord::Vow { .. }
        | DecodedRecord::Make { .. }
        | DecodedRecord::Field { .. } => &[Ref],
        DecodedRecord::Fulfil { .. } | DecodedRecord::Break { .. } => &[Ref, Vow],
        DecodedRecord::Deliver { .. } => &[Ref, Here, Goal],
        DecodedRecord::Answer { .. }
        | DecodedRecord::AnswerBy { .. }
        | DecodedRecord::Fault { .. } => &[Ref, Answer],
        DecodedRecord::Wire { .. } => &[],
    }
}

/// The rules that a message may break that carries no capability.
fn asked_of_bare(message: &RpcMessage) -> &'static [Rule]
    ensures { result.now ≡ filter (bare_may_break message.now) rules }
{
    match message {
        RpcMessage::Bootstrap { .. } => &[Closed, Ref, QNew],
        RpcMessage::Call { .. } => &[Closed, Ref, Here, QNew, QUse, XUse, Goal],
        RpcMessage::Return { .. } => &[Closed, Ref, QUse, Count, Result],
        RpcMessage::Finish { .. } => &[Closed, Ref, QUse, Count],
        RpcMessage::Resolve { .. } => &[Closed, Ref, Resolve],
        RpcMessage::Release { .. } => &[Closed, Ref, XUse, Count],
        RpcMessage::Disembargo { .. } => &[Closed, Ref, QUse, XUse, Emb],
        RpcMessage::Abort => &[Closed, Ref],
    }
}

/// The rules that a message may break that carries capabilities, or beside which references are noted.
fn asked_of_carrying(message: &RpcMessage) -> &'static [Rule]
    ensures { result.now ≡ filter (carrying_may_break message.now) rules }
{
    match message {
        RpcMessage::Call { .. } => &[Closed, Ref, Here, QNew, QUse, XUse, Goal, Desc, RecvRef],
        RpcMessage::Return { .. } => &[Closed, Ref, QUse, XUse, Desc, Count, Result, RecvRef],
        RpcMessage::Resolve { .. } => &[Closed, Ref, QUse, XUse, Desc, Resolve, RecvRef],
        RpcMessage::Bootstrap { .. }
        | RpcMessage::Finish { .. }
        | RpcMessage::Release { .. }
        | RpcMessage::Disembargo { .. }
        | RpcMessage::Abort => &[
            Closed, Ref, Here, QNew, QUse, XUse, Goal, Desc, Count, Result, Resolve, RecvRef, Emb,
        ],
    }
}

/// Whether a record has a message that carries no capability: it notes no reference and has no descriptor.
pub(crate) fn is_bare(event: &DecodedRecord) -> bool
    ensures { IsTrue result → IsBare event.now }
{
    let DecodedRecord::Wire { references, .. } = event else {
        return false;
    };
    references.as_slice().is_empty() && event.descriptors().is_empty()
}

/// The rules that a record may break, in the order in which they are tried. The others it meets, whatever came before
/// it.
pub(crate) fn asked(event: &DecodedRecord) -> &'static [Rule]
    ensures { Suffice event.now result.now }
{
    match event {
        DecodedRecord::Wire { message, .. } => {
            if is_bare(event) {
                asked_of_bare(message)
            } else {
                asked_of_carrying(message)
            }
        }
        _ => asked_of_own(event),
    }
}
