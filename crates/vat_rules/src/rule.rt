//! The rules, by name.

/// The rules that a record may break, in the order in which they are tried. What each says, and by which comment of
/// rpc.capnp, stands in the files that `specs/Rules.antt` names; docs/RULES.md has an example for each.
#[derive(Clone, Copy, Debug, PartialEq, Eq)]
pub enum Rule {
    /// Nothing is sent on a connection that this vat aborted, nor, in logs of versions 1 and 2, on one that its peer aborted.
    Closed,
    /// Numbers newly bound are unused and distinct, the others are bound, and a call is noted just beside a Bootstrap or
    /// Call.
    Ref,
    /// A promise that is fulfilled or broken has had neither.
    Vow,
    /// A call that is delivered or sent on is at the vat.
    Here,
    /// A question number that is opened is free.
    QNew,
    /// A question that is used is opened and has no Finish yet; one that is returned is opened and has no Return yet; and
    /// one whose results are taken was asked so that they go elsewhere, and no Return took them yet.
    QUse,
    /// An export or import number that is used is in life.
    XUse,
    /// A call goes where its goal leads, and by its own interface and method.
    Goal,
    /// A call that is answered or faulted may be, and has no answer or fault yet; no path stands twice.
    Answer,
    /// A sent message notes one reference for each descriptor that isn't none, and it leads to what that stands for; a
    /// number in life keeps its kind, and isn't introduced after its Resolve.
    Desc,
    /// Nothing gives back more than is held.
    Count,
    /// Results that are sent are the call's known results, or those of the call by which it was answered are taken; they
    /// go elsewhere where they were asked for so, and a call is canceled after its Finish alone.
    Result,
    /// A promise is resolved once, to what it leads to.
    Resolve,
    /// A received message notes one reference for each descriptor that isn't none.
    RecvRef,
    /// An echo is asked for where a call may come back, and sent once nothing holds it up.
    Emb,
}
