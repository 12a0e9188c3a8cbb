//! Where the explanation stops: which message is to blame.

use crate::both_ends::Stuck;
use crate::vat::Vat;
use std::alloc::AllocError;
use wire_cut::{End, Lack};

/// Which message is to blame.
#[derive(Clone, Copy, Debug, PartialEq, Eq)]
pub enum Blame {
    /// The next one of this end.
    One(End),
    /// Each of both ends waits for what the other sends behind its own.
    Circle,
}

/// What an end's next message, which lacks something now, lacks when all that is left of the peer's file has been received.
fn lack_in_the_end(vat: &mut Vat<'_>, now: Option<Lack>) -> Result<Option<Lack>, AllocError> {
    if now.is_none() {
        return Ok(None);
    }
    vat.notes.log.mute();
    let all = vat.files.peer().messages.len();
    vat.receive_rest(all)?;
    vat.hurried = Some(vat.sent);
    vat.blocked()
}

/// Which message is to blame: the one whose lack stays what it is when all of the other file is received, or else one that
/// lacks something else then. The ends are of no use afterwards.
pub(crate) fn find_blame(
    a: &mut Vat<'_>,
    b: &mut Vat<'_>,
    stuck: Stuck,
) -> Result<Blame, AllocError> {
    let later = (
        lack_in_the_end(a, stuck.of_a)?,
        lack_in_the_end(b, stuck.of_b)?,
    );
    Ok(match later {
        (Some(lack), _) if stuck.of_a == Some(lack) => Blame::One(End::A),
        (_, Some(lack)) if stuck.of_b == Some(lack) => Blame::One(End::B),
        (Some(_), _) => Blame::One(End::A),
        (None, Some(_)) => Blame::One(End::B),
        (None, None) => Blame::Circle,
    })
}

/// Sends and receives what is left of both files at one end, also what the peer hasn't sent.
pub(crate) fn borrow_all(vat: &mut Vat<'_>) -> Result<(), AllocError> {
    let all = vat.files.peer().messages.len();
    let _ = vat.advance(all)?;
    Ok(())
}
