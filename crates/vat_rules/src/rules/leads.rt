//! Where views lead that may be missing, and which are one.

ghost use Rattle.std.specs.Prelude.{Decides};
ghost use Rattle.std.specs.Option.{option_copied};
ghost use Rattle.vat_rules.specs.Ways.{LeadsTo, LeadsOnTo, AreOneThere, BecameThere, GoesFor, WentOn};

use rpc_view::Edition;
use vat_view::{VatState, View};

/// Whether there are both views, and the one leads to the other.
#[inline]
pub(crate) fn leads_to(state: &VatState, from: Option<&View>, to: Option<&View>) -> bool
    ensures { Decides result
        (LeadsTo state.now (option_copied from.entry) (option_copied to.entry)) }
{
    match (from, to) {
        (Some(from), Some(to)) => state.leads(from, to),
        _ => false,
    }
}

/// Whether there are both views, and the one leads to the other by 1 or more turns.
#[inline]
pub(crate) fn leads_on_to(state: &VatState, from: Option<&View>, to: Option<&View>) -> bool
    ensures { Decides result
        (LeadsOnTo state.now (option_copied from.entry) (option_copied to.entry)) }
{
    match (from, to) {
        (Some(from), Some(to)) => state.leads_by_turns(from, to),
        _ => false,
    }
}

/// Whether there are both views, and both are one.
fn are_one(state: &VatState, from: Option<&View>, to: Option<&View>) -> bool
    ensures { Decides result
        (AreOneThere state.now (option_copied from.entry) (option_copied to.entry)) }
{
    match (from, to) {
        (Some(from), Some(to)) => state.are_one(from, to),
        _ => false,
    }
}

/// Whether there are both views, and the one became the other.
pub(crate) fn became(state: &VatState, from: Option<&View>, to: Option<&View>) -> bool
    ensures { Decides result
        (BecameThere state.now (option_copied from.entry) (option_copied to.entry)) }
{
    match (from, to) {
        (Some(from), Some(to)) => state.became(from, to),
        _ => false,
    }
}

/// Whether the one view goes for the other, as the edition has it: it leads there, or both are one.
pub(crate) fn goes_for(
    edition: Edition,
    state: &VatState,
    from: Option<&View>,
    to: Option<&View>,
) -> bool
    ensures { Decides result
        (GoesFor edition state.now (option_copied from.entry) (option_copied to.entry)) }
{
    match edition {
        Edition::First => leads_to(state, from, to),
        Edition::Later => are_one(state, from, to),
    }
}

/// Whether the one view went on to the other, which is given by a number of the sender's own or not, as the edition has it.
pub(crate) fn went_on(
    edition: Edition,
    own: bool,
    state: &VatState,
    from: Option<&View>,
    to: Option<&View>,
) -> bool
    ensures { Decides result
        (WentOn edition own state.now (option_copied from.entry) (option_copied to.entry)) }
{
    match (edition, own) {
        (Edition::Later, true) => became(state, from, to),
        _ => leads_on_to(state, from, to),
    }
}
