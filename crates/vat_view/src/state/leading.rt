//! Where views lead.

ghost use Rattle.std.specs.Prelude.{◌≡◌, ◌<◌, ◌↔◌, Decides, IsTrue, MatchOption, option_map};
ghost use Rattle.decoded_records.specs.declared.view.View.{View};
ghost use Rattle.vat_view.specs.Walks.{next, stays, turned_to, Leads, LeadsByTurns, AreOne, Became, IsEnd};
ghost use Rattle.vat_view.specs.Connections.{LeadsOver, LeadsElsewhere, CameBack};
ghost use Rattle.decoded_records.specs.Borrowed.{as_view};

use crate::state::VatState;
use crate::walks::hops;
use crate::walks::reachable::{Sought, leads_to};
use decoded_records::{BorrowedView, View};
use rpc_view::Edition;

/// What can be asked of walks from view to view.
impl VatState {
    /// Whether a view goes on nowhere: it has neither turned nor stopped. It takes no memory.
    pub fn stays(&self, view: &View) -> bool
        ensures { IsTrue result ↔ (next self.now view.now ≡ stays) }
    {
        hops::stays(&self.tables.turns, BorrowedView::of(view))
    }

    /// The view to which a view turns, if it does. It takes no memory.
    pub fn turned_to<'a>(&'a self, view: &'a View) -> Option<BorrowedView<'a>>
        ensures { option_map as_view result ≡ turned_to (next self.now view.now) }
    {
        hops::turned_to(
            &self.tables.turns,
            &self.tables.bound,
            BorrowedView::of(view),
        )
    }

    /// Whether a view leads to another, by 0 or more turns. Each of its walks, four at most, comes to at most as many views
    /// as one more than the references bound, times one more than the calls that were answered by others. It takes no
    /// memory.
    pub fn leads(&self, from: &View, to: &View) -> bool
        ensures { IsTrue result ↔ Leads self.now from.now to.now }
    {
        hops::leads(
            &self.tables.turns,
            &self.tables.bound,
            BorrowedView::of(from),
            BorrowedView::of(to),
        )
    }

    /// Whether a view leads to another by 1 or more turns; a view of a circle leads so to itself. It takes no memory.
    pub fn leads_by_turns(&self, from: &View, to: &View) -> bool
        ensures { IsTrue result ↔ LeadsByTurns self.now from.now to.now }
    {
        hops::leads_by_turns(
            &self.tables.turns,
            &self.tables.bound,
            BorrowedView::of(from),
            BorrowedView::of(to),
        )
    }

    /// Whether two views are one: both lead, by 0 or more turns, to a common view. It walks twice as often as
    /// [`VatState::leads`] at most, and takes no memory.
    pub fn are_one(&self, a: &View, b: &View) -> bool
        ensures { IsTrue result ↔ AreOne self.now a.now b.now }
    {
        hops::are_one(
            &self.tables.turns,
            &self.tables.bound,
            BorrowedView::of(a),
            BorrowedView::of(b),
        )
    }

    /// Whether a view became another: it turned, and is one with it. It takes no memory.
    pub fn became(&self, from: &View, to: &View) -> bool
        ensures { IsTrue result ↔ Became self.now from.now to.now }
    {
        self.turned_to(from).is_some() && self.are_one(from, to)
    }

    /// The end of a view: the view to which it leads and which goes on nowhere. It has none where its walk stops or
    /// goes in a circle. It takes no memory.
    pub fn end<'a>(&'a self, view: &'a View) -> Option<BorrowedView<'a>>
        ensures { MatchOption result ((end : View) → IsEnd self.now view.now end → ⊥)
            (λ end. IsEnd self.now view.now (as_view end)) }
    {
        let view = BorrowedView::of(view);
        hops::end(&self.tables.turns, &self.tables.bound, view)
    }

    /// Whether a view leads, by 0 or more turns, to one that is reached over this connection: an import that came in
    /// over it, or a field of a call that this vat asked on it. It takes no memory.
    pub fn leads_over(&self, from: &View, connection: u32) -> bool
        ensures { Decides result (LeadsOver self.now from.now connection) }
    {
        let sought = Sought::Over(connection);
        leads_to(
            &self.tables.turns,
            &self.tables.bound,
            &self.tables.arrivals,
            &self.tables.connections,
            BorrowedView::of(from),
            sought,
        )
    }

    /// Whether a view leads, by 0 or more turns, to one that is elsewhere than over this connection: to an own object or
    /// promise, or to one that is reached over another connection. In a log of the later edition every view is elsewhere
    /// that isn't reached over this connection, so the field of a call that was never asked is too (rpc.capnp, the
    /// comments of `Disembargo`). It takes no memory.
    #[inline]
    pub fn leads_elsewhere(&self, from: &View, connection: u32, edition: Edition) -> bool
        ensures { Decides result (LeadsElsewhere edition self.now from.now connection) }
    {
        let sought = Sought::Elsewhere(connection, edition);
        leads_to(
            &self.tables.turns,
            &self.tables.bound,
            &self.tables.arrivals,
            &self.tables.connections,
            BorrowedView::of(from),
            sought,
        )
    }

    /// Whether a view leads, by 0 or more turns, to one that came back over this connection: it is reached over it, and the
    /// message that turned it turned it to what is this vat's own (rpc.capnp, the comments of `Disembargo`,
    /// `CapDescriptor.receiverHosted` and `receiverAnswer`). It takes no memory.
    pub fn came_back(&self, from: &View, connection: u32) -> bool
        ensures { Decides result (CameBack self.now from.now connection) }
    {
        leads_to(
            &self.tables.turns,
            &self.tables.bound,
            &self.tables.arrivals,
            &self.tables.connections,
            BorrowedView::of(from),
            Sought::Back(connection),
        )
    }
}
