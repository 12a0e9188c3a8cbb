//! Walks to views of a kind.

ghost use Rattle.std.specs.Prelude.{◌≡◌, ◌↔◌, IsTrue, option_map};
ghost use Rattle.decoded_records.specs.Past.{is};
ghost use Rattle.decoded_records.specs.Borrowed.{as_view};
ghost use Rattle.vat_view.specs.Glue.Tables.{bound_at};
ghost use Rattle.vat_view.specs.Connections.{is_own, is_another};
ghost use Rattle.vat_view.specs.Glue.TurnTables.{settled_at, turn_by, HaveAhead};
ghost use Rattle.vat_view.specs.Glue.ConnectionTables.{over_by, is_elsewhere_by, brought_back_by, sought_by, ReachesOne};

use crate::tables::arrivals::Arrivals;
use crate::tables::connections::Connections;
use crate::tables::references::BoundReferences;
use crate::tables::turns::settlements::Settlements;
use crate::walks::hops::{further, most_turns, turned_to};
use decoded_records::BorrowedView;
use rpc_view::Edition;

/// Which views a walk seeks.
#[derive(Clone, Copy)]
pub(crate) enum Sought {
    /// Those that are reached over this connection.
    Over(u32),
    /// Those that are elsewhere than over this connection, by the edition of the log.
    Elsewhere(u32, Edition),
    /// Those that came back over this connection.
    Back(u32),
}

/// The connection over which a view is reached.
fn reached_over(
    arrivals: &Arrivals,
    connections: &Connections,
    view: BorrowedView<'_>,
) -> Option<u32>
    ensures { result ≡ over_by arrivals.now connections.now (as_view view.entry) }
{
    match view {
        BorrowedView::Object(_) | BorrowedView::Promise(_) => None,
        BorrowedView::Field(call, _) => connections.asked_on(call),
        BorrowedView::Import(number, place) => arrivals.over(number, place),
    }
}

/// Whether a view is an own object or promise.
fn is_own(view: BorrowedView<'_>) -> bool
    ensures { result ≡ is_own (as_view view.entry) }
{
    match view {
        BorrowedView::Object(_) | BorrowedView::Promise(_) => true,
        BorrowedView::Field(_, _) | BorrowedView::Import(_, _) => false,
    }
}

/// Whether there is a connection, and it is this one.
fn is_this(connection: u32, over: Option<u32>) -> bool
    ensures { result ≡ is connection over }
{
    match over {
        Some(other) => other == connection,
        None => false,
    }
}

/// Whether there is a connection, and it is another than this one.
fn is_another(connection: u32, over: Option<u32>) -> bool
    ensures { result ≡ is_another connection over }
{
    match over {
        Some(other) => other != connection,
        None => false,
    }
}

/// Whether a view, which is reached over a connection or none, is elsewhere than over this one. In a log of the later
/// edition it only isn't reached over this one.
fn is_elsewhere(
    edition: Edition,
    connection: u32,
    view: BorrowedView<'_>,
    over: Option<u32>,
) -> bool
    ensures { result ≡ is_elsewhere_by edition connection (as_view view.entry) over }
{
    match edition {
        Edition::First => is_own(view) || is_another(connection, over),
        Edition::Later => !is_this(connection, over),
    }
}

/// The number of the record that settled a view, if one did.
fn settled_at(turns: &Settlements, view: BorrowedView<'_>) -> Option<usize>
    ensures { result ≡ option_map (λ s. s.0) (settled_at turns.now (as_view view.entry)) }
{
    match view {
        BorrowedView::Object(_) => None,
        BorrowedView::Promise(promise) => turns.of_promise(promise),
        BorrowedView::Field(call, _) => turns.of_call(call),
        BorrowedView::Import(number, place) => turns.of_import(number, place),
    }
}

/// Whether a view turned, and what turned it brought it back.
fn was_brought_back(
    turns: &Settlements,
    bound: &BoundReferences,
    arrivals: &Arrivals,
    view: BorrowedView<'_>,
) -> bool
    ensures { result
        ≡ brought_back_by turns.now (bound_at bound.now) arrivals.now (as_view view.entry) }
{
    match settled_at(turns, view) {
        Some(number) => {
            turned_to(turns, bound, view).is_some() && arrivals.brings_back(number, view.path())
        }
        None => false,
    }
}

/// Whether a view is sought.
fn is_sought(
    turns: &Settlements,
    bound: &BoundReferences,
    arrivals: &Arrivals,
    connections: &Connections,
    sought: Sought,
    view: BorrowedView<'_>,
) -> bool
    ensures { result ≡ sought_by
        turns.now (bound_at bound.now) arrivals.now connections.now sought (as_view view.entry) }
{
    let over = reached_over(arrivals, connections, view);
    match sought {
        Sought::Over(connection) => is_this(connection, over),
        Sought::Elsewhere(connection, edition) => is_elsewhere(edition, connection, view, over),
        Sought::Back(connection) => {
            is_this(connection, over) && was_brought_back(turns, bound, arrivals, view)
        }
    }
}

/// Whether a view leads, by 0 or more turns, to one that is sought. A walk makes at most as many turns as one that doesn't
/// go in a circle, so that it meets each view of a circle; beside it a walk hops, which may pass a view by.
pub(crate) fn leads_to(
    turns: &Settlements,
    bound: &BoundReferences,
    arrivals: &Arrivals,
    connections: &Connections,
    from: BorrowedView<'_>,
    sought: Sought,
) -> bool
    requires { HaveAhead turns.now bound.now }
    ensures { IsTrue result
        ↔ ReachesOne (turn_by turns.now (bound_at bound.now))
        (sought_by turns.now (bound_at bound.now) arrivals.now connections.now sought) (as_view from.entry) }
{
    let mut view = from;
    let mut far = from;
    for _made in 0..most_turns(turns, bound) {
        if is_sought(turns, bound, arrivals, connections, sought, far)
            || is_sought(turns, bound, arrivals, connections, sought, view)
        {
            return true;
        }
        match turned_to(turns, bound, view) {
            Some(next) => view = next,
            None => return false,
        }
        far = further(turns, bound, far);
    }
    is_sought(turns, bound, arrivals, connections, sought, view)
}
