//! What is found of a link, with the link.

ghost use Rattle.std.specs.Prelude.{◌≡◌, ◌≢◌, ◌<◌, IfOk};
ghost use Rattle.std.specs.Arc.{arc_value};
ghost use Rattle.link_check.specs.Prefix.{IsOutcome, ends_of};

use crate::connection_frames::{count_received, count_sent, find_fault};
use crate::link_outcome::LinkOutcome;
use std::alloc::AllocError;
use std::marker::Model;
use std::sync::Arc;
use vat_log::VatLog;

/// A connection, the logs of its two ends, and what is found of them, which is what the definition says of them. Contracts
/// see it as its ends.
#[derive(Debug)]
pub struct LinkFinding {
    connection: u32,
    first: Arc<VatLog>,
    second: Arc<VatLog>,
    outcome: LinkOutcome,
}

impl Drop for LinkFinding {
    fn drop(self) {
        let Self {
            connection: _,
            first: _,
            second: _,
            outcome: _,
        } = self;
    }
}

impl Model for LinkFinding {
    ghost use Rattle.std.specs.Arc.{arc_value};
    ghost use Rattle.link_check.specs.Prefix.{Ends, IsFinding};

    ghost Value = { Ends };

    ghost view = { λ link. record {
      connection = link.connection;
      first = arc_value link.first;
      second = arc_value link.second;
    } };

    ghost invariant = { λ link. IsFinding (record {
      connection = link.connection;
      first = arc_value link.first;
      second = arc_value link.second;
    }) link.outcome };
}

impl LinkFinding {
    /// The connection's number, the same in both logs.
    pub fn connection(&self) -> u32
        ensures { result ≡ self.now.connection }
    {
        self.connection
    }

    /// The log of the end with the smaller vat number.
    pub fn first(&self) -> &Arc<VatLog>
        ensures log { arc_value result.now ≡ self.now.first }
        ensures ordered { self.now.first.vat < self.now.second.vat }
    {
        &self.first
    }

    /// The log of the end with the greater vat number.
    pub fn second(&self) -> &Arc<VatLog>
        ensures { arc_value result.now ≡ self.now.second }
    {
        &self.second
    }

    /// What is found: what the two logs say of the connection.
    pub fn outcome(&self) -> LinkOutcome
        // What it means.
        ensures meaning { IsOutcome self.now result }
        // A link has one outcome.
        ensures only { (other : LinkOutcome) → IsOutcome self.now other → other ≡ result }
    {
        self.outcome
    }
}

/// What the logs of two ends say of the connection.
fn outcome_between(connection: u32, first: &VatLog, second: &VatLog) -> LinkOutcome
    ensures { IsOutcome (record {
      connection = connection;
      first = first.now;
      second = second.now;
    }) result }
{
    if let Some(message) = find_fault(first, second, connection) {
        return LinkOutcome::Broken {
            end: first.vat(),
            message,
        };
    }
    if let Some(message) = find_fault(second, first, connection) {
        return LinkOutcome::Broken {
            end: second.vat(),
            message,
        };
    }
    let received = [
        count_received(first, connection),
        count_received(second, connection),
    ];
    let sent = [
        count_sent(first, connection),
        count_sent(second, connection),
    ];
    let delivered = received[0] + received[1];
    let in_flight = (sent[0] - received[1]) + (sent[1] - received[0]);
    LinkOutcome::Good {
        delivered,
        in_flight,
    }
}

/// What is found, where the first log has the smaller vat number.
fn in_order(
    connection: u32,
    first: &Arc<VatLog>,
    second: &Arc<VatLog>,
) -> Result<LinkFinding, AllocError>
    requires { (arc_value first.now).vat < (arc_value second.now).vat }
    ensures { IfOk result
        (λ link. link ≡ record {
          connection = connection;
          first = arc_value first.now;
          second = arc_value second.now;
        }) }
{
    let outcome = outcome_between(connection, first, second);
    Ok(LinkFinding {
        connection,
        first: Arc::try_clone(first)?,
        second: Arc::try_clone(second)?,
        outcome,
    })
}

/// What is found of a connection between the vats of two logs, in either order. The two logs are of different vats. The end
/// with the smaller vat number is tried first, then the least message. The only error is that memory ran out, where a log has
/// too many owners to count.
pub fn check_link(
    connection: u32,
    a: &Arc<VatLog>,
    b: &Arc<VatLog>,
) -> Result<LinkFinding, AllocError>
    requires { (arc_value a.now).vat ≢ (arc_value b.now).vat }
    ensures { IfOk result (λ link. link ≡ ends_of connection (arc_value a.now) (arc_value b.now)) }
{
    if a.vat() < b.vat() {
        in_order(connection, a, b)
    } else {
        in_order(connection, b, a)
    }
}
