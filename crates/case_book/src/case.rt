//! Cases.

ghost use Rattle.std.specs.Prelude.{◌≡◌, ◌≤◌, None, Some, Decides, IfOk, IfErr, MatchOption, length, map};
ghost use Rattle.std.specs.Arc.{arc_value};
ghost use Rattle.std.specs.List.Sorted.{IsStrictlyIncreasing};
ghost use Rattle.case_book.specs.Case.{vat_limit, link_limit, case_refusal_of, vats_of, connections_of, IsCase, HoldsJust};
ghost use Rattle.case_book.specs.Ties.{tie_fault_of};
ghost use Rattle.case_book.specs.Pieces.{pieces_of, IsForPiece};

use crate::error::CaseError;
use crate::link::Link;
use crate::piece::Piece;
use crate::piece_finding::Finding;
use crate::places::is_same_log;
use crate::rising::{rising_links, rising_logs};
use crate::ties::{TieFault, tie_fault};
use crate::work::{audit_log, compare_ends};
use std::alloc::{AllocError, Global};
use std::marker::Model;
use std::sync::Arc;
use vat_log::VatLog;

/// The logs of some vats, at most [`MAX_VATS`](crate::MAX_VATS), and the links between them, at most [`MAX_LINKS`](crate::MAX_LINKS). Each vat has one log, each
/// connection one link; that they tie up is asked of [`Case::tie_fault`].
#[derive(Debug, Drop)]
pub struct Case {
    logs: Vec<Arc<VatLog>>,
    links: Vec<Link>,
}

/// The same logs once more.
fn copied_logs(alloc: Global, logs: &[Arc<VatLog>]) -> Result<Vec<Arc<VatLog>>, AllocError>
    ensures { IfOk result (λ copies. map arc_value copies.items ≡ map arc_value logs.now) }
{
    let mut copies = Vec::new(alloc);
    for log in logs {
        copies.push(Arc::try_clone(log)?)?;
    }
    Ok(copies)
}

/// Whether two lists have the same logs in the same order.
fn are_same_logs(ones: &[Arc<VatLog>], others: &[Arc<VatLog>]) -> bool
    ensures { Decides result (map arc_value ones.now ≡ map arc_value others.now) }
{
    if ones.len() != others.len() {
        return false;
    }
    for index in 0..ones.len() {
        if !is_same_log(&ones[index], &others[index]) {
            return false;
        }
    }
    true
}

impl Model for Case {
    ghost use Rattle.std.specs.Prelude.{map};
    ghost use Rattle.std.specs.Arc.{arc_value};
    ghost use Rattle.case_book.specs.Case.{Contents, IsCase};

    ghost Value = { Contents };

    ghost view = { λ held. record { logs = map arc_value held.logs.items; links = held.links.items } };

    ghost invariant = { λ held. IsCase (record { logs = map arc_value held.logs.items; links = held.links.items }) };
}

impl Case {
    /// The case of these logs and links, which may come in any order. It takes no memory. Where it is refused, the logs and
    /// links are dropped.
    ///
    /// # Errors
    ///
    /// The first that applies: `TooManyVats` above [`MAX_VATS`](crate::MAX_VATS) logs; `SameVat` with the least vat that has two logs;
    /// `TooManyLinks` above [`MAX_LINKS`](crate::MAX_LINKS) links; `SameLink` with the least connection that has two links.
    pub fn new(logs: Vec<Arc<VatLog>>, links: Vec<Link>) -> Result<Case, CaseError>
        // Where it is refused, and why.
        ensures err { IfErr result
            (λ error. case_refusal_of (map arc_value logs.items) links.items ≡ Some error) }
        ensures ok { IfOk result
            (λ case. case_refusal_of (map arc_value logs.items) links.items ≡ None) }
        // What it holds.
        ensures held { IfOk result (λ case. HoldsJust (map arc_value logs.items) links.items case) }
        ensures rising { IfOk result IsCase }
    {
        let logs = rising_logs(logs)?;
        let links = rising_links(links)?;
        Ok(Case { logs, links })
    }

    /// The logs, by rising vat number.
    pub fn logs(&self) -> &[Arc<VatLog>]
        ensures lent { map arc_value result.now ≡ self.now.logs }
        ensures rising { IsStrictlyIncreasing (vats_of (map arc_value result.now)) }
        ensures few { length result.now ≤ vat_limit }
    {
        &self.logs
    }

    /// The links, by rising connection.
    pub fn links(&self) -> &[Link]
        ensures lent { result.now ≡ self.now.links }
        ensures rising { IsStrictlyIncreasing (connections_of result.now) }
        ensures few { length result.now ≤ link_limit }
    {
        &self.links
    }

    /// Why the logs and links don't tie up, if they don't. A connection for which a log is missing comes before any whose
    /// two ends are one vat; of each kind the least connection is named. It takes no memory.
    pub fn tie_fault(&self) -> Option<TieFault>
        ensures { result ≡ tie_fault_of self.now }
    {
        let Case { logs, links } = self;
        tie_fault(logs, links)
    }

    /// Whether two cases have the same logs and links. Logs are compared byte for byte: a log has one spelling. It takes no
    /// memory.
    pub fn is_same(&self, other: &Case) -> bool
        ensures { Decides result (self.now ≡ other.now) }
    {
        let Case { logs, links } = self;
        are_same_logs(logs, other.logs()) && links.as_slice() == other.links()
    }

    /// A case with the same logs and links. Only its lists are made anew: a log's bytes aren't copied.
    ///
    /// # Errors
    ///
    /// Out of memory.
    pub fn copy(&self, alloc: Global) -> Result<Case, AllocError>
        ensures { IfOk result (λ case. case ≡ self.now) }
    {
        let Case { logs, links } = self;
        Ok(Case {
            logs: copied_logs(alloc, logs)?,
            links: Vec::from_slice(alloc, links)?,
        })
    }

    /// Does the work of a piece: audits its log within the default limits, or compares the ends of its link. `None` where
    /// the case has no such piece.
    ///
    /// # Errors
    ///
    /// Out of memory.
    pub fn find(&self, alloc: Global, piece: Piece) -> Result<Option<Finding>, AllocError>
        requires { tie_fault_of self.now ≡ None }
        ensures { IfOk result
            (λ found. MatchOption found (length (pieces_of self.now) ≤ piece.number)
            (λ finding. IsForPiece self.now finding piece.number)) }
    {
        let Case { logs, links } = self;
        let number = piece.number as usize;
        if number < logs.len() {
            return Ok(Some(Finding::Vat(audit_log(alloc, &logs[number])?)));
        }
        let at = number - logs.len();
        if at < links.len() {
            return Ok(Some(Finding::Link(compare_ends(logs, &links[at])?)));
        }
        Ok(None)
    }
}
