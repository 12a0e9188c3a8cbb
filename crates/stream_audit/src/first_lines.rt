//! The first log or link that isn't good.

ghost use Rattle.std.specs.Prelude.{◌≡◌, Some, IfOk, MatchOption};
ghost use Rattle.cap_reader.specs.Defaults.{default_limits};
ghost use Rattle.audit_core.specs.Glue.{IsBadFinding, IsFirstNot};
ghost use Rattle.audit_core.specs.Report.{HoldsOfEach, IsGoodFinding};
ghost use Rattle.lock_step.specs.Taking.{Taken};
ghost use Rattle.stream_audit.specs.Glue.{IsBrokenBy, IsGoodLinkBy};

use audit_core::count_in_log;
use case_book::Link;
use case_report::Report;
use link_check::LinkOutcome;
use lock_step::CaseTurns;
use log_lane::SlimLog;
use std::alloc::AllocError;

/// The line of the first log that isn't good, if there is one.
pub(crate) fn log_line(logs: &[SlimLog]) -> Option<Report>
    ensures within { HoldsOfEach (λ found. found.limits ≡ default_limits) logs.now }
    ensures line { MatchOption result (HoldsOfEach IsGoodFinding logs.now)
        (λ line. IsFirstNot IsGoodFinding (IsBadFinding line) logs.now) }
{
    let mut line = None;
    for log in logs {
        let found = count_in_log(log.finding());
        if line.is_none() {
            line = found.err();
        }
    }
    line
}

/// The line of a link, where it isn't good.
fn line_of_link(link: &Link, turns: &CaseTurns) -> Result<Option<Report>, AllocError>
    ensures { IfOk result (λ line. (taken : Taken) → turns.now ≡ Some taken → MatchOption line
        (IsGoodLinkBy taken.all link.now) (λ line. IsBrokenBy taken.all line link.now)) }
{
    match turns.outcome(link) {
        None => Err(AllocError),
        Some(LinkOutcome::Good { .. }) => Ok(None),
        Some(LinkOutcome::Broken { end, message }) => Ok(Some(Report::Link {
            connection: link.connection,
            end,
            message,
        })),
    }
}

/// The line of the first link that isn't good, if there is one.
pub(crate) fn link_line(links: &[Link], turns: &CaseTurns) -> Result<Option<Report>, AllocError>
    ensures { IfOk result (λ line. (taken : Taken) → turns.now ≡ Some taken → MatchOption line
        (HoldsOfEach (IsGoodLinkBy taken.all) links.now)
        (λ line. IsFirstNot (IsGoodLinkBy taken.all) (IsBrokenBy taken.all line) links.now)) }
{
    for link in links {
        let line = line_of_link(link, turns)?;
        if line.is_some() {
            return Ok(line);
        }
    }
    Ok(None)
}
