//! What a log adds to a case, as its audit found it.

ghost use Rattle.std.specs.Prelude.{◌≡◌, MatchResult};
ghost use Rattle.audit_core.specs.Glue.{IsBadFinding, delivered_by};
ghost use Rattle.audit_core.specs.Report.{IsGoodFinding};

use case_report::{Breach, Report};
use vat_rules::{SlimFinding, SlimOutcome};

/// How many calls a good log delivers; or the line of a case of which it is the first log that isn't good.
pub fn count_in_log(found: &SlimFinding) -> Result<u64, Report>
    ensures { MatchResult result
        (λ delivered. IsGoodFinding found.now × (delivered ≡ delivered_by found.now))
        (λ line. IsBadFinding line found.now) }
{
    let vat = found.vat();
    match found.outcome() {
        SlimOutcome::Good(story) => Ok(story.delivered()),
        SlimOutcome::Broken { at, rule } => Err(Report::Vat {
            vat,
            at: *at,
            rule: Breach::Rule(*rule),
        }),
        SlimOutcome::Outside { at, why } => Err(Report::OutsideVat {
            vat,
            at: *at,
            why: *why,
        }),
    }
}
