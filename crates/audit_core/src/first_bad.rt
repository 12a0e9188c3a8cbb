//! What findings say of vats and of links.

ghost use Rattle.std.specs.Prelude.{MatchOption};
ghost use Rattle.audit_core.specs.Report.{AreGoodEnds, HoldsOfEach, IsGoodFinding};
ghost use Rattle.audit_core.specs.Glue.{IsFirstNot, IsBadFinding, AreBadEnds};

use case_report::{Breach, Report};
use link_check::{LinkFinding, LinkOutcome};
use vat_rules::{Outcome, VatFinding};

/// The line of the first finding that isn't good, of these.
pub fn vat_line(vats: &[VatFinding]) -> Option<Report>
    ensures { MatchOption result (HoldsOfEach IsGoodFinding vats.now)
        (λ answer. IsFirstNot IsGoodFinding (IsBadFinding answer) vats.now) }
{
    for found in vats {
        let vat = found.log().vat();
        match found.outcome() {
            Outcome::Good(_) => {}
            Outcome::Broken { at, rule } => {
                return Some(Report::Vat {
                    vat,
                    at: *at,
                    rule: Breach::Rule(*rule),
                });
            }
            Outcome::Outside { at, why } => {
                return Some(Report::OutsideVat {
                    vat,
                    at: *at,
                    why: *why,
                });
            }
        }
    }
    None
}

/// The line of the first link that isn't good, of these.
pub fn link_line(links: &[LinkFinding]) -> Option<Report>
    ensures { MatchOption result (HoldsOfEach AreGoodEnds links.now)
        (λ answer. IsFirstNot AreGoodEnds (AreBadEnds answer) links.now) }
{
    for found in links {
        if let LinkOutcome::Broken { end, message } = found.outcome() {
            return Some(Report::Link {
                connection: found.connection(),
                end,
                message,
            });
        }
    }
    None
}
