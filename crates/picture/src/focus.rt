//! What the verdict of a case names.

ghost use Rattle.std.specs.Prelude.{◌≡◌};
ghost use Rattle.picture.specs.Rows.{focus_of, mate_by, named_by};

use crate::order::positions::place_at;
use crate::passing::mate::{mate_at, receipt};
use crate::record_place::Place;
use case_book::Case;
use case_report::Report;

/// The records that a verdict names: the one at fault, and the other end of its message where the verdict is on a link.
#[derive(Clone, Copy)]
pub struct Focus {
    /// The record at fault.
    pub at: Option<Place>,
    /// The other end of its message.
    pub mate: Option<Place>,
}

/// The record that a verdict names.
fn named_by(case: &Case, order: &[u32], report: &Report) -> Option<Place>
    ensures { result ≡ named_by case.now order.now report.now }
{
    match report {
        Report::Vat { vat, at, .. } | Report::OutsideVat { vat, at, .. } => Some(Place {
            vat: *vat,
            number: *at as usize,
        }),
        Report::Link {
            connection,
            end,
            message,
        } => receipt(case, *connection, *end, *message as usize),
        Report::OrderStep(step) => place_at(order, *step as usize),
        Report::NoOrder | Report::Yes { .. } => None,
    }
}

/// Where a verdict is on a link, the other end of its message.
fn mate_by(case: &Case, report: &Report) -> Option<Place>
    ensures { result ≡ mate_by case.now report.now }
{
    match report {
        Report::Link {
            connection,
            end,
            message,
        } => { mate_at(case, receipt(case, *connection, *end, *message as usize)?) }
        _ => None,
    }
}

/// What a verdict names.
pub fn focus_of(case: &Case, order: &[u32], report: &Report) -> Focus
    ensures { result ≡ focus_of case.now order.now report.now }
{
    let (at, mate) = (named_by(case, order, report), mate_by(case, report));
    Focus { at, mate }
}
