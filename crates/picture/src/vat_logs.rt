//! The logs of vats.

ghost use Rattle.std.specs.Prelude.{◌≡◌, ◌≤◌, ◌+◌, length, map, slice_get};
ghost use Rattle.std.specs.Arc.{arc_value};
ghost use Rattle.std.specs.Option.{option_copied};
ghost use Rattle.case_book.specs.Case.{vat_limit};
ghost use Rattle.picture.specs.Places.{column_of, log_by_vat};
ghost use Rattle.picture.specs.Rows.{body_at};

use crate::record_place::Place;
use std::sync::Arc;
use vat_log::{Body, VatLog};

/// The log of a vat.
pub fn log_of(logs: &[Arc<VatLog>], vat: u32) -> Option<&VatLog>
    ensures { option_copied result ≡ log_by_vat (map arc_value logs.now) vat }
{
    for log in logs {
        if log.vat() == vat {
            return Some(log);
        }
    }
    None
}

/// The column of a vat: how many logs of smaller vats there are.
pub fn column_of(logs: &[Arc<VatLog>], vat: u32) -> u32
    requires { length logs.now ≤ vat_limit }
    ensures { result ≡ column_of (map arc_value logs.now) vat }
{
    let mut column = 0;
    for log in logs {
        if log.vat() < vat {
            column += 1;
        }
    }
    column
}

/// What the record of this number says.
pub fn body_in(log: &VatLog, number: usize) -> Option<&Body>
    ensures { option_copied result ≡ slice_get log.now.records number }
{
    Some(log.get(number)?.body())
}

/// What the record of this place says.
pub fn body_at(logs: &[Arc<VatLog>], place: Place) -> Option<&Body>
    ensures { option_copied result ≡ body_at (map arc_value logs.now) place }
{
    body_in(log_of(logs, place.vat)?, place.number)
}
