//! How wide a picture is.

ghost use Rattle.std.specs.Prelude.{◌≡◌, ◌≤◌, IfOk};
ghost use Rattle.std.specs.Option.{option_copied};
ghost use Rattle.picture.specs.Rows.{greater_of};
ghost use Rattle.picture.specs.Picture.{farthest, row_end, sentence_end, width_of};

use crate::row::{Row, label_of};
use crate::svg::points::x_of;
use crate::window::least_of;
use std::alloc::{AllocError, Global};
use std::fmt::Display;

/// The greater of two.
fn greater_of(one: u64, other: u64) -> u64
    ensures { result ≡ greater_of one other }
{
    if one < other { other } else { one }
}

/// How far to the right a sentence goes, if there is one: it has lines.
fn sentence_end(sentence: Option<&str>) -> u64
    ensures { result ≡ sentence_end (option_copied sentence.entry) }
{
    if sentence.is_some() { 860 } else { 0 }
}

/// How far the words of a row go.
fn row_end(alloc: Global, row: &Row<'_>) -> Result<u64, AllocError>
    ensures { IfOk result (λ end. end ≡ row_end row.now) }
{
    let words = label_of(row).to_string(alloc)?;
    Ok(x_of(row.column) + 8 * least_of(words.len(), 400) as u64 + 30)
}

/// How far to the right one of these rows goes, or else so far.
fn farthest(alloc: Global, least: u64, rows: &[Row<'_>]) -> Result<u64, AllocError>
    ensures { IfOk result (λ far. far ≡ farthest least rows.now) }
{
    let mut far = least;
    for row in rows {
        far = greater_of(far, row_end(alloc, row)?);
    }
    Ok(far)
}

/// How wide a picture of so many vats is: there is room for each column, the sentence and the words of each row.
pub fn width_of(
    alloc: Global,
    vats: usize,
    sentence: Option<&str>,
    rows: &[Row<'_>],
) -> Result<u64, AllocError>
    requires { vats ≤ 1024 }
    ensures { IfOk result
        (λ width. width ≡ width_of vats (option_copied sentence.entry) rows.now) }
{
    let least = greater_of(x_of(vats as u32), sentence_end(sentence));
    farthest(alloc, least, rows)
}
