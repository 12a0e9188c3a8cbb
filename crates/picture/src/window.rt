//! Which steps of an order are drawn.

ghost use Rattle.std.specs.Prelude.{◌≡◌, ◌≤◌, ◌+◌};
ghost use Rattle.picture.specs.Rows.{first_of, least_of, limit_of, line_of_row, lines_of, middle_of, room_in, row_in, row_of_place, wanted_of, window_of};

use crate::order::positions::step_of;
use crate::record_place::Place;

/// Which steps of an order are asked for.
#[derive(Clone, Copy)]
pub struct Asked {
    /// The first step, counted from 0. Where there is none, the step that the verdict names is in the middle.
    pub from: Option<u64>,
    /// How many steps; what goes past the last one is left out, and so is what goes past the limit. Where there is none, as
    /// many as the limit.
    pub count: Option<u64>,
    /// Whether they are drawn on a page, which has at most 5,000 rows, and not in a picture alone, which has at most 200.
    pub page: bool,
}

/// Steps of an order that follow one another: those that are drawn.
#[derive(Clone, Copy)]
pub struct Window {
    /// The first step, counted from 0.
    pub from: usize,
    /// How many steps there are.
    pub count: u16,
}

/// A row at fault, and the lines below it on which no row stands: they are for the sentence of what is broken.
#[derive(Clone, Copy)]
pub struct Gap {
    /// The row, counted from 0.
    pub row: u16,
    /// How many lines are free.
    pub room: u8,
}

/// The smaller of two.
pub fn least_of(one: usize, other: usize) -> usize
    ensures { result ≡ least_of one other }
{
    if one < other { one } else { other }
}

/// How many rows are drawn at most: in a picture, or on a page.
pub fn limit_of(page: bool) -> usize
    ensures limit { result ≡ limit_of page }
    ensures few { result ≤ 5000 }
{
    if page { 5000 } else { 200 }
}

/// How many steps are wanted: as many as are drawn at most, or fewer where fewer are asked for.
fn wanted_of(asked: Asked) -> usize
    ensures wanted { result ≡ wanted_of asked }
    ensures few { result ≤ 5000 }
{
    let limit = limit_of(asked.page);
    match asked.count {
        Some(count) => least_of(count as usize, limit),
        None => limit,
    }
}

/// The first step that is drawn, of so many: the one that is asked for, or the one that has half of those that are wanted
/// between it and the step that is named.
fn first_of(steps: usize, middle: usize, asked: Asked) -> usize
    ensures first { result ≡ first_of steps middle asked }
    ensures within { result ≤ steps }
{
    let first = match asked.from {
        Some(from) => from as usize,
        None => middle.saturating_sub(wanted_of(asked) / 2),
    };
    least_of(first, steps)
}

/// The window of so many steps: the one that is asked for, or the one around the step that is named.
pub fn window_of(steps: usize, middle: usize, asked: Asked) -> Window
    ensures window { result ≡ window_of steps middle asked }
    ensures within { result.from + result.count ≤ steps }
{
    let from = first_of(steps, middle, asked);
    let count = least_of(wanted_of(asked), steps - from) as u16;
    Window { from, count }
}

/// The step that the verdict names, or the first.
pub fn middle_of(order: &[u32], place: Option<Place>) -> usize
    ensures { result ≡ middle_of order.now place }
{
    match place {
        Some(place) => step_of(order, place).unwrap_or(0),
        None => 0,
    }
}

/// The row of a step, counted from 0, where it is in the window.
fn row_in(window: Window, step: usize) -> Option<u16>
    ensures { result ≡ row_in window step }
{
    if window.from <= step && step - window.from < window.count as usize {
        Some((step - window.from) as u16)
    } else {
        None
    }
}

/// The row of a record, where it is in the window.
pub fn row_of(order: &[u32], window: Window, place: Place) -> Option<u16>
    ensures { result ≡ row_of_place order.now window place }
{
    row_in(window, step_of(order, place)?)
}

/// The line of a row: further down, below the row at fault.
pub fn line_of(gap: Option<Gap>, row: u16) -> u32
    ensures { result ≡ line_of_row gap row }
{
    match gap {
        Some(gap) if gap.row < row => row as u32 + gap.room as u32,
        _ => row as u32,
    }
}

/// How many lines are free below the row at fault, if there is one.
pub fn room_in(gap: Option<Gap>) -> u8
    ensures { result ≡ room_in gap }
{
    match gap {
        Some(gap) => gap.room,
        None => 0,
    }
}

/// How many lines so many rows have.
pub fn lines_of(gap: Option<Gap>, rows: u16) -> u32
    ensures { result ≡ lines_of gap rows }
{
    rows as u32 + room_in(gap) as u32
}
