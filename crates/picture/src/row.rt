//! Rows: records of vats at their places in an order.

ghost use Rattle.std.specs.Prelude.{◌≡◌, ◌≤◌, ◌+◌, ◌<◌, ◌++◌, length, IfOk};
ghost use Rattle.std.specs.Option.{option_to_list};
ghost use Rattle.picture.specs.Labels.{label_text};
ghost use Rattle.picture.specs.Rows.{drawn, drawn_at, drawn_in, is_place, row_at, rows_of, tone_of};

use crate::call_makers::{are_kin, maker_at};
use crate::label::Label;
use crate::order::positions::place_at;
use crate::passing::endings::is_unended;
use crate::passing::late::is_late;
use crate::passing::record_messages::message_of;
use crate::record_place::Place;
use crate::scene::Scene;
use crate::vat_logs::{body_in, column_of, log_of};
use crate::window::line_of;
use exception_reasons::{Reason, record_reason};
use rpc_view::RpcMessage;
use std::alloc::{AllocError, Global};
use std::marker::Model;
use vat_log::{Body, VatLog};
use vat_rules::edition_of;

/// How a row is marked.
#[derive(Clone, Copy, PartialEq, Eq)]
pub enum Tone {
    /// Not at all.
    Plain,
    /// As a call that was made through the reference of the call that came too early.
    Kin,
    /// As the other end of the message at fault.
    Named,
    /// As the record at fault.
    Fault,
}

/// A row: a record of a vat, with its message where it has one that is read. Contracts see it by these parts.
#[derive(Drop)]
pub struct Row<'a> {
    /// The record.
    pub(crate) place: Place,
    /// The column of its vat, counted from 0.
    pub(crate) column: u32,
    /// The line on which it stands, counted from 0.
    pub(crate) line: u32,
    /// What the record says.
    pub(crate) body: &'a Body,
    /// Its message.
    pub(crate) message: Option<RpcMessage>,
    /// The reason of its exception, where it gives one.
    pub(crate) reason: Option<Reason>,
    /// Whether that is a Return that is late.
    pub(crate) late: bool,
    /// Whether it makes or sends a call that never ended.
    pub(crate) unended: bool,
    /// How it is marked.
    pub(crate) tone: Tone,
}

impl<'a> Model for Row<'a> {
    ghost use Rattle.picture.specs.Rows.{Drawn};

    ghost Value = { Drawn };

    ghost view = { λ row. record {
      place = row.place;
      column = row.column;
      line = row.line;
      body = row.body.now;
      message = row.message;
      reason = row.reason;
      late = row.late;
      unended = row.unended;
      tone = row.tone;
    } };
}

/// The words of a row.
pub fn label_of<'a>(row: &'a Row<'_>) -> Label<'a>
    ensures { label_text result.number result.body.now result.message.now result.reason.now result.unended
        ≡ label_text row.now.place.number row.now.body row.now.message row.now.reason row.now.unended }
{
    Label {
        number: row.place.number,
        body: row.body,
        message: &row.message,
        reason: &row.reason,
        unended: row.unended,
    }
}

/// Whether it is this record.
fn is_place(one: Option<Place>, other: Place) -> bool
    ensures { result ≡ is_place one other }
{
    matches!(one, Some(one) if one.vat == other.vat && one.number == other.number)
}

/// How a record is marked.
fn tone_of(scene: &Scene<'_>, place: Place) -> Tone
    ensures { result ≡ tone_of scene.now place }
{
    if is_place(scene.focus.at, place) {
        Tone::Fault
    } else if is_place(scene.focus.mate, place) {
        Tone::Named
    } else if are_kin(scene.maker, maker_at(scene.steps, place)) {
        Tone::Kin
    } else {
        Tone::Plain
    }
}

/// The row of this number, for a record of this log.
fn drawn<'a>(
    alloc: Global,
    scene: &Scene<'a>,
    row: u16,
    place: Place,
    log: &VatLog,
    body: &'a Body,
) -> Result<Row<'a>, AllocError>
    ensures { IfOk result (λ made. made ≡ drawn scene.now row place log.now body.now) }
{
    let message = message_of(alloc, body, edition_of(log))?;
    let late = is_late(alloc, log, place.number, body.passage(), &message)?;
    let unended = is_unended(alloc, log, place.number, body, &message)?;
    Ok(Row {
        place,
        column: column_of(scene.case.logs(), place.vat),
        line: line_of(scene.gap, row),
        body,
        message,
        reason: record_reason(alloc, body)?,
        late,
        unended,
        tone: tone_of(scene, place),
    })
}

/// The same, where the log has the record.
fn drawn_in<'a>(
    alloc: Global,
    scene: &Scene<'a>,
    row: u16,
    place: Place,
    log: &'a VatLog,
) -> Result<Option<Row<'a>>, AllocError>
    ensures { IfOk result (λ made. made ≡ drawn_in scene.now row place log.now) }
{
    match body_in(log, place.number) {
        Some(body) => Ok(Some(drawn(alloc, scene, row, place, log, body)?)),
        None => Ok(None),
    }
}

/// The row of this number, where its step is this record.
fn drawn_at<'a>(
    alloc: Global,
    scene: &Scene<'a>,
    row: u16,
    place: Place,
) -> Result<Option<Row<'a>>, AllocError>
    ensures { IfOk result (λ made. made ≡ drawn_at scene.now row place) }
{
    let case = scene.case;
    match log_of(case.logs(), place.vat) {
        Some(log) => drawn_in(alloc, scene, row, place, log),
        None => Ok(None),
    }
}

/// The row of this number, where its step has a record.
fn row_at<'a>(alloc: Global, scene: &Scene<'a>, row: u16) -> Result<Option<Row<'a>>, AllocError>
    requires within { scene.now.window.from + scene.now.window.count ≤ length scene.now.order }
    requires row { row < scene.now.window.count }
    ensures { IfOk result (λ made. made ≡ row_at scene.now row) }
{
    let step = scene.window.from + row as usize;
    match place_at(scene.order, step) {
        Some(place) => drawn_at(alloc, scene, row, place),
        None => Ok(None),
    }
}

/// These rows, and one more where there is one.
fn with_row<'a>(rows: Vec<Row<'a>>, row: Option<Row<'a>>) -> Result<Vec<Row<'a>>, AllocError>
    ensures { IfOk result (λ more. more.items ≡ rows.entry.items ++ option_to_list row.entry) }
{
    let mut rows = rows;
    if let Some(row) = row {
        rows.push(row)?;
    }
    Ok(rows)
}

/// The rows of the window, from above.
pub fn rows_of<'a>(alloc: Global, scene: &Scene<'a>) -> Result<Vec<Row<'a>>, AllocError>
    requires { scene.now.window.from + scene.now.window.count ≤ length scene.now.order }
    ensures { IfOk result (λ rows. rows.items ≡ rows_of scene.now) }
{
    let mut rows = Vec::new(alloc);
    for row in 0..scene.window.count {
        let made = row_at(alloc, scene, row)?;
        rows = with_row(rows, made)?;
    }
    Ok(rows)
}
