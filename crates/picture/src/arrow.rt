//! Arrows: the messages of rows.

ghost use Rattle.std.specs.Prelude.{◌≡◌, ◌++◌, IfOk, map};
ghost use Rattle.std.specs.Arc.{arc_value};
ghost use Rattle.std.specs.Option.{option_to_list};
ghost use Rattle.picture.specs.Rows.{arrow_of, arrow_to, arrows_of, is_drawn_there, is_late_at_an_end, outcome_stroke, reach_away, reach_in, reach_of, stroke_of};

use crate::passing::late::late_at;
use crate::passing::mate::mate_of;
use crate::record_place::Place;
use crate::row::{Row, Tone};
use crate::scene::Scene;
use crate::vat_logs::column_of;
use crate::window::{line_of, lines_of, row_of};
use rpc_view::{Outcome, RpcMessage};
use std::alloc::{AllocError, Global};
use std::sync::Arc;
use vat_log::VatLog;

/// Where the other end of an arrow is.
#[derive(Clone, Copy, PartialEq, Eq)]
pub enum Reach {
    /// At another row.
    At {
        /// Its column, counted from 0.
        column: u32,
        /// Its line, counted from 0.
        line: u32,
    },
    /// In a record below those that are drawn.
    Below {
        /// Its column, counted from 0.
        column: u32,
        /// The line below the last one.
        line: u32,
    },
    /// In a record above those that are drawn.
    Above {
        /// Its column, counted from 0.
        column: u32,
    },
    /// In no record: it wasn't received, or wasn't sent.
    Nowhere,
}

/// How the line of an arrow is drawn.
#[derive(Clone, Copy, PartialEq, Eq)]
pub enum Stroke {
    /// As most are.
    Plain,
    /// Of a Return that is late.
    Late,
    /// Of a Return that is canceled.
    Canceled,
    /// Of a Call or a Return whose results go elsewhere.
    Tail,
}

/// An arrow: a message that a row sends or receives.
#[derive(Clone, Copy)]
pub struct Arrow {
    /// The column of the row, counted from 0.
    pub column: u32,
    /// The line of the row, counted from 0.
    pub line: u32,
    /// Whether the row sends the message.
    pub sent: bool,
    /// Where its other end is.
    pub reach: Reach,
    /// How it is drawn.
    pub stroke: Stroke,
    /// How its row is marked.
    pub tone: Tone,
}

/// The stroke of what a Return says of its call.
fn outcome_stroke(outcome: &Outcome) -> Stroke
    ensures { result ≡ outcome_stroke outcome.now }
{
    match outcome {
        Outcome::Canceled => Stroke::Canceled,
        Outcome::Elsewhere | Outcome::TakeFrom(_) => Stroke::Tail,
        Outcome::Results(_) | Outcome::Exception => Stroke::Plain,
    }
}

/// The stroke of a message.
fn stroke_of(late: bool, message: &Option<RpcMessage>) -> Stroke
    ensures { result ≡ stroke_of late message.now }
{
    match message {
        Some(RpcMessage::Return { .. }) if late => Stroke::Late,
        Some(RpcMessage::Return { outcome, .. }) => outcome_stroke(outcome),
        Some(RpcMessage::Call { head, .. }) if head.yourself => Stroke::Tail,
        _ => Stroke::Plain,
    }
}

/// Out of the window: downwards from what sends, upwards from what receives.
fn reach_away(scene: &Scene<'_>, sent: bool, column: u32) -> Reach
    ensures { result ≡ reach_away scene.now sent column }
{
    if sent {
        Reach::Below {
            column,
            line: lines_of(scene.gap, scene.window.count),
        }
    } else {
        Reach::Above { column }
    }
}

/// Where an arrow ends in this column.
fn reach_in(scene: &Scene<'_>, sent: bool, column: u32, row: Option<u16>) -> Reach
    ensures { result ≡ reach_in scene.now sent column row }
{
    match row {
        Some(row) => Reach::At {
            column,
            line: line_of(scene.gap, row),
        },
        None => reach_away(scene, sent, column),
    }
}

/// Where an arrow ends whose other end is this record.
fn reach_of(scene: &Scene<'_>, sent: bool, mate: Option<Place>) -> Reach
    ensures { result ≡ reach_of scene.now sent mate }
{
    let Some(mate) = mate else {
        return Reach::Nowhere;
    };
    let column = column_of(scene.case.logs(), mate.vat);
    reach_in(scene, sent, column, row_of(scene.order, scene.window, mate))
}

/// Whether it is drawn from its other end: it is received here, and sent in another row.
fn is_drawn_there(sent: bool, reach: Reach) -> bool
    ensures { result ≡ is_drawn_there sent reach }
{
    matches!((sent, reach), (false, Reach::At { .. }))
}

/// Whether a message is a Return that is late at this end or at the other one.
fn late_by(
    alloc: Global,
    logs: &[Arc<VatLog>],
    late: bool,
    mate: Option<Place>,
) -> Result<bool, AllocError>
    ensures { IfOk result
        (λ either. either ≡ is_late_at_an_end (map arc_value logs.now) late mate) }
{
    match mate {
        Some(mate) if !late => late_at(alloc, logs, mate),
        _ => Ok(late),
    }
}

/// The arrow of a row that goes so far, where it is drawn from here.
fn arrow_to(row: &Row<'_>, sent: bool, late: bool, reach: Reach) -> Option<Arrow>
    ensures { result ≡ arrow_to row.now sent late reach }
{
    if is_drawn_there(sent, reach) {
        return None;
    }
    Some(Arrow {
        column: row.column,
        line: row.line,
        sent,
        reach,
        stroke: stroke_of(late, &row.message),
        tone: row.tone,
    })
}

/// The arrow of a row, where it has one.
fn arrow_of(alloc: Global, scene: &Scene<'_>, row: &Row<'_>) -> Result<Option<Arrow>, AllocError>
    ensures { IfOk result (λ arrow. arrow ≡ arrow_of scene.now row.now) }
{
    let Some((sent, _)) = row.body.passage() else {
        return Ok(None);
    };
    let mate = mate_of(scene.case, row.place, row.body);
    let late = late_by(alloc, scene.case.logs(), row.late, mate)?;
    Ok(arrow_to(row, sent, late, reach_of(scene, sent, mate)))
}

/// These arrows, and one more where there is one.
fn with_arrow(arrows: Vec<Arrow>, arrow: Option<Arrow>) -> Result<Vec<Arrow>, AllocError>
    ensures { IfOk result (λ more. more.items ≡ arrows.items ++ option_to_list arrow) }
{
    let mut arrows = arrows;
    if let Some(arrow) = arrow {
        arrows.push(arrow)?;
    }
    Ok(arrows)
}

/// The arrows of these rows.
pub fn arrows_of(
    alloc: Global,
    scene: &Scene<'_>,
    rows: &[Row<'_>],
) -> Result<Vec<Arrow>, AllocError>
    ensures { IfOk result (λ arrows. arrows.items ≡ arrows_of scene.now rows.now) }
{
    let mut arrows = Vec::new(alloc);
    for row in rows {
        let made = arrow_of(alloc, scene, row)?;
        arrows = with_arrow(arrows, made)?;
    }
    Ok(arrows)
}
