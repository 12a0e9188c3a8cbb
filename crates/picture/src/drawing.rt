//! Pictures: what is drawn of a case.

ghost use Rattle.std.specs.Prelude.{IfOk};
ghost use Rattle.picture.specs.Picture.{IsPictureOf};

use crate::arrow::{Arrow, arrows_of};
use crate::columns::{Column, columns_of};
use crate::row::{Row, rows_of};
use crate::scene::scene_of;
use crate::svg::width::width_of;
use crate::window::{Asked, Gap, lines_of};
use case_book::Case;
use case_report::Report;
use run_model::Step;
use std::alloc::{AllocError, Global};

/// A picture of a case. It is shown as an SVG that needs nothing else: no script, no font, no other file.
#[derive(Drop)]
pub struct Picture<'a> {
    /// The report, whose line is the picture's head.
    pub report: &'a Report,
    /// What is said to people of the rule that is broken, or of why a record isn't judged.
    pub sentence: Option<&'static str>,
    /// The vats, by rising number.
    pub columns: Vec<Column>,
    /// The rows, from above.
    pub rows: Vec<Row<'a>>,
    /// The arrows, by the rows from which they are drawn.
    pub arrows: Vec<Arrow>,
    /// The row that the verdict names, and the lines below it for the sentence.
    pub gap: Option<Gap>,
    /// How many lines there are.
    pub lines: u32,
    /// How many steps there are above the first row.
    pub above: usize,
    /// How many steps there are below the last row.
    pub below: usize,
    /// How wide the picture is, in pixels.
    pub width: u64,
}

/// The picture of a case whose records are drawn in this order, and of its report: the rows of the steps that are asked for,
/// or of those around what the report names, and the arrows of their messages. Where the steps of a run of the case are
/// lent, the rows of calls are marked that were made through the reference of the call that the report names.
pub fn draw<'a>(
    alloc: Global,
    case: &'a Case,
    order: &'a [u32],
    report: &'a Report,
    steps: &'a [Step],
    asked: Asked,
) -> Result<Picture<'a>, AllocError>
    ensures { IfOk result (IsPictureOf case.now order.now report.now steps.now asked) }
{
    let scene = scene_of(case, order, steps, report, asked);
    let rows = rows_of(alloc, &scene)?;
    let arrows = arrows_of(alloc, &scene, &rows)?;
    let lines = lines_of(scene.gap, scene.window.count);
    let sentence = scene.sentence;
    let above = scene.window.from;
    let width = width_of(alloc, case.logs().len(), sentence, &rows)?;
    Ok(Picture {
        report,
        sentence,
        columns: columns_of(alloc, case.logs(), lines)?,
        rows,
        arrows,
        gap: scene.gap,
        lines,
        above,
        below: order.len() - (above + scene.window.count as usize),
        width,
    })
}
