//! What a picture is drawn of.

ghost use Rattle.std.specs.Prelude.{◌≡◌, ◌≤◌, ◌+◌, IfSome, length, option_and_then};
ghost use Rattle.report_lines.specs.Sentences.{IsPrintedLine};
ghost use Rattle.picture.specs.Rows.{maker_at, row_of_place, scene_of};

use crate::breaks::gap_of;
use crate::call_makers::{Maker, maker_at};
use crate::focus::{Focus, focus_of};
use crate::record_place::Place;
use crate::window::{Asked, Gap, Window, middle_of, row_of, window_of};
use case_book::Case;
use case_report::Report;
use report_lines::report_sentence;
use run_model::Step;
use std::marker::Model;

/// A case, an order in which its records are drawn, what the verdict names, and which steps are drawn.
#[derive(Drop)]
pub struct Scene<'a> {
    /// The case.
    pub case: &'a Case,
    /// The vat of each step.
    pub order: &'a [u32],
    /// The steps of a run of all records, or none.
    pub steps: &'a [Step],
    /// What the verdict names.
    pub focus: Focus,
    /// Who made the call that the verdict names, and through which reference.
    pub maker: Option<Maker>,
    /// The steps that are drawn.
    pub window: Window,
    /// What is said to people of the rule that is broken, or of why a record isn't judged.
    pub sentence: Option<&'static str>,
    /// The row at fault.
    pub gap: Option<Gap>,
}

impl<'a> Model for Scene<'a> {
    ghost use Rattle.std.specs.Option.{option_copied};
    ghost use Rattle.picture.specs.Rows.{Scene};

    ghost Value = { Scene };

    ghost view = { λ scene. record {
      held = scene.case.now;
      order = scene.order.now;
      steps = scene.steps.now;
      focus = scene.focus;
      maker = scene.maker;
      window = scene.window;
      sentence = option_copied scene.sentence;
      gap = scene.gap;
    } };
}

/// Who made the call that this record names, if there is one.
fn maker_named(steps: &[Step], place: Option<Place>) -> Option<Maker>
    ensures { result ≡ option_and_then (maker_at steps.now) place }
{
    maker_at(steps, place?)
}

/// The row of this record, if there is one.
fn row_named(order: &[u32], window: Window, place: Option<Place>) -> Option<u16>
    ensures { result ≡ option_and_then (row_of_place order.now window) place }
{
    row_of(order, window, place?)
}

/// What is drawn of a case in this order, for its report: the window that is asked for, or the one around what it names.
pub fn scene_of<'a>(
    case: &'a Case,
    order: &'a [u32],
    steps: &'a [Step],
    report: &Report,
    asked: Asked,
) -> Scene<'a>
    ensures scene { result ≡ scene_of case.now order.now steps.now report.now result.sentence asked }
    ensures line { IfSome result.sentence IsPrintedLine }
    ensures within { result.window.from + result.window.count ≤ length result.order }
{
    let focus = focus_of(case, order, report);
    let sentence = report_sentence(report);
    let window = window_of(order.len(), middle_of(order, focus.at), asked);
    Scene {
        case,
        order,
        steps,
        focus,
        maker: maker_named(steps, focus.at),
        window,
        sentence,
        gap: gap_of(sentence, row_named(order, window, focus.at)),
    }
}
