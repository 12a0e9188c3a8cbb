//! What is written as a line.

ghost use Rattle.std.specs.Prelude.{Some};
ghost use Rattle.report_lines.specs.ShownLines.{shown_text};

use crate::answer::Answer;
use crate::dot_text::{DotBound, DotEdge};
use crate::edge_text::ShownEdge;
use crate::record_text::NumberedRecord;
use crate::step_text::NumberedStep;
use std::fmt::{self, Display, Formatter};

/// What is written as a line of standard output. It is shown as the line's text, without the line's end.
#[derive(Clone, Copy)]
pub enum ShownLine<'a> {
    /// An answer.
    Answer(&'a Answer),
    /// A record of a log.
    Record(&'a NumberedRecord<'a>),
    /// A step of a run.
    Step(NumberedStep<'a>),
    /// An edge of a run.
    Edge(ShownEdge<'a>),
    /// An edge of a run in the DOT language.
    DotEdge(DotEdge<'a>),
    /// The first or the last line of a graph in the DOT language.
    DotBound(DotBound),
}

impl Display for ShownLine<'_> {
    ghost output = { λ line. Some (shown_text line) };

    fn fmt<W: fmt::Write>(&self, f: &mut Formatter<W>) -> fmt::Result {
        match self {
            ShownLine::Answer(answer) => write!(f, "{answer}"),
            ShownLine::Record(record) => write!(f, "{record}"),
            ShownLine::Step(step) => write!(f, "{step}"),
            ShownLine::Edge(edge) => write!(f, "{edge}"),
            ShownLine::DotEdge(edge) => write!(f, "{edge}"),
            ShownLine::DotBound(bound) => write!(f, "{bound}"),
        }
    }
}
