//! The text of an edge in the DOT language, without an end of line (docs/FORMATS.md).

ghost use Rattle.std.specs.Prelude.{Some};
ghost use Rattle.authority.specs.Shown.{edge_of};
ghost use Rattle.report_lines.specs.DotText.{bound_text, dot_edge_text, node_text, owner_text};

use crate::shown::Shown;
use authority::Edge;
use run_model::Cap;
use std::fmt::{self, Display, Formatter};

/// A line that bounds a graph in the DOT language, to be shown without the line's end.
#[derive(Clone, Copy)]
pub enum DotBound {
    /// The first line.
    Head,
    /// The last line.
    End,
}

impl Display for DotBound {
    ghost output = { λ bound. Some (bound_text bound) };

    fn fmt<W: fmt::Write>(&self, f: &mut Formatter<W>) -> fmt::Result {
        f.write_str(match self {
            DotBound::Head => "digraph capabilities {",
            DotBound::End => "}",
        })
    }
}

/// The node of a vat.
#[derive(Clone, Copy)]
struct Node(u32);

impl Display for Node {
    ghost output = { λ vat. Some (node_text vat.0) };

    fn fmt<W: fmt::Write>(&self, f: &mut Formatter<W>) -> fmt::Result {
        write!(f, "\"vat {}\"", self.0)
    }
}

/// The node of the vat whose capability it is.
#[derive(Clone, Copy)]
struct Owner<'a>(&'a Cap);

impl Display for Owner<'_> {
    ghost output = { λ cap. Some (owner_text cap.0.now) };

    fn fmt<W: fmt::Write>(&self, f: &mut Formatter<W>) -> fmt::Result {
        match self.0 {
            Cap::Object(vat, _) | Cap::Promise(vat, _) => write!(f, "{}", Node(*vat)),
            Cap::Field(call, _) => write!(f, "{}", Node(call.maker)),
            Cap::Nothing => f.write_str("\"none\""),
        }
    }
}

/// An edge of a run, to be shown as its line in the DOT language, without the line's end.
#[derive(Clone, Copy)]
pub struct DotEdge<'a>(pub &'a Edge);

impl Display for DotEdge<'_> {
    ghost output = { λ edge. Some (dot_edge_text (edge_of edge.0.now)) };

    fn fmt<W: fmt::Write>(&self, f: &mut Formatter<W>) -> fmt::Result {
        let edge = self.0;
        let (vat, owner, cap) = (Node(edge.vat), Owner(&edge.cap), Shown(&edge.cap));
        let record = edge.at_record;
        write!(f, "  {vat} -> {owner} [label=\"{cap}\\nrecord {record}\"];")
    }
}
