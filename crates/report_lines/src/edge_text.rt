//! The text of an edge, without an end of line (docs/FORMATS.md).

ghost use Rattle.std.specs.Prelude.{Some};
ghost use Rattle.authority.specs.Shown.{edge_of};
ghost use Rattle.report_lines.specs.EdgeText.{cap_text, edge_text, name_text};

use crate::shown::Shown;
use authority::Edge;
use run_model::{Cap, Name};
use std::fmt::{self, Display, Formatter};

impl Display for Shown<Name> {
    ghost output = { λ call. Some (name_text call.0) };

    fn fmt<W: fmt::Write>(&self, f: &mut Formatter<W>) -> fmt::Result {
        let Name { maker, number } = self.0;
        write!(f, "{maker}.{number}")
    }
}

impl Display for Shown<&Cap> {
    ghost output = { λ cap. Some (cap_text cap.0.now) };

    fn fmt<W: fmt::Write>(&self, f: &mut Formatter<W>) -> fmt::Result {
        match self.0 {
            Cap::Object(vat, object) => write!(f, "obj {vat}.{object}"),
            Cap::Promise(vat, promise) => write!(f, "prom {vat}.{promise}"),
            Cap::Field(call, path) => write!(f, "field {} {}", Shown(*call), Shown(path)),
            Cap::Nothing => f.write_str("none"),
        }
    }
}

/// An edge of a run, to be shown as its line (docs/FORMATS.md), without the line's end.
#[derive(Clone, Copy)]
pub struct ShownEdge<'a>(pub &'a Edge);

impl Display for ShownEdge<'_> {
    ghost output = { λ edge. Some (edge_text (edge_of edge.0.now)) };

    fn fmt<W: fmt::Write>(&self, f: &mut Formatter<W>) -> fmt::Result {
        let edge = self.0;
        let (vat, cap, record) = (edge.vat, Shown(&edge.cap), edge.at_record);
        write!(f, "edge vat {vat} to {cap} record {record}")
    }
}
