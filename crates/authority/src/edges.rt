//! Edges, in order.

ghost use Rattle.std.specs.Prelude.{◌≡◌, map, IfOk};
ghost use Rattle.authority.specs.Shown.{edge_of};
ghost use Rattle.authority.specs.Glue.EdgePlaces.{place_edge};

use crate::edge::Edge;
use crate::witnesses::ByPlace;
use std::alloc::{AllocError, Global};
use std::marker::Model;

/// Which vat came to have which capability of another, and by which of its records first: by vat, then by record, then by
/// index among the capabilities that the record binds. Contracts see it as the list of run_model's edges.
#[derive(Drop)]
pub struct Graph {
    edges: Vec<Edge>,
}

impl Model for Graph {
    ghost use Rattle.std.specs.Prelude.{List, map};
    ghost use Rattle.run_model.specs.Edges.{Edge};
    ghost use Rattle.authority.specs.Shown.{edge_of};

    ghost Value = { List Edge };

    ghost view = { λ graph. map edge_of graph.edges.items };
}

impl Graph {
    /// The edges of a table, in its order.
    pub(crate) fn new(alloc: Global, table: ByPlace) -> Result<Graph, AllocError>
        ensures { IfOk result (λ graph. graph ≡ map place_edge table.entries) }
    {
        let mut edges = Vec::new(alloc);
        for ((vat, at_record, bound_index), cap) in table {
            edges.push(Edge {
                vat,
                cap,
                at_record,
                bound_index,
            })?;
        }
        Ok(Graph { edges })
    }

    /// The edges, in their order.
    pub fn edges(&self) -> &[Edge]
        ensures { map edge_of result.now ≡ self.now }
    {
        &self.edges
    }
}
