//! Edges, as they are found.

ghost use Rattle.std.specs.Prelude.{◌≡◌, [], IfOk};

use crate::key::Key;
use indexmap::IndexMap;
use run_model::Cap;
use std::alloc::{AllocError, Global};
use std::collections::BTreeMap;
use std::marker::Model;

/// The capabilities of edges, by the edge's vat, record and index among what the record binds.
pub(crate) type ByPlace = BTreeMap<(u32, u64, u64), Cap>;

/// For each vat and each capability of another that it bound, the record and the index at which it did first, in the order
/// in which they were found. Contracts see it as the list of these edges.
#[derive(Drop)]
pub(crate) struct Witnesses {
    alloc: Global,
    entries: IndexMap<Key, (u64, u64)>,
}

impl Model for Witnesses {
    ghost use Rattle.std.specs.Prelude.{List, map};
    ghost use Rattle.run_model.specs.Edges.{Edge};
    ghost use Rattle.authority.specs.Glue.Keys.{entry_edge};

    ghost Value = { List Edge };

    ghost view = { λ witnesses. map entry_edge witnesses.entries.entries };
}

impl Witnesses {
    ghost use Rattle.authority.specs.Glue.EdgePlaces.{IsSingle, IsByPlace};
    ghost use Rattle.authority.specs.Glue.EdgeTables.{AddsFirst, edge_at};

    /// None yet.
    pub(crate) fn new(alloc: Global) -> Witnesses
        ensures { result ≡ [] }
    {
        Witnesses {
            alloc,
            entries: IndexMap::new(alloc),
        }
    }

    /// Adds an edge, if the vat has none for the capability. Where memory is refused, nothing is left.
    pub(crate) fn add(
        self,
        vat: u32,
        cap: &Cap,
        at_record: u64,
        place: u64,
    ) -> Result<Witnesses, AllocError>
        ensures { IfOk result (AddsFirst (edge_at vat cap.now at_record place) self) }
    {
        let Witnesses { alloc, mut entries } = self;
        let key = Key::new(alloc, vat, cap)?;
        if !entries.contains_key(&key) {
            entries.insert(key, (at_record, place))?;
        }
        Ok(Witnesses { alloc, entries })
    }

    /// The same edges by vat, record and index.
    pub(crate) fn by_place(self) -> Result<ByPlace, AllocError>
        requires { IsSingle self }
        ensures { IfOk result (IsByPlace self) }
    {
        let mut table = BTreeMap::new(self.alloc);
        for (key, (at_record, place)) in self.entries {
            let (vat, cap) = key.into_parts()?;
            table.insert((vat, at_record, place), cap)?;
        }
        Ok(table)
    }
}
