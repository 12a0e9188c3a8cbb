//! The connections that a log uses.

ghost use Rattle.std.specs.Prelude.{◌≡◌, ◌∷◌, ◌++◌, [], Contains, IfErr, IfOk, IfSome, List, OnErr, OnOk};
ghost use Rattle.vat_log.specs.declared.body.Body.{Body};
ghost use Rattle.vat_log.specs.Passages.{used_by};
ghost use Rattle.log_lane.specs.UsedOnce.{AreUsed};
ghost use Rattle.log_lane.specs.Used.{UsesAnother};

use erased::Erased;
use std::alloc::{AllocError, Global};
use std::collections::BTreeSet;
use std::marker::Model;
use vat_log::Body;

/// The connections that the records of a log use, told record by record. No record is kept.
#[derive(Drop)]
pub struct UsedConnections {
    set: BTreeSet<u32>,
    // The one that was used last: most records use it again, and it needn't be looked up.
    last: Option<u32>,
    records: Erased<Body>,
}

impl Model for UsedConnections {
    ghost use Rattle.std.specs.Prelude.{Contains, IfSome, List, reverse};
    ghost use Rattle.vat_log.specs.declared.body.Body.{Body};
    ghost use Rattle.log_lane.specs.UsedOnce.{AreUsed};

    ghost Value = { List Body };

    ghost view = { λ used. reverse used.records.items };

    ghost invariant = { λ used. AreUsed (reverse used.records.items) used.set.keys
        × IfSome used.last (Contains used.set.keys) };
}

/// The connection that a record uses.
fn used_by(body: &Body) -> Option<u32>
    ensures { result ≡ used_by body.now }
{
    match body.passage() {
        Some((_, connection)) => Some(connection),
        None => None,
    }
}

/// Adds the connection that a record uses, if it uses one, to those of the records before it, of which one may be known; one
/// of them all, if there is one.
fn add(set: &mut BTreeSet<u32>, known: Option<u32>, body: &Body) -> Result<Option<u32>, AllocError>
    requires { IfSome known (Contains set.old.keys) }
    ensures used { (records : List Body) → AreUsed records set.old.keys
        → OnOk result (AreUsed (records ++ body.now ∷ []) set.new.keys) }
    ensures known { IfOk result (λ known. IfSome known (Contains set.new.keys)) }
    ensures err { OnErr result (set.new.keys ≡ set.old.keys) }
    ensures another { (records : List Body) → AreUsed records set.old.keys
        → IfErr result (λ _. UsesAnother records body.now) }
{
    let Some(connection) = used_by(body) else {
        return Ok(known);
    };
    if known != Some(connection) {
        set.insert(connection)?;
    }
    Ok(Some(connection))
}

impl UsedConnections {
    /// Those of no record. It takes no memory.
    pub fn new(alloc: Global) -> UsedConnections
        ensures { result ≡ [] }
    {
        UsedConnections {
            set: BTreeSet::new(alloc),
            last: None,
            records: Erased::new(),
        }
    }

    /// Takes the log's next record.
    ///
    /// # Errors
    ///
    /// Out of memory, and then they are as they were: only a record that uses a connection for the first time takes memory.
    pub fn take(&mut self, body: &Body) -> Result<(), AllocError>
        ensures ok { OnOk result (self.new ≡ self.old ++ body.now ∷ []) }
        ensures err { OnErr result (self.new ≡ self.old) }
        // Memory is refused only over a connection that no record before uses.
        ensures another { IfErr result (λ _. UsesAnother self.old body.now) }
    {
        self.last = add(&mut self.set, self.last, body)?;
        self.records = self.records.with(body);
        Ok(())
    }

    /// The connections that the records use, each once.
    pub(crate) fn connections(&self) -> &BTreeSet<u32>
        ensures { AreUsed self.now result.now.keys }
    {
        &self.set
    }
}
