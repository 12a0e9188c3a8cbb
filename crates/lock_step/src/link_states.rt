//! The links of a case, as vats take turns.

ghost use Rattle.std.specs.Prelude.{◌≡◌, [], ◌∷◌, Some, true, IfOk, IfSome, is_some, OnOk, OnErr};
ghost use Rattle.lock_step.specs.Links.{IsFoundOf, link_on};

use crate::link_table::LinkTable;
use case_book::Link;
use erased::Erased;
use link_check::LinkOutcome;
use std::alloc::{AllocError, Global};
use std::marker::Model;
use vat_log::Body;

/// The links of a case, as vats take turns, each with the next record of its log. Contracts see the links and the turns so
/// far, the newest first. It keeps of each link only the frames that one end has and the other hasn't yet.
#[derive(Drop)]
pub struct LinkStates {
    added: Erased<Link>,
    vats: Erased<u32>,
    records: Erased<Body>,
    table: LinkTable,
}

impl Model for LinkStates {
    ghost use Rattle.std.specs.List.{zip};
    ghost use Rattle.std.specs.Prelude.{reverse};
    ghost use Rattle.lock_step.specs.Glue.{AreStates};
    ghost use Rattle.lock_step.specs.Links.{LinkTurns};

    ghost Value = { LinkTurns };

    ghost view = { λ states. record {
      links = reverse states.added.items;
      turns = zip states.vats.items states.records.items;
    } };

    ghost invariant = { λ states. AreStates (reverse states.added.items) (zip states.vats.items states.records.items) states.table };
}

impl LinkStates {
    /// These links before any turn. The only error is that memory ran out.
    pub fn new(alloc: Global, links: &[Link]) -> Result<LinkStates, AllocError>
        ensures { IfOk result (λ states. states ≡ record { links = links.now; turns = [] }) }
    {
        let mut table = LinkTable::new(alloc);
        let mut added = Erased::new();
        for link in links {
            table.add(alloc, link)?;
            added = added.with(link);
        }
        Ok(LinkStates {
            added,
            vats: Erased::new(),
            records: Erased::new(),
            table,
        })
    }

    /// A vat takes a turn with this record. It takes one look-up where the record passes a frame, and else none.
    ///
    /// # Errors
    ///
    /// Out of memory, and then nothing changes. A frame of 2^32 bytes or more that is to wait is answered so too.
    pub fn take(&mut self, vat: u32, body: &Body) -> Result<(), AllocError>
        ensures ok { OnOk result (self.new ≡ record { links = self.old.links; turns = (vat, body.now) ∷ self.old.turns }) }
        ensures err { OnErr result (self.new ≡ self.old) }
    {
        self.table.pass(vat, body)?;
        self.vats = self.vats.with(&vat);
        self.records = self.records.with(body);
        Ok(())
    }

    /// What is found of a link, if these were all turns. Where the turns are all records of some logs, it is what
    /// [`link_check::check_link`] finds of the ends that the link has among them. None where the first link of its connection
    /// that has two vats as its ends has others, or there is none.
    pub fn outcome(&self, link: &Link) -> Option<LinkOutcome>
        ensures some { link_on self.now.links link.now.connection ≡ Some link.now → is_some result ≡ true }
        ensures found { IfSome result (IsFoundOf link.now self.now.turns) }
    {
        let state = self.table.on(link.connection)?;
        if !state.is_between(link) {
            return None;
        }
        Some(state.outcome())
    }
}
