//! The order of one vat's calls, as a run goes on.

ghost use Rattle.std.specs.Prelude.{◌≡◌, [], ◌∷◌, OnOk, OnErr};
ghost use Rattle.undelivered.specs.Order.{AreOnce, IsFault};

use crate::moment::Moment;
use crate::wait_tables::WaitTables;
use erased::Erased;
use std::alloc::{AllocError, Global};
use std::marker::Model;

/// What was told of the calls of one vat, and where their order is broken. Contracts see it as the list of the moments, the
/// newest first; it keeps of each call that isn't delivered its reference, its turn and one place.
pub struct Undelivered {
    past: Erased<Moment>,
    count: u64,
    tables: WaitTables,
}

impl Drop for Undelivered {
    fn drop(self) {
        let Self {
            past: _,
            count: _,
            tables: _,
        } = self;
    }
}

impl Model for Undelivered {
    ghost use Rattle.std.specs.Prelude.{List};
    ghost use Rattle.undelivered.specs.declared.moment.Moment.{Moment};
    ghost use Rattle.undelivered.specs.Glue.{AreTables};

    ghost Value = { List Moment };

    ghost view = { λ calls. calls.past.items };

    ghost invariant = { λ calls. AreTables calls.past.items calls.count calls.tables };
}

impl Undelivered {
    /// Before anything is told. It takes no memory.
    pub fn new(alloc: Global) -> Undelivered
        ensures { result ≡ [] }
    {
        Undelivered {
            past: Erased::new(),
            count: 0,
            tables: WaitTables::new(alloc),
        }
    }

    /// Takes the next moment. A delivery may look at every call that waits through its reference; but all deliveries together
    /// look at each of these once for each vat that delivers calls there. Each look takes time by the logarithm of the calls
    /// that wait.
    ///
    /// # Errors
    ///
    /// Out of memory, and then nothing changes. A delivery takes none.
    pub fn take(&mut self, moment: &Moment) -> Result<(), AllocError>
        ensures ok { OnOk result (self.new ≡ moment.now ∷ self.old) }
        ensures err { OnErr result (self.new ≡ self.old) }
    {
        let Some(count) = self.count.checked_add(1) else {
            return Err(AllocError);
        };
        match moment {
            Moment::Made { call, reference } => self.tables.make(*call, *reference, self.count)?,
            Moment::Delivered { call, place } => self.tables.deliver(*call, *place),
        }
        self.past = self.past.with(moment);
        self.count = count;
        Ok(())
    }

    /// The least place so far where a call was delivered too early: before another that was made before it through the same
    /// reference. Places are compared by vat, then by number. It holds where each call is made once, and delivered at most
    /// once and then behind its making; else nothing is said.
    pub fn fault(&self) -> Option<(u32, u32)>
        ensures { AreOnce self.now → IsFault self.now result }
    {
        self.tables.fault()
    }
}
