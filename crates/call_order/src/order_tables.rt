//! What is under way as an order takes the records of a case.

ghost use Rattle.std.specs.Prelude.{◌≡◌, ℕ, [], None, OnOk};
ghost use Rattle.call_order.specs.Glue.Names.{name_come};
ghost use Rattle.call_order.specs.Glue.UnderWay.{one_of, calls_to};
ghost use Rattle.call_order.specs.Glue.Told.{calls_told};
ghost use Rattle.call_order.specs.Glue.Tables.{IsDone};

use crate::calls_under_way::CallsUnderWay;
use crate::deeds::Deed;
use crate::names_of_calls::Names;
use crate::told::Told;
use std::alloc::{AllocError, Global};
use undelivered::Moment;

/// The names of calls at vats, the calls that are under way, and what was told of the calls of each vat.
#[derive(Drop)]
pub(crate) struct OrderTables {
    names: Names,
    under_way: CallsUnderWay,
    pub(crate) told: Told,
}

impl OrderTables {
    /// Before any record is taken.
    pub(crate) fn new(alloc: Global) -> OrderTables
        ensures names { (v c : ℕ) → name_come result.names v c ≡ None }
        ensures ones { (k : ℕ) → one_of result.under_way k ≡ None }
        ensures calls { (v k : ℕ) → calls_to result.under_way v k ≡ [] }
        ensures told { (v : ℕ) → calls_told result.told v ≡ [] }
    {
        OrderTables {
            names: Names::new(alloc),
            under_way: CallsUnderWay::new(alloc),
            told: Told::new(alloc),
        }
    }

    /// A vat delivers a call by this step: the vat that made it is told.
    fn deliver(&mut self, call: u64, step: (u32, u32)) -> Result<(), AllocError>
        ensures { OnOk result (IsDone step.0 step.1 (Deed.Deliver call) self.old self.new) }
    {
        let name = self.names.leave(step.0, call);
        let delivered = Moment::Delivered {
            call: name.number,
            place: step,
        };
        self.told.tell(name.maker, &delivered)
    }

    /// A vat receives a call, to which it gives this number.
    fn receive(&mut self, vat: u32, connection: u32, call: u64) -> Result<(), AllocError>
        ensures { OnOk result ((number : ℕ) → IsDone vat number (Deed.Receive connection call) self.old self.new) }
    {
        match self.under_way.receive(connection, vat) {
            Some(name) => self.names.come(vat, call, name),
            None => Ok(()),
        }
    }

    /// Does what a vat's record of this number does.
    pub(crate) fn apply(&mut self, vat: u32, number: u32, deed: Deed) -> Result<(), AllocError>
        ensures { OnOk result (IsDone vat number deed self.old self.new) }
    {
        match deed {
            Deed::Make { call, reference } => self
                .told
                .tell(vat, &Moment::Made { call, reference }),
            Deed::Deliver { call } => self.deliver(call, (vat, number)),
            Deed::Send { connection, call } => {
                let name = self.names.leave(vat, call);
                self.under_way.send(connection, vat, name)
            }
            Deed::Receive { connection, call } => self.receive(vat, connection, call),
            Deed::End { call } => {
                let _ = self.names.leave(vat, call);
                Ok(())
            }
            Deed::Other => Ok(()),
        }
    }
}
