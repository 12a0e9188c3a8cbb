//! Laws of order faults.

ghost use Rattle.std.specs.Prelude.{ℕ, List, Option};
ghost use Rattle.call_order.specs.Fault.{IsFaultBy};
ghost use Rattle.merge_order.specs.Fits.{IsFitting};
ghost use Rattle.vat_log.specs.Log.{Log};

/// Which order it is doesn't matter: the order fault of logs by one order that fits is theirs by any order.
pub fn orders_have_one_fault()
    ensures { (logs : List Log) (order other : List ℕ) (fault : Option (ℕ × ℕ)) → IsFitting logs order
        → IsFaultBy logs order fault → IsFaultBy logs other fault }
{}
