//! Laws of turns: what they tell of the orders of whole logs.

ghost use Rattle.std.specs.Prelude.{◌≡◌, ℕ, List, ◌∷◌, ◌++◌, length};
ghost use Rattle.merge_order.specs.Fits.{IsRising, IsFitting, TakesLeast, finding_of_order};
ghost use Rattle.merge_order.specs.declared.order_check.OrderFinding.TheVariants.{Fits, Fails};
ghost use Rattle.turn_taking.specs.Turns.{Turns, order_of, AreInOrder, AreOf, AreAll};
ghost use Rattle.turn_taking.specs.Orders.{AreLeft, IsHeldUp, AreStuck};
ghost use Rattle.vat_log.specs.Log.{Log};

/// Turns in order that took all records of some logs make an order that fits these logs.
pub fn turns_make_an_order()
    ensures { (logs : List Log) → IsRising logs → (turns : Turns) → AreInOrder turns
        → AreAll logs turns → IsFitting logs (order_of turns) }
{}

/// Where no record may come next behind turns in order, and records are left, no order fits the logs: whatever turns were
/// taken, taking a record that may come next never loses an order that fits.
pub fn stuck_turns_have_no_order()
    ensures { (logs : List Log) → IsRising logs → (turns : Turns) → AreInOrder turns
        → AreOf logs turns → AreStuck logs turns → AreLeft logs turns
        → (order : List ℕ) → IsFitting logs order → ⊥ }
{}

/// Where an order fits some logs, so does the one that takes the smallest vat number that may come at each step.
pub fn least_order_exists()
    ensures { (logs : List Log) (order : List ℕ) → IsFitting logs order
        → (least : List ℕ) × TakesLeast logs least × IsFitting logs least }
{}

/// What is found of an order that begins with turns in order: it fits where they took all records (`all`). It fails behind
/// them where it goes on with a vat of which no record may come next (`held`), or ends though records are left (`ends`).
pub fn turns_begin_an_order()
    ensures all { (logs : List Log) → IsRising logs → (turns : Turns) → AreInOrder turns
        → AreAll logs turns → finding_of_order logs (order_of turns) ≡ Fits }
    ensures held { (logs : List Log) → IsRising logs → (turns : Turns) → AreInOrder turns
        → AreOf logs turns → (vat : ℕ) → IsHeldUp logs turns vat → (rest : List ℕ)
        → finding_of_order logs (order_of turns ++ vat ∷ rest) ≡ Fails (length turns) }
    ensures ends { (logs : List Log) → IsRising logs → (turns : Turns) → AreInOrder turns
        → AreOf logs turns → AreLeft logs turns
        → finding_of_order logs (order_of turns) ≡ Fails (length turns) }
{}
