//! Laws of turns that take all records of a case.

ghost use Rattle.std.specs.Prelude.{◌≡◌, ◌≢◌, Bool, Contains, List, Some, count_by, length, sum_by};
ghost use Rattle.std.specs.List.Sorted.{IsStrictlyIncreasing};
ghost use Rattle.case_book.specs.Case.{connections_of};
ghost use Rattle.case_book.specs.declared.link.Link.{Link};
ghost use Rattle.lock_step.specs.Links.{link_on};
ghost use Rattle.lock_step.specs.Taking.{count_turns};
ghost use Rattle.merge_order.specs.Fits.{IsRising};
ghost use Rattle.turn_taking.specs.Turns.{Turns, AreAll};
ghost use Rattle.vat_log.specs.Log.{Log};
ghost use Rattle.vat_log.specs.declared.body.Body.{Body};

/// Turns that took all records of some logs, which are of different vats, are as many as the records (`all`), and as many of
/// them pass a test (`some`).
pub fn turns_are_records()
    ensures all { (logs : List Log) (turns : Turns) → IsRising logs → AreAll logs turns
        → length turns ≡ sum_by (λ log. length log.records) logs }
    ensures some { (logs : List Log) (turns : Turns) (test : Body → Bool) → IsRising logs → AreAll logs turns
        → count_turns test turns ≡ sum_by (λ log. count_by test log.records) logs }
{}

/// Where links stand by rising connection, each of them that has two vats as its ends is the link of its connection.
pub fn links_are_on_their_connections()
    ensures { (links : List Link) (link : Link) → IsStrictlyIncreasing (connections_of links) → Contains links link
        → link.a ≢ link.b → link_on links link.connection ≡ Some link }
{}
