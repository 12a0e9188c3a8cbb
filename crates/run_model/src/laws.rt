//! Laws of runs, and not of one call. Each speaks of the steps before a point, the newest first, and says what it asks of
//! them.

ghost use Rattle.std.specs.Prelude.{◌≡◌, ◌≢◌, ◌↔◌, ◌≤◌, ◌++◌, ◌∷◌, [], ◌&&◌, ◌||◌, ℕ, List, Option, Some, None, IsTrue, IsFalse, IsSome, IsSomeAnd};
ghost use Rattle.std.specs.List.{list_any, AllByRecursion};
ghost use Rattle.run_model.specs.Types.{Name, Cap, Object, FieldOf, Message, Boot, Call, Return, Taken, Resolve, Step, Send, Receive};
ghost use Rattle.run_model.specs.Steps.{PastSteps, is_same_call, OneOf, EachStep, last_step_answer, count_steps};
ghost use Rattle.run_model.specs.Leads.{Turns, Leads, LeadsByTurns, Meets};
ghost use Rattle.run_model.specs.Led.{SendsLedTo};
ghost use Rattle.run_model.specs.Has.{Brings, Has};
ghost use Rattle.run_model.specs.Places.{Asked, at_vat};
ghost use Rattle.run_model.specs.Legal.{IsLegal, IsLegalRun, begins_call, ends, answers_call, hands, is_passed_back, Became, arrives, answers_or_faults, delivers_call};
ghost use Rattle.run_model.specs.Links.{IsLinked, IsLinkedRun};
ghost use Rattle.run_model.specs.UnderWay.{IsUnderWay, IsSomewhere};
ghost use Rattle.run_model.specs.Right.{request_in_make, ReachesObject, IsOrdered};
ghost use Rattle.run_model.specs.Early.{early, IsOrderFault};
ghost use Rattle.run_model.specs.Edges.{IsForeign, Edge, AreEdges};
ghost use Rattle.run_model.specs.Reordered.{HaveSameSteps, KeepsReferences};

/// Turns only grow: once a cap turns to another, it does so from then on, and what it leads to it leads to from then on,
/// by 1 or more turns too.
pub fn turns_only_grow()
    ensures turned { (later before : PastSteps) (a b : Cap) → Turns before a b
        → Turns (later ++ before) a b }
    ensures leads { (later before : PastSteps) (a b : Cap) → Leads before a b
        → Leads (later ++ before) a b }
    ensures by_turns { (later before : PastSteps) (a b : Cap) → LeadsByTurns before a b
        → LeadsByTurns (later ++ before) a b }
{}

/// A cap leads where what it leads to does; by 1 or more turns, if either part is.
pub fn leads_are_transitive()
    ensures leads { (before : PastSteps) (a b c : Cap) → Leads before a b → Leads before b c
        → Leads before a c }
    ensures turned_first { (before : PastSteps) (a b c : Cap) → LeadsByTurns before a b
        → Leads before b c → LeadsByTurns before a c }
    ensures turned_then { (before : PastSteps) (a b c : Cap) → Leads before a b
        → LeadsByTurns before b c → LeadsByTurns before a c }
{}

/// An object turns to nothing.
pub fn objects_stay()
    ensures { (before : PastSteps) (vat object : ℕ) (b : Cap) → Turns before (Object vat object) b
        → ⊥ }
{}

/// Where each step is legal, a call is made or booted once, a promise is kept or broken once, and a call is answered or
/// faulted once.
pub fn what_comes_once()
    ensures begun { (before : PastSteps) → EachStep IsLegal before → (c : Name)
        → count_steps (begins_call c) before ≤ 1 }
    ensures ended { (before : PastSteps) → EachStep IsLegal before → (vat promise : ℕ)
        → count_steps (ends vat promise) before ≤ 1 }
    ensures settled { (before : PastSteps) → EachStep IsLegal before → (c : Name)
        → count_steps (answers_or_faults c) before ≤ 1 }
{}

/// Where each step is legal, a cap turns to one cap at most, and leads to one object at most.
pub fn turns_go_one_way()
    ensures turned { (before : PastSteps) → EachStep IsLegal before → (a b c : Cap)
        → Turns before a b → Turns before a c → b ≡ c }
    ensures object { (before : PastSteps) → EachStep IsLegal before → (a : Cap) (v o w p : ℕ)
        → Leads before a (Object v o) → Leads before a (Object w p) → (v ≡ w) × (o ≡ p) }
{}

/// A cap is one with itself, and with what it leads to (`leads`). If it is one with another, that is one with it (`back`), and
/// they stay one (`later`). Where each step is legal, caps that are one with a third are one (`through`). A cap that is one
/// with an object leads to it (`object`). A cap became what it leads to by 1 or more turns (`became`).
pub fn caps_that_are_one()
    ensures itself { (before : PastSteps) (a : Cap) → Meets before a a }
    ensures back { (before : PastSteps) (a b : Cap) → Meets before a b → Meets before b a }
    ensures through { (before : PastSteps) → EachStep IsLegal before → (a b c : Cap)
        → Meets before a b → Meets before b c → Meets before a c }
    ensures leads { (before : PastSteps) (a b : Cap) → Leads before a b → Meets before a b }
    ensures became { (before : PastSteps) (a b : Cap) → LeadsByTurns before a b
        → Became before a b }
    ensures object { (before : PastSteps) (a : Cap) (vat number : ℕ)
        → Meets before a (Object vat number) → Leads before a (Object vat number) }
    ensures later { (later before : PastSteps) (a b : Cap) → Meets before a b
        → Meets (later ++ before) a b }
{}

/// What a vat has, it has for ever.
pub fn what_is_had_stays_had()
    ensures { (later before : PastSteps) (vat : ℕ) (a : Cap) → Has before vat a
        → Has (later ++ before) vat a }
{}

/// Where each step is legal, what a vat has of another came to it with a message.
pub fn what_is_foreign_was_brought()
    ensures { (before : PastSteps) → EachStep IsLegal before → (vat : ℕ) (a : Cap) → IsForeign vat a
        → Has before vat a → OneOf (Brings vat a) before }
{}

/// What is received was sent before, by another vat on the same connection.
pub fn what_is_received_was_sent()
    ensures { (before : PastSteps) (v connection : ℕ) (m : Message) (bound : List Cap)
        → IsLinked before (Receive v connection m bound)
        → (w : ℕ) × (later earlier : PastSteps) × (w ≢ v)
        × (before ≡ later ++ Send w connection m ∷ earlier) }
{}

/// Where each step is legal, what a received message says holds: the call of a Return with results was answered or passed
/// back, its field became what the Return gives at each path, and a promise became what a Resolve says. The call of a Return
/// that takes a call's results was answered by that one, or is that one and was passed back (`taken`). Where a call was
/// answered by another, each of its fields turns to the other's at the same path (`fields`).
pub fn what_is_received_is_led_to()
    ensures results { (before : PastSteps) → EachStep IsLegal before
        → (v connection : ℕ) (c : Name) (results : List (List ℕ × Cap)) (caps bound : List Cap)
        → IsLinked before (Receive v connection (Return c results caps) bound)
        → AllByRecursion (λ result. Became before (FieldOf c result.0) result.1) results }
    ensures answered { (before : PastSteps) → EachStep IsLegal before
        → (v connection : ℕ) (c : Name) (results : List (List ℕ × Cap)) (caps bound : List Cap)
        → IsLinked before (Receive v connection (Return c results caps) bound)
        → IsTrue (list_any (answers_call c) before || is_passed_back c before) }
    ensures resolved { (before : PastSteps) → EachStep IsLegal before
        → (v connection : ℕ) (promise cap : Cap) (bound : List Cap)
        → IsLinked before (Receive v connection (Resolve promise cap) bound)
        → Became before promise cap }
    ensures taken { (before : PastSteps) → EachStep IsLegal before
        → (v connection : ℕ) (c by : Name) (bound : List Cap)
        → IsLinked before (Receive v connection (Taken c by) bound)
        → IsTrue (list_any (hands c by) before || (is_same_call c by && is_passed_back c before)) }
    ensures fields { (before : PastSteps) (c by : Name) (path : List ℕ)
        → IsTrue (list_any (hands c by) before)
        → Turns before (FieldOf c path) (FieldOf by path) }
{}

/// Where each step sends only what is led to, what is received is led to as well: the field of a Return's call leads by 1 or
/// more turns to what the Return gives at each path, a promise to what its Resolve says, and the call of a Return that takes
/// a call's results was answered by that one (`taken`). A call that was passed back was answered by itself there
/// (`passed_back`).
pub fn what_is_received_was_led_to()
    ensures results { (before : PastSteps) → EachStep SendsLedTo before
        → (v connection : ℕ) (c : Name) (results : List (List ℕ × Cap)) (caps bound : List Cap)
        → IsLinked before (Receive v connection (Return c results caps) bound)
        → AllByRecursion (λ result. LeadsByTurns before (FieldOf c result.0) result.1) results }
    ensures resolved { (before : PastSteps) → EachStep SendsLedTo before
        → (v connection : ℕ) (promise cap : Cap) (bound : List Cap)
        → IsLinked before (Receive v connection (Resolve promise cap) bound)
        → LeadsByTurns before promise cap }
    ensures taken { (before : PastSteps) → EachStep SendsLedTo before
        → (v connection : ℕ) (c by : Name) (bound : List Cap)
        → IsLinked before (Receive v connection (Taken c by) bound)
        → IsTrue (list_any (hands c by) before) }
    ensures passed_back { (before : PastSteps) → EachStep SendsLedTo before
        → (c : Name) → IsTrue (is_passed_back c before) → IsTrue (list_any (hands c c) before) }
{}

/// Where each step is legal and keeps to its link, a call is at one vat at most, and at none while it is under way or comes
/// out of a link. While it is at a vat or under way it wasn't delivered, answered or faulted, and it is delivered once at
/// most.
pub fn a_call_has_one_place()
    ensures at_one { (before : PastSteps) → EachStep IsLegal before → EachStep IsLinked before
        → (c : Name) (v w : ℕ) → IsSome (at_vat before c v) → IsSome (at_vat before c w) → v ≡ w }
    ensures at_rest { (before : PastSteps) → EachStep IsLegal before → EachStep IsLinked before
        → (c : Name) (v : ℕ) → IsSome (at_vat before c v) → IsUnderWay before c → ⊥ }
    ensures received { (before : PastSteps) → EachStep IsLegal before → EachStep IsLinked before
        → (c : Name) (v connection w : ℕ) (target : Cap) (interface method : ℕ)
        (caps bound : List Cap)
        → IsLinked before (Receive v connection (Call c target interface method caps) bound)
        → at_vat before c w ≡ None }
    ensures undelivered_here { (before : PastSteps) → EachStep IsLegal before
        → EachStep IsLinked before → (c : Name) (v : ℕ)
        → IsSome (at_vat before c v) → IsFalse (list_any (delivers_call c) before) }
    ensures undelivered_there { (before : PastSteps) → EachStep IsLegal before
        → EachStep IsLinked before → (c : Name) → IsUnderWay before c
        → IsFalse (list_any (delivers_call c) before) }
    ensures unsettled_here { (before : PastSteps) → EachStep IsLegal before
        → EachStep IsLinked before → (c : Name) (v : ℕ)
        → IsSome (at_vat before c v) → IsFalse (list_any (answers_or_faults c) before) }
    ensures unsettled_there { (before : PastSteps) → EachStep IsLegal before
        → EachStep IsLinked before → (c : Name) → IsUnderWay before c
        → IsFalse (list_any (answers_or_faults c) before) }
    ensures delivered { (before : PastSteps) → EachStep IsLegal before → EachStep IsLinked before
        → (c : Name) → count_steps (delivers_call c) before ≤ 1 }
{}

/// Where each step is legal and keeps to its link, a call arrives once at most, where it is delivered or its Bootstrap is
/// received, and at one vat at most. A call whose Bootstrap is received arrived nowhere before, and wasn't answered or
/// faulted.
pub fn a_call_arrives_once()
    ensures booted { (before : PastSteps) → EachStep IsLegal before → EachStep IsLinked before
        → (c : Name) (v connection w : ℕ) (bound : List Cap)
        → IsLinked before (Receive v connection (Boot c) bound)
        → IsFalse (list_any (arrives c w) before) }
    ensures unsettled { (before : PastSteps) → EachStep IsLegal before → EachStep IsLinked before
        → (c : Name) (v connection : ℕ) (bound : List Cap)
        → IsLinked before (Receive v connection (Boot c) bound)
        → IsFalse (list_any (answers_or_faults c) before) }
    ensures once { (before : PastSteps) → EachStep IsLegal before → EachStep IsLinked before
        → (c : Name) (v : ℕ) → count_steps (arrives c v) before ≤ 1 }
    ensures at_one { (before : PastSteps) → EachStep IsLegal before → EachStep IsLinked before
        → (c : Name) (v w : ℕ) → IsTrue (list_any (arrives c v) before)
        → IsTrue (list_any (arrives c w) before) → v ≡ w }
{}

/// Where each step keeps to its link, a call that was made is at a vat, or under way between two, or was delivered or
/// faulted.
pub fn a_call_is_somewhere()
    ensures { (before : PastSteps) → EachStep IsLinked before → (c : Name)
        → IsSome (last_step_answer (request_in_make c) before) → IsSomewhere before c }
{}

/// Where each step is legal and keeps to its link, a call that is at a vat was made, the cap that it was made through and its
/// goal there are one, and interface and method are its Make's.
pub fn calls_come_from_their_makers()
    ensures { (before : PastSteps) → EachStep IsLegal before → EachStep IsLinked before
        → (c : Name) (vat : ℕ) (here : Asked) → at_vat before c vat ≡ Some here
        → IsSomeAnd (last_step_answer (request_in_make c) before)
        (λ asked. Meets before asked.goal here.goal × (here.interface ≡ asked.interface)
        × (here.method ≡ asked.method)) }
{}

/// Where each step is legal and keeps to its link, each call that is delivered reaches the object that it was to go to.
pub fn calls_reach_their_objects()
    ensures { (before : PastSteps) → EachStep IsLegal before → EachStep IsLinked before
        → EachStep ReachesObject before }
{}

/// A run is ordered exactly where no step of it is early.
pub fn runs_are_ordered_unless_early()
    ensures { (run : List Step) → (early run ≡ []) ↔ IsOrdered run }
{}

/// A run has one order fault, or none, and one list of edges.
pub fn a_run_has_one_fault()
    ensures fault { (run : List Step) (place other : Option (ℕ × ℕ)) → IsOrderFault run place
        → IsOrderFault run other → place ≡ other }
    ensures edges { (run : List Step) (edges others : List Edge) → AreEdges run edges
        → AreEdges run others → edges ≡ others }
{}

/// Another order of the same steps breaks the order of calls where this one does: of two runs over links in which each vat
/// has the same steps, and each reference stands for one cap, the same steps are early (`early`), so the order fault of the
/// one is that of the other (`fault`). The edges of the one are those of the other, since each is of one vat's steps
/// (`edges`).
pub fn orders_break_alike()
    ensures early { (run other : List Step) → IsLegalRun run → IsLinkedRun run → KeepsReferences run
        → HaveSameSteps run other → (place : ℕ × ℕ) → OneOf (λ p. p ≡ place) (early run)
        → OneOf (λ p. p ≡ place) (early other) }
    ensures fault { (run other : List Step) → IsLegalRun run → IsLinkedRun run → IsLegalRun other
        → IsLinkedRun other → KeepsReferences run → HaveSameSteps run other
        → (place : Option (ℕ × ℕ)) → IsOrderFault run place → IsOrderFault other place }
    ensures edges { (run other : List Step) → HaveSameSteps run other → (edges : List Edge)
        → AreEdges run edges → AreEdges other edges }
{}
