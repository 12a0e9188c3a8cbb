//! Laws of a log's records, which hold of every log and not of one call.

ghost use Rattle.std.specs.Prelude.{◌≡◌, ◌⊎◌, ◌≤◌, ◌++◌, ℕ, List, Some, true, false, IsSome};
ghost use Rattle.vat_view.specs.Types.{DecodedRecord, Fulfil, Break, Wire, Resolution, Resolve, View, Object, Promise, FieldOf, TableKey};
ghost use Rattle.decoded_records.specs.Past.{Past, Each, id};
ghost use Rattle.decoded_records.specs.Questions.{opens, returns, finishes};
ghost use Rattle.decoded_records.specs.Lives.{introduced_count, released_count, is_resolved, GivesBackHeld};
ghost use Rattle.decoded_records.specs.Uses.{UsesQuestions};
ghost use Rattle.decoded_records.specs.Views.{view_of_reference, view_of_number};
ghost use Rattle.decoded_records.specs.Bindings.{Refers, is_bound, is_bound_call};
ghost use Rattle.vat_view.specs.Sound.{IsSound};
ghost use Rattle.vat_view.specs.Walks.{next, turns, stops, stays, TurnsOnce, Leads, LeadsByTurns, IsEnd, AreOne, Became};
ghost use Rattle.vat_view.specs.Laws.{count_since, LivesOn, EachAfter};

/// Since its last opening a question has one Return and one Finish at most, where the records before use questions as
/// they should.
pub fn openings_are_closed_once()
    ensures one_return { (past : Past) → Each UsesQuestions past
        → (q : TableKey) → count_since (opens q) (returns q) past ≤ 1 }
    ensures one_finish { (past : Past) → Each UsesQuestions past
        → (q : TableKey) → count_since (opens q) (finishes q) past ≤ 1 }
{}

/// No number goes more often than it came, where no record gives back more than is held. So what is held is the
/// difference, and not cut off at 0.
pub fn no_more_goes()
    ensures { (past : Past) → Each GivesBackHeld past
        → (i : TableKey) → released_count i past ≤ introduced_count i past }
{}

/// A reference keeps its view, where the records that follow bind references as they should.
pub fn references_keep_views()
    ensures { (later : List DecodedRecord) (past : Past) → EachAfter Refers later past
        → (r : ℕ) (v : View) → view_of_reference past r ≡ Some v
        → view_of_reference (later ++ past) r ≡ Some v }
{}

/// A number keeps its view while it is in life, where the records that follow bind references as they should.
pub fn numbers_keep_views()
    ensures { (i : TableKey) (later : List DecodedRecord) (past : Past) → LivesOn i later past
        → EachAfter Refers later past → (v : View) → view_of_number i past ≡ Some v
        → view_of_number i (later ++ past) ≡ Some v }
{}

/// Every reference that is bound has a view, where each record is as it should be after those before it.
pub fn bound_references_have_views()
    ensures { (past : Past) → Each IsSound past → (r : ℕ) → is_bound past r ≡ true
        → IsSome (view_of_reference past r) }
{}

/// Turns only grow: where the records that follow turn only views that stay, a view that turned or stopped does so for
/// ever after, and what it leads to it leads to for ever after, by 1 or more turns too.
pub fn turns_only_grow()
    ensures turned { (later : List DecodedRecord) (past : Past) → EachAfter TurnsOnce later past
        → (a b : View) → next past a ≡ turns b → next (later ++ past) a ≡ turns b }
    ensures stopped { (later : List DecodedRecord) (past : Past) → EachAfter TurnsOnce later past
        → (a : View) → next past a ≡ stops → next (later ++ past) a ≡ stops }
    ensures leads { (later : List DecodedRecord) (past : Past) → EachAfter TurnsOnce later past
        → (a b : View) → Leads past a b → Leads (later ++ past) a b }
    ensures by_turns { (later : List DecodedRecord) (past : Past) → EachAfter TurnsOnce later past
        → (a b : View) → LeadsByTurns past a b → LeadsByTurns (later ++ past) a b }
{}

/// FULFIL and BREAK turn a view that stays, where the first reference stands for an own promise that had neither.
pub fn a_promise_is_kept_once()
    ensures fulfilled { (before : Past) (r to p : ℕ) → view_of_reference before r ≡ Some (Promise p)
        → next before (Promise p) ≡ stays → TurnsOnce before (Fulfil r to) }
    ensures broken { (before : Past) (r p : ℕ) → view_of_reference before r ≡ Some (Promise p)
        → next before (Promise p) ≡ stays → TurnsOnce before (Break r) }
{}

/// A Resolve that is received turns a view that stays, where no Resolve passed in the present life of its number.
pub fn a_life_is_resolved_once()
    ensures { (before : Past) (k c : ℕ) (rs : List ℕ) (n : ℕ) (resolution : Resolution)
        → is_resolved (id k false n) before ≡ false
        → TurnsOnce before (Wire false k c rs (Resolve n resolution)) }
{}

/// What a view turns to is the view of a bound reference, or, of a field, the field of a bound call at the same path, where
/// each record is as it should be after those before it.
pub fn turns_go_to_references()
    ensures { (past : Past) → Each IsSound past → (a b : View) → next past a ≡ turns b
        → ((r : ℕ) × (is_bound past r ≡ true) × (view_of_reference past r ≡ Some b))
        ⊎ ((call by : ℕ) × (path : List ℕ) × (a ≡ FieldOf call path) × (b ≡ FieldOf by path)
        × (is_bound_call past by ≡ true)) }
{}

/// An object goes on nowhere.
pub fn objects_stay()
    ensures { (past : Past) (object : ℕ) → next past (Object object) ≡ stays }
{}

/// A view has one end at most.
pub fn ends_are_one()
    ensures { (past : Past) (a b c : View) → IsEnd past a b → IsEnd past a c → b ≡ c }
{}

/// Being one parts views into classes.
pub fn ones_are_classes()
    ensures itself { (past : Past) (a : View) → AreOne past a a }
    ensures back { (past : Past) (a b : View) → AreOne past a b → AreOne past b a }
    ensures through { (past : Past) (a b c : View) → AreOne past a b → AreOne past b c
        → AreOne past a c }
{}

/// A view is one with what it leads to, and became it where it leads there by 1 or more turns.
pub fn leads_are_one()
    ensures leads { (past : Past) (a b : View) → Leads past a b → AreOne past a b }
    ensures by_turns { (past : Past) (a b : View) → LeadsByTurns past a b → Became past a b }
{}
