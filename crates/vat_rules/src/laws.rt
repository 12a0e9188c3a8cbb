//! Laws of logs, which hold of every log and not of one call.

ghost use Rattle.std.specs.Prelude.{ℕ, ◌≤◌, ◌++◌, List};
ghost use Rattle.decoded_records.specs.Past.{Past, Each};
ghost use Rattle.decoded_records.specs.Questions.{opens, returns, finishes};
ghost use Rattle.decoded_records.specs.declared.table_key.TableKey.{TableKey};
ghost use Rattle.vat_rules.specs.Types.{DecodedRecord, View};
ghost use Rattle.vat_view.specs.Walks.{TurnsOnce, Leads};
ghost use Rattle.vat_view.specs.Laws.{EachAfter, count_since};
ghost use Rattle.vat_rules.specs.Judged.{IsGood};
ghost use Rattle.cap_reader.specs.declared.limits.Limits.{Limits};
ghost use Rattle.vat_log.specs.Log.{Log};
ghost use Rattle.vat_rules.specs.LogFacts.{Told};
ghost use Rattle.vat_rules.specs.Editions.{KeepsMore, IsGoodByLater, HasNoLightReturns};
ghost use Rattle.vat_rules.specs.declared.rule.Rule.{Rule};
ghost use Rattle.vat_rules.specs.declared.outcome.Why.{Why};
ghost use Rattle.vat_rules.specs.declared.outcome.Outcome.TheVariants.{Broken, Outside};
ghost use Rattle.vat_rules.specs.Refused.{StaysSo};

/// A good record behind good ones turns only views that stay: a promise is kept or broken once, an import is resolved
/// once, and a call is answered once, by this vat or by the one that it was sent to. So in a good log what a view once
/// led to it leads to for ever after (`leads`), and so it is with what it turned to (`vat_view::turns_only_grow`).
pub fn good_records_turn_once()
    ensures next { (before : Past) → Each IsGood before → (e : DecodedRecord) → IsGood before e
        → TurnsOnce before e }
    ensures all { (later : List DecodedRecord) (past : Past) → Each IsGood (later ++ past)
        → EachAfter TurnsOnce later past }
    ensures leads { (later : List DecodedRecord) (past : Past) → Each IsGood (later ++ past)
        → (a b : View) → Leads past a b → Leads (later ++ past) a b }
{}

/// In a good log a question has one Return and one Finish at most since its last opening
/// (`vat_view::openings_are_closed_once`).
pub fn good_openings_are_closed_once()
    ensures one_return { (past : Past) → Each IsGood past → (q : TableKey)
        → count_since (opens q) (returns q) past ≤ 1 }
    ensures one_finish { (past : Past) → Each IsGood past → (q : TableKey)
        → count_since (opens q) (finishes q) past ≤ 1 }
{}

/// The later edition of rpc.capnp lets more pass: a record that is good by the first one is good by it.
pub fn later_edition_keeps_more()
    ensures { (before : Past) (e : DecodedRecord) → KeepsMore before e }
{}

/// A log that is good by its own edition is good by the later one, with the same records, and tells the same. So whoever
/// stands on good logs needs to know of one edition alone, also where their editions differ.
pub fn good_logs_are_good()
    ensures { (log : Log) (limits : Limits) (story : Told) → IsGoodByLater log limits story }
{}

/// In a log of version 1 or 2 no Return says that no Finish is needed: a question's number is free there when the question
/// is over, and not before.
pub fn earlier_logs_have_no_light_returns()
    ensures { (log : Log) (limits : Limits) → HasNoLightReturns log limits }
{}

/// A log whose first record that isn't good is this one has the same outcome whatever comes behind it: so an audit that
/// takes one record after another is done there.
pub fn refused_logs_stay_refused()
    ensures broken { (log : Log) (limits : Limits) (at : ℕ) (rule : Rule)
        → StaysSo log limits (Broken at rule) }
    ensures outside { (log : Log) (limits : Limits) (at : ℕ) (why : Why)
        → StaysSo log limits (Outside at why) }
{}
