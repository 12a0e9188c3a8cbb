//! Laws of pictures, which hold of every log and every reason, and not of one call.

ghost use Rattle.std.specs.Prelude.{◌≡◌, ℕ, List, Ok, true};
ghost use Rattle.cap_reader.specs.Defaults.{default_limits};
ghost use Rattle.vat_log.specs.Log.{Log};
ghost use Rattle.vat_log.specs.declared.body.Body.{Body};
ghost use Rattle.decoded_records.specs.declared.decoded.DecodedRecord.{DecodedRecord};
ghost use Rattle.decoded_records.specs.Questions.{is_late};
ghost use Rattle.vat_rules.specs.Events.{event_of, past_at};
ghost use Rattle.vat_rules.specs.Audit.{reads_by, edition_of};
ghost use Rattle.picture.specs.Rows.{late_in};
ghost use Rattle.picture.specs.ReasonText.{has_no_tag, quoted};

/// A picture and the audit call the same Returns late. Take the first `number` records of a log, and any record behind them
/// that is read as an event: a picture has this record as a late Return just where vat_view's `is_late`, by which the rules
/// judge, has the event as one. Records before it that aren't read count for neither.
pub fn late_returns_are_the_audits()
    ensures { (log : Log) (number : ℕ) (body : Body) (e : DecodedRecord)
        → event_of (reads_by (edition_of log) default_limits) body ≡ Ok e
        → late_in log number body
        ≡ is_late (past_at (reads_by (edition_of log) default_limits) log.records number) e }
{}

/// Whatever bytes a reason has, its words make no tag of the document that they stand in.
pub fn reasons_make_no_tags()
    ensures { (reason : List ℕ) → has_no_tag (quoted reason) ≡ true }
{}
