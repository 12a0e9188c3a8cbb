//! The audit of one log that takes one record after another.

ghost use Rattle.std.specs.Prelude.{◌≡◌, List, ◌∷◌, ◌++◌, [], Ok, IfOk, OnOk, OnErr, MatchOption};
ghost use Rattle.vat_log.specs.declared.body.Body.{Body};
ghost use Rattle.vat_rules.specs.Audit.{IsTrueOf, reads_by};
ghost use Rattle.vat_rules.specs.Audited.{with_record};
ghost use Rattle.vat_rules.specs.First.{IsFirst};
ghost use Rattle.vat_rules.specs.Slim.{outcome_in};
ghost use Rattle.vat_rules.specs.Events.{Reader, event_of};
ghost use Rattle.vat_rules.specs.Types.{Edition};
ghost use Rattle.vat_rules.specs.Glue.Taking.{IsPutNext, IsRefused, refused_at};
ghost use Rattle.vat_rules.specs.Glue.Auditing.{AreGood, Stands};

use crate::audit::edition_of_header;
use crate::slim::finding::{SlimFinding, SlimOutcome};
use crate::slim::tally::Tally;
use crate::taking::Refusal;
use crate::why::unread;
use erased::Erased;
use rpc_view::{Edition, Limits};
use std::alloc::{AllocError, Global};
use std::marker::Model;
use vat_log::{Body, LogHeader};
use vat_view::DecodedRecord;

/// The outcome of a log whose first record that isn't good is this, for this reason.
fn refused_at(at: u64, refusal: Refusal) -> SlimOutcome
    ensures { outcome_in result ≡ refused_at at refusal }
{
    match refusal {
        Refusal::Outside(why) => SlimOutcome::Outside { at, why },
        Refusal::Broken(rule) => SlimOutcome::Broken { at, rule },
    }
}

/// Judges a stored record by an edition, which is read as this one; where it is good, puts it behind those before it; else
/// why it isn't.
#[inline(always)]
fn put_event(
    alloc: Global,
    edition: Edition,
    good: &mut Tally,
    event: &DecodedRecord,
) -> Result<Option<Refusal>, AllocError>
    ensures ok { (read : Reader) (body : Body) → event_of read body ≡ Ok event.now
        → IfOk result (λ r. MatchOption r
        (IsPutNext edition read good.old body good.new) (IsRefused edition read good.old body)) }
    ensures err { OnErr result (good.new ≡ good.old) }
{
    match good.take(alloc, edition, event)? {
        Some(rule) => Ok(Some(Refusal::Broken(rule))),
        None => Ok(None),
    }
}

/// Reads a log's next record and judges it by an edition; where it is good, puts it behind those before it; else why it
/// isn't.
#[inline]
fn put_read(
    alloc: Global,
    edition: Edition,
    limits: Limits,
    good: &mut Tally,
    body: &Body,
) -> Result<Option<Refusal>, AllocError>
    ensures ok { IfOk result (λ r. MatchOption r
        (IsPutNext edition (reads_by edition limits) good.old body.now good.new)
        (IsRefused edition (reads_by edition limits) good.old body.now)) }
    ensures err { OnErr result (good.new ≡ good.old) }
{
    let read = DecodedRecord::read(alloc, body, limits, edition);
    let event = match &read {
        Ok(event) => event,
        Err(error) => return Ok(Some(unread(*error)?)),
    };
    put_event(alloc, edition, good, event)
}

/// The same. Records that bind numbers and have no frame are many, and little of them is to be read.
#[inline]
fn put_next(
    alloc: Global,
    edition: Edition,
    limits: Limits,
    good: &mut Tally,
    body: &Body,
) -> Result<Option<Refusal>, AllocError>
    ensures ok { IfOk result (λ r. MatchOption r
        (IsPutNext edition (reads_by edition limits) good.old body.now good.new)
        (IsRefused edition (reads_by edition limits) good.old body.now)) }
    ensures err { OnErr result (good.new ≡ good.old) }
{
    match *body {
        Body::Host { reference, object } => {
            put_event(
                alloc,
                edition,
                good,
                &DecodedRecord::Host { reference, object },
            )
        }
        Body::Make {
            call,
            reference,
            interface,
            method,
        } => {
            let event = DecodedRecord::Make {
                call,
                reference,
                interface,
                method,
            };
            put_event(alloc, edition, good, &event)
        }
        Body::Field {
            reference,
            call,
            ref path,
        } => {
            let event = DecodedRecord::Field {
                reference,
                call,
                path: path.copy()?,
            };
            put_event(alloc, edition, good, &event)
        }
        _ => put_read(alloc, edition, limits, good, body),
    }
}

/// The next record of a log whose records are all good so far: its number and why, where it isn't good, and then nothing is
/// kept of those before it.
fn take_next(
    alloc: Global,
    edition: Edition,
    limits: Limits,
    good: &mut Tally,
    body: &Body,
) -> Result<Option<(u64, Refusal)>, AllocError>
    ensures ok { (log : List Body) → AreGood edition (reads_by edition limits) log good.old
        → IfOk result (Stands edition (reads_by edition limits) (log ++ body.now ∷ []) good.new) }
    ensures err { OnErr result (good.new ≡ good.old) }
{
    let at = good.len();
    match put_next(alloc, edition, limits, good, body)? {
        Some(refusal) => {
            *good = Tally::new(alloc);
            Ok(Some((at, refusal)))
        }
        None => Ok(None),
    }
}

/// The first record that isn't good, if there is one, of a log that has one record more.
fn take_unless_refused(
    alloc: Global,
    edition: Edition,
    limits: Limits,
    good: &mut Tally,
    refused: Option<(u64, Refusal)>,
    body: &Body,
) -> Result<Option<(u64, Refusal)>, AllocError>
    ensures ok { (log : List Body) → Stands edition (reads_by edition limits) log good.old refused
        → IfOk result (Stands edition (reads_by edition limits) (log ++ body.now ∷ []) good.new) }
    ensures err { OnErr result (good.new ≡ good.old) }
{
    match refused {
        Some(first) => Ok(Some(first)),
        None => take_next(alloc, edition, limits, good, body),
    }
}

/// What the rules say of a log whose good records are these, or whose first that isn't good is this one.
fn outcome_of(good: Tally, refused: Option<(u64, Refusal)>) -> SlimOutcome
    ensures { (edition : Edition) (read : Reader) (log : List Body) → Stands edition read log good refused
        → IsFirst edition read log (outcome_in result) }
{
    match refused {
        None => SlimOutcome::Good(good.into_story()),
        Some((at, refusal)) => refused_at(at, refusal),
    }
}

/// The audit of one log that takes one record after another. It keeps none of them, but what the tables have of the good
/// ones and how many these are, up to the first that isn't good; then that record's number and the reason alone.
pub struct VatAudit {
    header: LogHeader,
    limits: Limits,
    taken: Erased<Body>,
    count: u64,
    good: Tally,
    refused: Option<(u64, Refusal)>,
}

impl Drop for VatAudit {
    fn drop(self) {
        let Self {
            header: _,
            limits: _,
            taken: _,
            count: _,
            good: _,
            refused: _,
        } = self;
    }
}

impl Model for VatAudit {
    ghost use Rattle.std.specs.Prelude.{◌≡◌, length, reverse};
    ghost use Rattle.vat_rules.specs.Audit.{edition_of_version, reads_by};
    ghost use Rattle.vat_rules.specs.Audited.{Audited};
    ghost use Rattle.vat_rules.specs.Glue.Auditing.{Stands};

    ghost Value = { Audited };

    ghost view = { λ audit. record {
      log = record {
        version = audit.header.version;
        vat = audit.header.vat;
        records = reverse audit.taken.items;
      };
      limits = audit.limits;
    } };

    ghost invariant = { λ audit. (audit.count ≡ length audit.taken.items)
        × Stands (edition_of_version audit.header.version)
        (reads_by (edition_of_version audit.header.version) audit.limits)
        (reverse audit.taken.items) audit.good audit.refused };
}

impl VatAudit {
    /// The audit of the log with this header, before its first record. Its version says by which edition of rpc.capnp it is
    /// judged, and each frame is read within the limits. It takes no memory.
    pub fn new(alloc: Global, header: LogHeader, limits: Limits) -> VatAudit
        ensures { result ≡ record {
          log = record { version = header.version; vat = header.vat; records = [] };
          limits = limits;
        } }
    {
        VatAudit {
            header,
            limits,
            taken: Erased::new(),
            count: 0,
            good: Tally::new(alloc),
            refused: None,
        }
    }

    /// Takes the log's next record. Once a record isn't good, those behind it are not looked at: whatever they are, the
    /// log stays refused at that record ([`refused_logs_stay_refused`](crate::refused_logs_stay_refused)).
    ///
    /// # Errors
    ///
    /// Out of memory, and then the audit is as it was.
    #[inline]
    pub fn take(&mut self, alloc: Global, body: &Body) -> Result<(), AllocError>
        ensures ok { OnOk result (self.new ≡ with_record body.now self.old) }
        ensures err { OnErr result (self.new ≡ self.old) }
    {
        let Some(count) = self.count.checked_add(1) else {
            return Err(AllocError);
        };
        let refused = take_unless_refused(
            alloc,
            edition_of_header(self.header),
            self.limits,
            &mut self.good,
            self.refused,
            body,
        )?;
        self.refused = refused;
        self.taken = self.taken.with(body);
        self.count = count;
        Ok(())
    }

    /// What the rules say of the log that has just the records taken.
    pub fn finish(self) -> SlimFinding
        ensures log { result.log ≡ self.log }
        ensures limits { result.limits ≡ self.limits }
        ensures outcome { IsTrueOf result.log result.limits result.outcome }
    {
        let VatAudit {
            header,
            limits,
            taken,
            count,
            good,
            refused,
        } = self;
        SlimFinding::new(header, taken, count, limits, outcome_of(good, refused))
    }
}
