//! The audit of one log.

ghost use Rattle.std.specs.Prelude.{◌≡◌, [], IfOk, MatchOption, count_by, length, map, reverse};
ghost use Rattle.std.specs.Arc.{arc_value};
ghost use Rattle.vat_rules.specs.Telling.{is_delivery, entries_back};
ghost use Rattle.vat_rules.specs.Events.{past_at};
ghost use Rattle.vat_rules.specs.First.{AllGood};
ghost use Rattle.vat_rules.specs.Audit.{IsTrueOf, reads_by, edition_of, edition_of_version};
ghost use Rattle.vat_rules.specs.Glue.Taking.{IsGathered, IsRefused, refused_at};

use crate::facts::gathered::Gathered;
use crate::facts::story::Story;
use crate::finding::VatFinding;
use crate::outcome::Outcome;
use crate::taking::{Refusal, take};
use crate::why::unread;
use rpc_view::{Edition, Limits};
use std::alloc::{AllocError, Global};
use std::sync::Arc;
use vat_log::{Body, LogHeader, VatLog};
use vat_view::{DecodedRecord, VatState};

/// Whether a record delivers a call.
#[tactic(auto, unfolding(crate::specs::Telling::is_delivery))]
pub(crate) fn is_delivery(event: &DecodedRecord) -> bool
    ensures { result ≡ is_delivery event.now }
{
    matches!(event, DecodedRecord::Deliver { .. })
}

/// How many records deliver a call.
fn deliveries(events: &[DecodedRecord]) -> u64
    ensures { result ≡ count_by is_delivery events.now }
{
    let mut delivered = 0;
    for event in events {
        if is_delivery(event) {
            delivered += 1;
        }
    }
    delivered
}

/// What records tell that were gathered.
fn story_of(gathered: Gathered) -> Story
    ensures { result ≡ record {
      entries = gathered;
      delivered = count_by is_delivery (map (λ entry. entry.event) gathered);
    } }
{
    let delivered = deliveries(gathered.events());
    Story::new(gathered, delivered)
}

/// The edition of rpc.capnp by which a log with this header is judged: its version says it.
#[tactic(auto, using(crate::proofs::Editions::later_if, crate::proofs::Editions::first_if))]
pub fn edition_of_header(header: LogHeader) -> Edition
    ensures { result ≡ edition_of_version header.version }
{
    if header.version() == 3 {
        Edition::Later
    } else {
        Edition::First
    }
}

/// The edition of rpc.capnp by which a log is judged.
pub fn edition_of(log: &VatLog) -> Edition
    ensures { result ≡ edition_of log.now }
{
    edition_of_header(log.header())
}

/// The outcome of a log whose first record that isn't good is this, for this reason.
fn refused_at(at: u64, refusal: Refusal) -> Outcome
    ensures { result ≡ refused_at at refusal }
{
    match refusal {
        Refusal::Outside(why) => Outcome::Outside { at, why },
        Refusal::Broken(rule) => Outcome::Broken { at, rule },
    }
}

/// Reads one record more and judges it by an edition; where it is good, applies it and puts it behind those that were
/// gathered, with its facts; else why it isn't.
fn gather(
    alloc: Global,
    edition: Edition,
    limits: Limits,
    state: &mut VatState,
    gathered: &mut Gathered,
    body: &Body,
) -> Result<Option<Refusal>, AllocError>
    ensures { IfOk result (λ r. MatchOption r
        (IsGathered edition (reads_by edition limits) state.old body.now state.new gathered.old gathered.new)
        (IsRefused edition (reads_by edition limits) state.old body.now)) }
{
    let event = match DecodedRecord::read(alloc, body, limits, edition) {
        Ok(event) => event,
        Err(error) => return Ok(Some(unread(error)?)),
    };
    match take(alloc, edition, state, &event)? {
        Ok(facts) => {
            gathered.push(event, facts)?;
            Ok(None)
        }
        Err(rule) => Ok(Some(Refusal::Broken(rule))),
    }
}

/// Judges the records of a log in turn by the log's edition, to the first that is outside or breaks a rule, and applies
/// those before it.
fn judge_each(
    alloc: Global,
    log: &VatLog,
    limits: Limits,
    state: &mut VatState,
    gathered: &mut Gathered,
) -> Result<Option<Outcome>, AllocError>
    requires applied { state.old ≡ [] }
    requires gathered { gathered.old ≡ [] }
    ensures { IfOk result (λ o. MatchOption o
        (AllGood (edition_of log.now) (reads_by (edition_of log.now) limits)
        log.now.records (length log.now.records)
        × (state.new ≡ past_at (reads_by (edition_of log.now) limits)
        log.now.records (length log.now.records))
        × (gathered.new ≡ reverse (entries_back state.new)))
        (λ outcome. IsTrueOf log.now limits outcome)) }
{
    let edition = edition_of(log);
    for at in 0..log.len() {
        let Some(stored) = log.get(at) else {
            unreachable!()
        };
        if let Some(refusal) = gather(alloc, edition, limits, state, gathered, stored.body())? {
            return Ok(Some(refused_at(at as u64, refusal)));
        }
    }
    Ok(None)
}

/// What the rules say of a log whose frames are read within the limits.
fn outcome_of(alloc: Global, log: &VatLog, limits: Limits) -> Result<Outcome, AllocError>
    ensures { IfOk result (λ outcome. IsTrueOf log.now limits outcome) }
{
    let mut state = VatState::new(alloc);
    let mut gathered = Gathered::with_room(alloc, log.len())?;
    match judge_each(alloc, log, limits, &mut state, &mut gathered)? {
        Some(outcome) => Ok(outcome),
        None => Ok(Outcome::Good(story_of(gathered))),
    }
}

/// The audit of a log, each of whose frames is read within the limits: by the edition of rpc.capnp that the log's version
/// says, the first record that is outside of what is
/// audited or breaks a rule, with the reason or the first rule that it breaks, or what the log tells. The rules are
/// those of rpc.capnp's comments and of how a log is kept (docs/RULES.md).
///
/// # Errors
///
/// Out of memory, and then nothing is kept.
pub fn audit_vat(alloc: Global, log: &Arc<VatLog>, limits: Limits) -> Result<VatFinding, AllocError>
    ensures log { IfOk result (λ finding. finding.log ≡ arc_value log.now) }
    ensures limits { IfOk result (λ finding. finding.limits ≡ limits) }
    ensures outcome { IfOk result (λ finding. IsTrueOf finding.log finding.limits finding.outcome) }
{
    let outcome = outcome_of(alloc, log, limits)?;
    Ok(VatFinding::new(Arc::try_clone(log)?, limits, outcome))
}
