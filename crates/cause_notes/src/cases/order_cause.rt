//! Calls that overtake others.

use crate::cases::embargo_cause::put_embargo_cause;
use audit_core::run_of_findings;
use past_records::NoteText;
use record_notes::{Logs, put_place};
use report_lines::call_of_step;
use run_model::{Message, Name, Step, vat_of};
use std::alloc::{AllocError, Global};
use std::collections::{BTreeMap, BTreeSet};

/// A step of a run, with the record that it is.
#[derive(Clone, Copy)]
pub(crate) struct Placed<'a> {
    pub(crate) vat: u32,
    pub(crate) at: usize,
    pub(crate) step: &'a Step,
}

/// The steps of a run, with the records that they are.
fn placed_steps<'a>(alloc: Global, steps: &'a [Step]) -> Result<Vec<Placed<'a>>, AllocError> {
    let mut counts: BTreeMap<u32, usize> = BTreeMap::new(alloc);
    let mut placed = Vec::with_capacity(alloc, steps.len())?;
    for step in steps {
        let vat = vat_of(step);
        let at = counts.get(&vat).copied().unwrap_or(0);
        placed.push(Placed { vat, at, step })?;
        counts.insert(vat, at.saturating_add(1))?;
    }
    Ok(placed)
}

/// The call that a step delivers, if it does.
fn delivery_of(step: &Step) -> Option<Name> {
    match step {
        Step::Deliver { call, .. } => Some(*call),
        _ => None,
    }
}

/// The call that this record delivers, and which step it is.
fn delivered_by(steps: &[Placed<'_>], vat: u32, at: usize) -> Option<(usize, Name)> {
    let mut numbered = steps.iter().enumerate();
    let (index, placed) = numbered.find(|(_, placed)| placed.vat == vat && placed.at == at)?;
    Some((index, delivery_of(placed.step)?))
}

/// A record that makes a call, and the reference through which it does.
#[derive(Clone, Copy)]
struct MadeCall {
    at: usize,
    call: Name,
    through: u64,
}

/// What a step makes, if it makes a call.
fn making_of(placed: &Placed<'_>) -> Option<MadeCall> {
    let Step::Make { reference, .. } = placed.step else {
        return None;
    };
    Some(MadeCall {
        at: placed.at,
        call: call_of_step(placed.step)?,
        through: *reference,
    })
}

/// The record that makes a call.
fn making_in(steps: &[Placed<'_>], call: Name) -> Option<MadeCall> {
    let mut made = steps.iter().filter_map(making_of);
    made.find(|making| making.call == call)
}

/// The calls that the vat made before this one through its reference.
fn made_before(
    alloc: Global,
    steps: &[Placed<'_>],
    early: MadeCall,
) -> Result<BTreeSet<u64>, AllocError> {
    let mut calls = BTreeSet::new(alloc);
    for other in steps.iter().filter_map(making_of) {
        let is_of_vat = other.call.maker == early.call.maker;
        if is_of_vat && other.through == early.through && other.at < early.at {
            calls.insert(other.call.number)?;
        }
    }
    Ok(calls)
}

/// The first of these calls of a vat that is delivered by one of these steps, and the place of its delivery.
fn delivered_of<'a>(
    steps: &[Placed<'a>],
    maker: u32,
    calls: &BTreeSet<u64>,
) -> Option<(Placed<'a>, Name)> {
    let mut deliveries = steps
        .iter()
        .filter_map(|one| Some((*one, delivery_of(one.step)?)));
    deliveries.find(|(_, call)| call.maker == maker && calls.contains(&call.number))
}

/// Whether a step sends or receives this call, and then the word for it.
fn passes(step: &Step, sought: Name) -> Option<&'static str> {
    let (message, word) = match step {
        Step::Send { message, .. } => (message, "sent"),
        Step::Receive { message, .. } => (message, "received"),
        _ => return None,
    };
    match message {
        Message::Call { call, .. } if *call == sought => Some(word),
        _ => None,
    }
}

/// Appends the note of a call's way: each record that sends or receives it.
fn put_way(text: &mut NoteText, steps: &[Placed<'_>], call: Name) {
    let sentence = "note: the way of call # of vat #:";
    text.tell(sentence, &[call.number, u64::from(call.maker)]);
    let mut between = " ";
    for placed in steps {
        if let Some(word) = passes(placed.step, call) {
            let place = [placed.at as u64, u64::from(placed.vat)];
            text.words(between);
            text.tell_of("@ by record # of vat #", &word, &place);
            between = ", ";
        }
    }
    if between == " " {
        text.words(" no vat sent it");
    }
    text.words("\n");
}

/// Appends the notes of a call that overtook another, and of the delivery of that one.
fn put_pair(
    text: &mut NoteText,
    logs: &Logs<'_>,
    steps: &[Placed<'_>],
    early: MadeCall,
    (delivery, overtaken): (Placed<'_>, Name),
) {
    let Some(first) = making_in(steps, overtaken) else {
        return;
    };
    let maker = early.call.maker;
    let (vat, number) = (u64::from(maker), overtaken.number);
    text.note(
        "call # of vat # overtakes call # of vat #, which was made before it through the same reference #",
        &[early.call.number, vat, number, vat, first.through],
    );
    put_place(text, logs, maker, first.at);
    put_place(text, logs, maker, early.at);
    text.note(
        "call # of vat # is delivered only by record # of vat #",
        &[number, vat, delivery.at as u64, u64::from(delivery.vat)],
    );
    put_place(text, logs, delivery.vat, delivery.at);
    put_way(text, steps, overtaken);
    put_way(text, steps, early.call);
    put_embargo_cause(text, logs, steps, overtaken, early.call);
}

/// Appends the notes of the call that the one overtakes which this record of a vat delivers.
fn put_overtaken(text: &mut NoteText, logs: &Logs<'_>, steps: &[Placed<'_>], vat: u32, at: usize) {
    if let Some((place, call)) = delivered_by(steps, vat, at)
        && let Some(early) = making_in(steps, call)
        && let Some(calls) = text.granted(made_before(text.alloc(), steps, early))
        && let Some(behind) = steps.get(place..)
        && let Some(late) = delivered_of(behind, call.maker, &calls)
    {
        put_pair(text, logs, steps, early, late);
    }
}

/// Appends the notes of the call that this record of a vat overtakes: both MAKEs, the delivery of the earlier, and the way of each.
pub(crate) fn put_order_cause(text: &mut NoteText, logs: &Logs<'_>, vat: u32, at: usize) {
    if let Some(findings) = logs.findings
        && let Some(run) = text.found(run_of_findings(text.alloc(), findings))
        && let Some(steps) = text.granted(placed_steps(text.alloc(), run.steps()))
    {
        put_overtaken(text, logs, steps.as_slice(), vat, at);
    }
}
