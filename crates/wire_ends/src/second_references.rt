//! Calls that overtake others, made through references of their own.
//!
//! A wire doesn't tell through which reference a call was made. So each call is made through the first reference of its target,
//! and where it would come before one that was made earlier, through another one, which is a promise that became that first one:
//! between the two no order holds.

use crate::made_calls::{CallMade, calls_made};
use rising_table::RisingTable;
use std::alloc::{AllocError, Global};
use std::mem;
use vat_log::Body;
use wire_cut::{End, Overtaking};
use wire_steps::EndStep;

/// The steps of an end, and how many references there are in them.
#[derive(Drop)]
pub(crate) struct EndSteps {
    pub steps: Vec<EndStep>,
    pub references: u64,
}

/// The calls of one end that overtake others.
#[derive(Drop)]
struct Overtakers {
    end: End,
    /// The call of each reference that was delivered last, of those that overtake none.
    last: RisingTable<CallMade>,
    /// Whether a call of this number overtakes another.
    calls: RisingTable<bool>,
    /// The first that do.
    found: Option<Overtaking>,
}

impl Overtakers {
    /// None of an end.
    fn new(alloc: Global, end: End) -> Overtakers {
        Overtakers {
            end,
            last: RisingTable::new(alloc),
            calls: RisingTable::new(alloc),
            found: None,
        }
    }

    /// A call overtakes another.
    fn add(&mut self, overtaken: CallMade, call: CallMade) -> Result<(), AllocError> {
        self.calls.put(call.number, true)?;
        self.found = Some(match self.found {
            Some(first) => Overtaking {
                others: first.others.saturating_add(1),
                ..first
            },
            None => Overtaking {
                end: self.end,
                earlier: overtaken.message as u64,
                later: call.message as u64,
                others: 0,
            },
        });
        Ok(())
    }

    /// Looks at the next call that was made, if it was by this end.
    fn look(&mut self, call: CallMade) -> Result<(), AllocError> {
        if call.end != self.end || call.delivered.is_none() {
            return Ok(());
        }
        match self.last.get(call.reference).copied() {
            Some(last) if call.is_before(last) => self.add(last, call),
            _ => self.last.put(call.reference, call),
        }
    }

    /// Looks at the calls that were made, in their order.
    fn look_at_all(&mut self, calls: &[CallMade]) -> Result<(), AllocError> {
        for call in calls {
            self.look(*call)?;
        }
        Ok(())
    }

    /// Where a call is made that overtakes another, makes it through a new reference, a promise that became the first one.
    fn remake(&self, body: &mut Body, into: &mut EndSteps) -> Result<(), AllocError> {
        let Body::Make {
            call,
            reference,
            ..
        } = body
        else {
            return Ok(());
        };
        if self.calls.has(*call) {
            into.references = into.references.saturating_add(1);
            let (second, to) = (into.references, *reference);
            into.steps
                .push(EndStep::Note(Body::Vow { reference: second }))?;
            into.steps.push(EndStep::Note(Body::Fulfil {
                reference: second,
                to,
            }))?;
            *reference = second;
        }
        Ok(())
    }

    /// Puts a step behind the others.
    fn put(&self, mut step: EndStep, into: &mut EndSteps) -> Result<(), AllocError> {
        if let EndStep::Note(body) = &mut step {
            self.remake(body, into)?;
        }
        into.steps.push(step)?;
        Ok(())
    }

    /// Has each call that overtakes another made through a reference of its own.
    fn part(&self, alloc: Global, of_end: &mut EndSteps) -> Result<(), AllocError> {
        let room = Vec::with_capacity(alloc, of_end.steps.len())?;
        for step in mem::replace(&mut of_end.steps, room) {
            self.put(step, of_end)?;
        }
        Ok(())
    }
}

/// Has each of an end's calls that overtakes another made through a reference of its own, and finds the first ones that do.
fn part_end(
    alloc: Global,
    end: End,
    calls: &[CallMade],
    of_end: &mut EndSteps,
) -> Result<Option<Overtaking>, AllocError> {
    let mut overtakers = Overtakers::new(alloc, end);
    overtakers.look_at_all(calls)?;
    if overtakers.found.is_some() {
        overtakers.part(alloc, of_end)?;
    }
    Ok(overtakers.found)
}

/// Has each call that overtakes another made through a reference of its own, and finds the first ones of each end that do.
pub(crate) fn part_references(
    alloc: Global,
    a: &mut EndSteps,
    b: &mut EndSteps,
) -> Result<[Option<Overtaking>; 2], AllocError> {
    let calls = calls_made(alloc, &a.steps, &b.steps)?;
    Ok([
        part_end(alloc, End::A, &calls, a)?,
        part_end(alloc, End::B, &calls, b)?,
    ])
}
