//! The calls that the two ends make, as their steps tell them: through which reference each was made, which message carries it
//! first, and when it was delivered.

use rising_table::RisingTable;
use std::alloc::{AllocError, Global};
use vat_log::Body;
use wire_cut::End;
use wire_steps::EndStep;

/// A call that an end made.
#[derive(Clone, Copy)]
pub(crate) struct CallMade {
    /// Who made it.
    pub end: End,
    /// Its number among its maker's steps.
    pub number: u64,
    /// The reference through which it was made.
    pub reference: u64,
    /// The message of its maker that comes next, which carries it.
    pub message: usize,
    /// How many deliveries came before its own, if it is delivered.
    pub delivered: Option<usize>,
}

impl CallMade {
    /// Whether both are delivered, and this one before the other.
    pub(crate) fn is_before(self, other: CallMade) -> bool {
        match (self.delivered, other.delivered) {
            (Some(own), Some(others)) => own < others,
            _ => false,
        }
    }
}

/// How far the steps of an end were followed.
struct Following<'a> {
    end: End,
    steps: &'a [EndStep],
    /// How many of its steps were taken.
    at: usize,
    /// The call of each message that it sent, if that was made.
    sent: Vec<Option<usize>>,
    /// How many messages it received.
    received: usize,
    /// The calls by the numbers that its steps have for them.
    calls: RisingTable<usize>,
}

impl Drop for Following<'_> {
    fn drop(self) {
        let Self {
            end: _,
            steps: _,
            at: _,
            sent: _,
            received: _,
            calls: _,
        } = self;
    }
}

/// The calls that were made so far, and how many were delivered.
#[derive(Drop)]
struct CallsMade {
    calls: Vec<CallMade>,
    delivered: usize,
}

impl CallsMade {
    /// A call is delivered, if it was made by either end.
    fn deliver(&mut self, call: Option<usize>) {
        if let Some(call) = call {
            if let Some(made) = self.calls.get_mut(call) {
                made.delivered = Some(self.delivered);
                self.delivered = self.delivered.saturating_add(1);
            }
        }
    }
}

impl<'a> Following<'a> {
    /// No step of these is taken.
    fn new(alloc: Global, end: End, steps: &'a [EndStep]) -> Following<'a> {
        Following {
            end,
            steps,
            at: 0,
            sent: Vec::new(alloc),
            received: 0,
            calls: RisingTable::new(alloc),
        }
    }

    /// The call that its steps have this number for.
    fn call(&self, number: u64) -> Option<usize> {
        self.calls.get(number).copied()
    }

    /// Takes a step that is neither sent nor received.
    fn note(&mut self, body: &Body, made: &mut CallsMade) -> Result<(), AllocError> {
        match body {
            Body::Make {
                call,
                reference,
                ..
            } => {
                self.calls.put(*call, made.calls.len())?;
                made.calls.push(CallMade {
                    end: self.end,
                    number: *call,
                    reference: *reference,
                    message: self.sent.len(),
                    delivered: None,
                })?;
            }
            Body::Deliver { call, .. } => made.deliver(self.call(*call)),
            _ => {}
        }
        Ok(())
    }

    /// Receives the peer's next message, which has this call, under an own number.
    fn receive(&mut self, number: u64, call: Option<usize>) -> Result<(), AllocError> {
        self.received = self.received.saturating_add(1);
        match call {
            Some(call) => self.calls.put(number, call),
            None => Ok(()),
        }
    }

    /// Takes its next step, if that may come. Whether it was taken.
    fn take(&mut self, came: &[Option<usize>], made: &mut CallsMade) -> Result<bool, AllocError> {
        match self.steps.get(self.at) {
            None => return Ok(false),
            Some(EndStep::Note(body)) => self.note(body, made)?,
            Some(EndStep::Send(call, _)) => {
                let call = self.call(*call);
                self.sent.push(call)?;
            }
            Some(EndStep::Receive(number, _)) => match came.get(self.received) {
                Some(call) => self.receive(*number, *call)?,
                None => return Ok(false),
            },
        }
        self.at = self.at.saturating_add(1);
        Ok(true)
    }

    /// Takes its steps as far as they may come. Whether any was taken.
    fn follow(&mut self, came: &[Option<usize>], made: &mut CallsMade) -> Result<bool, AllocError> {
        let before = self.at;
        for _ in before..self.steps.len() {
            if !self.take(came, made)? {
                break;
            }
        }
        Ok(self.at > before)
    }
}

/// Follows both ends as far as they go.
fn follow_both(
    a: &mut Following<'_>,
    b: &mut Following<'_>,
    made: &mut CallsMade,
) -> Result<(), AllocError> {
    for _ in 0..u64::MAX {
        let a_moved = a.follow(&b.sent, made)?;
        let b_moved = b.follow(&a.sent, made)?;
        if !a_moved && !b_moved {
            break;
        }
    }
    Ok(())
}

/// The calls that both ends make by these steps; those of an end in the order in which it makes them.
pub(crate) fn calls_made(
    alloc: Global,
    steps_of_a: &[EndStep],
    steps_of_b: &[EndStep],
) -> Result<Vec<CallMade>, AllocError> {
    let mut made = CallsMade {
        calls: Vec::new(alloc),
        delivered: 0,
    };
    let mut a = Following::new(alloc, End::A, steps_of_a);
    let mut b = Following::new(alloc, End::B, steps_of_b);
    follow_both(&mut a, &mut b, &mut made)?;
    let CallsMade {
        calls,
        delivered: _,
    } = made;
    Ok(calls)
}
