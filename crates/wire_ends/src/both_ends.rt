//! The order in which both ends send and receive.

use crate::vat::Vat;
use std::alloc::AllocError;
use wire_cut::Lack;

impl Vat<'_> {
    /// Whether the peer's next message may be received now: it is sent, and nothing may be sent behind it that couldn't before.
    fn may_receive(&self, peers_sent: usize) -> bool {
        self.received < peers_sent && self.files.is_receivable(self.received)
    }

    /// Why the next message doesn't go out, if it doesn't.
    fn pause(&mut self) -> Result<Option<Pause>, AllocError> {
        if self.holds_back() {
            return Ok(Some(Pause::HeldBack));
        }
        Ok(self.blocked()?.map(Pause::Lacks))
    }

    /// Sends and receives as far as it goes: it receives as late as it can. Whether anything moved, and why it stopped.
    pub(crate) fn advance(&mut self, peers_sent: usize) -> Result<(bool, Pause), AllocError> {
        let mut moved = false;
        for _ in 0..u64::MAX {
            if self.files.is_done(self.sent) {
                return Ok((moved, Pause::Done));
            }
            match self.pause()? {
                None => self.send()?,
                Some(pause) if !self.may_receive(peers_sent) => return Ok((moved, pause)),
                Some(_) => self.receive()?,
            }
            moved = true;
        }
        Ok((moved, Pause::Done))
    }

    /// Receives all that the peer sent.
    pub(crate) fn receive_rest(&mut self, peers_sent: usize) -> Result<(), AllocError> {
        for _ in self.received..peers_sent {
            self.receive()?;
        }
        Ok(())
    }

    /// Lets the next message go out, if it is held back.
    fn lets_go(&mut self, pause: Pause) -> bool {
        let is_held = matches!(pause, Pause::HeldBack);
        if is_held {
            self.let_go = Some(self.sent);
        }
        is_held
    }

    /// Lets the next message go out without the call that it hands on, if it waits for that alone.
    fn hurries(&mut self, pause: Pause) -> bool {
        let waits = matches!(pause, Pause::Lacks(Lack::HandedOnCall(_)));
        if waits {
            self.hurried = Some(self.sent);
        }
        waits
    }
}

/// Why an end stops.
#[derive(Clone, Copy)]
pub(crate) enum Pause {
    /// All is sent.
    Done,
    /// The next message is held back.
    HeldBack,
    /// The next message lacks this.
    Lacks(Lack),
}

impl Pause {
    /// What the next message lacks.
    fn lack(self) -> Option<Lack> {
        match self {
            Pause::Lacks(lack) => Some(lack),
            Pause::Done | Pause::HeldBack => None,
        }
    }
}

/// What each end's next message lacks where nothing moves.
#[derive(Clone, Copy)]
pub(crate) struct Stuck {
    /// Of the first end.
    pub of_a: Option<Lack>,
    /// Of the second end.
    pub of_b: Option<Lack>,
}

/// Lets both ends send and receive until both files are sent, or neither end moves. Where nothing moves, both let go what they
/// hold back; and then one goes on without a call that it hands on.
pub(crate) fn run_both(a: &mut Vat<'_>, b: &mut Vat<'_>) -> Result<Stuck, AllocError> {
    for _ in 0..u64::MAX {
        let (a_moved, of_a) = a.advance(b.sent)?;
        let (b_moved, of_b) = b.advance(a.sent)?;
        if a_moved || b_moved {
            continue;
        }
        let is_a_let_go = a.lets_go(of_a);
        if b.lets_go(of_b) || is_a_let_go || a.hurries(of_a) || b.hurries(of_b) {
            continue;
        }
        return Ok(Stuck {
            of_a: of_a.lack(),
            of_b: of_b.lack(),
        });
    }
    Ok(Stuck {
        of_a: None,
        of_b: None,
    })
}
