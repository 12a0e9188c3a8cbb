//! The pieces that a reader gives.

ghost use Rattle.std.specs.Prelude.{◌≡◌, ◌<◌, ◌++◌, ℕ, List, [], None, Some, true, false, length, is_some, IfOk};
ghost use Rattle.std.specs.Io.KnownBytes.{Consumes, IsAtEnd};
ghost use Rattle.byte_pieces.specs.Coming.{IsFresh};

use crate::{PieceFault, Pieces};
use bytes::{Bytes, BytesMut};
use erased::Erased;
use std::alloc::Global;
use std::io::{self, ErrorKind, Read};
use std::marker::Model;

/// How often a read is asked for once more where the system says that it was interrupted.
const TRIES: usize = 1000;

/// What a reader gives, as a file or standard input. Each piece is what one read gives. To a contract it is what came so far, of
/// what the reader had left at first.
#[derive(Drop)]
pub struct ReadPieces<R: Read> {
    reader: R,
    begun: Erased<R>,
    gave: Erased<(usize, Bytes)>,
    is_over: bool,
    fault: Option<PieceFault>,
    refusal: Option<io::Error>,
}

impl<R: Read> Model for ReadPieces<R> {
    ghost use Rattle.byte_pieces.specs.Coming.{CameSoFar, ReadsOn, joined, left_at_first};

    ghost Value = { CameSoFar };

    ghost view = { λ pieces. record {
      bytes = joined pieces.gave.items;
      is_over = pieces.is_over;
      fault = pieces.fault;
      whole = left_at_first R.remaining pieces.begun.items;
    } };

    ghost invariant = { λ pieces. ReadsOn (record {
      bytes = joined pieces.gave.items;
      is_over = pieces.is_over;
      fault = pieces.fault;
      whole = left_at_first R.remaining pieces.begun.items;
    }) (R.remaining pieces.reader) };
}

/// The fault that a read answers.
fn fault_of(error: &io::Error) -> PieceFault {
    if error.kind() == ErrorKind::OutOfMemory {
        PieceFault::OutOfMemory
    } else {
        PieceFault::CannotRead
    }
}

impl<R: Read> ReadPieces<R> {
    /// What this reader gives from here on.
    pub fn new(reader: R) -> ReadPieces<R>
        ensures { result ≡ record { bytes = []; is_over = false; fault = None; whole = R.remaining reader } }
    {
        ReadPieces {
            begun: Erased::new().with(&reader),
            reader,
            gave: Erased::new(),
            is_over: false,
            fault: None,
            refusal: None,
        }
    }

    /// What gives nothing, since it can't be read, for this reason. The reader isn't asked.
    pub fn refused(reader: R, why: io::Error) -> ReadPieces<R>
        ensures none { IsFresh result }
        ensures fault { is_some result.fault ≡ true }
    {
        ReadPieces {
            begun: Erased::new().with(&reader),
            reader,
            gave: Erased::new(),
            is_over: false,
            fault: Some(fault_of(&why)),
            refusal: Some(why),
        }
    }

    /// Why it can't be read, where it is known.
    pub fn refusal(&self) -> Option<&io::Error> {
        self.refusal.as_ref()
    }
}

/// One read into the room behind these bytes, and how many it gave.
fn read_once<R: Read>(window: &mut BytesMut, reader: &mut R) -> io::Result<usize>
    requires { 0 < window.old.spare }
    ensures gave { IfOk result (λ count. (more : List ℕ) × (length more ≡ count)
        × (window.new.items ≡ window.old.items ++ more)
        × Consumes (R.remaining reader.old) (R.remaining reader.new) more) }
    ensures end { IfOk result (λ count. count ≡ 0 → IsAtEnd (R.remaining reader.new)) }
{
    for _ in 0..TRIES {
        match window.read_from(reader) {
            Ok(count) => return Ok(count),
            Err(error) => {
                if error.kind() != ErrorKind::Interrupted {
                    return Err(error);
                }
            }
        }
    }
    Err(io::Error::other("reading it was interrupted again and again"))
}

impl<R: Read> Pieces for ReadPieces<R> {
    ghost so_far = { λ pieces. pieces };

    /// Where a read fails, or what it gave can't be handed out, nothing more is read, and each later call answers the same fault:
    /// what comes next couldn't be told apart from what follows a gap.
    fn more(
        &mut self,
        alloc: Global,
        rest: &[u8],
        wanted: usize,
    ) -> Result<Option<Bytes>, PieceFault> {
        if self.is_over {
            return Ok(None);
        }
        if let Some(fault) = self.fault {
            return Err(fault);
        }
        let room = wanted.max(1);
        let mut window = BytesMut::with_capacity(alloc, rest.len().saturating_add(room))?;
        window.extend_from_slice(rest)?;
        window.reserve(room)?;
        match read_once(&mut window, &mut self.reader) {
            Ok(0) => {
                self.is_over = true;
                Ok(None)
            }
            Ok(_) => match window.freeze() {
                Ok(bytes) => {
                    let piece = (rest.len(), bytes);
                    self.gave = self.gave.with(&piece);
                    Ok(Some(piece.1))
                }
                Err(_) => {
                    self.fault = Some(PieceFault::OutOfMemory);
                    Err(PieceFault::OutOfMemory)
                }
            },
            Err(error) => {
                let fault = fault_of(&error);
                self.fault = Some(fault);
                self.refusal = Some(error);
                Err(fault)
            }
        }
    }
}
