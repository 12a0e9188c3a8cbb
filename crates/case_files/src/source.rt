//! Where files come from.

ghost use Rattle.std.specs.Prelude.{◌≡◌, ℕ, List, ⊤, Option, None, IfSome};
ghost use Rattle.std.specs.Prelude.{Result as Answered};
ghost use Rattle.case_files.specs.declared.source.SourceError.{SourceError};
ghost use Rattle.case_files.specs.declared.source.SourceError.TheVariants.{OutOfMemory};
ghost use Rattle.byte_pieces.specs.Coming.{IsFresh};
ghost use Rattle.case_files.specs.Opening.{Closes, IsOf};

use byte_pieces::Pieces;
use bytes::Bytes;
use std::alloc::{AllocError, AllocFailed};
use std::io;
use thiserror::Error;

/// Why a source gives nothing under a name.
#[derive(Clone, Copy, Debug, PartialEq, Eq, Error)]
pub enum SourceError {
    /// There is nothing to read, it can't be read, or it is longer than what is read.
    #[error("nothing can be read under this name")]
    CannotRead,
    /// A growth of memory was refused.
    #[error("a growth of memory was refused")]
    OutOfMemory,
}

impl From<AllocError> for SourceError {
    ghost from_gives = { λ _ e. e ≡ OutOfMemory };

    fn from(_e: AllocError) -> SourceError {
        SourceError::OutOfMemory
    }
}

impl<T: Drop> From<AllocFailed<T>> for SourceError {
    ghost from_gives = { λ _ e. e ≡ OutOfMemory };

    fn from(_e: AllocFailed<T>) -> SourceError {
        SourceError::OutOfMemory
    }
}

/// What gives bytes by name, as files do: all at once, or piece by piece from a reader that it opens under the name, reads to
/// its end or as far as it is wanted, and closes.
pub trait Source {
    /// What gives the bytes that stand under a name piece by piece.
    type Reader: Pieces + Send + Drop;

    // What may come of reading a name: the source, the name, the bytes or why there are none, the source afterwards.
    ghost read_gives: { Self → List ℕ → Answered (List ℕ) SourceError → Self → Type 0 } = { λ _ _ _ _. ⊤ };

    // What reading a name gives, where that is known: of a file that the system holds, or that still grows, it isn't.
    ghost holds: { Self → List ℕ → Option (Answered (List ℕ) SourceError) } = { λ _ _. None };

    /// All bytes that stand under the name.
    ///
    /// # Errors
    ///
    /// `CannotRead` where there is nothing that can be read under it, or out of memory.
    fn read(&mut self, name: &str) -> Result<Bytes, SourceError>
        ensures { read_gives self.old name.now result self.new };

    /// A reader of the bytes that stand under the name, of which none came yet. Where there is nothing that can be read under
    /// it, the reader says so when it is asked for the first piece.
    fn open(&mut self, name: &str) -> Self::Reader
        ensures fresh { IsFresh (Self.Reader.so_far result) }
        ensures of { IsOf (holds self.old name.now) (Self.Reader.so_far result) }
        ensures same { self.new ≡ self.old };

    /// Ends the reading from a reader that was opened under this name; `failed` says that it answered that it can't be read. What
    /// came from it is then what stands under the name, or the begin of that, where it isn't over.
    ///
    /// # Errors
    ///
    /// Why the name can't be read, as [`read`](Source::read) answers it. It does so where the reader failed.
    fn close(&mut self, name: &str, reader: &Self::Reader, failed: bool) -> Result<(), SourceError>
        ensures { Closes read_gives self.old name.now (Self.Reader.so_far reader.now) failed result self.new };
}

/// A source that remembers what it was asked for, so that people can be told of it. No answer depends on it.
pub trait RememberingSource: Source {
    /// The name that was asked for last, where it is kept: to be read, or to be closed.
    fn last(&self) -> Option<&str>;

    /// Why nothing could be read under that name, where it is kept.
    fn refusal(&self) -> Option<&io::Error>;

    /// Reads once more what was closed, so that it is kept: in the order of closing, as far as it isn't too long. What was read
    /// so is for people alone: between two readings a file may change.
    ///
    /// # Errors
    ///
    /// Out of memory. Then less is kept.
    fn look_back(&mut self) -> Result<(), AllocError>
        ensures { self.new ≡ self.old };

    /// The files that were read, with their names, in the order of reading, as far as they are kept.
    fn kept(&self) -> &[(String, Bytes)];

    /// The names of the files that were closed and are left out there.
    fn left_out(&self) -> &[String];

    /// A reader of a file that is left out there, of which none came yet; none where it can't be read once more. What it gives is
    /// for people alone.
    fn open_again(&self, name: &str) -> Option<Self::Reader>
        ensures { IfSome result (λ reader. IsFresh (Self.Reader.so_far reader)) };
}
