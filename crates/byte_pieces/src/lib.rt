//! Bytes that come in pieces, as those of a file do, and of standard input.
//!
//! What a file holds no clause can say: it can speak only of what a call handed out. So [`Pieces`] has all that came so far,
//! for clauses alone, and says when no more comes, and when no more can be read. Where it is known what a reader has left, as
//! of bytes in memory, that is the whole, of which what comes is the begin, in its order and with no gap; the same code reads
//! a file. A piece comes in one run of bytes behind the rest of those before it, so that what was cut between two pieces is
//! whole there. [`ReadPieces`] reads them from a file, from standard input or from any other reader; of [`NoMore`] all came
//! before. It stands on `bytes`, and on `erased` for the list of what came.
#![tactic(auto)]

ghost use Rattle.std.specs.Prelude.{◌≡◌, Some, true, IfErr, IfOk, IfSome, IfNone, OnErr, OnOk};
ghost use Rattle.byte_pieces.specs.Coming.{Brings, CameNothing, CameSoFar, ComesOn, IsPart};
ghost use Rattle.byte_pieces.specs.declared.fault.PieceFault.TheVariants.{CannotRead};

mod fault;
mod no_more;
mod read_pieces;

use bytes::Bytes;
pub use fault::PieceFault;
pub use no_more::NoMore;
pub use read_pieces::ReadPieces;
use std::alloc::Global;

/// What gives bytes in pieces, as a file does.
pub trait Pieces {
    // all that came so far
    ghost so_far: { Self → CameSoFar };

    /// The next piece, in one run of bytes behind this rest of those before; or none where no more come. A piece isn't empty.
    /// It is what one read gives, with room for at least as many bytes as are wanted; so it may have fewer.
    ///
    /// # Errors
    ///
    /// That it can't be read, or that memory was refused. Nothing came then.
    fn more(
        &mut self,
        alloc: Global,
        rest: &[u8],
        wanted: usize,
    ) -> Result<Option<Bytes>, PieceFault>
        // What came before still comes first.
        ensures on { ComesOn (so_far self.old) (so_far self.new) }
        // A piece came.
        ensures some { IfOk result (λ next. IfSome next
            (λ window. Brings rest.now (so_far self.old).bytes window (so_far self.new).bytes)) }
        // No more come.
        ensures none { IfOk result (λ next. IfNone next
            (((so_far self.new).bytes ≡ (so_far self.old).bytes) × ((so_far self.new).is_over ≡ true))) }
        // Where the whole is known, it begins with what came, and is that once no more come.
        ensures part { OnOk result (IsPart (so_far self.new)) }
        ensures err { OnErr result (CameNothing (so_far self.old) (so_far self.new)) }
        // That it can't be read is answered where that is so from here on.
        ensures fault { IfErr result (λ fault. fault ≡ CannotRead
            → (so_far self.new).fault ≡ Some CannotRead) };
}
