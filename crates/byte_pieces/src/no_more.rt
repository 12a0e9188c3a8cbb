//! Bytes of which all are there.

ghost use Rattle.std.specs.Prelude.{◌≡◌};

use crate::{PieceFault, Pieces};
use bytes::Bytes;
use erased::Erased;
use std::alloc::Global;
use std::marker::Model;

/// That no more bytes come behind those that are there, as of a file that was read into memory. To a contract it is the bytes
/// that are there.
#[derive(Drop)]
pub struct NoMore {
    there: Erased<Bytes>,
}

impl Model for NoMore {
    ghost use Rattle.std.specs.Prelude.{ℕ, List};
    ghost use Rattle.byte_pieces.specs.Coming.{at_once};

    ghost Value = { List ℕ };

    ghost view = { λ none. at_once none.there.items };
}

impl NoMore {
    /// That no more come behind these.
    pub fn behind(bytes: &Bytes) -> NoMore
        ensures { result ≡ bytes.now }
    {
        NoMore {
            there: Erased::new().with(bytes),
        }
    }
}

impl Pieces for NoMore {
    ghost use Rattle.std.specs.Prelude.{true, None, Some};

    ghost so_far = { λ none. record { bytes = none; is_over = true; fault = None; whole = Some none } };

    fn more(
        &mut self,
        _alloc: Global,
        _rest: &[u8],
        _wanted: usize,
    ) -> Result<Option<Bytes>, PieceFault> {
        Ok(None)
    }
}
