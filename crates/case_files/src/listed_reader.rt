//! The bytes of a file in a list, piece by piece.

ghost use Rattle.std.specs.Prelude.{◌≡◌, ◌⊎◌, [], Some, true, false};
ghost use Rattle.byte_pieces.specs.Coming.{IsFresh, MayBeAll};
ghost use Rattle.case_files.specs.Opening.{GivesNothing, GivesOf};

use byte_pieces::{PieceFault, Pieces};
use bytes::{Bytes, BytesMut};
use std::alloc::Global;
use std::marker::Model;

/// The bytes of a file in a list, piece by piece; or why none come. To a contract it is what came so far.
#[derive(Drop)]
pub struct ListedReader {
    bytes: Bytes,
    given: usize,
    is_over: bool,
    fault: Option<PieceFault>,
}

impl Model for ListedReader {
    ghost use Rattle.std.specs.Prelude.{◌≡◌, ◌≤◌, Some, true, length, take};
    ghost use Rattle.byte_pieces.specs.Coming.{CameSoFar};

    ghost Value = { CameSoFar };

    ghost view = { λ reader. record {
      bytes = take reader.given reader.bytes;
      is_over = reader.is_over;
      fault = reader.fault;
      whole = Some reader.bytes;
    } };

    ghost invariant = { λ reader. (reader.given ≤ length reader.bytes)
        × (reader.is_over ≡ true → length reader.bytes ≤ reader.given) };
}

impl ListedReader {
    /// A reader from which nothing comes, for this reason.
    pub(crate) fn failing(fault: PieceFault) -> ListedReader
        ensures { GivesNothing result }
    {
        ListedReader {
            bytes: Bytes::new(),
            given: 0,
            is_over: false,
            fault: Some(fault),
        }
    }

    /// A reader of these bytes.
    pub(crate) fn of(bytes: &Bytes) -> ListedReader
        ensures fresh { IsFresh result }
        ensures of { GivesOf bytes.now result ⊎ GivesNothing result }
    {
        match bytes.clone() {
            Ok(bytes) => ListedReader {
                bytes,
                given: 0,
                is_over: false,
                fault: None,
            },
            Err(_) => ListedReader::failing(PieceFault::OutOfMemory),
        }
    }

    /// Whether what came may be of a file with these bytes.
    pub(crate) fn may_be_of(&self, bytes: &Bytes) -> bool
        ensures { result ≡ true → MayBeAll self.now.bytes self.now.is_over bytes.now }
    {
        let came = &self.bytes.as_slice()[..self.given];
        let all = bytes.as_slice();
        all.starts_with(came) && (!self.is_over || all.len() == came.len())
    }
}

impl Pieces for ListedReader {
    ghost so_far = { λ reader. reader };

    fn more(
        &mut self,
        alloc: Global,
        rest: &[u8],
        wanted: usize,
    ) -> Result<Option<Bytes>, PieceFault> {
        if let Some(fault) = self.fault {
            return Err(fault);
        }
        let (_, left) = self.bytes.as_slice().split_at(self.given);
        if left.is_empty() {
            self.is_over = true;
            return Ok(None);
        }
        let count = left.len().min(wanted.max(1));
        let mut window = BytesMut::with_capacity(alloc, rest.len().saturating_add(count))?;
        window.extend_from_slice(rest)?;
        window.extend_from_slice(&left[..count])?;
        let window = window.freeze()?;
        self.given += count;
        Ok(Some(window))
    }
}
