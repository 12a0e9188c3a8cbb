//! Sequences of frames, by numbers.

ghost use Rattle.std.specs.Prelude.{◌≡◌, ℕ, ◌↔◌, ◌+◌, ◌∷◌, ◌++◌, [], List, Some, Option, length, IsTrue, IfOk, OnOk};
ghost use Rattle.link_check.specs.Prefix.{IsPrefix};
ghost use Rattle.log_ends.specs.Glue.{sequence_number, IsSound, Keeps, AreNumberedApart, Traces};

use bytes::Bytes;
use std::alloc::{AllocError, Global};
use std::collections::BTreeMap;

/// Sequences of frames, each with a number of its own. The number of no frames is 0; that of others stands behind the number
/// of what comes before their last frame, and that frame.
#[derive(Drop)]
pub(crate) struct Sequences {
    pub(crate) places: BTreeMap<(u64, Bytes), u64>,
}

impl Sequences {
    /// The sequence without frames alone.
    pub(crate) fn new(alloc: Global) -> Sequences
        ensures { IsSound result }
    {
        Sequences {
            places: BTreeMap::new(alloc),
        }
    }

    /// The number of the sequence that has this frame behind what has this number. Numbers that were given before stay.
    pub(crate) fn longer(&mut self, number: u64, frame: &Bytes) -> Result<u64, AllocError>
        requires { IsSound self.old }
        ensures sound { IsSound self.new }
        ensures keeps { Keeps self.old self.new }
        ensures ok { IfOk result (λ longer. (frames : List (List ℕ)) → sequence_number self.old frames ≡ Some number
            → sequence_number self.new (frames ++ frame.now ∷ []) ≡ Some longer) }
    {
        let key = (number, frame.clone()?);
        if let Some(known) = self.places.get(&key) {
            return Ok(*known);
        }
        let made = self.places.len() as u64 + 1;
        self.places.insert(key, made)?;
        Ok(made)
    }
}

/// What passed at an end in one direction: at each place the number of the frames up to that one.
#[derive(Drop)]
pub(crate) struct Trace {
    pub(crate) numbers: Vec<u64>,
}

impl Trace {
    /// Nothing passed.
    pub(crate) fn new(alloc: Global) -> Trace
        ensures { result.numbers.items ≡ [] }
    {
        Trace {
            numbers: Vec::new(alloc),
        }
    }

    /// One more frame passed.
    pub(crate) fn push(
        &mut self,
        sequences: &mut Sequences,
        frame: &Bytes,
    ) -> Result<(), AllocError>
        requires { IsSound sequences.old }
        ensures sound { IsSound sequences.new }
        ensures keeps { Keeps sequences.old sequences.new }
        ensures ok { OnOk result ((frames : List (List ℕ))
            → Traces (sequence_number sequences.old) self.old.numbers.items frames
            → Traces (sequence_number sequences.new) self.new.numbers.items (frames ++ frame.now ∷ [])) }
    {
        let so_far = self.numbers.last().copied().unwrap_or(0);
        let number = sequences.longer(so_far, frame)?;
        self.numbers.push(number)?;
        Ok(())
    }

    /// Whether no frame passed.
    pub(crate) fn is_empty(&self) -> bool
        ensures { IsTrue result ↔ (length self.now.numbers.items ≡ 0) }
    {
        self.numbers.is_empty()
    }

    /// Whether these frames are the first ones of the others.
    pub(crate) fn is_prefix_of(&self, other: &Trace) -> bool
        ensures { (numbers : List (List ℕ) → Option ℕ) (ours others : List (List ℕ)) → AreNumberedApart numbers
            → Traces numbers self.now.numbers.items ours
            → Traces numbers other.now.numbers.items others → (IsTrue result ↔ IsPrefix ours others) }
    {
        let count = self.numbers.len();
        if count == 0 {
            return true;
        }
        if other.numbers.len() < count {
            return false;
        }
        other.numbers[count - 1] == self.numbers[count - 1]
    }

    /// Whether both are the same frames.
    pub(crate) fn is_same(&self, other: &Trace) -> bool
        ensures { (numbers : List (List ℕ) → Option ℕ) (ours others : List (List ℕ)) → AreNumberedApart numbers
            → Traces numbers self.now.numbers.items ours
            → Traces numbers other.now.numbers.items others → (IsTrue result ↔ (ours ≡ others)) }
    {
        if self.numbers.len() != other.numbers.len() {
            return false;
        }
        self.is_prefix_of(other)
    }
}
