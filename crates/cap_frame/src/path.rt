//! Paths of pointer fields.

ghost use Rattle.std.specs.Prelude.{◌≡◌, ◌++◌, ◌∷◌, [], IfOk, IfSome};
ghost use Rattle.cap_frame.specs.Glue.{numbers_of};

use std::alloc::{AllocError, Global};
use std::fmt::{self, Debug, Formatter, Write};
use std::marker::Model;
use std::sync::Arc;

/// Numbers as they are kept: up to four, as most paths have, take no memory of their own.
#[derive(Drop)]
enum Kept {
    /// None.
    Nothing,
    /// A single one.
    One([u16; 1]),
    /// Two.
    Two([u16; 2]),
    /// Three.
    Three([u16; 3]),
    /// Four.
    Four([u16; 4]),
    /// Many, which a path and its copies share, so that a long path is kept once however often it is noted.
    Many(Arc<Vec<u16>>),
}

/// Which field of a struct, of a struct in it, and so on: pointer numbers, counted from 0, each of the struct that the
/// number before it leads to (rpc.capnp, `PromisedAnswer.transform`). The path without numbers is the place itself.
/// Contracts see it as the list of its numbers.
#[derive(Drop)]
pub struct Path {
    kept: Kept,
}

impl Model for Path {
    ghost use Rattle.std.specs.Prelude.{List, ℕ};
    ghost use Rattle.cap_frame.specs.Glue.{numbers_of};

    ghost Value = { List ℕ };

    ghost view = { λ path. numbers_of path.kept };
}

impl Debug for Path {
    fn fmt<W: Write>(&self, f: &mut Formatter<W>) -> fmt::Result {
        f.debug_struct("Path")
            .field("fields", &self.as_slice())
            .finish()
    }
}

/// How few numbers are kept; None where they are many.
fn few(fields: &[u16]) -> Option<Kept>
    ensures { IfSome result (λ kept. numbers_of kept ≡ fields.now) }
{
    match fields {
        [] => Some(Kept::Nothing),
        [a] => Some(Kept::One([*a])),
        [a, b] => Some(Kept::Two([*a, *b])),
        [a, b, c] => Some(Kept::Three([*a, *b, *c])),
        [a, b, c, d] => Some(Kept::Four([*a, *b, *c, *d])),
        _ => None,
    }
}

/// Numbers and one more behind them, as many are kept.
#[cold]
#[inline(never)]
fn many(alloc: Global, fields: &[u16], field: u16) -> Result<Kept, AllocError>
    ensures { IfOk result (λ kept. numbers_of kept ≡ fields.now ++ field ∷ []) }
{
    let mut numbers = Vec::with_capacity(alloc, fields.len() + 1)?;
    numbers.extend_from_slice(fields)?;
    numbers.push(field)?;
    Ok(Kept::Many(Arc::new(alloc, numbers)?))
}

impl Path {
    /// The path of these numbers. The only error is that memory ran out; a path of at most four numbers takes none.
    #[inline]
    pub fn new(fields: Vec<u16>) -> Result<Path, AllocError>
        ensures { IfOk result (λ path. path ≡ fields.items) }
    {
        let kept = match few(fields.as_slice()) {
            Some(kept) => kept,
            None => Kept::Many(Arc::new(*fields.allocator(), fields)?),
        };
        Ok(Path { kept })
    }

    /// The path of the numbers that are lent. The only error is that memory ran out; a path of at most four numbers takes
    /// none.
    pub fn from_slice(alloc: Global, fields: &[u16]) -> Result<Path, AllocError>
        ensures { IfOk result (λ path. path ≡ fields.now) }
    {
        match few(fields) {
            Some(kept) => Ok(Path { kept }),
            None => Path::new(Vec::from_slice(alloc, fields)?),
        }
    }

    /// The path that leads on from this one by one more number. The only error is that memory ran out; a path of at most
    /// four numbers takes none.
    pub fn longer(&self, alloc: Global, field: u16) -> Result<Path, AllocError>
        ensures { IfOk result (λ path. path ≡ self.now ++ field ∷ []) }
    {
        let kept = match &self.kept {
            Kept::Nothing => Kept::One([field]),
            Kept::One([a]) => Kept::Two([*a, field]),
            Kept::Two([a, b]) => Kept::Three([*a, *b, field]),
            Kept::Three([a, b, c]) => Kept::Four([*a, *b, *c, field]),
            Kept::Four(_) | Kept::Many(_) => many(alloc, self.as_slice(), field)?,
        };
        Ok(Path { kept })
    }

    /// The numbers, the outermost struct's first.
    pub fn as_slice(&self) -> &[u16]
        ensures { result.now ≡ self.now }
    {
        match &self.kept {
            Kept::Nothing => &[],
            Kept::One(numbers) => numbers.as_slice(),
            Kept::Two(numbers) => numbers.as_slice(),
            Kept::Three(numbers) => numbers.as_slice(),
            Kept::Four(numbers) => numbers.as_slice(),
            Kept::Many(many) => many.as_slice(),
        }
    }

    /// A second path with the same numbers, which takes no memory. The only error is that memory ran out, where a path has more
    /// copies than can be counted.
    #[inline]
    pub fn copy(&self) -> Result<Path, AllocError>
        ensures { IfOk result (λ path. path ≡ self.now) }
    {
        let kept = match &self.kept {
            Kept::Nothing => Kept::Nothing,
            Kept::One(numbers) => Kept::One(*numbers),
            Kept::Two(numbers) => Kept::Two(*numbers),
            Kept::Three(numbers) => Kept::Three(*numbers),
            Kept::Four(numbers) => Kept::Four(*numbers),
            Kept::Many(many) => Kept::Many(Arc::try_clone(many)?),
        };
        Ok(Path { kept })
    }
}
