//! Views that own no memory.

ghost use Rattle.std.specs.Prelude.{◌≡◌, ◌↔◌, IsTrue, IfOk};
ghost use Rattle.decoded_records.specs.Glue.Parts.{field_path};
ghost use Rattle.decoded_records.specs.Borrowed.{as_view};

use crate::view::View;
use cap_frame::Path;
use std::alloc::{AllocError, Global};

/// What a reference or a number stands for, as [`View`], with the path of a field lent by what has it: so a walk that
/// comes to a field at the path of another takes no memory.
#[derive(Clone, Copy, Debug)]
pub enum BorrowedView<'a> {
    /// An object of this vat, by its own number.
    Object(u64),
    /// A promise of this vat, by the reference under which it vowed it.
    Promise(u64),
    /// The result of a call, by the vat's own number of the call and the pointer fields from the root of its results
    /// on, each counted from 0.
    Field(u64, &'a [u16]),
    /// What a received descriptor brought: the number of its record in the log, and its place in the table, both
    /// counted from 0.
    Import(usize, usize),
}

impl<'a> BorrowedView<'a> {
    /// This view, lent.
    pub fn of(view: &'a View) -> BorrowedView<'a>
        ensures { as_view result ≡ view.now }
    {
        match view {
            View::Object(object) => BorrowedView::Object(*object),
            View::Promise(reference) => BorrowedView::Promise(*reference),
            View::Field(call, path) => BorrowedView::Field(*call, path.as_slice()),
            View::Import(number, place) => BorrowedView::Import(*number, *place),
        }
    }

    /// The same view, with a path of its own.
    ///
    /// # Errors
    ///
    /// Out of memory.
    pub fn to_view(self, alloc: Global) -> Result<View, AllocError>
        ensures { IfOk result (λ view. view ≡ as_view self.entry) }
    {
        Ok(match self {
            BorrowedView::Object(object) => View::Object(object),
            BorrowedView::Promise(reference) => View::Promise(reference),
            BorrowedView::Field(call, path) => { View::Field(call, Path::from_slice(alloc, path)?) }
            BorrowedView::Import(number, place) => View::Import(number, place),
        })
    }

    /// Whether another view is the same.
    pub fn is_same(self, other: BorrowedView<'_>) -> bool
        ensures { IsTrue result ↔ (as_view self.entry ≡ as_view other.entry) }
    {
        match (self, other) {
            (BorrowedView::Object(a), BorrowedView::Object(b)) => a == b,
            (BorrowedView::Promise(a), BorrowedView::Promise(b)) => a == b,
            (BorrowedView::Field(a, p), BorrowedView::Field(b, q)) => a == b && p == q,
            (BorrowedView::Import(a, p), BorrowedView::Import(b, q)) => a == b && p == q,
            _ => false,
        }
    }

    /// The path of a field; the empty one of every other view.
    pub fn path(self) -> &'a [u16]
        ensures { result.now ≡ field_path (as_view self.entry) }
    {
        match self {
            BorrowedView::Field(_, path) => path,
            _ => &[],
        }
    }
}
