//! Where records turned what they settled, kept without the records.

ghost use Rattle.std.specs.Prelude.{◌≡◌, Some, option_and_then, option_map, is_some};
ghost use Rattle.vat_view.specs.Glue.TurnTables.{target_in, is_nowhere, ended};

use crate::tables::turns::field_targets::FieldTargets;
use cap_frame::Path;

/// Where a record turns the views that it settles. One path, as most results have, takes no memory of its own.
#[derive(Drop)]
pub(crate) enum Turned {
    /// Nowhere.
    Nowhere,
    /// To the view of this reference, whatever the path.
    Reference(u64),
    /// A field at this path to the view of this reference, and every other nowhere.
    Field(u64, Path),
    /// A field at one of several paths to the view of the reference beside the first such path, if there is one.
    Fields(FieldTargets),
}

impl Turned {
    /// The reference to which a view of this path is turned.
    #[inline]
    pub(crate) fn at(&self, path: &[u16]) -> Option<u64>
        ensures { result ≡ target_in path.now self.now }
    {
        match self {
            Turned::Nowhere => None,
            Turned::Reference(reference) => Some(*reference),
            Turned::Field(reference, at) => {
                if at.as_slice() == path {
                    Some(*reference)
                } else {
                    None
                }
            }
            Turned::Fields(fields) => fields.at(path),
        }
    }

    /// Whether every view is turned nowhere, by its kind.
    pub(crate) fn is_nowhere(&self) -> bool
        ensures { result ≡ is_nowhere self.now }
    {
        matches!(self, Turned::Nowhere)
    }
}

/// How a promise or an import ended, which has no path: by the number of the record in the log.
#[derive(Clone, Copy)]
pub(crate) enum Ended {
    /// It didn't: there is only room to say so.
    Open,
    /// It leads nowhere.
    Nowhere(u32),
    /// It turned to the view of this reference.
    Reference(u32, u64),
}

impl Ended {
    /// The record of this number turned it to this reference, or nowhere.
    pub(crate) fn by(number: u32, to: Option<u64>) -> Ended
        ensures { ended result ≡ Some (number, to) }
    {
        match to {
            Some(reference) => Ended::Reference(number, reference),
            None => Ended::Nowhere(number),
        }
    }

    /// Whether it ended.
    pub(crate) fn is_over(self) -> bool
        ensures { result ≡ is_some (ended self) }
    {
        !matches!(self, Ended::Open)
    }

    /// The number of the record that ended it, if one did.
    pub(crate) fn number(self) -> Option<usize>
        ensures { result ≡ option_map (λ settled. settled.0) (ended self) }
    {
        match self {
            Ended::Open => None,
            Ended::Nowhere(number) | Ended::Reference(number, _) => Some(number as usize),
        }
    }

    /// The reference to which it turned, if it did.
    pub(crate) fn target(self) -> Option<u64>
        ensures { result ≡ option_and_then (λ settled. settled.1) (ended self) }
    {
        match self {
            Ended::Reference(_, reference) => Some(reference),
            _ => None,
        }
    }
}
