//! The table of references.

ghost use Rattle.std.specs.Prelude.{◌≡◌, ◌==◌, ◌⊎◌, ℕ, None, Some, OnOk, OnErr, true, false, map, is_some, option_map, if◌then◌else◌, IsTrue};
ghost use Rattle.std.specs.Option.{option_copied};
ghost use Rattle.vat_view.specs.declared.tables.references.Shortcut.{Shortcut};
ghost use Rattle.decoded_records.specs.Bindings.{contains};
ghost use Rattle.vat_view.specs.Glue.Tables.{bound_at, bound_by};
ghost use Rattle.vat_view.specs.Glue.TurnTables.{bound_len, own_leap, ahead_at, view_ahead_at, IsOwnOrOld};

use decoded_records::{ShortList, View};
use rising_table::RisingTable;
use std::alloc::{AllocError, Global};

/// A reference that is ahead of another: to whose view the other's view leads. Or a call that is ahead of another: to
/// each of whose fields the other's leads.
#[derive(Clone, Copy)]
pub(crate) struct Shortcut {
    /// The one that is ahead.
    pub(crate) to: u64,
    /// By how many turns.
    pub(crate) turns: u64,
}

/// What is kept of a reference.
#[derive(Drop)]
pub(crate) struct Binding {
    /// What it stands for.
    pub(crate) view: View,
    /// One that is ahead of it.
    pub(crate) ahead: Shortcut,
}

/// From a reference or call to itself, by no turn.
pub(crate) fn own_leap(reference: u64) -> Shortcut
    ensures { result ≡ own_leap reference }
{
    Shortcut {
        to: reference,
        turns: 0,
    }
}

/// The view of each reference that is bound, and for each one that is ahead of it, so that a walk needn't make each
/// turn anew. At first each is ahead of itself; and again once the references ahead are dropped.
#[derive(Drop)]
pub(crate) struct BoundReferences {
    entries: RisingTable<Binding>,
    dropped: bool,
}

impl BoundReferences {
    /// Before any reference is bound.
    pub(crate) fn new(alloc: Global) -> BoundReferences
        ensures { (r : ℕ) → bound_at result r ≡ None }
    {
        BoundReferences {
            entries: RisingTable::new(alloc),
            dropped: false,
        }
    }

    /// The view of this reference.
    pub(crate) fn of(&self, reference: u64) -> Option<&View>
        ensures { option_copied result ≡ bound_at self.now reference }
    {
        match self.entries.get(reference) {
            Some(binding) => Some(&binding.view),
            None => None,
        }
    }

    /// The reference that is ahead of this one, if this one is bound.
    pub(crate) fn ahead(&self, reference: u64) -> Option<Shortcut>
        ensures { result ≡ ahead_at self.now reference }
    {
        match self.entries.get(reference) {
            Some(_) if self.dropped => Some(own_leap(reference)),
            Some(binding) => Some(binding.ahead),
            None => None,
        }
    }

    /// The view of the reference that is ahead of this one, if this one is bound, and by how many turns.
    pub(crate) fn view_ahead(&self, reference: u64) -> Option<(&View, u64)>
        ensures { option_map (λ there. (there.0.now, there.1)) result ≡ view_ahead_at self.now reference }
    {
        let binding = self.entries.get(reference)?;
        if self.dropped {
            return Some((&binding.view, 0));
        }
        let Shortcut { to, turns } = binding.ahead;
        if to == reference {
            return Some((&binding.view, turns));
        }
        Some((self.of(to)?, turns))
    }

    /// From now on this is ahead of a reference, if that one is bound.
    pub(crate) fn remember(&mut self, reference: u64, ahead: Shortcut)
        ensures views { (q : ℕ) → bound_at self.new q ≡ bound_at self.old q }
        ensures len { bound_len self.new ≡ bound_len self.old }
        ensures ahead { (q : ℕ) (a : Shortcut) → ahead_at self.new q ≡ Some a
            → (ahead_at self.old q ≡ Some a) ⊎ ((q ≡ reference) × (a ≡ ahead)) }
    {
        if self.dropped {
            return;
        }
        if let Some(binding) = self.entries.get_mut(reference) {
            binding.ahead = ahead;
        }
    }

    /// Where it is said so, each reference is ahead of itself alone from now on.
    pub(crate) fn drop_ahead(&mut self, drops: bool)
        ensures views { (q : ℕ) → bound_at self.new q ≡ bound_at self.old q }
        ensures ahead { IsOwnOrOld self.old self.new }
        ensures own { IsTrue drops → (q : ℕ) (a : Shortcut) → ahead_at self.new q ≡ Some a
            → a ≡ own_leap q }
    {
        if drops {
            self.dropped = true;
        }
    }

    /// Whether this reference has a view.
    pub(crate) fn has(&self, reference: u64) -> bool
        ensures { result ≡ is_some (bound_at self.now reference) }
    {
        self.entries.has(reference)
    }

    /// How many references are bound.
    pub(crate) fn len(&self) -> usize
        ensures { result ≡ bound_len self.now }
    {
        self.entries.len()
    }

    /// This reference has this view. Where memory is refused, nothing changes.
    #[inline]
    pub(crate) fn bind(&mut self, reference: u64, view: View) -> Result<(), AllocError>
        ensures ok { OnOk result
            ((q : ℕ) → bound_at self.new q
            ≡ (if reference == q then Some view else bound_at self.old q)) }
        ensures err { OnErr result ((q : ℕ) → bound_at self.new q ≡ bound_at self.old q) }
        ensures ahead { IsOwnOrOld self.old self.new }
    {
        let binding = Binding {
            view,
            ahead: own_leap(reference),
        };
        self.entries.put(reference, binding)
    }

    /// These references have these views. Where memory is refused, some of them may.
    fn bind_several(&mut self, list: Vec<(u64, View)>) -> Result<(), AllocError>
        ensures ok { OnOk result
            ((q : ℕ) → bound_at self.new q ≡ bound_by q list.items (bound_at self.old q)) }
        ensures err { OnErr result
            ((q : ℕ) → contains q (map (λ x. x.0) list.items) ≡ false
            → bound_at self.new q ≡ bound_at self.old q) }
        ensures ahead { IsOwnOrOld self.old self.new }
    {
        for (reference, view) in list {
            self.bind(reference, view)?;
        }
        Ok(())
    }

    /// These references have these views. Where memory is refused, some of them may.
    pub(crate) fn bind_each(&mut self, list: ShortList<(u64, View)>) -> Result<(), AllocError>
        ensures ok { OnOk result
            ((q : ℕ) → bound_at self.new q ≡ bound_by q list (bound_at self.old q)) }
        ensures err { OnErr result
            ((q : ℕ) → contains q (map (λ x. x.0) list) ≡ false
            → bound_at self.new q ≡ bound_at self.old q) }
        ensures ahead { IsOwnOrOld self.old self.new }
    {
        match list.alone() {
            Ok(Some((reference, view))) => self.bind(reference, view),
            Ok(None) => Ok(()),
            Err(items) => self.bind_several(items),
        }
    }

    /// This reference has no view.
    fn unbind(&mut self, reference: u64)
        ensures views { (q : ℕ) → bound_at self.new q
            ≡ (if reference == q then None else bound_at self.old q) }
        ensures ahead { IsOwnOrOld self.old self.new }
    {
        self.entries.remove(reference);
    }

    /// These references have no view.
    pub(crate) fn unbind_each(&mut self, references: &[u64])
        ensures views { (q : ℕ) → bound_at self.new q
            ≡ (if contains q references.now then None else bound_at self.old q) }
        ensures ahead { IsOwnOrOld self.old self.new }
    {
        for reference in references {
            self.unbind(*reference);
        }
    }
}
