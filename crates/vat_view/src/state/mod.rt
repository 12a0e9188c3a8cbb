//! The state of a vat's numbers after some records of its log.

ghost use Rattle.std.specs.Prelude.{◌≡◌, [], ◌∷◌, Decides, IfOk, OnOk, OnErr};
ghost use Rattle.decoded_records.specs.declared.view.View.{View};
ghost use Rattle.decoded_records.specs.Numbers.{number_held, number_stands};
ghost use Rattle.decoded_records.specs.Lives.{GivesBackHeld};
ghost use Rattle.decoded_records.specs.Uses.{UsesQuestions, UsesNumbers};
ghost use Rattle.decoded_records.specs.Views.{view_of_reference, view_of_number};
ghost use Rattle.decoded_records.specs.Bindings.{Refers, NotesEach};
ghost use Rattle.vat_view.specs.Sound.{IsSound};

mod calls;
mod connections;
mod leading;
mod numbers;
mod questions;
mod shortening;

use crate::lookups::meaning;
use crate::tables::all_tables::AllTables;
use cap_frame::Path;
use decoded_records::{DecodedRecord, Number, TableKey, View};
use erased::Erased;
use std::alloc::{AllocError, Global};
use std::fmt::{self, Debug, Formatter, Write};
use std::marker::Model;

/// What a vat's numbers are after the records that were applied. Contracts see it as the list of these, the newest
/// first; it keeps no record, but what the tables have of each, and how many there are.
#[derive(Drop)]
pub struct VatState {
    past: Erased<DecodedRecord>,
    count: usize,
    tables: AllTables,
}

impl Model for VatState {
    ghost use Rattle.std.specs.Prelude.{List};
    ghost use Rattle.decoded_records.specs.declared.decoded.DecodedRecord.{DecodedRecord};
    ghost use Rattle.vat_view.specs.Glue.Whole.{AreWhole};

    ghost Value = { List DecodedRecord };

    ghost view = { λ state. state.past.items };

    ghost invariant = { λ state. AreWhole state.past.items state.count state.tables };
}

impl Debug for VatState {
    fn fmt<W: Write>(&self, f: &mut Formatter<W>) -> fmt::Result {
        f.debug_struct("VatState")
            .field("records", &self.count)
            .finish()
    }
}

impl VatState {
    /// Before any record. It takes no memory.
    pub fn new(alloc: Global) -> VatState
        ensures { result ≡ [] }
    {
        VatState {
            past: Erased::new(),
            count: 0,
            tables: AllTables::new(alloc),
        }
    }

    /// How often the number is held: how often it was introduced, less what was given back. A question or answer is
    /// not held, so the answer is 0. It takes no memory.
    pub fn held(&self, connection: u32, number: Number) -> u64
        ensures { result ≡ number_held connection number self.now }
    {
        match number {
            Number::Export(_) | Number::Import(_) => self
                .tables
                .lives
                .count_of(number.on(connection)),
            Number::Question(_) | Number::Answer(_) => 0,
        }
    }

    /// The view of a reference, if it is bound to one.
    ///
    /// # Errors
    ///
    /// Out of memory.
    pub fn view_of_reference(&self, reference: u64) -> Result<Option<View>, AllocError>
        ensures { IfOk result (λ view. view ≡ view_of_reference self.now reference) }
    {
        meaning::view_of_reference(&self.tables.bound, reference)
    }

    /// What an export or import number stands for, where it is in life: the view with which its life began.
    ///
    /// # Errors
    ///
    /// Out of memory.
    pub fn view_of_number(&self, number: TableKey) -> Result<Option<View>, AllocError>
        ensures { IfOk result (λ view. view ≡ view_of_number number self.now) }
    {
        meaning::view_of_number(&self.tables.bound, &self.tables.lives, number)
    }

    /// What a number of a connection stands for: an export or import in life for the view with which its life began, a
    /// question or answer that isn't over for the field of its call at the path, which counts for these two alone. It is
    /// over when both its Return and its Finish have passed.
    ///
    /// # Errors
    ///
    /// Out of memory.
    pub fn stands_for(
        &self,
        connection: u32,
        number: Number,
        path: &Path,
    ) -> Result<Option<View>, AllocError>
        ensures { IfOk result (λ view. view ≡ number_stands connection number path.now self.now) }
    {
        let id = number.on(connection);
        match number {
            Number::Export(_) | Number::Import(_) => {
                meaning::view_of_number(&self.tables.bound, &self.tables.lives, id)
            }
            Number::Question(_) | Number::Answer(_) => {
                meaning::field_of(&self.tables.questions, id, path)
            }
        }
    }

    /// Whether [`apply`](VatState::apply) may be called with a record: it names, uses and gives back things as it should
    /// after those applied, and notes a reference for each capability.
    ///
    /// # Errors
    ///
    /// Out of memory.
    pub fn is_sound(&self, event: &DecodedRecord) -> Result<bool, AllocError>
        ensures { IfOk result (λ sound. Decides sound (IsSound self.now event.now)) }
    {
        if !self.refers(event)? {
            return Ok(false);
        }
        if !self.uses_questions(event) {
            return Ok(false);
        }
        if !self.uses_numbers(event) {
            return Ok(false);
        }
        if !self.gives_back_held(event)? {
            return Ok(false);
        }
        Ok(self.notes_each(event))
    }

    /// Applies a record, which keeps the rules that are named after those applied.
    ///
    /// # Errors
    ///
    /// Out of memory, and then the state is as it was.
    pub fn apply(&mut self, event: &DecodedRecord) -> Result<(), AllocError>
        requires refers { Refers self.old event.now }
        requires uses { UsesQuestions self.old event.now }
        requires numbers { UsesNumbers self.old event.now }
        requires gives { GivesBackHeld self.old event.now }
        requires notes { NotesEach self.old event.now }
        ensures ok { OnOk result (self.new ≡ event.now ∷ self.old) }
        ensures err { OnErr result (self.new ≡ self.old) }
    {
        self.shorten(event);
        let Some(count) = self.count.checked_add(1) else {
            return Err(AllocError);
        };
        self.tables.tell(self.count, event)?;
        self.past = self.past.with(event);
        self.count = count;
        Ok(())
    }

    /// The records that were applied, the newest first, as clauses alone see them.
    pub fn into_past(self) -> Erased<DecodedRecord>
        ensures { result.items ≡ self }
    {
        let VatState { past, .. } = self;
        past
    }

    /// Where its memory comes from.
    pub(crate) fn allocator(&self) -> Global {
        self.tables.lives.allocator()
    }
}
