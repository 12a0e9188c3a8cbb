//! What can be asked of export and import numbers, references and descriptors.

ghost use Rattle.std.specs.Prelude.{◌≡◌, ◌<◌, Decides, IfOk, option_map};
ghost use Rattle.decoded_records.specs.declared.view.View.{View};
ghost use Rattle.decoded_records.specs.Questions.{is_late};
ghost use Rattle.decoded_records.specs.Lives.{GivesBackHeld, KeepsKinds, birth, began_promised, is_in_life, is_resolved};
ghost use Rattle.decoded_records.specs.Views.{view_of_reference, view_of_target, descriptor_view, views_of_descriptors};
ghost use Rattle.decoded_records.specs.Bindings.{is_bound};

use crate::lookups::table_answers;
use crate::preconditions::kinds;
use crate::record::bindings;
use crate::state::VatState;
use decoded_records::{DecodedRecord, TableKey, View, has_message};
use rpc_view::Descriptor;
use std::alloc::AllocError;

/// What can be asked of numbers, references and descriptors before a record is applied.
impl VatState {
    /// Whether an export or import number is in life: whether it is held (rpc.capnp, the comment of `Release`).
    pub(crate) fn is_in_life(&self, number: TableKey) -> bool
        ensures { result ≡ is_in_life number self.now }
    {
        self.tables.lives.count_of(number) > 0
    }

    /// Whether the present life of an export or import number began with a senderPromise, where it is in life.
    pub fn began_promised(&self, number: TableKey) -> Option<bool>
        ensures { result ≡ option_map began_promised (birth number self.now) }
    {
        match self.tables.lives.origin_of(number) {
            Some(origin) => Some(origin.promised),
            None => None,
        }
    }

    /// Whether a Resolve passed in the present life of an export or import number.
    pub fn is_resolved(&self, number: TableKey) -> bool
        ensures { result ≡ is_resolved number self.now }
    {
        kinds::resolved_since(
            self.tables.lives.origin_of(number),
            self.tables.resolves.of(number),
        )
    }

    /// Whether a reference is bound.
    pub(crate) fn is_bound(&self, reference: u64) -> bool
        ensures { result ≡ is_bound self.now reference }
    {
        self.tables.bound.has(reference)
    }

    /// What the target of a record stands for that may be applied next, if it has one.
    ///
    /// # Errors
    ///
    /// Out of memory.
    pub fn view_of_target(&self, event: &DecodedRecord) -> Result<Option<View>, AllocError>
        ensures { IfOk result (λ view. view ≡ view_of_target self.now event.now) }
    {
        table_answers::view_of_target(
            &self.tables.bound,
            &self.tables.lives,
            &self.tables.questions,
            event,
        )
    }

    /// What a descriptor of a record stands for that may be applied next (rpc.capnp, the comments of `CapDescriptor`).
    ///
    /// # Errors
    ///
    /// Out of memory.
    pub fn view_of_descriptor(
        &self,
        event: &DecodedRecord,
        descriptor: &Descriptor,
    ) -> Result<Option<View>, AllocError>
        ensures { IfOk result (λ view. view
            ≡ descriptor_view (view_of_reference self.now) self.now event.now descriptor.now) }
    {
        let alloc = self.allocator();
        let late = number_tables::is_late(&self.tables.questions, event);
        let begun = bindings::introduced_by(alloc, late, self.count, event)?;
        bindings::view_by(
            &self.tables.bound,
            &self.tables.lives,
            &begun,
            &self.tables.questions,
            event,
            descriptor,
        )
    }

    /// What the descriptors of a record stand for that may be applied next, by place, counted from 0 (rpc.capnp, the
    /// comments of `CapDescriptor`).
    ///
    /// # Errors
    ///
    /// Out of memory.
    pub fn views_of_descriptors(
        &self,
        event: &DecodedRecord,
    ) -> Result<Vec<Option<View>>, AllocError>
        ensures { IfOk result (λ views. views.items ≡ views_of_descriptors self.now event.now) }
    {
        let alloc = self.allocator();
        let late = number_tables::is_late(&self.tables.questions, event);
        let begun = bindings::introduced_by(alloc, late, self.count, event)?;
        table_answers::views_of_descriptors(
            alloc,
            &self.tables.bound,
            &self.tables.lives,
            &begun,
            &self.tables.questions,
            event,
        )
    }

    /// Whether a record that may be applied next gives back no more of each number than is held.
    ///
    /// # Errors
    ///
    /// Out of memory.
    pub fn gives_back_held(&self, event: &DecodedRecord) -> Result<bool, AllocError>
        ensures { IfOk result (λ held. Decides held (GivesBackHeld self.now event.now)) }
    {
        if !has_message(event) {
            return Ok(true);
        }
        let alloc = self.allocator();
        table_answers::gives_back_held(alloc, &self.tables.questions, &self.tables.lives, event)
    }

    /// Whether each number that a record introduces has the kind of its life's first descriptor, with the record itself
    /// counted, and no Resolve passed in its life (rpc.capnp, `CapDescriptor.senderHosted` and `senderPromise`, and
    /// `Resolve`).
    ///
    /// # Errors
    ///
    /// Out of memory.
    pub fn keeps_kinds(&self, event: &DecodedRecord) -> Result<bool, AllocError>
        ensures { IfOk result (λ keeps. Decides keeps (KeepsKinds self.now event.now)) }
    {
        let alloc = self.allocator();
        let late = number_tables::is_late(&self.tables.questions, event);
        let begun = bindings::introduced_by(alloc, late, self.count, event)?;
        Ok(kinds::keeps_kinds(&self.tables.lives, &begun, &self.tables.resolves, event))
    }
}
