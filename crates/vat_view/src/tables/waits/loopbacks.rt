//! The table of loopbacks.

ghost use Rattle.std.specs.Prelude.{◌≡◌, None, OnOk, IfOk, IsTrue, is_some, if◌then◌else◌};
ghost use Rattle.std.specs.Option.{option_copied};
ghost use Rattle.decoded_records.specs.declared.table_key.TableKey.{TableKey};
ghost use Rattle.decoded_records.specs.Past.{names};
ghost use Rattle.decoded_records.specs.Loopbacks.{sender_loopback};
ghost use Rattle.vat_view.specs.Glue.Tables.{bound_at};
ghost use Rattle.number_tables.specs.Glue.QuestionTables.{question_at};
ghost use Rattle.vat_view.specs.Glue.LoopTables.{loopback_at, loopback_target_in, put_by, room_at, looped_by};

use crate::lookups::table_answers::view_of_target;
use crate::tables::references::BoundReferences;
use decoded_records::{DecodedRecord, TableKey, View};
use number_tables::{ExportsImports, Questions};
use rpc_view::{Loopback, RpcMessage};
use std::alloc::{AllocError, Global};
use std::collections::BTreeMap;

/// What is known of a senderLoopback that waits for its echo.
#[derive(Drop)]
pub(crate) struct Unechoed {
    /// The number of its record in the log, counted from 0.
    pub(crate) number: usize,
    /// What its target stood for then.
    pub(crate) target: Option<View>,
}

/// Whether a record asks for an echo.
pub(crate) fn asks_for_echo(event: &DecodedRecord) -> bool
    ensures { result ≡ is_some (sender_loopback event.now) }
{
    matches!(
        event,
        DecodedRecord::Wire {
            message: RpcMessage::Disembargo {
                loopback: Loopback::Sender,
                ..
            },
            ..
        }
    )
}

/// The loopback for which a record asks, which has this number in the log, by the tables before it.
pub(crate) fn sender_loopback(
    bound: &BoundReferences,
    lives: &ExportsImports,
    questions: &Questions,
    number: usize,
    event: &DecodedRecord,
) -> Result<Option<(TableKey, Unechoed)>, AllocError>
    ensures { IfOk result
        (λ looped. looped
        ≡ looped_by (bound_at bound.now) lives.now (question_at questions.now) number event.now) }
{
    let DecodedRecord::Wire {
        sent,
        connection,
        message: RpcMessage::Disembargo {
            number: embargo,
            loopback: Loopback::Sender,
            ..
        },
        ..
    } = event
    else {
        return Ok(None);
    };
    let target = view_of_target(bound, lives, questions, event)?;
    let id = TableKey::of_sender(*sent, *connection, *embargo);
    Ok(Some((id, Unechoed { number, target })))
}

/// The senderLoopback that waits for its echo under each number, where one does. An entry without one says nothing: it
/// holds room.
#[derive(Drop)]
pub(crate) struct Loopbacks {
    entries: BTreeMap<TableKey, Option<Unechoed>>,
}

impl Loopbacks {
    /// Before any record.
    pub(crate) fn new(alloc: Global) -> Loopbacks
        ensures { (i : TableKey) → loopback_at result i ≡ None }
    {
        Loopbacks {
            entries: BTreeMap::new(alloc),
        }
    }

    /// The senderLoopback that waits under this number, if one does.
    pub(crate) fn of(&self, number: TableKey) -> Option<&Unechoed>
        ensures { option_copied result ≡ loopback_at self.now number }
    {
        match self.entries.get(&number) {
            Some(Some(looped)) => Some(looped),
            _ => None,
        }
    }

    /// Whether a senderLoopback waits under this number.
    pub(crate) fn has(&self, number: TableKey) -> bool
        ensures { result ≡ is_some (loopback_at self.now number) }
    {
        self.of(number).is_some()
    }

    /// What the target of the senderLoopback that waits under this number stood for then.
    pub(crate) fn embargoed_view(&self, number: TableKey) -> Option<&View>
        ensures { option_copied result ≡ loopback_target_in (loopback_at self.now number) }
    {
        match self.of(number) {
            Some(
                Unechoed {
                    target: Some(view),
                    ..
                },
            ) => Some(view),
            _ => None,
        }
    }

    /// Makes room for the loopback for which a record asks. What the table says stays as it is, where memory is refused
    /// too.
    pub(crate) fn room_for(
        &mut self,
        looped: &Option<(TableKey, Unechoed)>,
    ) -> Result<(), AllocError>
        ensures same { (i : TableKey) → loopback_at self.new i ≡ loopback_at self.old i }
        ensures room { OnOk result (IsTrue (room_at self.new looped.now)) }
    {
        let Some((number, _)) = looped else {
            return Ok(());
        };
        if self.entries.contains_key(number) {
            return Ok(());
        }
        self.entries.insert(*number, None)?;
        Ok(())
    }

    /// This loopback waits, for which there is room.
    pub(crate) fn begin(&mut self, looped: Option<(TableKey, Unechoed)>)
        requires { IsTrue (room_at self.old looped) }
        ensures { (i : TableKey) → loopback_at self.new i
            ≡ put_by i looped (loopback_at self.old i) }
    {
        let Some((number, looped)) = looped else {
            return;
        };
        if let Some(entry) = self.entries.get_mut(&number) {
            *entry = Some(looped);
        }
    }

    /// The loopback of this number has its echo.
    pub(crate) fn end(&mut self, echoed: Option<TableKey>)
        ensures { (i : TableKey) → loopback_at self.new i
            ≡ (if names i echoed then None else loopback_at self.old i) }
    {
        if let Some(number) = echoed {
            drop(self.entries.remove(&number));
        }
    }
}
