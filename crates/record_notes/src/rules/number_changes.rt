//! Numbers in use that are introduced again as something else.

use past_records::{NoteText, NumberLife, Past};
use rpc_view::Descriptor;
use vat_view::TableKey;

/// The record that resolved an import or export behind the one since which it is in life.
pub(crate) fn resolved_by(past: &Past<'_>, key: TableKey, since: usize) -> Option<usize> {
    let behind = since.saturating_add(1);
    past.find(behind, |event| event.promise_resolved() == Some(key))
}

/// Notes what is otherwise of a number in life since this record, which is introduced again, and says whether anything is.
fn put_change(
    past: &Past<'_>,
    text: &mut NoteText,
    life: NumberLife,
    began: usize,
    promised: bool,
) -> bool {
    if past.state.is_resolved(life.key) {
        let Some(at) = resolved_by(past, life.key, began) else {
            return false;
        };
        let sentence = "@, introduced by record #, was resolved by record #";
        text.note_of(sentence, &life, &[began as u64, at as u64]);
        return true;
    }
    let sentence = match past.state.began_promised(life.key) {
        Some(true) if !promised => "@ was introduced as senderPromise by record #",
        Some(false) if promised => "@ was introduced as senderHosted by record #",
        _ => return false,
    };
    text.note_of(sentence, &life, &[began as u64]);
    true
}

/// Notes of an entry that introduces a number in use again as something else, or after its Resolve; and says whether it does.
fn put_if_changed(past: &Past<'_>, text: &mut NoteText, descriptor: &Descriptor) -> bool {
    let promised = match descriptor {
        Descriptor::SenderHosted(_) => false,
        Descriptor::SenderPromise(_) => true,
        _ => return false,
    };
    let Some(life) = past.life_of(descriptor) else {
        return false;
    };
    match life.began {
        Some(began) if life.held > 0 => put_change(past, text, life, began, promised),
        _ => false,
    }
}

/// Notes of the first entry that introduces a number in use again otherwise than at first.
pub(crate) fn put_changed(past: &Past<'_>, text: &mut NoteText) {
    for descriptor in past.event.descriptors() {
        if put_if_changed(past, text, descriptor) {
            return;
        }
    }
}
