//! The kinds of records.

ghost use Rattle.std.specs.Prelude.{◌≡◌, ◌<◌, length};
ghost use Rattle.vat_log.specs.Reading.{GivesInMemory, kind_at, kind_with};

use crate::error::LogError;

/// The kind of a record.
#[derive(Clone, Copy, PartialEq, Eq)]
pub(crate) enum RecordKind {
    Host,
    Vow,
    Fulfil,
    Break,
    Make,
    Field,
    Deliver,
    Answer,
    Fault,
    Send,
    Receive,
    AnswerBy,
}

/// The kind that a byte stands for.
#[tactic(auto, unfolding(crate::specs::Reading::kind_with))]
fn kind_of(byte: u8) -> Option<RecordKind>
    ensures { result ≡ kind_with byte }
{
    match byte {
        0x01 => Some(RecordKind::Host),
        0x02 => Some(RecordKind::Vow),
        0x03 => Some(RecordKind::Fulfil),
        0x04 => Some(RecordKind::Break),
        0x05 => Some(RecordKind::Make),
        0x06 => Some(RecordKind::Field),
        0x07 => Some(RecordKind::Deliver),
        0x08 => Some(RecordKind::Answer),
        0x09 => Some(RecordKind::Fault),
        0x0a => Some(RecordKind::Send),
        0x0b => Some(RecordKind::Receive),
        0x0c => Some(RecordKind::AnswerBy),
        _ => None,
    }
}

/// The kind of the record that begins at this place.
#[tactic(auto, unfolding(crate::specs::Reading::kind_at))]
pub(crate) fn read_kind(bytes: &[u8], at: usize) -> Result<RecordKind, LogError>
    requires { at < length bytes.now }
    ensures { GivesInMemory (λ kind. kind) result (kind_at bytes.now at) }
{
    match kind_of(bytes[at]) {
        Some(kind) => Ok(kind),
        None => Err(LogError::BadKind(at as u64)),
    }
}
