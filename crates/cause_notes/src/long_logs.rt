//! Notes of a record of a log that is longer than notes look back over. The log is gone through again, and none of its records is
//! kept but that one: so they tell what the tables know.

use crate::heard::HeardAnswer;
use crate::inputs::unread::SearchingSource;
use byte_pieces::Pieces;
use case_report::Breach;
use past_records::{NoteText, Replay, decoded_as};
use record_notes::{put_past_cause, put_stored, vat_of};
use rpc_view::Edition;
use std::alloc::{AllocError, Global};
use vat_log::{LogStream, ReadFault, Record, VatLog, write_later_log, write_log};
use vat_rules::edition_of_header;
use vat_view::DecodedRecord;

/// A record of a log that isn't kept: the name of its file, its vat, the edition by which the log is judged, and its number.
#[derive(Drop)]
pub(crate) struct FarRecord<'a> {
    name: &'a str,
    vat: u32,
    edition: Edition,
    at: usize,
    stored: Record,
}

/// The next record of a log; none at its end, or where no more can be read.
fn next_of<P: Pieces>(
    alloc: Global,
    stream: &mut LogStream<P>,
) -> Result<Option<Record>, AllocError> {
    match stream.next(alloc) {
        Ok(next) => Ok(next),
        Err(ReadFault::OutOfMemory) => Err(AllocError),
        Err(_) => Ok(None),
    }
}

/// The log of this vat in a file that is opened once more, in front of its first record; none where it is another's.
fn log_again<S: SearchingSource>(
    alloc: Global,
    source: &S,
    name: &str,
    vat: u32,
) -> Result<Option<LogStream<S::Reader>>, AllocError> {
    let Some(reader) = source.open_again(name) else {
        return Ok(None);
    };
    match LogStream::begin(alloc, reader) {
        Ok(stream) if stream.vat() == vat => Ok(Some(stream)),
        Err((ReadFault::OutOfMemory, _reader)) => Err(AllocError),
        _ => Ok(None),
    }
}

/// The record of this number in a file that has the log of this vat.
fn record_in<'a, S: SearchingSource>(
    alloc: Global,
    source: &S,
    name: &'a str,
    vat: u32,
    at: usize,
) -> Result<Option<FarRecord<'a>>, AllocError> {
    let Some(mut stream) = log_again(alloc, source, name, vat)? else {
        return Ok(None);
    };
    for _ in 0..at {
        if next_of(alloc, &mut stream)?.is_none() {
            return Ok(None);
        }
    }
    let edition = edition_of_header(stream.header());
    Ok(next_of(alloc, &mut stream)?.map(|stored| FarRecord {
        name,
        vat,
        edition,
        at,
        stored,
    }))
}

/// The record of which this tells, where its log isn't kept and can be read once more.
pub(crate) fn far_record<S: SearchingSource>(
    alloc: Global,
    source: &S,
    told: HeardAnswer,
) -> Result<Option<FarRecord<'_>>, AllocError> {
    let (vat, at) = match told {
        HeardAnswer::Broken { vat, at, .. } | HeardAnswer::Outside { vat, at, .. } => (vat, at),
        _ => return Ok(None),
    };
    let mut kept = source.kept().iter();
    if kept.any(|(_, bytes)| vat_of(bytes) == Some(vat)) {
        return Ok(None);
    }
    for name in source.left_out() {
        if let Some(found) = record_in(alloc, source, name.as_str(), vat, at as usize)? {
            return Ok(Some(found));
        }
    }
    Ok(None)
}

/// Takes the records of a log before this one, and says whether each of them can be read and applied.
fn take_all<P: Pieces>(
    alloc: Global,
    stream: &mut LogStream<P>,
    far: &FarRecord<'_>,
    replay: &mut Replay,
) -> Result<bool, AllocError> {
    for _ in 0..far.at {
        let Some(stored) = next_of(alloc, stream)? else {
            return Ok(false);
        };
        match decoded_as(alloc, &stored, far.edition)? {
            Some(earlier) if replay.take(&earlier)? => {}
            _ => return Ok(false),
        }
    }
    Ok(true)
}

/// What the records before one came to.
fn replayed<S: SearchingSource>(
    alloc: Global,
    source: &S,
    far: &FarRecord<'_>,
    event: &DecodedRecord,
) -> Result<Option<Replay>, AllocError> {
    let Some(mut stream) = log_again(alloc, source, far.name, far.vat)? else {
        return Ok(None);
    };
    let mut replay = Replay::watching(alloc, event)?;
    let is_taken = take_all(alloc, &mut stream, far, &mut replay)?;
    Ok(if is_taken { Some(replay) } else { None })
}

/// A log of this vat that has no record and is judged by this edition.
fn no_records(alloc: Global, vat: u32, edition: Edition) -> Result<VatLog, AllocError> {
    match edition {
        Edition::First => write_log(alloc, vat, &[]),
        Edition::Later => write_later_log(alloc, vat, &[]),
    }
    .map_err(|_| AllocError)
}

impl FarRecord<'_> {
    /// Appends the note of the record.
    pub(crate) fn put(&self, text: &mut NoteText) {
        put_stored(text, self.name, self.at, &self.stored, self.edition);
    }

    /// Appends the notes of what led to it, where it breaks a rule of its log, as far as the tables know it.
    pub(crate) fn put_cause<S: SearchingSource>(
        &self,
        text: &mut NoteText,
        source: &S,
        told: HeardAnswer,
    ) {
        let alloc = text.alloc();
        if let HeardAnswer::Broken { breach, .. } = told
            && let Breach::Rule(rule) = breach
            && let Some(event) = text.found(decoded_as(alloc, &self.stored, self.edition))
            && let Some(replay) = text.found(replayed(alloc, source, self, &event))
            && let Some(log) = text.granted(no_records(alloc, self.vat, self.edition))
        {
            put_past_cause(&replay.before(alloc, &log, event), text, rule);
        }
    }
}
