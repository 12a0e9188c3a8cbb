//! Frames that were sent and never received.

use crate::open::good_notes::MOST;
use crate::open::open_case::OpenCase;
use crate::record_note::put_record;
use case_book::Link;
use past_records::NoteText;
use std::alloc::AllocError;

/// How many frames one end of a connection sent and the other never received, and the record that sent the first of them.
#[derive(Clone, Copy)]
pub(crate) struct UnderWay {
    pub(crate) connection: u32,
    pub(crate) sender: u32,
    pub(crate) receiver: u32,
    pub(crate) count: usize,
    pub(crate) first: usize,
}

/// What one end of a connection sent and the other never received, if there is any.
fn under_way_from(case: &OpenCase<'_>, link: &Link, from: u32, to: u32) -> Option<UnderWay> {
    let connection = link.connection;
    let received = case.log_of(to)?.received_on(connection);
    let sends = case.log_of(from)?.sends_on(connection);
    Some(UnderWay {
        connection,
        sender: from,
        receiver: to,
        count: sends.len().saturating_sub(received),
        first: *sends.get(received)?,
    })
}

/// What was sent on the links of a case and never received, by link, from either end.
pub(crate) fn all_under_way(case: &OpenCase<'_>) -> Result<Vec<UnderWay>, AllocError> {
    let mut all = Vec::new(case.alloc);
    for link in case.links {
        if let Some(under_way) = under_way_from(case, link, link.a, link.b) {
            all.push(under_way)?;
        }
        if let Some(under_way) = under_way_from(case, link, link.b, link.a) {
            all.push(under_way)?;
        }
    }
    Ok(all)
}

/// Appends the notes of frames that were sent and never received.
fn put_direction(text: &mut NoteText, case: &OpenCase<'_>, under_way: UnderWay) {
    let sender = under_way.sender;
    let numbers = [under_way.connection, sender, under_way.receiver].map(u64::from);
    text.tell("note: connection #, vat # to vat #: ", &numbers);
    let sentence = if under_way.count == 1 {
        "1 message was sent and never received\n"
    } else {
        "# messages were sent and never received, the first of them this\n"
    };
    text.tell(sentence, &[under_way.count as u64]);
    if let (Some(name), Some(from)) = (case.name_of(sender), case.log_of(sender)) {
        put_record(text, name, from.log, under_way.first);
    }
}

/// Appends the notes of what was sent and never received, by link: of the first directions, and how many more there are.
pub(crate) fn put_under_way(text: &mut NoteText, case: &OpenCase<'_>) {
    let Some(all) = text.granted(all_under_way(case)) else {
        return;
    };
    for under_way in all.iter().take(MOST) {
        put_direction(text, case, *under_way);
    }
    if all.len() > MOST {
        let sentence = "messages were sent and never received in # more directions";
        text.note(sentence, &[all.len().saturating_sub(MOST) as u64])
    }
}
