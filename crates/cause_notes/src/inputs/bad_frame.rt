//! Frames that aren't read, or aren't judged, and words that spell none.

use crate::inputs::bad_file::put_kind;
use crate::inputs::file_kind::FileKind;
use bytes::Bytes;
use cap_frame::FrameError;
use hex::FromHexError;
use past_records::NoteText;
use report_lines::{Fault, why_sentence};
use rpc_view::{Outside, ReadError};
use std::alloc::Global;
use vat_rules::Why;

/// Why a pointer can't be followed.
fn read_sentence(fault: ReadError) -> Option<&'static str> {
    match fault {
        ReadError::OutOfSegment => Some("a pointer leads out of its segment"),
        ReadError::NoSegment => Some("a pointer names a segment that isn't there"),
        ReadError::BadPad => Some("a far pointer leads to no landing pad"),
        ReadError::WrongKind => Some(
            "a pointer is a list's where a struct's is expected, or the other way round",
        ),
        ReadError::NoZero => Some("a text has no zero at its end"),
        ReadError::Reserved => Some("a pointer has bits that are kept for later"),
        ReadError::TooDeep => Some("more than 64 structs stand one in another"),
        ReadError::TooMuch => Some("its visits pass 8388608 words"),
        ReadError::OutOfMemory => None,
    }
}

/// Why bytes aren't a frame.
fn frame_sentence(fault: FrameError) -> &'static str {
    match fault {
        FrameError::Short => "it ends before its segments do",
        FrameError::TooManySegments => "its first number says more than 512 segments",
        FrameError::Trailing => "bytes stand behind its last segment",
        FrameError::NoRoot => "its first segment is empty",
    }
}

/// Why a frame isn't read as a message. None where it is outside of what is judged.
fn message_sentence(fault: Fault) -> Option<&'static str> {
    match fault {
        Fault::Frame(fault) => Some(frame_sentence(fault)),
        Fault::Read(fault) => read_sentence(fault),
        Fault::BadTag => Some("a union's tag is a number that isn't listed"),
        _ => None,
    }
}

/// Appends the note of why a frame isn't read, where it isn't outside of what is judged.
pub(crate) fn put_unread_frame(text: &mut NoteText, fault: Fault) {
    if let Some(sentence) = message_sentence(fault) {
        text.line("note: the frame isn't read: ", sentence);
    }
}

/// Appends the note of a word that isn't hexadecimal.
pub(crate) fn put_hex(text: &mut NoteText, hex: Option<&str>) {
    match hex.map(|hex| hex::decode(text.alloc(), hex)) {
        Some(Err(FromHexError::InvalidHexCharacter { c, index })) => {
            let sentence = "'@' at place #, counted from 0, is no hexadecimal digit";
            text.note_of(sentence, &c.escape_debug(), &[index as u64]);
        }
        Some(Err(FromHexError::OddLength)) => {
            text.say("two digits make a byte, and their count is odd");
        }
        _ => {}
    }
}

/// Why a message isn't judged.
fn outside_sentence(why: Outside) -> &'static str {
    match why {
        Outside::Level => why_sentence(Why::Level),
        Outside::Unimplemented => why_sentence(Why::Unimplemented),
        Outside::LaterField => why_sentence(Why::LaterField),
    }
}

/// Appends the note of why a frame of the command line isn't judged, or isn't read.
pub(crate) fn put_frame(text: &mut NoteText, fault: Fault) {
    match fault {
        Fault::Outside(why) => text.line("note: not judged: ", outside_sentence(why)),
        _ => put_unread_frame(text, fault),
    }
}

/// Appends the note of what a file is that was to hold frames; else why the last of them isn't judged, or isn't read.
pub(crate) fn put_last_frame(text: &mut NoteText, file: &(String, Bytes), fault: Fault) {
    if put_kind(text, file, FileKind::Other) {
        return;
    }
    let (words, sentence) = match fault {
        Fault::Outside(why) => (" isn't judged: ", Some(outside_sentence(why))),
        _ => (" isn't read: ", message_sentence(fault)),
    };
    if let Some(sentence) = sentence {
        text.file("note: the last frame of ", file.0.as_str(), words);
        text.line(sentence, "");
    }
}
