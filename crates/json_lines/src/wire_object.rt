//! The members of what is answered of the bytes of a connection.

use crate::json_text::JsonText;
use case_report::WireLine;
use report_lines::{breach_code, end_name, word_of};
use wire_cut::End;

/// Writes what names a message, by its end and its number there.
fn put_message(json: &mut JsonText<'_>, kind: &str, end: End, message: u64) {
    json.text_member("end", end_name(end));
    json.text_member("kind", kind);
    json.member("message", message);
}

/// Writes what is answered of the bytes of a connection. A no at a message has a rule, unless none is named.
pub(crate) fn put_wire(json: &mut JsonText<'_>, line: &WireLine) {
    match *line {
        WireLine::Yes {
            frames_of_a,
            frames_of_b,
            delivered,
        } => {
            json.member("delivered", delivered);
            json.member("frames_of_a", frames_of_a);
            json.member("frames_of_b", frames_of_b);
            json.text_member("kind", "yes");
        }
        WireLine::No { end, message, rule } => {
            put_message(json, "no", end, message);
            json.text_member("rule", breach_code(rule));
        }
        WireLine::NoOrder { of_a, of_b } => {
            json.text_member("kind", "no ends");
            json.member("message_of_a", of_a);
            json.member("message_of_b", of_b);
        }
        WireLine::Unexplained { end, message } => put_message(json, "no", end, message),
        WireLine::TooLong { end, message } => put_message(json, "too long", end, message),
        WireLine::Outside { end, message, why } => {
            put_message(json, "outside", end, message);
            json.text_member("why", word_of(why));
        }
        WireLine::BadFrame { end, message } => {
            json.text_member("end", end_name(end));
            json.text_member("fault", "TooManySegments");
            json.text_member("kind", "bad frame");
            json.member("message", message);
        }
    }
}
