//! The text and the exit status of what is answered of the bytes of a connection.

ghost use Rattle.std.specs.Prelude.{◌≡◌};
ghost use Rattle.std.specs.Fmt.{WritesOnOk};
ghost use Rattle.report_lines.specs.Lines.{end_name, wire_status, wire_text};

use crate::finding_text::word_of;
use crate::report_text::breach_code;
use case_report::WireLine;
use std::fmt::{self, Formatter};
use wire_cut::End;

/// The name of an end of a connection: that of its file.
pub fn end_name(end: End) -> &'static str
    ensures { result.now ≡ end_name end }
{
    match end {
        End::A => "A",
        End::B => "B",
    }
}

/// Writes what is answered of the bytes of a connection.
pub fn put_wire<W: fmt::Write>(f: &mut Formatter<W>, line: &WireLine) -> fmt::Result
    ensures { WritesOnOk W.write_str_gives f.old result (wire_text line.now) f.new }
{
    match line {
        WireLine::Yes {
            frames_of_a,
            frames_of_b,
            delivered,
        } => write!(
            f,
            "yes frames {frames_of_a} {frames_of_b} delivered {delivered}"
        ),
        WireLine::No { end, message, rule } => {
            let (end, code) = (end_name(*end), breach_code(*rule));
            write!(f, "no end {end} message {message} rule {code}")
        }
        WireLine::NoOrder { of_a, of_b } => write!(f, "no ends A {of_a} B {of_b}"),
        WireLine::Unexplained { end, message } => {
            let end = end_name(*end);
            write!(f, "no end {end} message {message} unexplained")
        }
        WireLine::TooLong { end, message } => {
            let end = end_name(*end);
            write!(f, "too long end {end} message {message}")
        }
        WireLine::Outside { end, message, why } => {
            let (end, word) = (end_name(*end), word_of(*why));
            write!(f, "outside end {end} message {message} {word}")
        }
        WireLine::BadFrame { end, message } => {
            let end = end_name(*end);
            write!(f, "bad frame TooManySegments end {end} message {message}")
        }
    }
}

/// The exit status for what is answered of the bytes of a connection.
pub fn wire_status(line: &WireLine) -> u8
    ensures { result ≡ wire_status line.now }
{
    match line {
        WireLine::Yes { .. } => 0,
        WireLine::No { .. } | WireLine::NoOrder { .. } | WireLine::Unexplained { .. } => 1,
        WireLine::TooLong { .. } | WireLine::Outside { .. } | WireLine::BadFrame { .. } => 2,
    }
}
