//! Bytes, printed.

ghost use Rattle.std.specs.Prelude.{◌≡◌, ◌<◌, Some};
ghost use Rattle.std.specs.Fmt.{WritesOnOk};
ghost use Rattle.exception_reasons.specs.Printed.{byte_text, hexadecimal_digit, is_printable, printed};

use std::fmt;
use std::fmt::{Display, Formatter};

/// Bytes as they are printed between quotation marks, in printable ASCII alone: a quotation mark and a backslash behind a
/// backslash, others from the space to `~` as they are, and any other byte as `\x` and two hexadecimal digits.
#[derive(Clone, Copy)]
pub struct Printed<'a>(pub &'a [u8]);

/// A hexadecimal digit.
fn digit_of(number: u8) -> u8
    requires { number < 16 }
    ensures { result ≡ hexadecimal_digit number }
{
    if number < 10 {
        b'0' + number
    } else {
        b'a' + (number - 10)
    }
}

/// Whether a byte is printed as it is.
fn prints(byte: u8) -> bool
    ensures { result ≡ is_printable byte }
{
    b' ' <= byte && byte <= b'~'
}

/// Writes a byte.
fn put_byte<W: fmt::Write>(f: &mut Formatter<W>, byte: u8) -> fmt::Result
    ensures { WritesOnOk W.write_str_gives f.old result (byte_text byte) f.new }
{
    if byte == b'"' {
        return f.write_str("\\\"");
    }
    if byte == b'\\' {
        return f.write_str("\\\\");
    }
    if prints(byte) {
        return f.write_char(byte as char);
    }
    let high = digit_of(byte / 16) as char;
    let low = digit_of(byte % 16) as char;
    write!(f, "\\x{high}{low}")
}

impl Display for Printed<'_> {
    ghost output = { λ text. Some (printed text.0.now) };

    fn fmt<W: fmt::Write>(&self, f: &mut Formatter<W>) -> fmt::Result {
        for byte in self.0 {
            put_byte(f, *byte)?;
        }
        Ok(())
    }
}
