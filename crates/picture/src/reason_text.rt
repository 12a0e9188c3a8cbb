//! The words of a reason in a document.

ghost use Rattle.std.specs.Prelude.{◌≡◌, Some};
ghost use Rattle.std.specs.Fmt.{WritesOnOk};
ghost use Rattle.exception_reasons.specs.Printed.{byte_text, printed};
ghost use Rattle.picture.specs.ReasonText.{markup, quoted, short_reason, whole_reason};

use exception_reasons::{Printed, Reason};
use std::fmt::{self, Display, Formatter};

/// Writes a byte as it is printed in a document: `&`, `<` and `>` by their names, and others as [`Printed`] says.
fn put_byte<W: fmt::Write>(f: &mut Formatter<W>, byte: u8) -> fmt::Result
    ensures { WritesOnOk W.write_str_gives f.old result (markup (byte_text byte)) f.new }
{
    match byte {
        b'&' => f.write_str("&amp;"),
        b'<' => f.write_str("&lt;"),
        b'>' => f.write_str("&gt;"),
        byte => write!(f, "{}", Printed(&[byte])),
    }
}

/// Bytes, printed in a document.
#[derive(Clone, Copy)]
struct Escaped<'a>(&'a [u8]);

impl Display for Escaped<'_> {
    ghost output = { λ text. Some (markup (printed text.0.now)) };

    fn fmt<W: fmt::Write>(&self, f: &mut Formatter<W>) -> fmt::Result {
        for byte in self.0 {
            put_byte(f, *byte)?;
        }
        Ok(())
    }
}

/// A reason of these bytes, between quotation marks.
#[derive(Clone, Copy)]
struct Quoted<'a>(&'a [u8]);

impl Display for Quoted<'_> {
    ghost output = { λ reason. Some (quoted reason.0.now) };

    fn fmt<W: fmt::Write>(&self, f: &mut Formatter<W>) -> fmt::Result {
        write!(f, " reason \"{}\"", Escaped(self.0))
    }
}

/// What a row of a picture has of a reason, if there is one: its first 80 bytes, and two dots behind them where it has more.
#[derive(Clone, Copy)]
pub struct ShortReason<'a>(pub &'a Option<Reason>);

impl Display for ShortReason<'_> {
    ghost output = { λ reason. Some (short_reason reason.0.now) };

    fn fmt<W: fmt::Write>(&self, f: &mut Formatter<W>) -> fmt::Result {
        let Some(reason) = self.0 else {
            return Ok(());
        };
        let bytes = reason.as_bytes();
        if bytes.len() <= 80 {
            return write!(f, "{}", Quoted(bytes));
        }
        let (first, _) = bytes.split_at(80);
        write!(f, "{} ..", Quoted(first))
    }
}

/// What a row of a table has of a reason, if there is one: all of it.
#[derive(Clone, Copy)]
pub struct WholeReason<'a>(pub &'a Option<Reason>);

impl Display for WholeReason<'_> {
    ghost output = { λ reason. Some (whole_reason reason.0.now) };

    fn fmt<W: fmt::Write>(&self, f: &mut Formatter<W>) -> fmt::Result {
        match self.0 {
            Some(reason) => write!(f, "{}", Quoted(reason.as_bytes())),
            None => Ok(()),
        }
    }
}
