//! What stands beside columns, rows and arrows.

ghost use Rattle.std.specs.Prelude.{◌≡◌, ◌+◌, Some, codes};
ghost use Rattle.std.specs.Fmt.{WritesOnOk};
ghost use Rattle.picture.specs.Picture.{code_text, head_text, height_of, left_out_text, line_end, opening_tag, sentence_of, sentence_text, why_text, wrapped, y_of};

use crate::breaks::ends_line;
use crate::drawing::Picture;
use crate::svg::points::y_of;
use case_report::Report;
use report_lines::{ShownReport, breach_code};
use std::fmt::{self, Display, Formatter};

/// The begin of a picture: its width and height.
#[derive(Clone, Copy)]
pub struct OpeningTag<'a>(pub &'a Picture<'a>);

impl Display for OpeningTag<'_> {
    ghost output = { λ picture. Some (opening_tag picture.0.now.width (height_of picture.0.now.lines)) };

    fn fmt<W: fmt::Write>(&self, f: &mut Formatter<W>) -> fmt::Result {
        let width = self.0.width;
        let height = y_of(self.0.lines) + 48;
        write!(
            f,
            "<svg xmlns='http://www.w3.org/2000/svg' width='{width}' height='{height}' viewBox='0 0 {width} {height}'>\n"
        )
    }
}

/// The line of `check`.
#[derive(Clone, Copy)]
pub struct Head<'a>(pub &'a Report);

impl Display for Head<'_> {
    ghost output = { λ head. Some (head_text head.0.now) };

    fn fmt<W: fmt::Write>(&self, f: &mut Formatter<W>) -> fmt::Result {
        let line = ShownReport(self.0);
        write!(f, "<text class='head' x='60' y='30'>{line}</text>\n")
    }
}

/// The code of the rule that is broken.
#[derive(Clone, Copy)]
struct Code<'a>(&'a Report);

impl Display for Code<'_> {
    ghost output = { λ code. Some (code_text code.0.now) };

    fn fmt<W: fmt::Write>(&self, f: &mut Formatter<W>) -> fmt::Result {
        match self.0 {
            Report::Vat { rule, .. } => write!(f, "{}: ", breach_code(*rule)),
            _ => Ok(()),
        }
    }
}

/// Where a line of the sentence ends.
fn line_end() -> &'static str
    ensures { result.now ≡ line_end }
{
    "</tspan><tspan x='60' dy='15'>"
}

/// A text in lines.
#[derive(Clone, Copy)]
struct Wrapped<'a>(&'a str);

impl Display for Wrapped<'_> {
    ghost output = { λ text. Some (wrapped 0 text.0.now) };

    fn fmt<W: fmt::Write>(&self, f: &mut Formatter<W>) -> fmt::Result {
        let mut at = 0;
        for letter in self.0.as_bytes() {
            if ends_line(at, *letter) {
                f.write_str(line_end())?;
                at = 0;
            } else {
                f.write_char(*letter as char)?;
                at += 1;
            }
        }
        Ok(())
    }
}

/// Writes the sentence of what is broken, so far down, with the rule's code.
fn put_why<W: fmt::Write>(
    f: &mut Formatter<W>,
    y: u64,
    report: &Report,
    sentence: &str,
) -> fmt::Result
    ensures { WritesOnOk W.write_str_gives f.old result (why_text y report.now sentence.now) f.new }
{
    let code = Code(report);
    let lines = Wrapped(sentence);
    write!(
        f,
        "<text class='why' y='{y}'><tspan x='60'>{code}{lines}</tspan></text>\n"
    )
}

/// The sentence of what is broken, below the row at fault, or below the line of `check` where that names no record.
#[derive(Clone, Copy)]
pub struct Sentence<'a>(pub &'a Picture<'a>);

impl Display for Sentence<'_> {
    ghost output = { λ picture. Some (sentence_text picture.0.now.report.now picture.0.now.gap (sentence_of picture.0.now)) };

    fn fmt<W: fmt::Write>(&self, f: &mut Formatter<W>) -> fmt::Result {
        let Some(sentence) = self.0.sentence else {
            return Ok(());
        };
        let report = self.0.report;
        match (report, self.0.gap) {
            (_, Some(gap)) => put_why(f, y_of(gap.row as u32) + 32, report, sentence),
            (Report::NoOrder, None) => put_why(f, 52, report, sentence),
            (_, None) => Ok(()),
        }
    }
}

/// Writes how many steps are left out, above or below, if any are.
fn put_left_out<W: fmt::Write>(
    f: &mut Formatter<W>,
    steps: usize,
    whence: &str,
    y: u64,
) -> fmt::Result
    ensures { WritesOnOk W.write_str_gives f.old result (left_out_text steps whence.now y) f.new }
{
    if steps == 0 {
        return Ok(());
    }
    write!(
        f,
        "<text class='note' x='60' y='{y}'>{steps} steps {whence} are left out</text>\n"
    )
}

/// How many steps are left out above.
#[derive(Clone, Copy)]
pub struct Above<'a>(pub &'a Picture<'a>);

impl Display for Above<'_> {
    ghost output = { λ picture. Some (left_out_text picture.0.now.above (codes "above") 76) };

    fn fmt<W: fmt::Write>(&self, f: &mut Formatter<W>) -> fmt::Result {
        put_left_out(f, self.0.above, "above", 76)
    }
}

/// How many steps are left out below.
#[derive(Clone, Copy)]
pub struct Below<'a>(pub &'a Picture<'a>);

impl Display for Below<'_> {
    ghost output = { λ picture. Some (left_out_text picture.0.now.below (codes "below") (y_of picture.0.now.lines + 34)) };

    fn fmt<W: fmt::Write>(&self, f: &mut Formatter<W>) -> fmt::Result {
        put_left_out(f, self.0.below, "below", y_of(self.0.lines) + 34)
    }
}
