//! Columns, rows and arrows, each as it is drawn.

ghost use Rattle.std.specs.Prelude.{◌≡◌, Some};
ghost use Rattle.std.specs.Fmt.{WritesOnOk};
ghost use Rattle.picture.specs.Picture.{arrow_line, arrow_text, band_lines, band_text, column_text, circle_text, line_text, linked_text, mark_word, row_name_text, row_text, shape_text, stroke_word, tone_word, words_begin_at, words_element, words_y, y_of};
ghost use Rattle.picture.specs.Labels.{label_text};
ghost use Rattle.vat_log.specs.Passages.{passage_of};

use crate::arrow::{Arrow, Stroke};
use crate::columns::Column;
use crate::label::Label;
use crate::record_place::Place;
use crate::row::{Row, Tone, label_of};
use crate::svg::points::{Point, point_at, reach_point, x_of, y_of};
use rpc_view::RpcMessage;
use std::fmt::{self, Display, Formatter};
use vat_log::Body;

impl Display for Column {
    ghost output = { λ column. Some (column_text column) };

    fn fmt<W: fmt::Write>(&self, f: &mut Formatter<W>) -> fmt::Result {
        let (x, bottom, vat) = (x_of(self.column), y_of(self.line), self.vat);
        write!(
            f,
            "<path class='life' d='M{x},104V{bottom}'/><text class='vat' x='{x}' y='96' text-anchor='middle'>vat {vat}</text>\n"
        )
    }
}

/// How what is marked so is painted.
pub fn tone_word(tone: Tone) -> &'static str
    ensures { result.now ≡ tone_word tone }
{
    match tone {
        Tone::Plain => "plain",
        Tone::Kin => "kin",
        Tone::Named => "named",
        Tone::Fault => "named fault",
    }
}

/// How an arrow is stroked.
fn stroke_word(stroke: Stroke) -> &'static str
    ensures { result.now ≡ stroke_word stroke }
{
    match stroke {
        Stroke::Plain => "arrow",
        Stroke::Late => "arrow late",
        Stroke::Canceled => "arrow canceled",
        Stroke::Tail => "arrow tail",
    }
}

/// A line from one point to another.
#[derive(Clone, Copy)]
struct LineSegment {
    from: Point,
    to: Point,
}

impl Display for LineSegment {
    ghost output = { λ line. Some (line_text line.from line.to) };

    fn fmt<W: fmt::Write>(&self, f: &mut Formatter<W>) -> fmt::Result {
        let LineSegment { from, to } = self;
        write!(f, "M{from}L{to}")
    }
}

/// The line of an arrow: from its row where that sends, else to its row.
fn line_of(arrow: &Arrow) -> LineSegment
    ensures { line_text result.from result.to ≡ arrow_line arrow.now }
{
    let here = point_at(arrow.column, arrow.line);
    let there = reach_point(arrow.column, arrow.line, arrow.reach);
    let (from, to) = if arrow.sent {
        (here, there)
    } else {
        (there, here)
    };
    LineSegment { from, to }
}

impl Display for Arrow {
    ghost output = { λ arrow. Some (arrow_text arrow) };

    fn fmt<W: fmt::Write>(&self, f: &mut Formatter<W>) -> fmt::Result {
        let tone = tone_word(self.tone);
        let stroke = stroke_word(self.stroke);
        let line = line_of(self);
        write!(
            f,
            "<g class='{tone}'><path class='{stroke}' d='{line}'/></g>\n"
        )
    }
}

/// Writes a band of this height, from there down.
fn put_band<W: fmt::Write>(f: &mut Formatter<W>, top: u64, height: u64) -> fmt::Result
    ensures { WritesOnOk W.write_str_gives f.old result (band_lines top height) f.new }
{
    write!(
        f,
        "<rect class='band' y='{top}' width='100%' height='{height}'/>\n"
    )
}

/// The band behind a row that the verdict names; none behind others.
#[derive(Clone, Copy)]
pub struct Band<'a> {
    pub row: &'a Row<'a>,
    pub room: u8,
}

impl Display for Band<'_> {
    ghost output = { λ band. Some (band_text band.room band.row.now) };

    fn fmt<W: fmt::Write>(&self, f: &mut Formatter<W>) -> fmt::Result {
        let row = self.row;
        let top = y_of(row.line) - 15;
        match row.tone {
            Tone::Fault => put_band(f, top, 32 * self.room as u64 + 27),
            Tone::Named => put_band(f, top, 30),
            Tone::Plain | Tone::Kin => Ok(()),
        }
    }
}

/// The mark of a message, or of what a vat does by itself.
fn mark_word(message: &Option<RpcMessage>) -> &'static str
    ensures { result.now ≡ mark_word message.now }
{
    if message.is_some() { "dot" } else { "own" }
}

/// How far down the words of a row are: of what it sends above the arrow, which goes down from there; of what it receives
/// below the arrow, which comes from above; else beside the mark.
fn words_y(body: &Body, line: u32) -> u64
    ensures { result ≡ words_y (passage_of body.now) (y_of line) }
{
    let y = y_of(line);
    match body.passage() {
        None => y + 4,
        Some((true, _)) => y - 5,
        Some((false, _)) => y + 11,
    }
}

/// A mark at a point.
#[derive(Clone, Copy)]
struct Circle<'a> {
    tone: &'a str,
    mark: &'a str,
    at: Point,
}

impl Display for Circle<'_> {
    ghost output = { λ it. Some (circle_text it.tone.now it.mark.now it.at) };

    fn fmt<W: fmt::Write>(&self, f: &mut Formatter<W>) -> fmt::Result {
        let Circle { tone, mark, at } = *self;
        let Point { x, y } = at;
        write!(
            f,
            "<g class='{tone}'><circle class='{mark}' cx='{x}' cy='{y}' r='3.5'/>"
        )
    }
}

/// Words that begin at a point.
#[derive(Clone, Copy)]
struct Words<'a> {
    at: Point,
    label: Label<'a>,
}

impl Display for Words<'_> {
    ghost output = { λ it. Some (words_element it.at (label_text it.label.number it.label.body.now it.label.message.now it.label.reason.now it.label.unended)) };

    fn fmt<W: fmt::Write>(&self, f: &mut Formatter<W>) -> fmt::Result {
        let Words { at, label } = *self;
        let Point { x, y } = at;
        write!(f, "<text x='{x}' y='{y}'>{label}</text></g>\n")
    }
}

/// Where the words of a row begin.
fn words_at(row: &Row<'_>) -> Point
    ensures { result ≡ words_begin_at row.now }
{
    let (x, y) = (x_of(row.column) + 14, words_y(row.body, row.line));
    Point { x, y }
}

/// A row: its mark and its words.
#[derive(Clone, Copy)]
struct PlainRow<'a>(&'a Row<'a>);

impl Display for PlainRow<'_> {
    ghost output = { λ shape. Some (row_text shape.0.now) };

    fn fmt<W: fmt::Write>(&self, f: &mut Formatter<W>) -> fmt::Result {
        let row = self.0;
        let circle = Circle {
            tone: tone_word(row.tone),
            mark: mark_word(&row.message),
            at: point_at(row.column, row.line),
        };
        let (at, label) = (words_at(row), label_of(row));
        let words = Words { at, label };
        write!(f, "{circle}{words}")
    }
}

/// A record, in the names of its rows.
#[derive(Clone, Copy)]
pub struct RowName(pub Place);

impl Display for RowName {
    ghost output = { λ name. Some (row_name_text name.0) };

    fn fmt<W: fmt::Write>(&self, f: &mut Formatter<W>) -> fmt::Result {
        let Place { vat, number } = self.0;
        write!(f, "{vat}-{number}")
    }
}

/// A row that leads to the row of its record in a table.
#[derive(Clone, Copy)]
struct Linked<'a>(&'a Row<'a>);

impl Display for Linked<'_> {
    ghost output = { λ linked. Some (linked_text linked.0.now) };

    fn fmt<W: fmt::Write>(&self, f: &mut Formatter<W>) -> fmt::Result {
        let row = self.0;
        let (name, shape) = (RowName(row.place), PlainRow(row));
        write!(f, "<a id='row-{name}' href='#record-{name}'>{shape}</a>\n")
    }
}

/// A row, on a page or in a picture alone.
#[derive(Clone, Copy)]
pub struct RowShape<'a> {
    pub row: &'a Row<'a>,
    pub linked: bool,
}

impl Display for RowShape<'_> {
    ghost output = { λ shape. Some (shape_text shape.linked shape.row.now) };

    fn fmt<W: fmt::Write>(&self, f: &mut Formatter<W>) -> fmt::Result {
        if self.linked {
            write!(f, "{}", Linked(self.row))
        } else {
            write!(f, "{}", PlainRow(self.row))
        }
    }
}
