//! A page: a picture, and beside it a table of its records.

ghost use Rattle.std.specs.Prelude.{◌≡◌, IfOk, Some, string_bytes};
ghost use Rattle.std.specs.List.{flat_map};
ghost use Rattle.picture.specs.Page.{dark_layout, drawn_text, layout, listed_begin, listed_cells, listed_link, listed_said, listed_text, listed_words, page_begin, page_style, page_text};

use crate::drawing::Picture;
use crate::reason_text::WholeReason;
use crate::record_place::Place;
use crate::row::{Row, Tone};
use crate::svg::document::Svg;
use crate::svg::shapes::{RowName, tone_word};
use case_report::Report;
use report_lines::{Shown, ShownReport};
use rpc_view::RpcMessage;
use std::alloc::{AllocError, Global};
use std::fmt::{self, Display, Formatter};
use vat_log::Body;

/// What the table has of a record whose frame has this message.
#[derive(Clone, Copy)]
struct ListedWords<'a> {
    body: &'a Body,
    message: &'a Option<RpcMessage>,
}

impl Display for ListedWords<'_> {
    ghost output = { λ words. Some (listed_words words.body.now words.message.now) };

    fn fmt<W: fmt::Write>(&self, f: &mut Formatter<W>) -> fmt::Result {
        let body = self.body;
        match (self.message, body) {
            (Some(message), _) => write!(f, "{} {}", Shown(body), Shown(message)),
            (None, Body::Send { .. } | Body::Receive { .. }) => write!(f, "{} unread", Shown(body)),
            (None, _) => write!(f, "{}", Shown(body)),
        }
    }
}

/// The same, and behind it the reason of its exception.
#[derive(Clone, Copy)]
struct ListedSaid<'a> {
    words: ListedWords<'a>,
    reason: WholeReason<'a>,
}

impl Display for ListedSaid<'_> {
    ghost output = { λ said. Some (listed_said said.words.body.now said.words.message.now said.reason.0.now) };

    fn fmt<W: fmt::Write>(&self, f: &mut Formatter<W>) -> fmt::Result {
        let ListedSaid { words, reason } = *self;
        write!(f, "{words}{reason}")
    }
}

/// Where a row of the table begins.
#[derive(Clone, Copy)]
struct ListedBegin {
    place: Place,
    tone: Tone,
}

impl Display for ListedBegin {
    ghost output = { λ begin. Some (listed_begin begin.place begin.tone) };

    fn fmt<W: fmt::Write>(&self, f: &mut Formatter<W>) -> fmt::Result {
        let (name, tone) = (RowName(self.place), tone_word(self.tone));
        write!(f, "<tr id='record-{name}' class='{tone}'>")
    }
}

/// The vat of a row of the table, which leads to the row of the picture.
#[derive(Clone, Copy)]
struct ListedLink(Place);

impl Display for ListedLink {
    ghost output = { λ link. Some (listed_link link.0) };

    fn fmt<W: fmt::Write>(&self, f: &mut Formatter<W>) -> fmt::Result {
        let (name, vat) = (RowName(self.0), self.0.vat);
        write!(f, "<td><a href='#row-{name}'>{vat}</a></td>")
    }
}

/// The number of a record, and what the table has of it.
#[derive(Clone, Copy)]
struct ListedCells<'a> {
    number: usize,
    said: ListedSaid<'a>,
}

impl Display for ListedCells<'_> {
    ghost output = { λ cells. Some (listed_cells cells.number (listed_said cells.said.words.body.now cells.said.words.message.now cells.said.reason.0.now)) };

    fn fmt<W: fmt::Write>(&self, f: &mut Formatter<W>) -> fmt::Result {
        let ListedCells { number, said } = *self;
        write!(f, "<td>{number}</td><td>{said}</td></tr>\n")
    }
}

/// The same of a row.
fn cells_of<'a>(row: &'a Row<'_>) -> ListedCells<'a>
    ensures { listed_cells result.number (listed_said result.said.words.body.now result.said.words.message.now result.said.reason.0.now)
        ≡ listed_cells row.now.place.number (listed_said row.now.body row.now.message row.now.reason) }
{
    let (body, message) = (row.body, &row.message);
    let (words, reason) = (ListedWords { body, message }, WholeReason(&row.reason));
    let (number, said) = (row.place.number, ListedSaid { words, reason });
    ListedCells { number, said }
}

/// A row of the table.
#[derive(Clone, Copy)]
struct Listed<'a>(&'a Row<'a>);

impl Display for Listed<'_> {
    ghost output = { λ listed. Some (listed_text listed.0.now) };

    fn fmt<W: fmt::Write>(&self, f: &mut Formatter<W>) -> fmt::Result {
        let row = self.0;
        let (place, tone) = (row.place, row.tone);
        let begin = ListedBegin { place, tone };
        let (link, cells) = (ListedLink(place), cells_of(row));
        write!(f, "{begin}{link}{cells}")
    }
}

/// The rows of the table.
#[derive(Clone, Copy)]
struct Table<'a>(&'a Picture<'a>);

impl Display for Table<'_> {
    ghost output = { λ table. Some (flat_map listed_text table.0.now.rows.items) };

    fn fmt<W: fmt::Write>(&self, f: &mut Formatter<W>) -> fmt::Result {
        for row in &self.0.rows {
            write!(f, "{}", Listed(row))?;
        }
        Ok(())
    }
}

/// How a page is laid out: the picture and the table are moved each by itself.
fn layout() -> &'static str
    ensures { result.now ≡ layout }
{
    "<style>\nhtml,body{margin:0;height:100%;background:#fff;color:#1b1f24}\nbody{display:grid;grid-template-columns:minmax(0,3fr) minmax(0,2fr);font:13px ui-monospace,Menlo,Consolas,monospace}\n.drawn,.listed{height:100vh;overflow:auto}.listed{border-left:1px solid #c4cad1}\ntable{border-collapse:collapse}th,td{padding:2px 8px;text-align:left;vertical-align:top}th{position:sticky;top:0;background:#fff}tr{scroll-margin-top:40vh}\na{color:inherit}.listed .kin{color:#1f5fae}.listed .named{background:#fbe4e2}.listed .fault{color:#b3261e;font-weight:700}\n.listed tr:target{background:#fff3c4}.drawn a:target text{text-decoration:underline}\n"
}

/// The colours of the layout on a dark page.
fn dark_layout() -> &'static str
    ensures { result.now ≡ dark_layout }
{
    "@media(prefers-color-scheme:dark){\nhtml,body,th{background:#14171a;color:#e4e7ea}.listed{border-color:#4a525b}.listed .kin{color:#8ab8ff}.listed .named{background:#4a1f1c}.listed .fault{color:#ff8a80}.listed tr:target{background:#4d4315}}\n</style>\n"
}

/// All of its style.
#[derive(Clone, Copy)]
struct PageStyle;

impl Display for PageStyle {
    ghost output = { λ _. Some page_style };

    fn fmt<W: fmt::Write>(&self, f: &mut Formatter<W>) -> fmt::Result {
        let (layout, dark) = (layout(), dark_layout());
        write!(f, "{layout}{dark}")
    }
}

/// A page, up to its picture.
#[derive(Clone, Copy)]
struct Begin<'a>(&'a Report);

impl Display for Begin<'_> {
    ghost output = { λ begin. Some (page_begin begin.0.now) };

    fn fmt<W: fmt::Write>(&self, f: &mut Formatter<W>) -> fmt::Result {
        let (head, style) = (ShownReport(self.0), PageStyle);
        write!(
            f,
            "<!DOCTYPE html>\n<html lang='en'>\n<head><meta charset='utf-8'><title>{head}</title>\n{style}</head>\n<body>\n<div class='drawn'>\n"
        )
    }
}

/// A page.
#[derive(Clone, Copy)]
struct Page<'a>(&'a Picture<'a>);

impl Display for Page<'_> {
    ghost output = { λ page. Some (page_text page.0.now) };

    fn fmt<W: fmt::Write>(&self, f: &mut Formatter<W>) -> fmt::Result {
        let picture = self.0;
        let (begin, table) = (Begin(picture.report), Table(picture));
        let linked = true;
        let svg = Svg { picture, linked };
        write!(
            f,
            "{begin}{svg}</div>\n<div class='listed'>\n<table>\n<thead><tr><th>vat</th><th>record</th><th>what it says</th></tr></thead>\n<tbody>\n{table}</tbody>\n</table>\n</div>\n</body>\n</html>\n"
        )
    }
}

/// The text of a picture: an SVG alone, or a page with it and a table of its records, which needs nothing else.
pub fn text_of(alloc: Global, picture: &Picture<'_>, page: bool) -> Result<String, AllocError>
    ensures { IfOk result (λ text. string_bytes text ≡ drawn_text page picture.now) }
{
    if page {
        Page(picture).to_string(alloc)
    } else {
        picture.to_string(alloc)
    }
}
