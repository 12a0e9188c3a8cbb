//! Lines that are written as JSON objects.

use crate::answer_object::put_answer;
use crate::json_text::{JsonText, NOTES, OPEN};
use crate::record_object::put_record;
use crate::run_object::{put_edge, put_step};
use named_text::NamedText;
use report_lines::{DotEdge, ShownEdge, ShownLine};
use schema_names::SchemaNames;
use std::alloc::{AllocError, Global};
use std::io::{self, Write};

/// Why a line isn't written.
#[derive(Drop)]
pub enum JsonFault {
    /// Memory was refused for its object.
    OutOfMemory,
    /// A write failed.
    Write(io::Error),
}

impl From<AllocError> for JsonFault {
    fn from(_e: AllocError) -> JsonFault {
        JsonFault::OutOfMemory
    }
}

impl From<io::Error> for JsonFault {
    fn from(error: io::Error) -> JsonFault {
        JsonFault::Write(error)
    }
}

/// A writer of lines as JSON objects. The last one is held back until the lines end, so that notes can be added to it.
#[derive(Drop)]
pub struct JsonLines<'a, W: Write> {
    alloc: Global,
    out: &'a mut W,
    held: Option<JsonText<'a>>,
    names: Option<&'a SchemaNames>,
}

/// Writes the list of what notes say, which stand in a text, each a line behind the word `note`.
pub(crate) fn put_notes(list: &mut JsonText<'_>, notes: &str) {
    list.begin("[");
    for line in notes.lines() {
        list.text(line.strip_prefix("note: ").unwrap_or(line));
    }
    list.end("]");
}

/// Writes the object of a line that says something by itself. In the DOT language an edge says the same.
fn put_line(json: &mut JsonText<'_>, line: ShownLine<'_>) {
    json.begin("{");
    match line {
        ShownLine::Answer(answer) => put_answer(json, answer),
        ShownLine::Record(record) => put_record(json, record),
        ShownLine::Step(step) => put_step(json, step),
        ShownLine::Edge(ShownEdge(edge)) | ShownLine::DotEdge(DotEdge(edge)) => {
            put_edge(json, edge);
        }
        ShownLine::DotBound(_) => {}
    }
    json.end("}");
}

impl<'a, W: Write> JsonLines<'a, W> {
    /// Before any line.
    pub fn new(alloc: Global, out: &'a mut W) -> JsonLines<'a, W> {
        JsonLines {
            alloc,
            out,
            held: None,
            names: None,
        }
    }

    /// With names for interfaces and methods, in objects and in notes.
    pub fn with_names(self, names: &'a SchemaNames) -> JsonLines<'a, W> {
        JsonLines {
            names: Some(names),
            ..self
        }
    }

    /// Writes the object that is held back, if there is one.
    fn write_held(&mut self) -> io::Result<()> {
        match self.held.take() {
            Some(object) => self.out.writeln(object.as_str()),
            None => Ok(()),
        }
    }

    /// Adds the object of a line, where it has one, and writes the one before it.
    ///
    /// # Errors
    ///
    /// Out of memory, or that of the write.
    pub fn add(&mut self, line: ShownLine<'_>) -> Result<(), JsonFault> {
        if let ShownLine::DotBound(_) = line {
            return Ok(());
        }
        let mut object = JsonText::new(self.alloc, self.names);
        put_line(&mut object, line);
        let object = object.finish()?;
        self.write_held()?;
        self.held = Some(object);
        Ok(())
    }

    /// Writes bytes behind the lines, as they are.
    ///
    /// # Errors
    ///
    /// That of a write.
    pub fn add_bytes(&mut self, bytes: &[u8]) -> io::Result<()> {
        self.write_held()?;
        self.out.write_all(bytes)
    }

    /// The list of what notes say, with names where they are given.
    fn note_list(&self, notes: &str) -> Result<String, AllocError> {
        let mut list = JsonText::new(self.alloc, None);
        match self.names {
            Some(names) => {
                let named = NamedText { names, text: notes }.to_string(self.alloc)?;
                put_notes(&mut list, named.as_str());
            }
            None => put_notes(&mut list, notes),
        }
        list.into_text()
    }

    /// Writes the last object with these members, which are JSON; or one of their own where there is no last one.
    fn write_last(&mut self, notes: &Option<String>, left_open: &Option<String>) -> io::Result<()> {
        let held = self.held.take();
        let (before, between, behind) = match &held {
            Some(object) => object.parts(),
            None => ("{", "", "}"),
        };
        let mut separator = if held.is_some() { "," } else { "" };
        self.out.write_all(before.as_bytes())?;
        if let Some(notes) = notes {
            write!(self.out, "{separator}\"{NOTES}\":{notes}")?;
            separator = ",";
        }
        self.out.write_all(between.as_bytes())?;
        if let Some(left_open) = left_open {
            write!(self.out, "{separator}\"{OPEN}\":{left_open}")?;
        }
        self.out.writeln(behind)
    }

    /// Ends the lines: the notes, which stand in a text, each a line behind the word `note`, and what is open at the end of good
    /// logs, which is JSON, go to the last object, or make one of their own where there is none. Where memory is refused for the
    /// notes they are left out.
    ///
    /// # Errors
    ///
    /// That of a write.
    pub fn end(&mut self, notes: &str, left_open: Option<String>) -> io::Result<()> {
        let notes = if notes.is_empty() {
            None
        } else {
            self.note_list(notes).ok()
        };
        if notes.is_some() || left_open.is_some() {
            self.write_last(&notes, &left_open)?;
        } else {
            self.write_held()?;
        }
        self.out.flush()
    }

    /// Ends the lines with that of out of memory, which takes no memory.
    ///
    /// # Errors
    ///
    /// That of a write.
    pub fn end_without_memory(&mut self) -> io::Result<()> {
        self.write_held()?;
        self.out.writeln(OUT_OF_MEMORY)?;
        self.out.flush()
    }
}

/// The object of out of memory.
pub const OUT_OF_MEMORY: &str = "{\"kind\":\"out of memory\"}";
