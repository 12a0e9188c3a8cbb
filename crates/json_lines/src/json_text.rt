//! A text of JSON, written as it goes.

use named_text::Called;
use schema_names::SchemaNames;
use std::alloc::{AllocError, Global};
use std::fmt::Display;

/// The name of the member that the notes are.
pub(crate) const NOTES: &str = "notes";

/// The name of the member that tells what is open.
pub(crate) const OPEN: &str = "open";

/// A text of JSON (RFC 8259) without spaces, to which one value after another is written. Each value stands behind a key, in
/// a list, or alone. No method fails: where memory is refused the text remembers it, and [`JsonText::finish`] says so. That
/// objects and lists are ended, and that members come by rising name, is its writer's to keep.
#[derive(Drop)]
pub struct JsonText<'a> {
    alloc: Global,
    names: Option<&'a SchemaNames>,
    text: String,
    separator: &'a str,
    depth: usize,
    notes_at: Option<usize>,
    open_at: Option<usize>,
    is_refused: bool,
}

impl<'a> JsonText<'a> {
    /// An empty text. Interfaces and methods have names in it where some are given.
    pub fn new(alloc: Global, names: Option<&'a SchemaNames>) -> JsonText<'a> {
        JsonText {
            alloc,
            names,
            text: String::new(alloc),
            separator: "",
            depth: 0,
            notes_at: None,
            open_at: None,
            is_refused: false,
        }
    }

    /// Itself, if no memory was refused.
    pub(crate) fn finish(self) -> Result<JsonText<'a>, AllocError> {
        if self.is_refused {
            return Err(AllocError);
        }
        Ok(self)
    }

    /// The text, if no memory was refused.
    pub fn into_text(self) -> Result<String, AllocError> {
        Ok(self.finish()?.text)
    }

    /// What is written so far.
    pub(crate) fn as_str(&self) -> &str {
        self.text.as_str()
    }

    /// The parts of an object that has ended: before the place of `notes`, between that and the place of `open`, and behind.
    pub(crate) fn parts(&self) -> (&str, &str, &str) {
        let text = self.text.as_str();
        let end = text.len().saturating_sub(1);
        let notes_at = self.notes_at.unwrap_or(end);
        let length = self.open_at.unwrap_or(end).saturating_sub(notes_at);
        let (before, rest) = text.split_at_checked(notes_at).unwrap_or((text, ""));
        let (between, behind) = rest.split_at_checked(length).unwrap_or((rest, ""));
        (before, between, behind)
    }

    /// Where memory for what is to be written comes from.
    pub(crate) fn alloc(&self) -> Global {
        self.alloc
    }

    /// Remembers that memory was refused.
    pub fn refuse(&mut self) {
        self.is_refused = true;
    }

    /// Writes a piece of text as it is.
    fn put(&mut self, piece: &str) {
        self.is_refused |= self.text.push_str(piece).is_err();
    }

    /// Writes what stands before a value, behind which another one may come.
    fn begin_value(&mut self) {
        self.put(self.separator);
        self.separator = ",";
    }

    /// Begins an object or a list, by this bracket.
    pub fn begin(&mut self, bracket: &str) {
        self.begin_value();
        self.put(bracket);
        self.separator = "";
        self.depth = self.depth.saturating_add(1);
    }

    /// Ends one.
    pub fn end(&mut self, bracket: &str) {
        self.put(bracket);
        self.separator = ",";
        self.depth = self.depth.saturating_sub(1);
    }

    /// Remembers the first members of the outermost object that have to stand behind the notes, and behind what is open.
    fn note_place(&mut self, name: &str) {
        let here = self.text.len();
        self.notes_at = self.notes_at.or((name > NOTES).then_some(here));
        self.open_at = self.open_at.or((name > OPEN).then_some(here));
    }

    /// Writes the name of a member, whose value comes next. Nothing in a name needs an escape.
    pub(crate) fn key(&mut self, name: &str) {
        if self.depth == 1 {
            self.note_place(name);
        }
        self.begin_value();
        self.put("\"");
        self.put(name);
        self.put("\":");
        self.separator = "";
    }

    /// Writes a text.
    pub(crate) fn text(&mut self, text: &str) {
        self.begin_value();
        match serde_json::to_string(self.alloc, &text) {
            Ok(quoted) => self.put(quoted.as_str()),
            Err(_) => self.is_refused = true,
        }
    }

    /// Writes a value as it is shown, which is JSON.
    fn value<D: Display>(&mut self, shown: &D) {
        self.begin_value();
        self.is_refused |= write!(self.text, "{shown}").is_err();
    }

    /// Writes a member that is a number, or says whether something is so.
    pub fn member<D: Display + Copy>(&mut self, name: &str, value: D) {
        self.key(name);
        self.value(&value);
    }

    /// Begins a member that is an object or a list, by this bracket.
    pub fn begin_member(&mut self, name: &str, bracket: &str) {
        self.key(name);
        self.begin(bracket);
    }

    /// Writes a member that is a text.
    pub fn text_member(&mut self, name: &str, text: &str) {
        self.key(name);
        self.text(text);
    }

    /// Writes a member that is the text of a value.
    pub(crate) fn shown_member<D: Display>(&mut self, name: &str, shown: &D) {
        match format!(in self.alloc; "{shown}") {
            Ok(text) => self.text_member(name, text.as_str()),
            Err(_) => self.is_refused = true,
        }
    }

    /// Writes a member that is a list of numbers.
    pub(crate) fn numbers_member<N: Display>(&mut self, name: &str, numbers: &[N]) {
        self.begin_member(name, "[");
        for number in numbers {
            self.value(number);
        }
        self.end("]");
    }

    /// What an interface and a method are called.
    fn called(&self, interface: u64, method: u16) -> Option<Called<'a>> {
        Called::of(self.names?, interface, method)
    }

    /// Writes the interface of a method: the sixteen hexadecimal digits of its id, and its name where it has one.
    pub(crate) fn interface_members(&mut self, interface: u64, method: u16) {
        self.key("interface");
        self.begin_value();
        self.is_refused |= write!(self.text, "\"{interface:016x}\"").is_err();
        if let Some(called) = self.called(interface, method) {
            self.text_member("interface_name", called.interface_name());
        }
    }

    /// Writes a method of an interface: its number, and its name where it has one.
    pub(crate) fn method_members(&mut self, interface: u64, method: u16) {
        self.member("method", method);
        if let Some(called) = self.called(interface, method)
            && let Some(name) = called.method_name()
        {
            self.text_member("method_name", name);
        }
    }
}
