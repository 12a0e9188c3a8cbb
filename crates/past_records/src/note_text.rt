//! The text of notes, which remembers that memory was refused.

use std::alloc::{AllocError, Global};
use std::fmt::{Display, Write};

/// The text of notes. Once memory was refused it takes nothing more, and [`NoteText::finish`] says so.
#[derive(Drop)]
pub struct NoteText {
    alloc: Global,
    text: String,
    is_refused: bool,
}

impl NoteText {
    /// No text.
    pub fn new(alloc: Global) -> NoteText {
        NoteText {
            alloc,
            text: String::new(alloc),
            is_refused: false,
        }
    }

    /// Where memory for what is to be noted comes from.
    pub fn alloc(&self) -> Global {
        self.alloc
    }

    /// Memory was refused to whoever looked for what is to be noted.
    pub fn refuse(&mut self) {
        self.is_refused = true;
    }

    /// What was looked for, unless memory was refused for it, which is remembered.
    pub fn granted<T>(&mut self, found: Result<T, AllocError>) -> Option<T> {
        if found.is_err() {
            self.refuse();
        }
        found.ok()
    }

    /// What was found, if anything was, and unless memory was refused for it.
    pub fn found<T>(&mut self, found: Result<Option<T>, AllocError>) -> Option<T> {
        self.granted(found)?
    }

    /// Appends words.
    pub fn words(&mut self, words: &str) {
        if !self.is_refused && self.text.push_str(words).is_err() {
            self.refuse();
        }
    }

    /// Appends what is shown.
    pub fn shown<D: Display>(&mut self, shown: &D) {
        if !self.is_refused && write!(self.text, "{shown}").is_err() {
            self.refuse();
        }
    }

    /// Appends the name of a file between words, as it is printed.
    pub fn file(&mut self, before: &str, name: &str, behind: &str) {
        let name = name.escape_debug();
        self.words(before);
        self.shown(&name);
        self.words(behind);
    }

    /// Appends a line: these words, and a sentence.
    pub fn line(&mut self, words: &str, sentence: &str) {
        self.words(words);
        self.words(sentence);
        self.words("\n");
    }

    /// Appends words with what is shown in the place of a `@`.
    fn words_of<D: Display>(&mut self, words: &str, shown: &D) {
        match words.split_once('@') {
            Some((before, behind)) => {
                self.words(before);
                self.shown(shown);
                self.words(behind);
            }
            None => self.words(words),
        }
    }

    /// Appends a sentence in which each `#` stands for the next of these numbers, and a `@` for what is shown.
    pub fn tell_of<D: Display>(&mut self, sentence: &str, shown: &D, numbers: &[u64]) {
        for (at, words) in sentence.split('#').enumerate() {
            if let Some(number) = at.checked_sub(1).and_then(|before| numbers.get(before)) {
                self.shown(number);
            }
            self.words_of(words, shown);
        }
    }

    /// Appends a sentence in which each `#` stands for the next of these numbers.
    pub fn tell(&mut self, sentence: &str, numbers: &[u64]) {
        self.tell_of(sentence, &"", numbers);
    }

    /// Appends a note, whose sentence is told of so.
    pub fn note_of<D: Display>(&mut self, sentence: &str, shown: &D, numbers: &[u64]) {
        self.words("note: ");
        self.tell_of(sentence, shown, numbers);
        self.words("\n");
    }

    /// Appends a note.
    pub fn say(&mut self, sentence: &str) {
        self.line("note: ", sentence);
    }

    /// Appends a note, whose sentence is told so.
    pub fn note(&mut self, sentence: &str, numbers: &[u64]) {
        self.note_of(sentence, &"", numbers);
    }

    /// The text, unless memory was refused before.
    pub fn finish(self) -> Result<String, AllocError> {
        if self.is_refused {
            return Err(AllocError);
        }
        Ok(self.text)
    }
}
