//! How the program says what it says: words of the command line that belong to no command.

use std::alloc::{AllocError, Global};

/// How it is said.
#[derive(Drop)]
pub struct Manner {
    /// No notes: `--quiet`.
    pub is_quiet: bool,
    /// Lines as JSON objects: `--json`.
    pub is_json: bool,
    /// Reasons behind the lines of records: `--reasons`.
    pub has_reasons: bool,
    /// The files of schemas whose names are printed: `--schema FILE`, which may be given more than once.
    pub schemas: Vec<String>,
}

impl Manner {
    /// Notes a word that asks for a manner, and says whether it is one that wasn't noted before.
    fn takes(&mut self, word: &str) -> bool {
        match word {
            "--quiet" if !self.is_quiet => self.is_quiet = true,
            "--json" if !self.is_json => self.is_json = true,
            "--reasons" if !self.has_reasons => self.has_reasons = true,
            _ => return false,
        }
        true
    }
}

/// Whether a word asks for names, with a file behind it.
fn asks_names(word: &String) -> bool {
    word.as_str() == "--schema"
}

/// Takes away the first words behind the program's name, where they ask for a manner, and says whether they do.
fn takes_first(manner: &mut Manner, words: &mut Vec<String>) -> Result<bool, AllocError> {
    if words.len() > 2 && asks_names(&words[1]) {
        let _ = words.remove(1);
        manner.schemas.push(words.remove(1))?;
        return Ok(true);
    }
    if words.len() > 1 && manner.takes(words[1].as_str()) {
        let _ = words.remove(1);
        return Ok(true);
    }
    Ok(false)
}

/// Whether the last words may be taken away: the one before them isn't `--out`, which asks for a name, and none is `--`.
fn may_take_last(words: &[String], taken: usize) -> bool {
    if words.len().saturating_sub(taken) < 2 || words.iter().any(|word| word.as_str() == "--") {
        return false;
    }
    words[words.len() - taken - 1].as_str() != "--out"
}

/// The same of the last words, which are neither the name that `--out` asks for nor stand behind `--`.
fn takes_last(manner: &mut Manner, words: &mut Vec<String>) -> Result<bool, AllocError> {
    let len = words.len();
    if len > 3 && asks_names(&words[len - 2]) && may_take_last(words, 2) {
        if let Some(file) = words.pop() {
            manner.schemas.push(file)?;
        }
        let _ = words.pop();
        return Ok(true);
    }
    if len > 2 && may_take_last(words, 1) && manner.takes(words[len - 1].as_str()) {
        let _ = words.pop();
        return Ok(true);
    }
    Ok(false)
}

/// Takes away the words that ask for a manner, where they stand before the command or are the last words.
pub fn take_manner(alloc: Global, words: &mut Vec<String>) -> Result<Manner, AllocError> {
    let mut manner = Manner {
        is_quiet: false,
        is_json: false,
        has_reasons: false,
        schemas: Vec::new(alloc),
    };
    for _ in 0..words.len() {
        if !takes_first(&mut manner, words)? {
            break;
        }
    }
    for _ in 0..words.len() {
        if !takes_last(&mut manner, words)? {
            break;
        }
    }
    Ok(manner)
}
