//! Names for files that are written to one folder, beside their case file.

ghost use Rattle.std.specs.Prelude.{◌≡◌, IfOk, MatchBool, length, map, option_map, string_bytes};
ghost use Rattle.case_files.specs.FileNames.{AreApart, AreFileNames, IsCounted, own_names};
ghost use Rattle.case_files.specs.Glue.{IsFree, IsNameTaken};

use std::alloc::{AllocError, Global};
use std::path::Path;

/// The name of the case file in a folder.
pub const CASE_FILE: &str = "case.json";

/// The names that the files of these paths have, if each has one.
fn own_names(alloc: Global, paths: &[&str]) -> Result<Option<Vec<String>>, AllocError>
    ensures { IfOk result
        (λ found. own_names (map (λ path. path.now) paths.now)
        ≡ option_map (λ names. map string_bytes names.items) found) }
{
    let mut names = Vec::new(alloc);
    for path in paths {
        let Some(name) = Path::new(path).file_name() else {
            return Ok(None);
        };
        names.push(String::from_str(alloc, name)?)?;
    }
    Ok(Some(names))
}

/// Whether a name stands in a list from this place on, or is that of the case file.
fn is_taken(names: &[String], begin: usize, name: &str) -> bool
    ensures { MatchBool result (IsNameTaken (map string_bytes names.now) begin name.now)
        (IsFree (map string_bytes names.now) begin name.now) }
{
    if name == CASE_FILE {
        return true;
    }
    for place in begin..names.len() {
        if names[place].as_str() == name {
            return true;
        }
    }
    false
}

/// Whether no two of these names are the same, and none is that of the case file.
fn are_apart(names: &[String]) -> bool
    ensures { MatchBool result (AreApart (map string_bytes names.now))
        (AreApart (map string_bytes names.now) → ⊥) }
{
    for place in 0..names.len() {
        if is_taken(names, place + 1, names[place].as_str()) {
            return false;
        }
    }
    true
}

/// The names `1.log`, `2.log` and so on, as many as these.
fn counted_names(alloc: Global, many: usize) -> Result<Vec<String>, AllocError>
    ensures { IfOk result (λ names. IsCounted many (map string_bytes names.items)) }
{
    let mut names = Vec::new(alloc);
    for place in 0..many {
        let number = place + 1;
        names.push(format!(in alloc; "{number}.log")?)?;
    }
    Ok(names)
}

/// Names for files of one folder, which come from these paths: the names that the paths end with, where each has one, no two
/// are the same, and none is that of the case file; else `1.log`, `2.log` and so on.
///
/// # Errors
///
/// Out of memory.
pub fn file_names(alloc: Global, paths: &[&str]) -> Result<Vec<String>, AllocError>
    ensures { IfOk result
        (λ names. AreFileNames (map (λ path. path.now) paths.now) (map string_bytes names.items)) }
{
    if let Some(names) = own_names(alloc, paths)? {
        if are_apart(&names) {
            return Ok(names);
        }
    }
    counted_names(alloc, paths.len())
}
