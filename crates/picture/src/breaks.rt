//! The lines of a sentence.

ghost use Rattle.std.specs.Prelude.{◌≡◌};
ghost use Rattle.std.specs.Option.{option_copied};
ghost use Rattle.picture.specs.Rows.{breaks_from, ends_line, gap_of, room_of};

use crate::window::{Gap, least_of};

/// Whether a letter ends a line, behind so many letters.
pub fn ends_line(at: usize, letter: u8) -> bool
    ensures { result ≡ ends_line at letter }
{
    letter == b' ' && at > 84
}

/// How often a line ends in a text.
fn breaks_of(text: &[u8]) -> usize
    ensures { result ≡ breaks_from 0 text.now }
{
    let mut breaks = 0;
    let mut at = 0;
    for letter in text {
        if ends_line(at, *letter) {
            breaks += 1;
            at = 0;
        } else {
            at += 1;
        }
    }
    breaks
}

/// How many lines of rows a sentence takes.
fn room_of(sentence: Option<&str>) -> u8
    ensures { result ≡ room_of (option_copied sentence.entry) }
{
    match sentence {
        Some(sentence) => 1 + (least_of(breaks_of(sentence.as_bytes()), 9) as u8 + 1) / 2,
        None => 1,
    }
}

/// The row at fault, and the lines below it that the sentence takes.
pub fn gap_of(sentence: Option<&str>, row: Option<u16>) -> Option<Gap>
    ensures { result ≡ gap_of (option_copied sentence.entry) row }
{
    let row = row?;
    let room = room_of(sentence);
    Some(Gap { row, room })
}
