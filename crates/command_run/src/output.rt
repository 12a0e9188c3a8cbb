//! What is written to.

ghost use Rattle.std.specs.Prelude.{ℕ, List, Option, None, OnOk, ⊤};
ghost use Rattle.std.specs.Io.KnownBytes.{Appends, Keeps};
ghost use Rattle.report_lines.specs.Lines.{line};
ghost use Rattle.report_lines.specs.ShownLines.{shown_text};

use report_lines::ShownLine;
use std::io;
use std::io::Write;

/// What lines and bytes are written to.
pub trait Output {
    /// Why a write fails. Code that knows no more of it than this can't make one up: it has one only where a write
    /// failed.
    type Error: Drop;

    // The bytes that were written, where they are known.
    ghost contents: { Self → Option (List ℕ) } = { λ _. None };

    // Whether nothing that was written is held back.
    ghost is_finished: { Self → Type 0 } = { λ _. ⊤ };

    // Whether it may be written to. A write that failed doesn't say that it still may.
    ghost can_write: { Self → Type 0 } = { λ _. ⊤ };

    /// Writes a line: its text, and behind it the end of the line, or what stands for it.
    fn write_line(&mut self, shown: ShownLine<'_>) -> Result<(), Self::Error>
        requires { can_write self.old }
        // The line stands behind what was written before.
        ensures line { OnOk result
            (Appends (contents self.old) (contents self.new) (line (shown_text shown.entry))) }
        // More may be written.
        ensures more { OnOk result (can_write self.new) };

    /// Writes bytes.
    fn write_bytes(&mut self, bytes: &[u8]) -> Result<(), Self::Error>
        requires { can_write self.old }
        // They stand behind what was written before.
        ensures bytes { OnOk result (Appends (contents self.old) (contents self.new) bytes.now) }
        // More may be written.
        ensures more { OnOk result (can_write self.new) };

    /// Hands on what was written and is still held back. Where several files are written it ends one: what is written next
    /// stands in the next.
    fn finish(&mut self) -> Result<(), Self::Error>
        requires { can_write self.old }
        // What was written stays.
        ensures bytes { OnOk result (Keeps (contents self.old) (contents self.new)) }
        // Nothing is held back.
        ensures finished { OnOk result (is_finished self.new) }
        // More may be written.
        ensures more { OnOk result (can_write self.new) };
}

impl<W: Write> Output for W {
    type Error = io::Error;

    ghost contents = { W.contents };

    fn write_line(&mut self, shown: ShownLine<'_>) -> io::Result<()> {
        self.writeln(shown)
    }

    fn write_bytes(&mut self, bytes: &[u8]) -> io::Result<()> {
        self.write_all(bytes)
    }

    fn finish(&mut self) -> io::Result<()> {
        self.flush()
    }
}

/// Which write failed.
#[derive(Drop)]
pub enum Failed<O, F> {
    /// A write of the lines.
    Out(O),
    /// A write of an order's, a picture's or a new log's bytes, or of a folder's files.
    File(F),
}
