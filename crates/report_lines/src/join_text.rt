//! The text and the exit status of what is answered of logs whose connections are joined.

ghost use Rattle.std.specs.Prelude.{◌≡◌};
ghost use Rattle.std.specs.Fmt.{WritesOnOk};
ghost use Rattle.report_lines.specs.Lines.{join_status, join_text};

use std::fmt::{self, Formatter};

/// What is answered of logs whose connections are joined.
#[derive(Clone, Copy, PartialEq, Eq)]
pub enum JoinLine {
    /// Each end of a connection has its other end.
    Joined {
        /// How many logs there are.
        vats: u64,
        /// How many connections they have.
        links: u64,
    },
    /// No end is left for this one.
    Unmatched {
        /// The connection's number in its log.
        connection: u32,
        /// The log's vat.
        vat: u32,
    },
    /// Several ends fit this one that aren't alike.
    Ambiguous {
        /// The connection's number in its log.
        connection: u32,
        /// The log's vat.
        vat: u32,
    },
}

/// Writes what is answered of logs whose connections are joined.
pub fn put_join<W: fmt::Write>(f: &mut Formatter<W>, line: &JoinLine) -> fmt::Result
    ensures { WritesOnOk W.write_str_gives f.old result (join_text line.now) f.new }
{
    match line {
        JoinLine::Joined { vats, links } => write!(f, "joined vats {vats} links {links}"),
        JoinLine::Unmatched { connection, vat } => {
            write!(f, "unmatched connection {connection} vat {vat}")
        }
        JoinLine::Ambiguous { connection, vat } => {
            write!(f, "ambiguous connection {connection} vat {vat}")
        }
    }
}

/// The exit status for what is answered of logs whose connections are joined.
pub fn join_status(line: &JoinLine) -> u8
    ensures { result ≡ join_status line.now }
{
    match line {
        JoinLine::Joined { .. } => 0,
        JoinLine::Unmatched { .. } | JoinLine::Ambiguous { .. } => 1,
    }
}
