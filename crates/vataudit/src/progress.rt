//! Progress: while a run takes long, one line on standard error says how far it has come. It is wiped before anything else is
//! written.

use audit_core::Gate;
use command_run::Watch;
use std::fmt;
use std::fmt::{Display, Formatter};
use std::io::Eprint;
use std::sync::atomic::{AtomicU64, Ordering};
use std::sync::{Mutex, Wait};
use std::thread::Parker;
use std::time::{Clock, Duration, Instant};

/// How many seconds a run takes before the line is shown.
const PATIENCE: u64 = 1;

/// How many milliseconds the line stays before it is written again.
const TURN: u64 = 250;

/// A count that several threads raise.
#[derive(Drop)]
struct Count(AtomicU64);

impl Count {
    fn new() -> Count {
        Count(AtomicU64::new(0))
    }

    fn read(&self) -> u64 {
        self.0.load(Ordering::SeqCst)
    }

    fn set(&self, number: u64) {
        self.0.store(number, Ordering::SeqCst);
    }

    fn raise(&self, number: u64) {
        let _ = self.0.fetch_add(number, Ordering::SeqCst);
    }
}

/// What became of the line.
#[derive(Drop)]
struct LineState {
    is_shown: bool,
    is_over: bool,
}

/// How far a run has come, and the line that says so.
#[derive(Drop)]
pub struct RunProgress {
    files: Count,
    bytes: Count,
    logs: Count,
    links: Count,
    audited: Count,
    compared: Count,
    line: Mutex<LineState>,
    parker: Parker,
}

/// The line, with the seconds that have passed, to be written over what it said before.
#[derive(Clone, Copy)]
struct ProgressLine<'a> {
    progress: &'a RunProgress,
    seconds: u64,
}

impl Display for ProgressLine<'_> {
    fn fmt<W: fmt::Write>(&self, f: &mut Formatter<W>) -> fmt::Result {
        let progress = self.progress;
        let (files, bytes) = (progress.files.read(), progress.bytes.read());
        let (logs, links) = (progress.logs.read(), progress.links.read());
        let (audited, compared) = (progress.audited.read(), progress.compared.read());
        write!(f, "\r{} s: files read {files}", self.seconds)?;
        if bytes > 0 {
            write!(f, ", bytes of logs read {bytes}")?;
        }
        if logs > 0 {
            write!(
                f,
                ", logs audited {audited} of {logs}, links compared {compared} of {links}"
            )?;
            if audited >= logs && compared >= links {
                f.write_str(", order and run")?;
            }
        }
        f.write_str("\x1b[K")
    }
}

impl RunProgress {
    /// Before anything is done.
    pub fn new() -> RunProgress {
        RunProgress {
            files: Count::new(),
            bytes: Count::new(),
            logs: Count::new(),
            links: Count::new(),
            audited: Count::new(),
            compared: Count::new(),
            line: Mutex::new(LineState {
                is_shown: false,
                is_over: false,
            }),
            parker: Parker::new(),
        }
    }

    /// A file was read.
    pub fn read_file(&self) {
        self.files.raise(1);
    }

    /// So many bytes came of files that are read piece by piece.
    pub fn read_bytes(&self, count: usize) {
        self.bytes.raise(count as u64);
    }

    /// Writes the line, where the run takes long, and says whether it may be written again.
    fn show<R: Wait + Clock + Eprint>(&self, rt: &R, start: Instant) -> bool {
        let mut line = self.line.lock(rt);
        if line.is_over {
            return false;
        }
        let Ok(passed) = start.elapsed(rt) else {
            return false;
        };
        let seconds = passed.as_secs();
        if seconds >= PATIENCE {
            line.is_shown = true;
            let _ = rt.eprint(ProgressLine {
                progress: self,
                seconds,
            });
        }
        true
    }

    /// Writes the line again and again, until it is wiped.
    pub fn tell<R: Wait + Clock + Eprint>(&self, rt: &R) {
        let Ok(start) = Instant::now(rt) else {
            return;
        };
        for _ in rt.forever() {
            self.parker.park_timeout(rt, Duration::from_millis(TURN));
            if !self.show(rt, start) {
                return;
            }
        }
    }

    /// Wipes the line, which isn't written any more.
    pub fn wipe<R: Wait + Eprint>(&self, rt: &R) {
        let mut line = self.line.lock(rt);
        if line.is_shown && !line.is_over {
            let _ = rt.eprint("\r\x1b[K");
        }
        line.is_over = true;
        self.parker.unpark();
    }
}

impl Gate for RunProgress {
    fn before_post(&self, piece: u32) {
        if (piece as u64) < self.logs.read() {
            self.audited.raise(1);
        } else {
            self.compared.raise(1);
        }
    }
}

impl Watch for RunProgress {
    fn begins(&self, logs: usize, links: usize) {
        self.logs.set(logs as u64);
        self.links.set(links as u64);
    }
}
