//! Reading a log that comes in pieces.

ghost use Rattle.std.specs.Prelude.{◌≡◌, ℕ, ◌+◌, ◌^◌, ◌<◌, ◌≤◌, true, false, None, Some, Ok, Err, All, [], length, IfOk, IfErr, OnErr, MatchOption};
ghost use Rattle.byte_pieces.specs.Coming.{ComesOn, IsFresh, IsPart};
ghost use Rattle.vat_log.specs.Log.{version_number};
ghost use Rattle.vat_log.specs.Reading.{header_of, log_of};
ghost use Rattle.vat_log.specs.Runs.{BeginsWith, IsLongestRun, with_record};
ghost use Rattle.vat_log.specs.Spelling.{log_bytes};
ghost use Rattle.vat_log.specs.Streams.{NoLogBegins, StreamStopsBy};
ghost use Rattle.vat_log.specs.Windows.{StopsHere};

use crate::body::Body;
use crate::error::LogError;
use crate::header::LogHeader;
use crate::read_fault::{ReadFault, Stop};
use crate::record::Record;
use crate::spelling::fields::u32_at;
use crate::spelling::kind::read_kind;
use crate::spelling::log_limits::MAX_RECORDS;
use crate::version::{LogVersion, read_version};
use byte_pieces::{NoMore, Pieces};
use bytes::Bytes;
use erased::Erased;
use std::alloc::Global;
use std::fmt::{self, Debug, Formatter, Write};
use std::marker::Model;

/// How many bytes the header has.
const HEADER: usize = 12;

/// How many bytes are asked for at once, where a record doesn't need more.
const PIECE: usize = 262_144;

/// A log that comes in pieces and is read record by record, through a window that has the bytes that aren't read yet. To a
/// contract it is what came so far, and the log with the records that were given so far.
pub struct LogStream<P: Pieces> {
    pieces: P,
    window: Bytes,
    at: usize,
    begin: u64,
    version: LogVersion,
    vat: u32,
    count: usize,
    given: Erased<Body>,
}

impl<P: Pieces + Drop> Drop for LogStream<P> {
    fn drop(self) {
        let Self {
            pieces: _,
            window: _,
            at: _,
            begin: _,
            version: _,
            vat: _,
            count: _,
            given: _,
        } = self;
    }
}

impl<P: Pieces> Model for LogStream<P> {
    ghost use Rattle.std.specs.Prelude.{◌≡◌, length, reverse};
    ghost use Rattle.byte_pieces.specs.Coming.{IsPart};
    ghost use Rattle.vat_log.specs.Fits.{record_limit};
    ghost use Rattle.vat_log.specs.Streams.{StreamSoFar};
    ghost use Rattle.vat_log.specs.Windows.{HoldsRest};

    ghost Value = { StreamSoFar };

    ghost view = { λ stream. record {
      came = P.so_far stream.pieces;
      log = record { version = stream.version; vat = stream.vat; records = reverse stream.given.items };
    } };

    ghost invariant = { λ stream. IsPart (P.so_far stream.pieces)
        × (length stream.given.items ≡ stream.count)
        × HoldsRest record_limit (P.so_far stream.pieces).bytes stream.window
        (record { version = stream.version; vat = stream.vat; records = reverse stream.given.items })
        stream.begin stream.at };
}

impl<P: Pieces> Debug for LogStream<P> {
    fn fmt<W: Write>(&self, f: &mut Formatter<W>) -> fmt::Result {
        f.debug_struct("LogStream")
            .field("vat", &self.vat)
            .field("records", &self.count)
            .finish()
    }
}

/// That each byte is one.
fn are_octets(_bytes: &[u8])
    ensures { All (λ octet. octet < 2 ^ 8) _bytes.now }
{}

/// The header that these bytes begin with.
fn read_header(bytes: &[u8]) -> Result<LogHeader, LogError>
    ensures ok { IfOk result (λ header. header_of bytes.now
        ≡ Ok (record { version = header.version; vat = header.vat; records = [] })) }
    ensures err { IfErr result (λ e. header_of bytes.now ≡ Err e) }
{
    let version = read_version(bytes)?;
    let (vat, _) = u32_at(bytes, 8)?;
    Ok(LogHeader { version, vat })
}

/// The first bytes of a log, in which its header is whole, or all where there are fewer.
fn first_window<P: Pieces>(alloc: Global, pieces: &mut P) -> Result<Bytes, ReadFault>
    requires { IsFresh (P.so_far pieces.old) }
    ensures on { ComesOn (P.so_far pieces.old) (P.so_far pieces.new) }
    ensures came { IfOk result (λ window. (P.so_far pieces.new).bytes ≡ window) }
    ensures part { IsPart (P.so_far pieces.new) }
    ensures long { IfOk result (λ window. length window < 12 → (P.so_far pieces.new).is_over ≡ true) }
    ensures err { IfErr result (λ fault. NoLogBegins fault (P.so_far pieces.new)) }
{
    let mut window = Bytes::new();
    while window.len() < HEADER {
        match pieces.more(alloc, window.as_slice(), PIECE)? {
            Some(longer) => window = longer,
            None => return Ok(window),
        }
    }
    Ok(window)
}

impl<P: Pieces> LogStream<P> {
    /// The log that comes so, in front of its first record. Its header is read, of the first pieces.
    ///
    /// # Errors
    ///
    /// The fault of the header, by which no log begins: `BadMagic`, or `Short(8)` where the vat is cut; or that the bytes
    /// can't be read, or that memory was refused. The pieces are handed back, too.
    pub fn begin(alloc: Global, pieces: P) -> Result<LogStream<P>, (ReadFault, P)>
        requires { IsFresh (P.so_far pieces) }
        ensures on { IfOk result (λ stream. ComesOn (P.so_far pieces) stream.came) }
        ensures header { IfOk result (λ stream. header_of stream.came.bytes ≡ Ok stream.log) }
        ensures begun { IfOk result (λ stream. BeginsWith stream.came.bytes stream.log) }
        ensures back { IfErr result (λ refused. ComesOn (P.so_far pieces) (P.so_far refused.1)
            × IsPart (P.so_far refused.1)) }
        ensures err { IfErr result (λ refused. NoLogBegins refused.0 (P.so_far refused.1)) }
    {
        let mut pieces = pieces;
        match first_window(alloc, &mut pieces) {
            Ok(window) => match LogStream::headed(pieces, window) {
                Ok(stream) => Ok(stream),
                Err((fault, pieces)) => Err((ReadFault::Bad(fault), pieces)),
            },
            Err(fault) => Err((fault, pieces)),
        }
    }

    /// What begins with these bytes, in which the header is whole, or all are there.
    fn headed(pieces: P, window: Bytes) -> Result<LogStream<P>, (LogError, P)>
        requires came { (P.so_far pieces).bytes ≡ window }
        requires part { IsPart (P.so_far pieces) }
        requires long { length window < 12 → (P.so_far pieces).is_over ≡ true }
        ensures came { IfOk result (λ stream. stream.came ≡ P.so_far pieces) }
        ensures header { IfOk result (λ stream. header_of window ≡ Ok stream.log) }
        ensures begun { IfOk result (λ stream. BeginsWith window stream.log) }
        ensures pieces { IfErr result (λ refused. refused.1 ≡ pieces) }
        ensures err { IfErr result (λ refused.
            NoLogBegins (ReadFault.Bad refused.0) (P.so_far pieces)) }
    {
        are_octets(window.as_slice());
        match read_header(window.as_slice()) {
            Ok(header) => Ok(LogStream {
                pieces,
                window,
                at: HEADER,
                begin: 0,
                version: header.version,
                vat: header.vat,
                count: 0,
                given: Erased::new(),
            }),
            Err(fault) => Err((fault, pieces)),
        }
    }

    /// The version of the format in which the log stands: 1, 2 or 3.
    pub fn version(&self) -> u32
        ensures { result ≡ version_number self.now.log.version }
    {
        self.version.number()
    }

    /// The vat whose log this is.
    pub fn vat(&self) -> u32
        ensures { result ≡ self.now.log.vat }
    {
        self.vat
    }

    /// What stands in front of the log's records.
    pub fn header(&self) -> LogHeader
        ensures version { result.version ≡ self.now.log.version }
        ensures vat { result.vat ≡ self.now.log.vat }
    {
        LogHeader {
            version: self.version,
            vat: self.vat,
        }
    }

    /// How many records were given so far, 4,294,967,295 at most.
    pub fn given(&self) -> usize
        ensures { result ≡ length self.now.log.records }
    {
        self.count
    }

    /// How many bytes came behind the records that were given.
    pub fn unread(&self) -> usize
        ensures { length self.now.came.bytes ≡ length (log_bytes self.now.log) + result }
    {
        self.window.len() - self.at
    }

    /// From where the bytes come.
    pub fn pieces(&self) -> &P
        ensures came { P.so_far result.now ≡ self.now.came }
        ensures part { IsPart self.now.came }
    {
        &self.pieces
    }

    /// The next record, or none at the end. It is asked of the window, and where that doesn't hold it whole, one more piece is
    /// asked for, and so on. Memory is asked for what the record itself keeps, and for the windows.
    ///
    /// # Errors
    ///
    /// The first fault of the log, with the offset that [`parse_log`](crate::parse_log) gives; or that its bytes can't be
    /// read, or that memory was refused. The stream stays in front of the record, so it can be asked again.
    pub fn next(&mut self, alloc: Global) -> Result<Option<Record>, ReadFault>
        // What came before still comes first, and where it was over nothing more came.
        ensures on { ComesOn self.old.came self.new.came }
        // What was given is a run of whole records with which the bytes begin.
        ensures begun { BeginsWith self.new.came.bytes self.new.log }
        // A record is the next one; at the end all were given, and no more stand there whole.
        ensures given { IfOk result (λ next. MatchOption next
            ((self.new.log ≡ self.old.log) × (self.new.came.is_over ≡ true)
            × (log_of self.new.came.bytes ≡ Ok self.old.log) × IsLongestRun self.new.came.bytes self.old.log)
            (λ entry. self.new.log ≡ with_record entry self.old.log)) }
        // Why there is no next one.
        ensures err { IfErr result (λ fault. (self.new.log ≡ self.old.log) × StreamStopsBy fault self.new) }
    {
        if self.at < self.window.len() && self.count < MAX_RECORDS {
            if let Ok(kind) = read_kind(self.window.as_slice(), self.at) {
                let read = Record::read(alloc, self.version, kind, &self.window, self.at + 1);
                if let Ok((entry, after)) = read {
                    self.at = after;
                    self.count += 1;
                    self.given = self.given.with(entry.body());
                    return Ok(Some(entry));
                }
            }
        }
        self.next_behind(alloc)
    }

    /// The next record, if it came whole: no more bytes are asked for. None where it didn't, be it that more may come or that the
    /// log ends here. Memory is asked for what the record itself keeps.
    ///
    /// # Errors
    ///
    /// The first fault of the log, with the offset that [`parse_log`](crate::parse_log) gives, where it is one whatever comes; or
    /// that memory was refused. The stream stays in front of the record, so it can be asked again.
    pub fn next_ready(&mut self, alloc: Global) -> Result<Option<Record>, ReadFault>
        // What was given is a run of whole records with which the bytes begin.
        ensures begun { BeginsWith self.new.came.bytes self.new.log }
        // A record is the next one; where none is given nothing changed, and none stands there whole.
        ensures given { IfOk result (λ next. MatchOption next
            ((self.new ≡ self.old) × IsLongestRun self.old.came.bytes self.old.log)
            (λ entry. self.new ≡ record self.old { log = with_record entry self.old.log })) }
        // Why there is no next one, whatever comes.
        ensures err { IfErr result (λ fault. (self.new ≡ self.old) × StreamStopsBy fault self.old) }
    {
        match self.next_here(alloc) {
            Ok(entry) => Ok(Some(entry)),
            Err(Stop::Ends | Stop::Cut(ReadFault::Bad(_))) => Ok(None),
            Err(Stop::Cut(fault) | Stop::Fault(fault)) => Err(fault),
        }
    }

    /// The next record, where the window holds it whole.
    #[inline(never)]
    fn next_here(&mut self, alloc: Global) -> Result<Record, Stop>
        ensures ok { IfOk result (λ entry. self.new
            ≡ record self.old { log = with_record entry self.old.log }) }
        ensures begun { BeginsWith self.new.came.bytes self.new.log }
        ensures err { IfErr result (λ stop. (self.new ≡ self.old) × StopsHere stop self.old) }
    {
        if self.at >= self.window.len() {
            return Err(Stop::Ends);
        }
        match Record::next(alloc, self.version, self.count, &self.window, self.at) {
            Ok((entry, after)) => {
                self.at = after;
                self.count += 1;
                self.given = self.given.with(entry.body());
                Ok(entry)
            }
            Err(fault) => Err(Stop::at(self.begin, fault)),
        }
    }

    /// The next record, of as many pieces as it needs.
    #[cold]
    #[inline(never)]
    fn next_behind(&mut self, alloc: Global) -> Result<Option<Record>, ReadFault>
        ensures on { ComesOn self.old.came self.new.came }
        ensures begun { BeginsWith self.new.came.bytes self.new.log }
        ensures given { IfOk result (λ next. MatchOption next
            ((self.new.log ≡ self.old.log) × (self.new.came.is_over ≡ true)
            × (log_of self.new.came.bytes ≡ Ok self.old.log) × IsLongestRun self.new.came.bytes self.old.log)
            (λ entry. self.new.log ≡ with_record entry self.old.log)) }
        ensures err { IfErr result (λ fault. (self.new.log ≡ self.old.log) × StreamStopsBy fault self.new) }
    {
        let mut wanted = PIECE;
        loop {
            match self.next_here(alloc) {
                Ok(entry) => return Ok(Some(entry)),
                Err(Stop::Fault(fault)) => return Err(fault),
                Err(_) => {}
            }
            let came = self.fill(alloc, wanted)?;
            if came == 0 {
                return self.last(alloc);
            }
            if came >= wanted {
                wanted = wanted.saturating_mul(2);
            }
        }
    }

    /// The next record, where no more bytes come.
    fn last(&mut self, alloc: Global) -> Result<Option<Record>, ReadFault>
        requires { self.old.came.is_over ≡ true }
        ensures came { self.new.came ≡ self.old.came }
        ensures begun { BeginsWith self.new.came.bytes self.new.log }
        ensures given { IfOk result (λ next. MatchOption next
            ((self.new.log ≡ self.old.log)
            × (log_of self.new.came.bytes ≡ Ok self.old.log) × IsLongestRun self.new.came.bytes self.old.log)
            (λ entry. self.new.log ≡ with_record entry self.old.log)) }
        ensures err { IfErr result (λ fault. (self.new ≡ self.old) × StreamStopsBy fault self.new) }
    {
        match self.next_here(alloc) {
            Ok(entry) => Ok(Some(entry)),
            Err(Stop::Ends) => Ok(None),
            Err(Stop::Cut(fault)) => Err(fault),
            Err(Stop::Fault(fault)) => Err(fault),
        }
    }

    /// Lets the window begin at the next record, and asks for one more piece behind it, with room for so many bytes. How many
    /// came: 0 where no more do.
    fn fill(&mut self, alloc: Global, wanted: usize) -> Result<usize, ReadFault>
        ensures log { self.new.log ≡ self.old.log }
        ensures on { ComesOn self.old.came self.new.came }
        ensures begun { BeginsWith self.new.came.bytes self.new.log }
        ensures more { IfOk result (λ came. length self.new.came.bytes ≡ length self.old.came.bytes + came) }
        ensures none { IfOk result (λ came. came ≡ 0 → self.new.came.is_over ≡ true) }
        ensures err { IfErr result (λ fault. StreamStopsBy fault self.new) }
        ensures bound { length self.new.came.bytes < length (log_bytes self.new.log) + 2 ^ 63 }
    {
        let unread = self.window.len() - self.at;
        let Some(begin) = self.begin.checked_add(self.at as u64) else {
            return Err(ReadFault::CannotRead);
        };
        let rest = &self.window.as_slice()[self.at..];
        let Some(window) = self.pieces.more(alloc, rest, wanted)? else {
            return Ok(0);
        };
        are_octets(window.as_slice());
        let came = window.len() - unread;
        self.window = window;
        self.at = 0;
        self.begin = begin;
        Ok(came)
    }
}

impl LogStream<NoMore> {
    /// The log of which all bytes are there, in front of its first record. It takes no memory.
    ///
    /// # Errors
    ///
    /// The fault of the header, by which no log begins: `BadMagic`, or `Short(8)` where the vat is cut.
    pub fn of(bytes: Bytes) -> Result<LogStream<NoMore>, LogError>
        ensures bytes { IfOk result (λ stream. stream.came.bytes ≡ bytes) }
        ensures over { IfOk result (λ stream. stream.came.is_over ≡ true) }
        ensures header { IfOk result (λ stream. header_of bytes ≡ Ok stream.log) }
        ensures begun { IfOk result (λ stream. BeginsWith bytes stream.log) }
        ensures err { IfErr result (λ e. (header_of bytes ≡ Err e) × (log_of bytes ≡ Err e)) }
    {
        let pieces = NoMore::behind(&bytes);
        match LogStream::headed(pieces, bytes) {
            Ok(stream) => Ok(stream),
            Err((fault, _)) => Err(fault),
        }
    }
}
