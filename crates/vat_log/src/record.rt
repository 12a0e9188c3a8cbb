//! Records.

ghost use Rattle.std.specs.Prelude.{◌≡◌, ◌<◌, ◌≤◌, ◌^◌, ◌↔◌, length, All, IsTrue, IfOk, IfErr};
ghost use Rattle.vat_log.specs.Fits.{count_limit, frame_limit, IsNumbered, IsCounted, RefusedFor};
ghost use Rattle.vat_log.specs.Ends.{EndsWith};
ghost use Rattle.vat_log.specs.Log.{written_version};
ghost use Rattle.vat_log.specs.Reading.{GivesInMemory, fields_at};
ghost use Rattle.vat_log.specs.Spelling.{record_bytes};
ghost use Rattle.vat_log.specs.Windows.{record_at};

use crate::body::{Body, References, ResultReferences};
use crate::error::LogError;
use crate::spelling::body_reading::body_of;
use crate::spelling::kind::{RecordKind, read_kind};
use crate::spelling::log_limits::{MAX_COUNT, MAX_FRAME, MAX_RECORDS};
use crate::version::LogVersion;
use bytes::Bytes;
use cap_frame::Path;
use std::alloc::{AllocError, Global};
use std::marker::Model;

/// A record of a log: a body whose numbers and counts a log can hold (docs/FORMATS.md).
#[derive(Debug)]
pub struct Record {
    body: Body,
}

impl Drop for Record {
    fn drop(self) {
        let Self { body: _ } = self;
    }
}

impl Model for Record {
    ghost use Rattle.vat_log.specs.declared.body.Body.{Body};

    ghost Value = { Body };

    ghost use Rattle.vat_log.specs.Fits.{Fits};

    ghost view = { λ stored. stored.body };

    ghost invariant = { λ stored. Fits stored.body };
}

impl Record {
    ghost use Rattle.vat_log.specs.Fits.{Fits};

    /// The record that says this. It takes no memory. A body that no log can hold is handed back.
    ///
    /// # Errors
    ///
    /// `ZeroNumber(0)` where a reference is 0, or a call that isn't noted beside a frame; else `TooLong` where a list
    /// has more than 1,048,576 elements or a frame more than 67,108,864 bytes.
    pub fn new(body: Body) -> Result<Record, (LogError, Body)>
        ensures ok { IfOk result (λ stored. stored ≡ body) }
        ensures fits { IfOk result (λ stored. Fits body) }
        ensures err { IfErr result (λ refused. (refused.1 ≡ body) × RefusedFor refused.0 body) }
    {
        if !is_numbered(&body) {
            return Err((LogError::ZeroNumber(0), body));
        }
        if !is_counted(&body) {
            return Err((LogError::TooLong, body));
        }
        Ok(Record { body })
    }

    /// The record that begins at this place, where so many stand in front of it, and the place after it.
    #[tactic(auto, unfolding(crate::specs::Windows::record_at, crate::specs::Fits::record_limit))]
    pub(crate) fn next(
        alloc: Global,
        version: LogVersion,
        count: usize,
        bytes: &Bytes,
        at: usize,
    ) -> Result<(Record, usize), LogError>
        requires octets { All (λ octet. octet < 2 ^ 8) bytes.now }
        requires before_end { at < length bytes.now }
        ensures gives { GivesInMemory (λ x. (x.0, x.1)) result (record_at version count bytes.now at) }
        ensures within { IfOk result (λ x. x.1 ≤ length bytes.now) }
    {
        let kind = read_kind(bytes.as_slice(), at)?;
        if count >= MAX_RECORDS {
            return Err(LogError::TooLong);
        }
        Record::read(alloc, version, kind, bytes, at + 1)
    }

    /// The record of this kind whose fields begin at this place, and the place after them.
    #[inline(never)]
    pub(crate) fn read(
        alloc: Global,
        version: LogVersion,
        kind: RecordKind,
        bytes: &Bytes,
        at: usize,
    ) -> Result<(Record, usize), LogError>
        requires octets { All (λ octet. octet < 2 ^ 8) bytes.now }
        requires within { at ≤ length bytes.now }
        ensures gives { GivesInMemory (λ x. (x.0, x.1)) result (fields_at version kind bytes.now at) }
        ensures within { IfOk result (λ x. x.1 ≤ length bytes.now) }
    {
        let (body, after) = body_of(alloc, version, kind, bytes, at)?;
        Ok((Record { body }, after))
    }

    /// A second record that says the same; its frame is shared. The only error is that memory ran out.
    pub fn copy(&self) -> Result<Record, AllocError>
        ensures { IfOk result (λ copied. copied ≡ self.now) }
    {
        Ok(Record {
            body: self.body.copy()?,
        })
    }

    /// Takes the frame, where there is one, out of these bytes, in which the record ends at this place. The record says
    /// the same as before, also where memory is refused.
    pub(crate) fn cut_frame(&mut self, bytes: &Bytes, end: usize) -> Result<(), AllocError>
        requires { EndsWith bytes.now end (record_bytes written_version self.old) }
        ensures { self.new ≡ self.old }
    {
        match &mut self.body {
            Body::Send { frame, .. } => cut(frame, bytes, end),
            Body::Receive { frame, .. } => cut(frame, bytes, end),
            _ => Ok(()),
        }
    }

    /// What the record says.
    pub fn body(&self) -> &Body
        ensures value { result.now ≡ self.now }
        ensures fits { Fits self.now }
    {
        &self.body
    }
}

/// Takes a frame out of these bytes, in which it ends at this place.
fn cut(frame: &mut Bytes, bytes: &Bytes, end: usize) -> Result<(), AllocError>
    requires { EndsWith bytes.now end frame.old }
    ensures { frame.new ≡ frame.old }
{
    *frame = bytes.slice(end - frame.len()..end)?;
    Ok(())
}

/// Whether no reference is 0, and no call but one beside a frame.
fn is_numbered(body: &Body) -> bool
    ensures { IsTrue result ↔ IsNumbered body.now }
{
    match body {
        Body::Host { reference, .. } => *reference != 0,
        Body::Vow { reference } | Body::Break { reference } => *reference != 0,
        Body::Fulfil { reference, to } => *reference != 0 && *to != 0,
        Body::Make {
            call,
            reference,
            ..
        } => *call != 0 && *reference != 0,
        Body::Field {
            reference,
            call,
            ..
        } => *reference != 0 && *call != 0,
        Body::Deliver { call, .. } | Body::Fault { call } => *call != 0,
        Body::AnswerBy { call, by } => *call != 0 && *by != 0,
        Body::Answer { call, results } => *call != 0 && are_results_numbered(results),
        Body::Send { references, .. } | Body::Receive { references, .. } => {
            are_references_numbered(references)
        }
    }
}

fn are_references_numbered(references: &References) -> bool
    ensures { IsTrue result ↔ All (λ reference. 0 < reference) references.now }
{
    references
        .as_slice()
        .iter()
        .all(|reference| *reference != 0)
}

fn are_results_numbered(results: &ResultReferences) -> bool
    ensures { IsTrue result ↔ All (λ answered. 0 < answered.0) results.now }
{
    results.as_slice().iter().all(|answered| answered.0 != 0)
}

/// Whether no list and no frame is past its limit.
fn is_counted(body: &Body) -> bool
    ensures { IsTrue result ↔ IsCounted body.now }
{
    match body {
        Body::Host { .. } | Body::Vow { .. } | Body::Fulfil { .. } | Body::Break { .. } => true,
        Body::Make { .. } | Body::Deliver { .. } | Body::Fault { .. } => true,
        Body::AnswerBy { .. } => true,
        Body::Field { path, .. } => is_path_counted(path),
        Body::Answer { results, .. } => are_results_counted(results),
        Body::Send {
            references,
            frame,
            ..
        }
        | Body::Receive {
            references,
            frame,
            ..
        } => is_passage_counted(references, frame),
    }
}

fn is_passage_counted(references: &References, frame: &Bytes) -> bool
    ensures { IsTrue result
        ↔ ((length references.now ≤ count_limit) × (length frame.now ≤ frame_limit)) }
{
    references.as_slice().len() <= MAX_COUNT && frame.len() <= MAX_FRAME
}

fn are_results_counted(results: &ResultReferences) -> bool
    ensures { IsTrue result ↔ ((length results.now ≤ count_limit)
        × All (λ answered. length answered.1 ≤ count_limit) results.now) }
{
    let results = results.as_slice();
    results.len() <= MAX_COUNT && results.iter().all(|answered| is_path_counted(&answered.1))
}

fn is_path_counted(path: &Path) -> bool
    ensures { IsTrue result ↔ (length path.now ≤ count_limit) }
{
    path.as_slice().len() <= MAX_COUNT
}
