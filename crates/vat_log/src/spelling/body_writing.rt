//! Writing records. Versions 2 and 3 spell a record alike.

ghost use Rattle.std.specs.Prelude.{◌≡◌, ◌<◌, ◌≤◌, ◌^◌, ◌++◌, length, All, OnOk, IfOk};
ghost use Rattle.std.specs.Int.{w16, w32, w64};
ghost use Rattle.vat_log.specs.Fits.{count_limit, frame_limit, Fits, IsWide};
ghost use Rattle.vat_log.specs.Ends.{AreEnds};
ghost use Rattle.vat_log.specs.Log.{written_version};
ghost use Rattle.vat_log.specs.Spelling.{log_magic, count_width, number_bytes, references_bytes, path_bytes, answered_bytes, counted_list, passage_bytes, kind_byte, kind_in, fields_bytes, record_bytes, log_bytes};

use crate::body::{Body, References, ResultReferences};
use crate::record::Record;
use crate::version::LogVersion;
use bytes::Bytes;
use cap_frame::Path;
use std::alloc::{AllocError, Global};

#[tactic(auto, unfolding(crate::specs::Spelling::number_bytes))]
fn put_u16(out: &mut Vec<u8>, n: u16) -> Result<(), AllocError>
    ensures { OnOk result (out.new.items ≡ out.old.items ++ number_bytes w16 n) }
{
    out.extend_from_slice(&n.to_le_bytes())
}

#[tactic(auto, unfolding(crate::specs::Spelling::number_bytes))]
fn put_u32(out: &mut Vec<u8>, n: u32) -> Result<(), AllocError>
    ensures { OnOk result (out.new.items ≡ out.old.items ++ number_bytes w32 n) }
{
    out.extend_from_slice(&n.to_le_bytes())
}

#[tactic(auto, unfolding(crate::specs::Spelling::number_bytes))]
fn put_u64(out: &mut Vec<u8>, n: u64) -> Result<(), AllocError>
    ensures { OnOk result (out.new.items ≡ out.old.items ++ number_bytes w64 n) }
{
    out.extend_from_slice(&n.to_le_bytes())
}

/// How many a list has.
fn put_count(out: &mut Vec<u8>, count: usize) -> Result<(), AllocError>
    requires { count ≤ count_limit }
    ensures { OnOk result (out.new.items
        ≡ out.old.items ++ number_bytes (count_width written_version) count) }
{
    put_u32(out, count as u32)
}

fn put_references(out: &mut Vec<u8>, references: &[u64]) -> Result<(), AllocError>
    requires { length references.now ≤ count_limit }
    ensures ok { OnOk result (out.new.items ≡ out.old.items ++ references_bytes written_version references.now) }
    ensures wide { All (λ reference. reference < 2 ^ 64) references.now }
{
    put_count(out, references.len())?;
    for reference in references {
        put_u64(out, *reference)?;
    }
    Ok(())
}

fn put_path(out: &mut Vec<u8>, fields: &[u16]) -> Result<(), AllocError>
    requires { length fields.now ≤ count_limit }
    ensures ok { OnOk result (out.new.items ≡ out.old.items ++ path_bytes written_version fields.now) }
    ensures wide { All (λ field. field < 2 ^ 16) fields.now }
{
    put_count(out, fields.len())?;
    for field in fields {
        put_u16(out, *field)?;
    }
    Ok(())
}

fn put_answered(out: &mut Vec<u8>, answered: &(u64, Path)) -> Result<(), AllocError>
    requires { length answered.now.1 ≤ count_limit }
    ensures ok { OnOk result (out.new.items ≡ out.old.items ++ answered_bytes written_version answered.now) }
    ensures wide { OnOk result ((answered.now.0 < 2 ^ 64)
        × All (λ field. field < 2 ^ 16) answered.now.1) }
{
    let (reference, path) = answered;
    put_u64(out, *reference)?;
    put_path(out, path.as_slice())
}

fn put_results(out: &mut Vec<u8>, results: &[(u64, Path)]) -> Result<(), AllocError>
    requires counted { length results.now ≤ count_limit }
    requires paths { All (λ answered. length answered.1 ≤ count_limit) results.now }
    ensures ok { OnOk result
        (out.new.items ≡ out.old.items ++ counted_list written_version (answered_bytes written_version) results.now) }
    ensures wide { OnOk result (All (λ answered.
        (answered.0 < 2 ^ 64) × All (λ field. field < 2 ^ 16) answered.1) results.now) }
{
    put_count(out, results.len())?;
    for answered in results {
        put_answered(out, answered)?;
    }
    Ok(())
}

/// The fields of a SEND or a RECV.
fn put_passage(
    out: &mut Vec<u8>,
    connection: u32,
    call: u64,
    references: &References,
    frame: &Bytes,
) -> Result<(), AllocError>
    requires counted { length references.now ≤ count_limit }
    requires frame { length frame.now ≤ frame_limit }
    ensures ok { OnOk result (out.new.items
        ≡ out.old.items ++ passage_bytes written_version connection call references.now frame.now) }
    ensures wide { OnOk result ((connection < 2 ^ 32) × (call < 2 ^ 64)
        × All (λ reference. reference < 2 ^ 64) references.now) }
{
    put_u32(out, connection)?;
    put_u64(out, call)?;
    put_references(out, references.as_slice())?;
    put_u32(out, frame.len() as u32)?;
    out.extend_from_slice(frame.as_slice())
}

/// Two numbers, one after the other.
fn put_pair(out: &mut Vec<u8>, a: u64, b: u64) -> Result<(), AllocError>
    ensures { OnOk result (out.new.items
        ≡ out.old.items ++ (number_bytes w64 a ++ number_bytes w64 b)) }
{
    put_u64(out, a)?;
    put_u64(out, b)
}

/// The fields of a MAKE.
fn put_make(
    out: &mut Vec<u8>,
    call: u64,
    reference: u64,
    interface: u64,
    method: u16,
) -> Result<(), AllocError>
    ensures { OnOk result (out.new.items
        ≡ out.old.items ++ fields_bytes written_version (Body.Make call reference interface method)) }
{
    put_pair(out, call, reference)?;
    put_u64(out, interface)?;
    put_u16(out, method)
}

/// The fields of a FIELD.
fn put_field(out: &mut Vec<u8>, reference: u64, call: u64, path: &Path) -> Result<(), AllocError>
    requires { length path.now ≤ count_limit }
    ensures ok { OnOk result (out.new.items
        ≡ out.old.items ++ fields_bytes written_version (Body.Field reference call path.now)) }
    ensures wide { OnOk result (All (λ field. field < 2 ^ 16) path.now) }
{
    put_pair(out, reference, call)?;
    put_path(out, path.as_slice())
}

/// The fields of an ANSWER.
fn put_answer(out: &mut Vec<u8>, call: u64, results: &ResultReferences) -> Result<(), AllocError>
    requires counted { length results.now ≤ count_limit }
    requires paths { All (λ answered. length answered.1 ≤ count_limit) results.now }
    ensures ok { OnOk result (out.new.items
        ≡ out.old.items ++ fields_bytes written_version (Body.Answer call results.now)) }
    ensures wide { OnOk result (All (λ answered.
        (answered.0 < 2 ^ 64) × All (λ field. field < 2 ^ 16) answered.1) results.now) }
{
    put_u64(out, call)?;
    put_results(out, results.as_slice())
}

/// The byte of a body's kind.
fn byte_of(body: &Body) -> u8
    ensures { result ≡ kind_byte (kind_in body.now) }
{
    match body {
        Body::Host { .. } => 0x01,
        Body::Vow { .. } => 0x02,
        Body::Fulfil { .. } => 0x03,
        Body::Break { .. } => 0x04,
        Body::Make { .. } => 0x05,
        Body::Field { .. } => 0x06,
        Body::Deliver { .. } => 0x07,
        Body::Answer { .. } => 0x08,
        Body::Fault { .. } => 0x09,
        Body::Send { .. } => 0x0a,
        Body::Receive { .. } => 0x0b,
        Body::AnswerBy { .. } => 0x0c,
    }
}

/// The fields of a record of any kind.
fn put_fields(out: &mut Vec<u8>, body: &Body) -> Result<(), AllocError>
    requires { Fits body.now }
    ensures ok { OnOk result (out.new.items ≡ out.old.items ++ fields_bytes written_version body.now) }
    ensures wide { OnOk result (IsWide body.now) }
{
    match body {
        Body::Host { reference, object } => put_pair(out, *reference, *object),
        Body::Vow { reference } | Body::Break { reference } => put_u64(out, *reference),
        Body::Fulfil { reference, to } => put_pair(out, *reference, *to),
        Body::Make {
            call,
            reference,
            interface,
            method,
        } => put_make(out, *call, *reference, *interface, *method),
        Body::Field {
            reference,
            call,
            path,
        } => put_field(out, *reference, *call, path),
        Body::Deliver { call, object } => put_pair(out, *call, *object),
        Body::Answer { call, results } => put_answer(out, *call, results),
        Body::Fault { call } => put_u64(out, *call),
        Body::Send {
            connection,
            call,
            references,
            frame,
        }
        | Body::Receive {
            connection,
            call,
            references,
            frame,
        } => put_passage(out, *connection, *call, references, frame),
        Body::AnswerBy { call, by } => put_pair(out, *call, *by),
    }
}

/// A record: the byte of its kind, then its fields.
pub(crate) fn put_body(out: &mut Vec<u8>, body: &Body) -> Result<(), AllocError>
    requires { Fits body.now }
    ensures ok { OnOk result (out.new.items ≡ out.old.items ++ record_bytes written_version body.now) }
    ensures wide { OnOk result (IsWide body.now) }
{
    out.push(byte_of(body))?;
    put_fields(out, body)
}

/// The bytes of a log, and the place in them where each of its records ends.
#[derive(Drop)]
pub(crate) struct LogBytes {
    pub(crate) bytes: Bytes,
    pub(crate) ends: Vec<usize>,
}

/// The magic, which says the version.
fn put_magic(out: &mut Vec<u8>, version: LogVersion) -> Result<(), AllocError>
    ensures { OnOk result (out.new.items ≡ out.old.items ++ log_magic version) }
{
    match version {
        LogVersion::One => out.extend_from_slice(b"VATLOG01"),
        LogVersion::Two => out.extend_from_slice(b"VATLOG02"),
        LogVersion::Three => out.extend_from_slice(b"VATLOG03"),
    }
}

/// What stands in front of a log's records.
pub(crate) fn put_header(out: &mut Vec<u8>, version: LogVersion, vat: u32) -> Result<(), AllocError>
    ensures { OnOk result (out.new.items
        ≡ out.old.items ++ (log_magic version ++ number_bytes w32 vat)) }
{
    put_magic(out, version)?;
    put_u32(out, vat)
}

/// The one spelling, in a version whose counts have 32 bits, of the log with this vat and these records.
pub(crate) fn written_log(
    alloc: Global,
    version: LogVersion,
    vat: u32,
    records: &[Record],
) -> Result<LogBytes, AllocError>
    requires { count_width version ≡ w32 }
    ensures spelled { IfOk result (λ written.
        written.bytes ≡ log_bytes (record {
          version = version;
          vat = vat;
          records = records.now;
        })) }
    ensures fit { IfOk result (λ written. All Fits records.now) }
    ensures wide { IfOk result (λ written. All IsWide records.now) }
    ensures count { IfOk result (λ written. length written.ends.items ≡ length records.now) }
    ensures ends { IfOk result (λ written.
        AreEnds written.bytes records.now written.ends.items) }
{
    let mut ends = Vec::with_capacity(alloc, records.len())?;
    let mut out = Vec::new(alloc);
    put_header(&mut out, version, vat)?;
    for entry in records {
        put_body(&mut out, entry.body())?;
        ends.push(out.len())?;
    }
    let bytes = Bytes::from_vec(out)?;
    Ok(LogBytes { bytes, ends })
}
