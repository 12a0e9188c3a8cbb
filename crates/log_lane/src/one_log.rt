//! The audit of a log that comes in pieces.

ghost use Rattle.std.specs.Prelude.{◌≡◌, true, [], Ok, IfOk, IfErr};
ghost use Rattle.byte_pieces.specs.Coming.{ComesOn};
ghost use Rattle.cap_reader.specs.Defaults.{default_limits};
ghost use Rattle.vat_log.specs.Reading.{log_of};
ghost use Rattle.vat_log.specs.Streams.{StreamStopsBy};
ghost use Rattle.vat_rules.specs.Audit.{IsTrueOf};

use byte_pieces::Pieces;
use rpc_view::Limits;
use std::alloc::Global;
use vat_log::{LogStream, ReadFault};
use vat_rules::{SlimFinding, VatAudit};

/// The audit of a log of which only the header was read, as [`audit_vat`](vat_rules::audit_vat) makes it, within the default
/// limits. Each record is judged as soon as it is read, and then let go; behind one that isn't good the log is read to its end.
///
/// # Errors
///
/// The first fault of the log; or that its bytes can't be read, or that memory was refused.
pub fn audit_stream<P: Pieces>(
    alloc: Global,
    stream: &mut LogStream<P>,
) -> Result<SlimFinding, ReadFault>
    requires { stream.old.log.records ≡ [] }
    // What came before still comes first.
    ensures on { ComesOn stream.old.came stream.new.came }
    // The log that was audited is the one that the bytes spell.
    ensures log { IfOk result (λ finding. log_of stream.new.came.bytes ≡ Ok finding.log) }
    // These are all bytes.
    ensures over { IfOk result (λ finding. stream.new.came.is_over ≡ true) }
    // Its frames were read within the default limits.
    ensures limits { IfOk result (λ finding. finding.limits ≡ default_limits) }
    // What is found is what the rules say of it.
    ensures outcome { IfOk result (λ finding. IsTrueOf finding.log finding.limits finding.outcome) }
    // The fault is that of all bytes, whatever comes behind those that came.
    ensures err { IfErr result (λ fault. StreamStopsBy fault stream.new) }
{
    let mut audit = VatAudit::new(alloc, stream.header(), Limits::default());
    while let Some(record) = stream.next(alloc)? {
        if audit.take(alloc, record.body()).is_err() {
            return Err(ReadFault::OutOfMemory);
        }
    }
    Ok(audit.finish())
}
