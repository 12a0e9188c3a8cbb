//! What is answered to an input, with its text and its exit status.

ghost use Rattle.std.specs.Prelude.{◌≡◌, Some};
ghost use Rattle.report_lines.specs.Lines.{answer_status, answer_text};

use crate::fault::Fault;
use crate::finding_text::{outcome_status, put_outcome};
use crate::join_text::{JoinLine, join_status, put_join};
use crate::report_text::{put_report, report_status};
use crate::shown::Shown;
use crate::wire_text::{put_wire, wire_status};
use case_report::{Report, WireLine};
use merge_order::Order;
use rpc_view::RpcMessage;
use std::fmt::{self, Display, Formatter};
use vat_log::{Salvaged, SpelledLog};
use vat_rules::SlimFinding;

/// What is answered to an input. It is shown as its line (docs/FORMATS.md), without the line's end.
#[derive(Drop)]
pub enum Answer {
    /// What the audit of a vat's log found.
    Finding(SlimFinding),
    /// What the audit of a case found.
    Report(Report),
    /// The message of a frame.
    Message(RpcMessage),
    /// An order of the records of a case.
    Order(Order),
    /// No order of the records of a case exists.
    NoOrder,
    /// A log that was migrated.
    Migrated(SpelledLog),
    /// What is whole of a log.
    Salvaged(Salvaged),
    /// What was found of the bytes of a connection.
    Wire(WireLine),
    /// What was found of logs whose connections are joined.
    Join(JoinLine),
    /// The input has a fault, or memory ran out.
    Fault(Fault),
}

impl Answer {
    /// The exit status: 0 for a good log, a yes, a message, an order, a migrated or salvaged log or joined ones; 1 for a rule that is broken, each other
    /// no, or where no order exists; 2 for a record or a message that isn't judged, what is too long, or a fault; 3 where memory ran out.
    pub fn status(&self) -> u8
        ensures { result ≡ answer_status self.now }
    {
        match self {
            Answer::Finding(finding) => outcome_status(finding.outcome()),
            Answer::Report(report) => report_status(report),
            Answer::Message(_) | Answer::Order(_) => 0,
            Answer::Migrated(_) | Answer::Salvaged(_) => 0,
            Answer::NoOrder => 1,
            Answer::Wire(line) => wire_status(line),
            Answer::Join(line) => join_status(line),
            Answer::Fault(fault) => fault.status(),
        }
    }
}

impl Display for Answer {
    ghost output = { λ answer. Some (answer_text answer) };

    fn fmt<W: fmt::Write>(&self, f: &mut Formatter<W>) -> fmt::Result {
        match self {
            Answer::Finding(finding) => {
                put_outcome(f, finding.vat(), finding.len(), finding.outcome())
            }
            Answer::Report(report) => put_report(f, report),
            Answer::Message(message) => write!(f, "{}", Shown(message)),
            Answer::Order(order) => write!(f, "order steps {}", order.as_slice().len()),
            Answer::NoOrder => put_report(f, &Report::NoOrder),
            Answer::Migrated(log) => {
                write!(f, "migrated vat {} records {}", log.vat(), log.len())
            }
            Answer::Salvaged(found) => {
                let (vat, records) = (found.log.vat(), found.log.len());
                let bytes = found.log.bytes().len();
                write!(f, "salvaged vat {vat} records {records} bytes {bytes}")
            }
            Answer::Wire(line) => put_wire(f, line),
            Answer::Join(line) => put_join(f, line),
            Answer::Fault(fault) => write!(f, "{fault}"),
        }
    }
}
