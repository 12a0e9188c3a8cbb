//! The text and the exit status of a report.

ghost use Rattle.std.specs.Prelude.{◌≡◌, Some};
ghost use Rattle.std.specs.Fmt.{WritesOnOk};
ghost use Rattle.report_lines.specs.Lines.{breach_code, report_status, report_text};

use crate::finding_text::{code_of, put_broken, put_outside};
use case_report::{Breach, Report};
use std::fmt::{self, Display, Formatter};

/// The code of what a record breaks.
pub fn breach_code(breach: Breach) -> &'static str
    ensures { result.now ≡ breach_code breach }
{
    match breach {
        Breach::Rule(rule) => code_of(rule),
        Breach::Order => "ORDER",
    }
}

/// Writes what is answered of a case.
pub fn put_report<W: fmt::Write>(f: &mut Formatter<W>, report: &Report) -> fmt::Result
    ensures { WritesOnOk W.write_str_gives f.old result (report_text report.now) f.new }
{
    match report {
        Report::Vat { vat, at, rule } => put_broken(f, *vat, *at, breach_code(*rule)),
        Report::OutsideVat { vat, at, why } => put_outside(f, *vat, *at, *why),
        Report::Link {
            connection,
            end,
            message,
        } => { write!(f, "no link {connection} end {end} message {message}") }
        Report::OrderStep(step) => write!(f, "no order step {step}"),
        Report::NoOrder => f.write_str("no order exists"),
        Report::Yes {
            vats,
            records,
            delivered,
            under_way,
            ..
        } => {
            write!(
                f,
                "yes vats {vats} records {records} delivered {delivered} under_way {under_way}"
            )
        }
    }
}

/// The exit status for what is answered of a case.
pub fn report_status(report: &Report) -> u8
    ensures { result ≡ report_status report.now }
{
    match report {
        Report::Yes { .. } => 0,
        Report::OutsideVat { .. } => 2,
        Report::Vat { .. } | Report::Link { .. } | Report::OrderStep(_) | Report::NoOrder => 1,
    }
}

/// What is answered of a case, to be shown as its line, without the line's end.
#[derive(Clone, Copy)]
pub struct ShownReport<'a>(pub &'a Report);

impl Display for ShownReport<'_> {
    ghost output = { λ shown. Some (report_text shown.0.now) };

    fn fmt<W: fmt::Write>(&self, f: &mut Formatter<W>) -> fmt::Result {
        put_report(f, self.0)
    }
}
