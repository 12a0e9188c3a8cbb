//! The names of faults: the variant, with the number that it holds.

ghost use Rattle.std.specs.Prelude.{Some};
ghost use Rattle.report_lines.specs.Faults.{frame_fault_name, log_fault_name, order_fault_name, outside_name, read_fault_name, refusal_name, tie_fault_name};

use crate::shown::Shown;
use cap_frame::FrameError;
use cap_reader::ReadError;
use case_book::{CaseError, TieFault};
use merge_order::OrderError;
use rpc_view::Outside;
use std::fmt::{self, Display, Formatter};
use vat_log::LogError;

impl Display for Shown<FrameError> {
    ghost output = { λ fault. Some (frame_fault_name fault.0) };

    fn fmt<W: fmt::Write>(&self, f: &mut Formatter<W>) -> fmt::Result {
        f.write_str(match self.0 {
            FrameError::Short => "Short",
            FrameError::TooManySegments => "TooManySegments",
            FrameError::Trailing => "Trailing",
            FrameError::NoRoot => "NoRoot",
        })
    }
}

impl Display for Shown<ReadError> {
    ghost output = { λ fault. Some (read_fault_name fault.0) };

    fn fmt<W: fmt::Write>(&self, f: &mut Formatter<W>) -> fmt::Result {
        f.write_str(match self.0 {
            ReadError::OutOfSegment => "OutOfSegment",
            ReadError::NoSegment => "NoSegment",
            ReadError::BadPad => "BadPad",
            ReadError::WrongKind => "WrongKind",
            ReadError::NoZero => "NoZero",
            ReadError::Reserved => "Reserved",
            ReadError::TooDeep => "TooDeep",
            ReadError::TooMuch => "TooMuch",
            ReadError::OutOfMemory => "OutOfMemory",
        })
    }
}

impl Display for Shown<Outside> {
    ghost output = { λ why. Some (outside_name why.0) };

    fn fmt<W: fmt::Write>(&self, f: &mut Formatter<W>) -> fmt::Result {
        f.write_str(match self.0 {
            Outside::Level => "Level",
            Outside::Unimplemented => "Unimplemented",
            Outside::LaterField => "LaterField",
        })
    }
}

impl Display for Shown<LogError> {
    ghost output = { λ fault. Some (log_fault_name fault.0) };

    fn fmt<W: fmt::Write>(&self, f: &mut Formatter<W>) -> fmt::Result {
        match self.0 {
            LogError::BadMagic => f.write_str("BadMagic"),
            LogError::Short(at) => write!(f, "Short {at}"),
            LogError::BadKind(at) => write!(f, "BadKind {at}"),
            LogError::ZeroNumber(at) => write!(f, "ZeroNumber {at}"),
            LogError::TooLong => f.write_str("TooLong"),
            LogError::OutOfMemory => f.write_str("OutOfMemory"),
        }
    }
}

impl Display for Shown<OrderError> {
    ghost output = { λ fault. Some (order_fault_name fault.0) };

    fn fmt<W: fmt::Write>(&self, f: &mut Formatter<W>) -> fmt::Result {
        match self.0 {
            OrderError::BadMagic => f.write_str("BadMagic"),
            OrderError::Short(at) => write!(f, "Short {at}"),
            OrderError::OutOfMemory => f.write_str("OutOfMemory"),
        }
    }
}

impl Display for Shown<CaseError> {
    ghost output = { λ refusal. Some (refusal_name refusal.0) };

    fn fmt<W: fmt::Write>(&self, f: &mut Formatter<W>) -> fmt::Result {
        match self.0 {
            CaseError::TooManyVats => f.write_str("TooManyVats"),
            CaseError::SameVat(vat) => write!(f, "SameVat {vat}"),
            CaseError::TooManyLinks => f.write_str("TooManyLinks"),
            CaseError::SameLink(connection) => write!(f, "SameLink {connection}"),
            CaseError::OutOfMemory => f.write_str("OutOfMemory"),
        }
    }
}

impl Display for Shown<TieFault> {
    ghost output = { λ fault. Some (tie_fault_name fault.0) };

    fn fmt<W: fmt::Write>(&self, f: &mut Formatter<W>) -> fmt::Result {
        match self.0 {
            TieFault::MissingLog(connection) => write!(f, "MissingLog {connection}"),
            TieFault::SameEnds(connection) => write!(f, "SameEnds {connection}"),
        }
    }
}
