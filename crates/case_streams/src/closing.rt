//! The files of a case, closed behind a pass over its logs.

ghost use Rattle.std.specs.Prelude.{◌≡◌, ◌⊎◌, ◌≤◌, ℕ, List, Option, true, false, None, Ok, Err, drop, length, map, option_map, string_bytes, IfErr, OnOk};
ghost use Rattle.vat_log.specs.Log.{Log};
ghost use Rattle.vat_log.specs.Reading.{log_of};
ghost use Rattle.case_files.specs.CaseReading.{LogComes, LogsCome, NamedOrderComes};
ghost use Rattle.case_files.specs.declared.case_fault.CaseFault.TheVariants.{OutOfMemory};
ghost use Rattle.stream_audit.specs.Streamed.{AreReadWhole, IsFirstFault};
ghost use Rattle.case_streams.specs.Glue.{AreClosed, AreOpen, IsFaultOfAll, IsOpenOrder, has_fault, with_value};

use crate::opening::{OpenLogs, OpenOrder, OrderFault};
use case_files::{CaseFault, Source};
use log_lane::LogLane;
use vat_log::ReadFault;

/// Closes a log that came whole.
fn close_whole<S: Source>(source: &mut S, name: &str, reader: &S::Reader) -> Result<(), CaseFault>
    ensures { (log : Log) → (S.Reader.so_far reader.now).is_over ≡ true → log_of (S.Reader.so_far reader.now).bytes ≡ Ok log
        → LogComes S.read_gives name.now source.old (with_value log result) source.new }
{
    source.close(name, reader, false)?;
    Ok(())
}

/// Closes a log that came to a fault, which is answered; or why it can't be read.
fn close_bad<S: Source>(
    source: &mut S,
    name: &str,
    reader: &S::Reader,
    fault: ReadFault,
) -> CaseFault
    ensures { IsFaultOfAll fault (S.Reader.so_far reader.now)
        → (result ≡ OutOfMemory) ⊎ LogComes S.read_gives name.now source.old (Err result) source.new }
{
    match fault {
        ReadFault::OutOfMemory => CaseFault::OutOfMemory,
        ReadFault::CannotRead => match source.close(name, reader, true) {
            Ok(()) => CaseFault::CannotRead,
            Err(why) => CaseFault::from(why),
        },
        ReadFault::Bad(found) => match source.close(name, reader, false) {
            Ok(()) => CaseFault::from(found),
            Err(why) => CaseFault::from(why),
        },
    }
}

/// Closes logs that came whole, in the order of their names.
pub(crate) fn close_logs<S: Source>(
    source: &mut S,
    names: &[String],
    lanes: &[LogLane<S::Reader>],
) -> Result<(), CaseFault>
    requires { length lanes.now ≤ length names.now }
    ensures { (logs : List Log) → AreReadWhole lanes.now logs
        → AreClosed S.read_gives (map string_bytes names.now) (length lanes.now) logs
        source.old result source.new }
{
    for place in 0..lanes.len() {
        close_whole(source, names[place].as_str(), lanes[place].pieces())?;
    }
    Ok(())
}

/// Closes logs up to the first that isn't whole, whose fault is answered.
pub(crate) fn close_to_fault<S: Source>(
    source: &mut S,
    names: &[String],
    lanes: &[LogLane<S::Reader>],
    place: usize,
    fault: ReadFault,
) -> CaseFault
    requires { length lanes.now ≤ length names.now }
    ensures { IsFirstFault lanes.now place fault → (result ≡ OutOfMemory)
        ⊎ LogsCome S.read_gives (map string_bytes names.now) source.old (Err result) source.new }
{
    if place >= lanes.len() {
        return CaseFault::OutOfMemory;
    }
    match close_logs(source, names, &lanes[..place]) {
        Ok(()) => close_bad(source, names[place].as_str(), lanes[place].pieces(), fault),
        Err(first) => first,
    }
}

/// Closes the log that has no header, if there is one, behind those that have: its fault is answered.
pub(crate) fn close_headless<S: Source>(
    source: &mut S,
    names: &[String],
    logs: &OpenLogs<S::Reader>,
) -> Result<(), CaseFault>
    requires { AreOpen S.Reader.so_far (length names.now) logs.now }
    ensures ok { OnOk result ((source.new ≡ source.old) × (logs.now.headless ≡ None)) }
    ensures err { IfErr result (λ fault. (fault ≡ OutOfMemory)
        ⊎ LogsCome S.read_gives (drop (length logs.now.lanes.items) (map string_bytes names.now))
        source.old (Err fault) source.new) }
{
    let Some((fault, reader)) = &logs.headless else {
        return Ok(());
    };
    Err(close_bad(source, names[logs.lanes.len()].as_str(), reader, *fault))
}

/// Closes the file of an order, which was read.
pub(crate) fn close_order<S: Source>(
    source: &mut S,
    name: &Option<String>,
    order: &Option<OpenOrder<S::Reader>>,
) -> Result<(), CaseFault>
    ensures comes { (given : Option (List ℕ))
        → IsOpenOrder S.Reader.so_far (option_map string_bytes name.now) given order.now
        → NamedOrderComes S.read_gives (option_map string_bytes name.now) source.old (with_value given result) source.new }
    ensures sound { (given : Option (List ℕ))
        → IsOpenOrder S.Reader.so_far (option_map string_bytes name.now) given order.now
        → OnOk result (has_fault order.now ≡ false) }
{
    let (Some(name), Some(order)) = (name, order) else {
        return Ok(());
    };
    let Some(fault) = order.fault else {
        source.close(name.as_str(), &order.reader, false)?;
        return Ok(());
    };
    match fault {
        OrderFault::CannotRead => {
            source.close(name.as_str(), &order.reader, true)?;
            Err(CaseFault::CannotRead)
        }
        OrderFault::Bad(found) => {
            source.close(name.as_str(), &order.reader, false)?;
            Err(CaseFault::from(found))
        }
    }
}
