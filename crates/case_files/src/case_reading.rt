//! Reading a case: its file, and the files that it names.

ghost use Rattle.std.specs.Prelude.{map, option_map, string_bytes};
ghost use Rattle.std.specs.Arc.{arc_value};
ghost use Rattle.case_files.specs.CaseReading.{ComesOfCase, IsCaseOf, ListedComes, LogComes, LogsCome, NamedOrderComes, OrderComes, listed_by, seen_by};

use crate::case_fault::CaseFault;
use crate::case_file::{CaseFile, case_file_of};
use crate::source::Source;
use case_book::{Case, Link};
use merge_order::{Order, read_order};
use std::alloc::Global;
use std::convert::AsStr;
use std::sync::Arc;
use vat_log::{VatLog, parse_log};

/// What the file of a case says that a source has under a name.
///
/// # Errors
///
/// The first fault of the case file, or of its reading.
pub fn read_case_file<S: Source>(
    alloc: Global,
    source: &mut S,
    name: &str,
) -> Result<CaseFile, CaseFault>
    ensures { ListedComes S.read_gives name.now source.old (seen_by listed_by result) source.new }
{
    let bytes = source.read(name)?;
    case_file_of(alloc, bytes.as_slice())
}

/// One log, which isn't shared.
fn read_own_log<S: Source>(alloc: Global, source: &mut S, name: &str) -> Result<VatLog, CaseFault>
    ensures { LogComes S.read_gives name.now source.old result source.new }
{
    let bytes = source.read(name)?;
    Ok(parse_log(alloc, bytes)?)
}

/// One log.
fn read_log<S: Source>(alloc: Global, source: &mut S, name: &str) -> Result<Arc<VatLog>, CaseFault>
    ensures { LogComes S.read_gives name.now source.old (seen_by arc_value result) source.new }
{
    let bytes = source.read(name)?;
    let log = parse_log(alloc, bytes)?;
    Ok(Arc::new(alloc, log)?)
}

/// The logs that a source has under these names, in their order.
///
/// # Errors
///
/// The first fault of a log, or of its reading.
pub fn read_log_list<S: Source, N: AsStr>(
    alloc: Global,
    source: &mut S,
    names: &[N],
) -> Result<Vec<VatLog>, CaseFault>
    ensures { LogsCome S.read_gives (map N.text names.now) source.old
        (seen_by (λ logs. logs.items) result) source.new }
{
    let mut logs = Vec::new(alloc);
    for name in names {
        logs.push(read_own_log(alloc, source, name.as_str())?)?;
    }
    Ok(logs)
}

/// The logs of these names.
fn read_logs<S: Source>(
    alloc: Global,
    source: &mut S,
    names: &[String],
) -> Result<Vec<Arc<VatLog>>, CaseFault>
    ensures { LogsCome S.read_gives (map string_bytes names.now) source.old
        (seen_by (λ logs. map arc_value logs.items) result) source.new }
{
    let mut logs = Vec::new(alloc);
    for name in names {
        let log = read_log(alloc, source, name.as_str())?;
        logs.push(log)?;
    }
    Ok(logs)
}

/// One order.
fn read_order_file<S: Source>(alloc: Global, source: &mut S, name: &str) -> Result<Order, CaseFault>
    ensures { OrderComes S.read_gives name.now source.old result source.new }
{
    let bytes = source.read(name)?;
    Ok(read_order(alloc, bytes)?)
}

/// The order of this name, if there is one.
fn read_named_order<S: Source>(
    alloc: Global,
    source: &mut S,
    name: &Option<String>,
) -> Result<Option<Order>, CaseFault>
    ensures { NamedOrderComes S.read_gives
        (option_map string_bytes name.now) source.old result source.new }
{
    match name {
        None => Ok(None),
        Some(name) => {
            let order = read_order_file(alloc, source, name.as_str())?;
            Ok(Some(order))
        }
    }
}

/// The case of these logs and links.
fn tied_case(logs: Vec<Arc<VatLog>>, links: Vec<Link>) -> Result<Case, CaseFault>
    ensures { IsCaseOf (map arc_value logs.items) links.items result }
{
    let case = Case::new(logs, links)?;
    match case.tie_fault() {
        None => Ok(case),
        Some(fault) => Err(CaseFault::Untied(fault)),
    }
}

/// A case and the order that its file names, if it names one.
#[derive(Drop)]
pub struct ReadCase {
    /// The case of the logs and links.
    pub case: Case,
    /// The order. Whether it fits the logs isn't asked here.
    pub order: Option<Order>,
}

/// The case that a source has under a name, and the order that it names. All files that the case file names are read.
///
/// # Errors
///
/// The first fault of the case file, of each log as listed, of the order, and of the case.
pub fn read_case<S: Source>(
    alloc: Global,
    source: &mut S,
    name: &str,
) -> Result<ReadCase, CaseFault>
    ensures { ComesOfCase S.read_gives source.old name.now result source.new }
{
    let file = read_case_file(alloc, source, name)?;
    let logs = read_logs(alloc, source, &file.logs)?;
    let order = read_named_order(alloc, source, &file.order)?;
    let case = tied_case(logs, file.links)?;
    Ok(ReadCase { case, order })
}
