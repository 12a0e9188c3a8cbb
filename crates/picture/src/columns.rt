//! Columns: the vats of a case.

ghost use Rattle.std.specs.Prelude.{◌≡◌, ◌≤◌, length, map, IfOk};
ghost use Rattle.std.specs.Arc.{arc_value};
ghost use Rattle.case_book.specs.Case.{vat_limit};
ghost use Rattle.picture.specs.Rows.{column_at, columns_of};

use crate::vat_logs::column_of;
use std::alloc::{AllocError, Global};
use std::sync::Arc;
use vat_log::VatLog;

/// The column of a vat.
#[derive(Clone, Copy)]
pub struct Column {
    /// The vat.
    pub vat: u32,
    /// Which column it is, counted from 0.
    pub column: u32,
    /// The line below the last row, to which it goes.
    pub line: u32,
}

/// The column of a log's vat, among these.
fn column_at(logs: &[Arc<VatLog>], line: u32, log: &VatLog) -> Column
    requires { length logs.now ≤ vat_limit }
    ensures { result ≡ column_at (map arc_value logs.now) line log.now }
{
    let vat = log.vat();
    let column = column_of(logs, vat);
    Column { vat, column, line }
}

/// The columns of these logs' vats.
pub fn columns_of(alloc: Global, logs: &[Arc<VatLog>], line: u32) -> Result<Vec<Column>, AllocError>
    requires { length logs.now ≤ vat_limit }
    ensures { IfOk result (λ columns. columns.items ≡ columns_of (map arc_value logs.now) line) }
{
    let mut columns = Vec::new(alloc);
    for log in logs {
        columns.push(column_at(logs, line, log))?;
    }
    Ok(columns)
}
