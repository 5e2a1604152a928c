pub mod cell;
pub mod shown;

use crate::table::cell::{COLUMNS, Column};
use report::failed::Failed;
use std::alloc::{AllocError, Global};
use std::fmt::Display;

// A column, and how wide it is.
#[derive(Clone, Copy, Debug, PartialEq)]
struct Wide {
    column: Column,
    width: usize,
}

// A table whose columns are as wide as their widest cell.
#[derive(Drop)]
pub struct Table {
    columns: [Wide; 11],
    line: String,
}

impl Table {
    // As wide as the headings.
    pub(crate) fn new(heap: Global) -> Result<Table, AllocError> {
        let mut table = Table {
            columns: COLUMNS.map(|column| Wide { column, width: 0 }),
            line: String::new(heap),
        };
        table.widen(|column| column)?;
        Ok(table)
    }

    // Makes room for a line.
    pub(crate) fn widen<D: Display + Drop, F: Fn(Column) -> D + Drop>(
        &mut self,
        cell: F,
    ) -> Result<(), AllocError>
        requires { F.IsAlwaysCallable cell }
    {
        for Wide { column, width } in &mut self.columns {
            self.line.clear();
            write!(self.line, "{}", cell(*column))?;
            *width = self.line.len().max(*width);
        }
        Ok(())
    }

    pub(crate) fn print<D: Display + Drop, F: Fn(Column) -> D + Drop>(
        &mut self,
        rt: &HostRuntime,
        cell: F,
    ) -> Result<(), Failed>
        requires { F.IsAlwaysCallable cell }
    {
        self.line.clear();
        for Wide { column, width } in &self.columns {
            let end = self.line.len().saturating_add(*width);
            write!(self.line, "{}", cell(*column))?;
            pad(&mut self.line, end)?;
        }
        Ok(rt.println(self.line.as_str().trim_end())?)
    }
}

// Fills a line with spaces up to the end of a column, and two between columns.
fn pad(line: &mut String, end: usize) -> Result<(), AllocError> {
    for _ in line.len()..end.saturating_add(2) {
        line.push(' ')?;
    }
    Ok(())
}
