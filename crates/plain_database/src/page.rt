//! Rows of a table or of an index, page by page.

ghost use Rattle.std.specs.Prelude.{◌≡◌, ◌<◌, [], IfOk};
ghost use Rattle.page_ranges.specs.AtKeys.{AreAtKeys};
ghost use Rattle.table_model.specs.Pages.{IsQuery, IsScan};
ghost use Rattle.table_pages.specs.Asked.{IsQueryOf, IsScanOf};

use crate::database::SlowDb;
use paging::Steps;
use std::alloc::{AllocError as NoMemory, Global};
use std::marker::Brand;
use std::sync::ledger::{Blank, Ledger};
use table_model::{Refusal, Reply};
use table_request::{Query, Scan};
use table_rows::TableRows;

/// A page of a Query of a table, whose steps are counted in a ledger of its own.
fn query_table<L: Ledger>(
    rows: &TableRows,
    alloc: Global,
    request: &Query,
    blank: Blank,
) -> Result<Reply, NoMemory>
    requires name { blank.name ≡ L.name }
    requires parts { blank.parts ≡ L.parts }
    requires some { 0 < L.parts }
    requires idle { rows.now.pending ≡ [] }
    requires keyed { AreAtKeys rows.now.schema rows.now.rows }
    ensures { IfOk result (IsQueryOf rows.now request.now) }
{
    let mut steps = Steps::<L>::start(blank);
    table_pages::query(rows, alloc, request, &mut steps)
}

/// The same of a Scan.
fn scan_table<L: Ledger>(
    rows: &TableRows,
    alloc: Global,
    request: &Scan,
    blank: Blank,
) -> Result<Reply, NoMemory>
    requires name { blank.name ≡ L.name }
    requires parts { blank.parts ≡ L.parts }
    requires some { 0 < L.parts }
    requires idle { rows.now.pending ≡ [] }
    requires keyed { AreAtKeys rows.now.schema rows.now.rows }
    ensures { IfOk result (IsScanOf rows.now request.now) }
{
    let mut steps = Steps::<L>::start(blank);
    table_pages::scan(rows, alloc, request, &mut steps)
}

impl SlowDb {
    /// Reads a page of the rows of one partition key (API Reference: Query).
    pub(crate) fn query(&self, alloc: Global, request: &Query) -> Result<Reply, NoMemory>
        ensures { IfOk result (IsQuery self.now request.now) }
    {
        let Some(table) = self.tables.get(&request.page.table) else {
            let name = request.page.table.try_clone()?;
            return Ok(Reply::Refused(Refusal::NoTable(name)));
        };
        let reply = query_table::<Brand>(&table.rows, alloc, request, Blank::new(1))?;
        Ok(reply)
    }

    /// Reads a page of all rows, or of those of a segment (API Reference: Scan).
    pub(crate) fn scan(&self, alloc: Global, request: &Scan) -> Result<Reply, NoMemory>
        ensures { IfOk result (IsScan self.now request.now) }
    {
        let Some(table) = self.tables.get(&request.page.table) else {
            let name = request.page.table.try_clone()?;
            return Ok(Reply::Refused(Refusal::NoTable(name)));
        };
        let reply = scan_table::<Brand>(&table.rows, alloc, request, Blank::new(1))?;
        Ok(reply)
    }
}
