//! Where the rows of a page are.

ghost use Rattle.std.specs.Prelude.{◌≡◌, ◌-◌, ◌<◌, ◌≤◌, IfOk};
ghost use Rattle.std.specs.Option.{option_copied};
ghost use Rattle.cell_model.specs.Keys.{cell_at};
ghost use Rattle.page_reads.specs.Sources.{source_in, HasPlace};
ghost use Rattle.page_calls.specs.Asked.{first_cell, IsSourceOf};

use cell_asks::Asks;
use cell_model::{CellKey, ItemKey, PageSource, TableLook};
use page_reads::Source;
use row_keys::{Position, RowKey};
use std::alloc::AllocError as NoMemory;

/// What stands for a source in what is asked of cells, by what a Look told of the table.
pub(crate) fn page_source(look: &TableLook, source: Source<'_>) -> Result<PageSource, NoMemory>
    requires place { HasPlace look.now.schema source }
    ensures { IfOk result (IsSourceOf look.now (source_in source.entry)) }
{
    match source {
        Source::Table => Ok(PageSource::Table),
        Source::Local(number, _) => Ok(PageSource::Local {
            place: number as u64,
        }),
        Source::Global(number, _) => {
            let place = number.saturating_sub(look.schema.locals.len());
            // Each global index that a Look tells of has its number: this want of memory never comes.
            match look.indexes.get(place) {
                Some(number) => Ok(PageSource::Global { number: *number }),
                None => Err(NoMemory),
            }
        }
    }
}

/// The cell of the rows at the place of a key.
pub(crate) fn cell_of_row<C: Asks>(cells: &C, table: u64, key: RowKey) -> u32
    ensures cell { result ≡ cell_at (C.count cells.now) key.place }
    ensures partition { result < C.count cells.now }
    ensures next { result < u32.MAX }
{
    // Their number is one of 32 bits, so the cell behind this one has a number too.
    let _partitions = cells.partitions();
    let key = CellKey::Item(ItemKey { table, key });
    let cell = cells.cell_of(&key);
    drop(key);
    cell
}

/// The first cell of a page that goes on behind a position, or begins with the first row.
pub(crate) fn first_cell<C: Asks>(
    cells: &C,
    table: u64,
    start: Option<&Position>,
) -> Result<u32, NoMemory>
    ensures cell { IfOk result (λ cell. cell ≡ first_cell (C.count cells.now) (option_copied start.entry)) }
    ensures partition { IfOk result (λ cell. cell ≤ C.count cells.now - 1) }
{
    match start {
        Some(at) => Ok(cell_of_row(cells, table, at.read.try_clone()?)),
        None => Ok(0),
    }
}
