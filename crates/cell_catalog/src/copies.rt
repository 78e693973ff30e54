//! Copies of values, equal to them.

ghost use Rattle.std.specs.Prelude.{◌≡◌, IfOk};

use cell_model::CatalogTable;
use std::alloc::AllocError as NoMemory;
use table_request::{IndexChange, TableUpdate};

/// A copy of a change of an index.
fn copy_of_index_change(change: &Option<IndexChange>) -> Result<Option<IndexChange>, NoMemory>
    ensures { IfOk result (λ copy. copy ≡ change.now) }
{
    match change {
        None => Ok(None),
        Some(IndexChange::Make(index)) => Ok(Some(IndexChange::Make(index.try_clone()?))),
        Some(IndexChange::Remove(name)) => Ok(Some(IndexChange::Remove(name.try_clone()?))),
    }
}

/// A copy of what an UpdateTable states.
pub(crate) fn copy_of_update(update: &TableUpdate) -> Result<TableUpdate, NoMemory>
    ensures { IfOk result (λ copy. copy ≡ update.now) }
{
    Ok(TableUpdate {
        definitions: update.definitions.try_clone()?,
        on_demand: update.on_demand,
        read_units: update.read_units,
        write_units: update.write_units,
        index: copy_of_index_change(&update.index)?,
    })
}

/// A copy of a table of the catalog.
pub(crate) fn copy_of_table(table: &CatalogTable) -> Result<CatalogTable, NoMemory>
    ensures { IfOk result (λ copy. copy ≡ table.now) }
{
    Ok(CatalogTable {
        number: table.number,
        schema: table.schema.try_clone()?,
        indexes: table.indexes.try_clone()?,
    })
}
