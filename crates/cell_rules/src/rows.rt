//! The rows that items have in global indexes.

ghost use Rattle.std.specs.Prelude.{◌≡◌, IfOk};
ghost use Rattle.cell_model.specs.IndexRows.{row_under, row_of};

use attr_value::SharedItem;
use cell_catalog::{index_numbered, table_numbered};
use cell_model::{Catalog, CellKey, IndexRowKey, ItemKey};
use index_feed::Row;
use item_keys::project;
use row_keys::position_of;
use std::alloc::{AllocError as NoMemory, Global};
use table_schema::{GlobalIndex, Schema};

/// An item's row in this index, where it has the index's key.
fn row_under(
    alloc: Global,
    key: &ItemKey,
    number: u64,
    schema: &Schema,
    index: &GlobalIndex,
    item: &SharedItem,
) -> Result<Option<Row<CellKey, SharedItem>>, NoMemory>
    ensures { IfOk result (λ row. row ≡ row_under key.now number schema.now index.now item.now) }
{
    let Some(at) = position_of(alloc, schema, &index.keys, &key.key, item.item())? else {
        return Ok(None);
    };
    let Some(content) = project(alloc, schema, index, item.item())? else {
        return Ok(None);
    };
    let key = CellKey::Row(IndexRowKey {
        table: key.table,
        index: number,
        at,
    });
    let content = SharedItem::new(alloc, content)?;
    Ok(Some(Row { key, content }))
}

/// An item's row in the index of this number, where its table has the index and the item its key. A row of an index has
/// none.
pub(crate) fn row_of(
    alloc: Global,
    catalog: &Catalog,
    number: u64,
    key: &CellKey,
    item: &SharedItem,
) -> Result<Option<Row<CellKey, SharedItem>>, NoMemory>
    ensures { IfOk result (λ row. row ≡ row_of catalog.now number key.now item.now) }
{
    let CellKey::Item(key) = key else {
        return Ok(None);
    };
    let Some(table) = table_numbered(catalog, key.table) else {
        return Ok(None);
    };
    match index_numbered(table, number) {
        Some(index) => row_under(alloc, key, number, &table.schema, index, item),
        None => Ok(None),
    }
}
