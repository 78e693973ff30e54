//! The rows of a local index.

ghost use Rattle.std.specs.Prelude.{◌≡◌, map, IfOk, OnOk};
ghost use Rattle.row_keys.specs.Rows.{position_in, entered, index_of, local_entries};
ghost use Rattle.cell_model.specs.Pages.{page_row, item_in, items_of};
ghost use Rattle.cell_pages.specs.Entered.{entered_if};

use crate::rows::Kept;
use attr_value::SharedItem;
use base_types::Seq;
use cell_model::{CellKey, PageRow};
use row_keys::{Position, RowKey, position_of};
use std::alloc::{AllocError as NoMemory, Global};
use std::collections::BTreeMap;
use table_schema::{KeyNames, LocalIndex, Schema};

/// The rows of an index by their positions.
type Places = BTreeMap<Position, SharedItem>;

/// Enters the item of a key, where it has the index's key.
fn enter(
    alloc: Global,
    schema: &Schema,
    keys: &KeyNames,
    key: &RowKey,
    item: &SharedItem,
    places: &mut Places,
) -> Result<(), NoMemory>
    ensures { OnOk result (places.new.entries ≡ entered (position_in schema.now keys.now key.now item.now) item.now places.old.entries) }
{
    let Some(at) = position_of(alloc, schema, keys, key, item.item())? else {
        return Ok(());
    };
    drop(places.insert(at, item.share()?)?);
    Ok(())
}

/// Enters what is kept, where it is an item of the table that has the index's key.
fn enter_kept(
    alloc: Global,
    schema: &Schema,
    keys: &KeyNames,
    table: u64,
    key: &CellKey,
    item: &SharedItem,
    places: &mut Places,
) -> Result<(), NoMemory>
    ensures { OnOk result (places.new.entries
        ≡ entered_if schema.now keys.now (item_in table (key.now, item.now)) places.old.entries) }
{
    match key {
        CellKey::Item(key) if key.table == table => {
            enter(alloc, schema, keys, &key.key, item, places)
        }
        _ => Ok(()),
    }
}

/// The positions of the table's items in the index. A row costs the logarithm of the rows.
fn places_of(
    alloc: Global,
    schema: &Schema,
    keys: &KeyNames,
    table: u64,
    kept: &[Kept],
) -> Result<Places, NoMemory>
    ensures { IfOk result (λ places. places.entries ≡ index_of schema.now keys.now (items_of table kept.now)) }
{
    let mut places = BTreeMap::new(alloc);
    let mut left = kept.len();
    while left > 0 {
        left -= 1;
        let (key, item) = &kept[left];
        enter_kept(alloc, schema, keys, table, key, item, &mut places)?;
    }
    Ok(places)
}

/// The rows in the order of their positions.
fn listed(alloc: Global, places: Places) -> Result<Seq<PageRow>, NoMemory>
    ensures { IfOk result (λ list. list ≡ map page_row places.entries) }
{
    let mut list = Seq::new(alloc);
    for (at, item) in places {
        list.push(PageRow { at, item })?;
    }
    Ok(list)
}

/// The rows of a local index of a table, in the order of the index.
pub(crate) fn local_rows(
    alloc: Global,
    schema: &Schema,
    index: &LocalIndex,
    table: u64,
    kept: &[Kept],
) -> Result<Seq<PageRow>, NoMemory>
    ensures { IfOk result (λ list. list ≡ map page_row (local_entries schema.now index.now (items_of table kept.now))) }
{
    listed(alloc, places_of(alloc, schema, &index.keys, table, kept)?)
}
