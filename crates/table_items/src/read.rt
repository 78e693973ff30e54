//! Reads of one item.

ghost use Rattle.std.specs.Prelude.{◌≡◌, IfOk, option_map};
ghost use Rattle.std.specs.Option.{option_copied};
ghost use Rattle.table_model.specs.Reads.{get_item, told_read, used_by_read, view};
ghost use Rattle.table_items.specs.Effects.{IsTold};

use crate::key::key_of_key;
use crate::used::{bytes_of, read_mode};
use attr_value::{SharedItem, lent};
use capacity::read_halves;
use expr_words::Paths;
use projection::pick;
use std::alloc::{AllocError as NoMemory, Global};
use table_model::{Invalid, Refusal, Reply};
use table_request::{Consumed, GetItem};
use table_rows::TableRows;

/// What is shown of an item: what the projection picks, or the item itself.
pub fn view(
    alloc: Global,
    projection: Option<&Paths>,
    item: &SharedItem,
) -> Result<SharedItem, NoMemory>
    ensures { IfOk result (λ shown. shown ≡ view (option_copied projection.entry) item.now) }
{
    match projection {
        Some(paths) => SharedItem::new(alloc, pick(paths, item.item())?),
        None => item.share(),
    }
}

/// The same of an item that may be there.
fn view_if(
    alloc: Global,
    projection: Option<&Paths>,
    item: Option<&SharedItem>,
) -> Result<Option<SharedItem>, NoMemory>
    ensures { IfOk result (λ shown. shown ≡ option_map (view (option_copied projection.entry)) (option_copied item.entry)) }
{
    match item {
        Some(item) => Ok(Some(view(alloc, projection, item)?)),
        None => Ok(None),
    }
}

/// What the read of an item that may be there uses, where that is told. Else nothing is measured.
fn used(request: &GetItem, item: Option<&SharedItem>) -> Result<Option<Consumed>, NoMemory>
    ensures { IfOk result (λ used. used ≡ used_by_read request.now (option_copied item.entry)) }
{
    if !request.capacity {
        return Ok(None);
    }
    let table = request.table.try_clone()?;
    let halves = read_halves(bytes_of(lent(item)), read_mode(request.consistent));
    Ok(Some(Consumed { table, halves }))
}

/// What is told of an item that may be there.
pub fn told_read(
    alloc: Global,
    request: &GetItem,
    item: Option<&SharedItem>,
) -> Result<Reply, NoMemory>
    ensures { IfOk result (λ reply. reply ≡ told_read request.now (option_copied item.entry)) }
{
    let shown = view_if(alloc, request.projection.as_ref(), item)?;
    let consumed = used(request, item)?;
    Ok(Reply::Read { shown, consumed })
}

/// Reads an item (API Reference: GetItem). It is refused where the key is none of this table.
pub fn get_item(table: &TableRows, alloc: Global, request: &GetItem) -> Result<Reply, NoMemory>
    ensures { IfOk result (IsTold request.now.table (λ db. get_item db request.now) table.now) }
{
    match key_of_key(alloc, table.schema(), &request.key)? {
        Ok(key) => told_read(alloc, request, table.get(&key)),
        Err(fault) => Ok(Reply::Refused(Refusal::Invalid(Invalid::Key(fault)))),
    }
}
