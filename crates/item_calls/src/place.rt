//! Where the item of a request is.

ghost use Rattle.std.specs.Prelude.{◌≡◌, List, reverse, Some, IfOk, IfErr};
ghost use Rattle.std.specs.Option.{option_copied};
ghost use Rattle.table_history.specs.Entries.{TableEvent};
ghost use Rattle.cell_asks.specs.Told.{AreTold, WasTold, kept_of};
ghost use Rattle.cell_asks.specs.Steps.{GivesUp};
ghost use Rattle.item_calls.specs.Places.{IsPlaced, item_at, kept_place, place_if, place_told, row_at, row_wanted, unless_touched};

use attr_value::Item;
use base_types::Text;
use cell_asks::{Asks, Looks, StepError};
use cell_model::{CellKey, ItemKey, TableLook};
use expr_parse::Update;
use item_keys::KeyFault;
use row_keys::RowKey;
use std::alloc::{AllocError as NoMemory, Global};
use table_items::{key_of_item, key_of_key, touched_key};
use table_model::{Invalid, Refusal};
use table_schema::{KeyNames, Schema};

/// What tells the key of a request's item.
#[derive(Clone, Copy)]
pub(crate) enum Wanted<'r> {
    /// The item itself.
    Item(&'r Item),
    /// The attributes of the key.
    Key(&'r Item),
    /// The same, and an update, which may write none of them.
    Update {
        key: &'r Item,
        update: Option<&'r Update>,
    },
}

/// Where the item is, or why the request is refused.
#[derive(Drop)]
pub(crate) enum Place {
    At(CellKey),
    Refused(Refusal),
}

/// The row's key, or the fault that refuses a request.
fn row_at(row: Result<RowKey, KeyFault>) -> Result<RowKey, Invalid>
    ensures { result ≡ row_at row }
{
    match row {
        Ok(row) => Ok(row),
        Err(fault) => Err(Invalid::Key(fault)),
    }
}

/// The row's key, unless the update writes an attribute of it.
fn unless_touched(
    keys: &KeyNames,
    update: Option<&Update>,
    row: Result<RowKey, KeyFault>,
) -> Result<Result<RowKey, Invalid>, NoMemory>
    ensures { IfOk result (λ found. found ≡ unless_touched keys.now (option_copied update.entry) row) }
{
    let row = match row {
        Ok(row) => row,
        Err(fault) => return Ok(Err(Invalid::Key(fault))),
    };
    match touched_key(keys, update) {
        Some(name) => Ok(Err(Invalid::UpdateOfKey(name.try_clone()?))),
        None => Ok(Ok(row)),
    }
}

/// The key of the item's row in a table, or why the request is refused: the fault of its key, then an update of a key
/// attribute.
fn row_wanted(
    alloc: Global,
    schema: &Schema,
    wanted: Wanted<'_>,
) -> Result<Result<RowKey, Invalid>, NoMemory>
    ensures { IfOk result (λ row. row ≡ row_wanted wanted.entry schema.now) }
{
    match wanted {
        Wanted::Item(item) => Ok(row_at(key_of_item(alloc, schema, item)?)),
        Wanted::Key(key) => Ok(row_at(key_of_key(alloc, schema, key)?)),
        Wanted::Update { key, update } => {
            let row = key_of_key(alloc, schema, key)?;
            unless_touched(&schema.keys, update, row)
        }
    }
}

/// Where a table has the item of this row.
fn item_at(number: u64, row: RowKey) -> CellKey
    ensures { result ≡ item_at number row }
{
    CellKey::Item(ItemKey {
        table: number,
        key: row,
    })
}

/// Where the item is by what is kept of Looks. What is kept refuses nothing: that is for a Look of the request's own.
fn place_kept(
    alloc: Global,
    looks: &Looks,
    name: &Text,
    wanted: Wanted<'_>,
) -> Result<Option<CellKey>, NoMemory>
    ensures { IfOk result (λ key. key ≡ kept_place (row_wanted wanted.entry) (kept_of looks.now name.now)) }
{
    let Some(look) = looks.find(name) else {
        return Ok(None);
    };
    match row_wanted(alloc, &look.schema, wanted)? {
        Ok(row) => Ok(Some(item_at(look.number, row))),
        Err(_) => Ok(None),
    }
}

/// Where the item is in a table that a Look told of.
fn place_by(alloc: Global, look: &TableLook, wanted: Wanted<'_>) -> Result<Place, NoMemory>
    ensures { IfOk result (λ place. place ≡ place_if look.now.number (row_wanted wanted.entry look.now.schema)) }
{
    match row_wanted(alloc, &look.schema, wanted)? {
        Ok(row) => Ok(Place::At(item_at(look.number, row))),
        Err(why) => Ok(Place::Refused(Refusal::Invalid(why))),
    }
}

/// Where the item is by what the own Look told, which is kept.
fn place_told(
    alloc: Global,
    looks: &mut Looks,
    name: &Text,
    told: Option<TableLook>,
    wanted: Wanted<'_>,
) -> Result<Place, NoMemory>
    ensures place { IfOk result (λ place. place ≡ place_told name.now (row_wanted wanted.entry) told) }
    ensures told { (es : List TableEvent) → AreTold es looks.old
        → ((look : TableLook) → told ≡ Some look → WasTold es name.now look) → AreTold es looks.new }
{
    let name = name.try_clone()?;
    match told {
        Some(look) => {
            let place = place_by(alloc, &look, wanted)?;
            looks.keep(alloc, name, look)?;
            Ok(place)
        }
        None => Ok(Place::Refused(Refusal::NoTable(name))),
    }
}

/// Where the item is, by a Look.
fn look_up<C: Asks>(
    cells: &C,
    pass: &mut C::Pass,
    looks: &mut Looks,
    name: &Text,
    wanted: Wanted<'_>,
) -> Result<Place, StepError>
    requires fits { C.fits cells.now pass.old }
    requires told { AreTold (reverse (C.seen pass.old).front) looks.old }
    ensures ok { IfOk result (λ place. IsPlaced (C.count cells.now) (C.seen pass.old) name.now (row_wanted wanted.entry) place (C.seen pass.new)) }
    ensures err { IfErr result (λ why. GivesUp (C.count cells.now) (C.seen pass.old) why (C.seen pass.new)) }
    ensures told { AreTold (reverse (C.seen pass.new).front) looks.new }
    ensures fits { C.fits cells.now pass.new }
{
    let asked = name.try_clone()?;
    let told = cells.look(pass, asked)?;
    Ok(place_told(cells.alloc(), looks, name, told, wanted)?)
}

/// Where the item is, by what is kept of Looks, and else by a Look. A request is refused by a Look of its own alone.
pub(crate) fn find<C: Asks>(
    cells: &C,
    pass: &mut C::Pass,
    looks: &mut Looks,
    name: &Text,
    wanted: Wanted<'_>,
) -> Result<Place, StepError>
    requires fits { C.fits cells.now pass.old }
    requires told { AreTold (reverse (C.seen pass.old).front) looks.old }
    ensures ok { IfOk result (λ place. IsPlaced (C.count cells.now) (C.seen pass.old) name.now (row_wanted wanted.entry) place (C.seen pass.new)) }
    ensures err { IfErr result (λ why. GivesUp (C.count cells.now) (C.seen pass.old) why (C.seen pass.new)) }
    ensures told { AreTold (reverse (C.seen pass.new).front) looks.new }
    ensures fits { C.fits cells.now pass.new }
{
    match place_kept(cells.alloc(), looks, name, wanted)? {
        Some(key) => Ok(Place::At(key)),
        None => look_up(cells, pass, looks, name, wanted),
    }
}
