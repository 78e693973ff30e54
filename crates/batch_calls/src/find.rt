//! Where the items of a request are, or what refuses it.

ghost use Rattle.std.specs.Prelude.{◌≡◌, map, reverse, IfOk, IfErr, IfSome, OnOk};
ghost use Rattle.cell_asks.specs.Steps.{GivesUp};
ghost use Rattle.cell_asks.specs.Told.{AreTold};
ghost use Rattle.item_calls.specs.Places.{item_at};
ghost use Rattle.table_batches.specs.Answers.{tables_alone};
ghost use Rattle.table_batches.specs.Keys.{AreKeysOf};
ghost use Rattle.table_batches.specs.Refusals.{RefusesOr};
ghost use Rattle.batch_calls.specs.Tables.{AllPlaced, AreFound, IsPlacedBehind, KeptAdmit};

use crate::tables::{kept_tables, looked_tables};
use base_types::{Seq, Text};
use cell_asks::{Asks, Looks, StepError};
use cell_model::{CellKey, ItemKey};
use numbered_tables::NumberedTable;
use row_keys::RowKey;
use std::alloc::{AllocError as NoMemory, Global};
use std::collections::BTreeMap;
use table_batches::Checked;
use table_model::Refusal;

/// Where the items of a request are, table after table, or why it is refused.
#[derive(Drop)]
pub(crate) enum Found {
    At(Seq<Seq<CellKey>>),
    Refused(Refusal),
}

/// Where a table has the items of these rows.
fn places_in(alloc: Global, number: u64, rows: Seq<RowKey>) -> Result<Seq<CellKey>, NoMemory>
    ensures { IfOk result (λ places. places ≡ map (item_at number) rows) }
{
    let mut places = Vec::with_capacity(alloc, rows.len())?;
    for row in Vec::from(rows) {
        places.push(CellKey::Item(ItemKey {
            table: number,
            key: row,
        }))?;
    }
    Ok(Seq::from(places))
}

/// Adds where the items of one part of a request are.
fn push_places<T: Checked>(
    tables: &BTreeMap<Text, NumberedTable>,
    alloc: Global,
    part: &T,
    rows: Seq<RowKey>,
    places: &mut Seq<Seq<CellKey>>,
) -> Result<(), NoMemory>
    ensures { OnOk result (IsPlacedBehind tables.now.entries (T.table_of part.now) rows places.old places.new) }
{
    // The table is there, since the request was checked: this want of memory never comes.
    let Some(table) = tables.get(part.table()) else {
        drop(rows);
        return Err(NoMemory);
    };
    places.push(places_in(alloc, table.number, rows)?)?;
    Ok(())
}

/// Where the items of a request are that was checked.
fn places_of<T: Checked>(
    tables: &BTreeMap<Text, NumberedTable>,
    alloc: Global,
    parts: &[T],
    keys: Seq<Seq<RowKey>>,
) -> Result<Seq<Seq<CellKey>>, NoMemory>
    ensures { let db = tables_alone tables.now.entries in IfOk result (λ places.
        AreKeysOf (T.keys_of db) parts.now keys → AllPlaced T.table_of T.keys_of tables.now.entries parts.now places) }
{
    let mut places = Seq::with_capacity(alloc, parts.len())?;
    for (part, rows) in parts.iter().zip(Vec::from(keys)) {
        push_places(tables, alloc, part, rows, &mut places)?;
    }
    Ok(places)
}

/// Where the items of a request are by these tables, or what refuses it.
fn check<T: Checked>(
    tables: &BTreeMap<Text, NumberedTable>,
    alloc: Global,
    parts: &[T],
) -> Result<Result<Seq<Seq<CellKey>>, Refusal>, NoMemory>
    ensures { let db = tables_alone tables.now.entries in
        IfOk result (RefusesOr (T.refusal db parts.now) (AllPlaced T.table_of T.keys_of tables.now.entries parts.now)) }
{
    match T::check(tables, alloc, parts)? {
        Ok(keys) => Ok(Ok(places_of(tables, alloc, parts, keys)?)),
        Err(refusal) => Ok(Err(refusal)),
    }
}

/// Where the items are by what own Looks tell, or why that refuses the request.
fn find_looked<T: Checked, C: Asks>(
    cells: &C,
    pass: &mut C::Pass,
    looks: &mut Looks,
    parts: &[T],
) -> Result<Found, StepError>
    requires fits { C.fits cells.now pass.old }
    requires told { AreTold (reverse (C.seen pass.old).front) looks.old }
    ensures ok { IfOk result (λ found. AreFound T.table_of T.keys_of T.refusal (C.count cells.now) (C.seen pass.old) parts.now found (C.seen pass.new)) }
    ensures err { IfErr result (λ why. GivesUp (C.count cells.now) (C.seen pass.old) why (C.seen pass.new)) }
    ensures told { AreTold (reverse (C.seen pass.new).front) looks.new }
    ensures fits { C.fits cells.now pass.new }
{
    let tables = looked_tables(cells, pass, looks, parts)?;
    match check(&tables, cells.alloc(), parts)? {
        Ok(places) => Ok(Found::At(places)),
        Err(refusal) => Ok(Found::Refused(refusal)),
    }
}

/// Where the items are by the tables that are kept, where these admit the request.
fn find_kept<T: Checked>(
    alloc: Global,
    looks: &Looks,
    parts: &[T],
) -> Result<Option<Seq<Seq<CellKey>>>, NoMemory>
    ensures { IfOk result (λ found. IfSome found (λ places. KeptAdmit T.table_of T.keys_of T.refusal looks.now parts.now places)) }
{
    let tables = kept_tables(alloc, looks, parts)?;
    match check(&tables, alloc, parts)? {
        Ok(places) => Ok(Some(places)),
        Err(refusal) => {
            drop(refusal);
            Ok(None)
        }
    }
}

/// Where the items are, by what is kept of Looks; and where that refuses the request, or has not all of its tables, by own
/// Looks of them all, which alone refuse it.
pub(crate) fn find<T: Checked, C: Asks>(
    cells: &C,
    pass: &mut C::Pass,
    looks: &mut Looks,
    parts: &[T],
) -> Result<Found, StepError>
    requires fits { C.fits cells.now pass.old }
    requires told { AreTold (reverse (C.seen pass.old).front) looks.old }
    ensures ok { IfOk result (λ found. AreFound T.table_of T.keys_of T.refusal (C.count cells.now) (C.seen pass.old) parts.now found (C.seen pass.new)) }
    ensures err { IfErr result (λ why. GivesUp (C.count cells.now) (C.seen pass.old) why (C.seen pass.new)) }
    ensures told { AreTold (reverse (C.seen pass.new).front) looks.new }
    ensures fits { C.fits cells.now pass.new }
{
    match find_kept(cells.alloc(), looks, parts)? {
        Some(places) => Ok(Found::At(places)),
        None => find_looked(cells, pass, looks, parts),
    }
}
