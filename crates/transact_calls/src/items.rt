//! Where the items are that a request reads.

ghost use Rattle.std.specs.Prelude.{◌≡◌, List, map, reverse, IfOk, IfErr, IfSome};
ghost use Rattle.table_history.specs.Entries.{TableEvent};
ghost use Rattle.cell_asks.specs.Told.{AreTold};
ghost use Rattle.cell_asks.specs.Steps.{GivesUp};
ghost use Rattle.transact_calls.specs.Targets.{key_at, AreItemsOf, AreKeysBy, FindsItems};

use crate::looked::look_up_all;
use crate::tables::{Tables, kept_tables};
use base_types::Seq;
use cell_asks::{Asks, Looks, StepError};
use cell_model::{CellKey, ItemKey};
use std::alloc::{AllocError as NoMemory, Global};
use std::collections::BTreeMap;
use table_model::Refusal;
use table_request::TransactRead;
use transact_reads::{ReadAt, checked};

/// Where an item is, of a table by its number.
fn key_at(place: ReadAt) -> CellKey
    ensures { result ≡ key_at place }
{
    let ReadAt { table, key } = place;
    CellKey::Item(ItemKey { table, key })
}

/// All of them, in order.
fn keys_at(alloc: Global, places: Seq<ReadAt>) -> Result<Seq<CellKey>, NoMemory>
    ensures { IfOk result (λ keys. keys ≡ map key_at places) }
{
    let mut keys = Vec::with_capacity(alloc, places.len())?;
    for place in Vec::from(places) {
        keys.push(key_at(place))?;
    }
    Ok(Seq::from(keys))
}

/// Where the items are by these tables, or why the request is refused by them.
fn keys_by(
    tables: &Tables,
    alloc: Global,
    reads: &[TransactRead],
) -> Result<Result<Seq<CellKey>, Refusal>, NoMemory>
    ensures { IfOk result (AreKeysBy tables.now.entries reads.now) }
{
    match checked(tables, alloc, reads)? {
        Ok(places) => Ok(Ok(keys_at(alloc, places)?)),
        Err(why) => Ok(Err(why)),
    }
}

/// Where the items are by the tables that are kept, where these admit the request.
fn find_kept(
    alloc: Global,
    looks: &Looks,
    reads: &[TransactRead],
) -> Result<Option<Seq<CellKey>>, NoMemory>
    ensures { IfOk result (λ found. IfSome found (λ keys. (es : List TableEvent) → AreTold es looks.now → AreItemsOf es reads.now keys)) }
{
    let tables = kept_tables(alloc, looks, reads)?;
    match keys_by(&tables, alloc, reads)? {
        Ok(keys) => Ok(Some(keys)),
        Err(why) => {
            drop(why);
            Ok(None)
        }
    }
}

/// Where the items are by what own Looks tell, or why that refuses the request.
fn find_looked<C: Asks>(
    cells: &C,
    pass: &mut C::Pass,
    looks: &mut Looks,
    reads: &[TransactRead],
) -> Result<Result<Seq<CellKey>, Refusal>, StepError>
    requires fits { C.fits cells.now pass.old }
    requires told { AreTold (reverse (C.seen pass.old).front) looks.old }
    ensures ok { IfOk result (λ found. FindsItems (C.count cells.now) (C.seen pass.old) reads.now found (C.seen pass.new)) }
    ensures err { IfErr result (λ why. GivesUp (C.count cells.now) (C.seen pass.old) why (C.seen pass.new)) }
    ensures told { AreTold (reverse (C.seen pass.new).front) looks.new }
    ensures fits { C.fits cells.now pass.new }
{
    let mut tables = BTreeMap::new(cells.alloc());
    if let Some(why) = look_up_all(cells, pass, looks, &mut tables, reads)? {
        return Ok(Err(why));
    }
    Ok(keys_by(&tables, cells.alloc(), reads)?)
}

/// Where the items are, by what is kept of Looks; and where that refuses the request, or has not all of its tables, by own
/// Looks of them all, which alone refuse it.
pub(crate) fn find<C: Asks>(
    cells: &C,
    pass: &mut C::Pass,
    looks: &mut Looks,
    reads: &[TransactRead],
) -> Result<Result<Seq<CellKey>, Refusal>, StepError>
    requires fits { C.fits cells.now pass.old }
    requires told { AreTold (reverse (C.seen pass.old).front) looks.old }
    ensures ok { IfOk result (λ found. FindsItems (C.count cells.now) (C.seen pass.old) reads.now found (C.seen pass.new)) }
    ensures err { IfErr result (λ why. GivesUp (C.count cells.now) (C.seen pass.old) why (C.seen pass.new)) }
    ensures told { AreTold (reverse (C.seen pass.new).front) looks.new }
    ensures fits { C.fits cells.now pass.new }
{
    match find_kept(cells.alloc(), looks, reads)? {
        Some(keys) => Ok(Ok(keys)),
        None => find_looked(cells, pass, looks, reads),
    }
}
