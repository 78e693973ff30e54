//! The actions of a request on their items.

ghost use Rattle.std.specs.Prelude.{◌≡◌, List, reverse, map, Some, IfOk, IfErr};
ghost use Rattle.table_request.specs.declared.transactions.TransactAction.{TransactAction};
ghost use Rattle.table_model.specs.Transactions.{transact_refusal};
ghost use Rattle.cell_asks.specs.Told.{AreTold};
ghost use Rattle.cell_asks.specs.Steps.{GivesUp};
ghost use Rattle.transact_writes.specs.Aimed.{database_of};
ghost use Rattle.transact_calls.specs.Known.{AreKnown};
ghost use Rattle.transact_calls.specs.Stated.{Finds, IsKeyed, IsStatedBy, NoneMisses, keyed_of};

use crate::looked::{confirm, look_up_all};
use crate::tables::{Tables, kept_tables};
use base_types::Seq;
use cell_asks::{Asks, Looks, StepError};
use cell_model::{CellKey, ItemKey, KeyedAction};
use std::alloc::{AllocError as NoMemory, Global};
use std::collections::BTreeMap;
use table_model::{NumberedAction, Refusal};
use table_request::TransactAction;
use transact_writes::{Aimed, checked, missing_table};

/// What a request's actions come to before they are sent.
#[derive(Drop)]
pub(crate) enum Stated {
    /// The actions on their items.
    Actions(Seq<KeyedAction>),
    Refused(Refusal),
    /// A table is no longer the one that was kept.
    Again,
}

/// An action on its item.
fn keyed(aimed: Aimed) -> KeyedAction
    ensures { result ≡ keyed_of aimed }
{
    let Aimed { key, action } = aimed;
    let NumberedAction { table, action } = action;
    KeyedAction::of_transaction(CellKey::Item(ItemKey { table, key }), action)
}

/// All of them, in order.
fn keyed_all(alloc: Global, aimed: Seq<Aimed>) -> Result<Seq<KeyedAction>, NoMemory>
    ensures { IfOk result (λ actions. actions ≡ map keyed_of aimed) }
{
    let mut actions = Vec::with_capacity(alloc, aimed.len())?;
    for aimed in Vec::from(aimed) {
        actions.push(keyed(aimed))?;
    }
    Ok(Seq::from(actions))
}

/// The actions on their items by these tables, or why the request is refused by them.
fn keyed_by(
    tables: &Tables,
    alloc: Global,
    actions: Seq<TransactAction>,
) -> Result<Result<Seq<KeyedAction>, Refusal>, NoMemory>
    ensures { IfOk result (IsKeyed tables.now.entries actions) }
{
    match checked(tables, alloc, actions)? {
        Ok(aimed) => Ok(Ok(keyed_all(alloc, aimed)?)),
        Err(why) => Ok(Err(why)),
    }
}

/// The same, as it is told of tables that own Looks told of.
fn state_by(
    tables: &Tables,
    alloc: Global,
    actions: Seq<TransactAction>,
) -> Result<Stated, NoMemory>
    ensures { IfOk result (IsStatedBy tables.now.entries actions) }
{
    match keyed_by(tables, alloc, actions)? {
        Ok(actions) => Ok(Stated::Actions(actions)),
        Err(why) => Ok(Stated::Refused(why)),
    }
}

/// What is kept refuses a request: so it is refused where own Looks tell of the same tables.
fn refused_by_kept<C: Asks>(
    cells: &C,
    pass: &mut C::Pass,
    looks: &mut Looks,
    tables: &Tables,
    why: Refusal,
) -> Result<Stated, StepError>
    requires fits { C.fits cells.now pass.old }
    requires told { AreTold (reverse (C.seen pass.old).front) looks.old }
    requires known { AreKnown (reverse (C.seen pass.old).front) tables.now.entries }
    ensures ok { IfOk result (λ stated. (asked : List TransactAction) → NoneMisses tables.now.entries asked
        → transact_refusal (database_of tables.now.entries) asked ≡ Some why
        → Finds (C.count cells.now) (C.seen pass.old) asked stated (C.seen pass.new)) }
    ensures err { IfErr result (λ why. GivesUp (C.count cells.now) (C.seen pass.old) why (C.seen pass.new)) }
    ensures told { AreTold (reverse (C.seen pass.new).front) looks.new }
    ensures fits { C.fits cells.now pass.new }
{
    match confirm(cells, pass, tables) {
        Ok(true) => Ok(Stated::Refused(why)),
        Ok(false) => {
            drop(why);
            looks.forget(cells.alloc());
            Ok(Stated::Again)
        }
        Err(error) => {
            drop(why);
            Err(error)
        }
    }
}

/// The actions by tables that are kept of Looks.
fn state_by_kept<C: Asks>(
    cells: &C,
    pass: &mut C::Pass,
    looks: &mut Looks,
    tables: &Tables,
    actions: Seq<TransactAction>,
) -> Result<Stated, StepError>
    requires fits { C.fits cells.now pass.old }
    requires told { AreTold (reverse (C.seen pass.old).front) looks.old }
    requires known { AreKnown (reverse (C.seen pass.old).front) tables.now.entries }
    requires there { NoneMisses tables.now.entries actions }
    ensures ok { IfOk result (λ stated. Finds (C.count cells.now) (C.seen pass.old) actions stated (C.seen pass.new)) }
    ensures err { IfErr result (λ why. GivesUp (C.count cells.now) (C.seen pass.old) why (C.seen pass.new)) }
    ensures told { AreTold (reverse (C.seen pass.new).front) looks.new }
    ensures fits { C.fits cells.now pass.new }
{
    match keyed_by(tables, cells.alloc(), actions)? {
        Ok(actions) => Ok(Stated::Actions(actions)),
        Err(why) => refused_by_kept(cells, pass, looks, tables, why),
    }
}

/// The actions by tables that own Looks tell of.
fn state_by_looks<C: Asks>(
    cells: &C,
    pass: &mut C::Pass,
    looks: &mut Looks,
    actions: Seq<TransactAction>,
) -> Result<Stated, StepError>
    requires fits { C.fits cells.now pass.old }
    requires told { AreTold (reverse (C.seen pass.old).front) looks.old }
    ensures ok { IfOk result (λ stated. Finds (C.count cells.now) (C.seen pass.old) actions stated (C.seen pass.new)) }
    ensures err { IfErr result (λ why. GivesUp (C.count cells.now) (C.seen pass.old) why (C.seen pass.new)) }
    ensures told { AreTold (reverse (C.seen pass.new).front) looks.new }
    ensures fits { C.fits cells.now pass.new }
{
    let mut tables = BTreeMap::new(cells.alloc());
    if let Some(why) = look_up_all(cells, pass, looks, &mut tables, actions.as_slice())? {
        return Ok(Stated::Refused(why));
    }
    Ok(state_by(&tables, cells.alloc(), actions)?)
}

/// The actions on their items, by what is kept of Looks, and else by own Looks. A request is refused by own Looks alone.
pub(crate) fn state<C: Asks>(
    cells: &C,
    pass: &mut C::Pass,
    looks: &mut Looks,
    actions: Seq<TransactAction>,
) -> Result<Stated, StepError>
    requires fits { C.fits cells.now pass.old }
    requires told { AreTold (reverse (C.seen pass.old).front) looks.old }
    ensures ok { IfOk result (λ stated. Finds (C.count cells.now) (C.seen pass.old) actions stated (C.seen pass.new)) }
    ensures err { IfErr result (λ why. GivesUp (C.count cells.now) (C.seen pass.old) why (C.seen pass.new)) }
    ensures told { AreTold (reverse (C.seen pass.new).front) looks.new }
    ensures fits { C.fits cells.now pass.new }
{
    let kept = kept_tables(cells.alloc(), looks, actions.as_slice())?;
    match missing_table(&kept, actions.as_slice())? {
        None => state_by_kept(cells, pass, looks, &kept, actions),
        Some(_) => state_by_looks(cells, pass, looks, actions),
    }
}
