//! The steps of one thread on a cluster.

ghost use Rattle.std.specs.Prelude.{◌≡◌, [], ◌∷◌, IfOk};
ghost use Rattle.cluster.specs.Steps.{IsAtRest};

use crate::acts::{Act, Became, amount_at, ended, holder_at};
use crate::orders::{key_of, order, put, put_at, put_where};
use base_types::{Seq, Text};
use case_rules::{Action, Command, Condition, Deed, Key, Name, Shop, Told};
use cluster::{Caller, Cluster, TableWorld};
use coordinator::{GoGate, Point, ScriptGate, transact_write};
use recovery_manager::sweep;
use std::alloc::{AllocError as NoMemory, Global};
use std::sync::Wait;
use turnstile::Pass;
use txn_core::{Answer, Message};
use txn_reader::{ReadEnd, transact_get};

/// Makes a table or takes it away.
fn command<R: Wait>(
    caller: &Caller<'_, Shop, R>,
    pass: &mut Pass<TableWorld<Shop>>,
    command: Command,
) -> Became
    requires rests { IsAtRest caller.now pass.old }
    ensures rests { IsAtRest caller.now pass.new }
{
    match caller.ask_all(pass, command) {
        Ok(
            Answer::Changed {
                told: Told::Numbered { .. },
            },
        ) => Became::Done,
        _ => Became::Else,
    }
}

/// Whether the table of orders is made.
pub(crate) fn has_orders<R: Wait>(
    caller: &Caller<'_, Shop, R>,
    pass: &mut Pass<TableWorld<Shop>>,
) -> bool
    requires rests { IsAtRest caller.now pass.old }
    ensures rests { IsAtRest caller.now pass.new }
{
    let name = Name::Orders;
    command(caller, pass, Command::Create { name, first: None }) == Became::Done
}

/// Puts an item with this amount.
fn put_item<R: Wait>(
    caller: &Caller<'_, Shop, R>,
    pass: &mut Pass<TableWorld<Shop>>,
    key: Key,
    amount: u64,
) -> Became
    requires rests { IsAtRest caller.now pass.old }
    ensures rests { IsAtRest caller.now pass.new }
{
    let action = put_at(key, Condition::Always, amount);
    let cell = caller.cell_of(&action.key);
    match caller.ask(pass, cell, Message::Write { action }) {
        Ok(Answer::Written { .. }) => Became::Done,
        _ => Became::Else,
    }
}

/// The list of one action.
fn only(alloc: Global, action: Action) -> Result<Seq<Action>, NoMemory>
    ensures { IfOk result (λ actions. actions ≡ action ∷ []) }
{
    let mut actions = Seq::new(alloc);
    actions.push(action)?;
    Ok(actions)
}

/// Begins a transaction that deletes an item, and prepares it.
fn hold<R: Wait>(
    caller: &Caller<'_, Shop, R>,
    pass: &mut Pass<TableWorld<Shop>>,
    key: Key,
) -> Became
    requires rests { IsAtRest caller.now pass.old }
    ensures rests { IsAtRest caller.now pass.new }
{
    let action = Action {
        key,
        condition: Condition::Always,
        deed: Deed::Delete,
    };
    let Ok(actions) = only(caller.alloc(), action) else {
        return Became::Else;
    };
    let token = None;
    let begun = caller.ask_ledger(pass, Message::Begin { token, actions });
    let Ok(Answer::Begun { number, stamp }) = begun else {
        return Became::Else;
    };
    let message = Message::Prepare {
        number,
        stamp,
        action,
    };
    let cell = caller.cell_of(&key);
    match caller.ask(pass, cell, message) {
        Ok(Answer::Accepted) => Became::Done,
        _ => Became::Else,
    }
}

/// The amount of an order, if it is there.
pub(crate) fn amount<R: Wait>(
    caller: &Caller<'_, Shop, R>,
    pass: &mut Pass<TableWorld<Shop>>,
    number: u64,
) -> Option<u64>
    requires rests { IsAtRest caller.now pass.old }
    ensures rests { IsAtRest caller.now pass.new }
{
    let key = order(number);
    let cell = caller.cell_of(&key);
    match caller.ask(pass, cell, Message::Get { key }) {
        Ok(Answer::Row { item: Some(item) }) => Some(item.amount),
        _ => None,
    }
}

/// Reads two items at one point.
fn read<R: Wait>(
    caller: &Caller<'_, Shop, R>,
    pass: &mut Pass<TableWorld<Shop>>,
    keys: [Key; 2],
) -> Became
    requires rests { IsAtRest caller.now pass.old }
    ensures rests { IsAtRest caller.now pass.new }
{
    match transact_get(caller, pass, &keys) {
        ReadEnd::Rows(items) => {
            let items = items.as_slice();
            Became::Amounts(amount_at(items, 0), amount_at(items, 1))
        }
        ReadEnd::Cancelled(reasons) => {
            let reasons = reasons.as_slice();
            Became::Holders(holder_at(reasons, 0), holder_at(reasons, 1))
        }
        ReadEnd::NoTable(place) => Became::NoTable(place),
        _ => Became::Else,
    }
}

/// Writes a transaction with a token, which makes two orders with these amounts.
fn make<R: Wait>(
    caller: &Caller<'_, Shop, R>,
    pass: &mut Pass<TableWorld<Shop>>,
    token: &str,
    orders: [(u64, u64); 2],
) -> Became
    requires rests { IsAtRest caller.now pass.old }
    ensures rests { IsAtRest caller.now pass.new }
{
    let Ok(token) = Text::copied(caller.alloc(), token) else {
        return Became::Else;
    };
    let [(first, one), (second, two)] = orders;
    let actions = [
        put_where(first, Condition::Absent, one),
        put_where(second, Condition::Absent, two),
    ];
    ended(transact_write(caller, pass, Some(&token), &actions, &mut GoGate))
}

/// A gate that stops at this point alone.
fn stopping(alloc: Global, point: Point) -> Result<ScriptGate, NoMemory> {
    let mut points = Seq::new(alloc);
    points.push(point)?;
    Ok(ScriptGate::make(points))
}

/// Writes a transaction that gives the orders 1 and 2 an amount, and leaves off at a point.
fn leave<R: Wait>(
    caller: &Caller<'_, Shop, R>,
    pass: &mut Pass<TableWorld<Shop>>,
    point: Point,
    amount: u64,
) -> Became
    requires rests { IsAtRest caller.now pass.old }
    ensures rests { IsAtRest caller.now pass.new }
{
    let Ok(mut gate) = stopping(caller.alloc(), point) else {
        return Became::Else;
    };
    let actions = [put(1, amount), put(2, amount)];
    ended(transact_write(caller, pass, None, &actions, &mut gate))
}

/// Ends what was left.
fn end_all<R: Wait>(caller: &Caller<'_, Shop, R>, pass: &mut Pass<TableWorld<Shop>>) -> Became
    requires rests { IsAtRest caller.now pass.old }
    ensures rests { IsAtRest caller.now pass.new }
{
    match sweep(caller, pass, &mut GoGate) {
        Ok(count) => Became::Swept(count),
        Err(_) => Became::Else,
    }
}

/// Takes one step.
fn take<R: Wait>(
    caller: &Caller<'_, Shop, R>,
    pass: &mut Pass<TableWorld<Shop>>,
    act: Act,
) -> Became
    requires rests { IsAtRest caller.now pass.old }
    ensures rests { IsAtRest caller.now pass.new }
{
    match act {
        Act::Create(name) => command(caller, pass, Command::Create { name, first: None }),
        Act::Drop(name) => command(caller, pass, Command::Drop { name }),
        Act::Put(item, amount) => put_item(caller, pass, key_of(item), amount),
        Act::Hold(item) => hold(caller, pass, key_of(item)),
        Act::Get(number) => Became::Amount(amount(caller, pass, number)),
        Act::Read(one, two) => read(caller, pass, [key_of(one), key_of(two)]),
        Act::Make(token, orders) => make(caller, pass, token, orders),
        Act::Leave(point, amount) => leave(caller, pass, point, amount),
        Act::Sweep => end_all(caller, pass),
    }
}

/// Whether each of these steps becomes what is written beside it, one after another on new cells.
pub(crate) fn go_right<R: Wait>(
    rt: &R,
    alloc: Global,
    steps: &[(Act, Became)],
) -> Result<bool, NoMemory> {
    let (shop, mut passes) = Cluster::<Shop>::make(alloc, 2, 1)?;
    let Some(mut pass) = passes.pop() else {
        return Ok(false);
    };
    let caller = Caller::new(&shop, rt, alloc);
    for (act, became) in steps {
        if take(&caller, &mut pass, *act) != *became {
            return Ok(false);
        }
    }
    Ok(true)
}
