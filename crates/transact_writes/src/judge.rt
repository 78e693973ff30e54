//! What is made of an action, on the tables as they are.

ghost use Rattle.std.specs.Prelude.{◌≡◌, IfOk};
ghost use Rattle.std.specs.Option.{option_copied};
ghost use Rattle.table_items.specs.Outcomes.{outcome_of};
ghost use Rattle.table_request.specs.declared.transactions.ActionChange.TheVariants as kind;
ghost use Rattle.attr_value.specs.Tree.{Attributes};
ghost use Rattle.transact_writes.specs.Judged.{judged, judged_in, IsAt};
ghost use Rattle.transact_writes.specs.Aimed.{database_of, action_in, IsTarget};
ghost use Rattle.transact_writes.specs.Verdicts.{verdict_of, action_of};

use crate::aimed::Aimed;
use crate::verdicts::Verdict;
use attr_value::{Item, SharedItem, Value, lent};
use base_types::{Seq, Text};
use expr_parse::Update;
use expr_words::Condition;
use numbered_tables::{NumberedTable, TableChange};
use row_keys::RowKey;
use std::alloc::{AllocError as NoMemory, Global};
use std::collections::BTreeMap;
use table_items::{ItemOutcome, delete_outcome, is_met, put_outcome, shown_old, update_outcome};
use table_model::{NumberedAction, Reason};
use table_request::{ActionChange, TransactAction};
use table_rows::TableRows;

/// The item that an action is of, and whether it is shown where the condition is false.
#[derive(Drop)]
struct Aim {
    table: Text,
    key: RowKey,
    show_old: bool,
}

impl Aim {
    /// The verdict of an outcome that was taken of this item.
    fn verdict(self, outcome: ItemOutcome, old: Option<&SharedItem>) -> Result<Verdict, NoMemory>
        ensures { IfOk result (λ verdict. verdict ≡ verdict_of self (option_copied old.entry) (outcome_of outcome)) }
    {
        let Aim {
            table,
            key,
            show_old,
        } = self;
        match outcome {
            ItemOutcome::Becomes(new) => Ok(Ok(Some(TableChange { table, key, new }))),
            ItemOutcome::False => Ok(Err(Reason::ConditionFalse {
                old: shown_old(show_old, old)?,
            })),
            ItemOutcome::Faulty(fault) => Ok(Err(Reason::Invalid(fault))),
        }
    }
}

/// What is made of a put.
fn judge_put(
    rows: &TableRows,
    aim: Aim,
    condition: Option<&Condition>,
    values: &Seq<Value>,
    item: Item,
) -> Result<Verdict, NoMemory>
    ensures { IfOk result (λ verdict. verdict ≡ judged_in rows.now aim.key (action_of aim (option_copied condition.entry) values.now (kind.Put item))) }
{
    let old = rows.get(&aim.key);
    let outcome = put_outcome(rows.schema(), condition, values, item, old);
    aim.verdict(outcome, old)
}

/// What is made of an update. It works on the key alone where the item is absent.
fn judge_update(
    rows: &TableRows,
    alloc: Global,
    aim: Aim,
    condition: Option<&Condition>,
    values: &Seq<Value>,
    key: Item,
    update: &Update,
) -> Result<Verdict, NoMemory>
    ensures { IfOk result (λ verdict. verdict
        ≡ judged_in rows.now aim.key (action_of aim (option_copied condition.entry) values.now (kind.Update key update.now))) }
{
    let old = rows.get(&aim.key);
    let schema = rows.schema();
    let outcome = update_outcome(alloc, schema, condition, Some(update), values, key, old)?;
    aim.verdict(outcome, old)
}

/// What is made of a delete.
fn judge_delete(
    rows: &TableRows,
    aim: Aim,
    condition: Option<&Condition>,
    values: &Seq<Value>,
) -> Result<Verdict, NoMemory>
    ensures { IfOk result (λ verdict. (key : Attributes) → verdict
        ≡ judged_in rows.now aim.key (action_of aim (option_copied condition.entry) values.now (kind.Delete key))) }
{
    let old = rows.get(&aim.key);
    let outcome = delete_outcome(condition, values, old);
    aim.verdict(outcome, old)
}

/// What is made of a check: no change where it is met.
fn judge_check(
    rows: &TableRows,
    aim: Aim,
    condition: Option<&Condition>,
    values: &Seq<Value>,
) -> Result<Verdict, NoMemory>
    ensures { IfOk result (λ verdict. (key : Attributes) → verdict
        ≡ judged_in rows.now aim.key (action_of aim (option_copied condition.entry) values.now (kind.Check key))) }
{
    let old = rows.get(&aim.key);
    if is_met(condition, values, lent(old)) {
        return Ok(Ok(None));
    }
    aim.verdict(ItemOutcome::False, old)
}

/// What is made of a change whose item moves.
fn judge_change(
    rows: &TableRows,
    alloc: Global,
    aim: Aim,
    condition: Option<&Condition>,
    values: &Seq<Value>,
    change: ActionChange,
) -> Result<Verdict, NoMemory>
    ensures { IfOk result (λ verdict. verdict ≡ judged_in rows.now aim.key (action_of aim (option_copied condition.entry) values.now change)) }
{
    match change {
        ActionChange::Put(item) => judge_put(rows, aim, condition, values, item),
        ActionChange::Update { key, update } => {
            let verdict = judge_update(rows, alloc, aim, condition, values, key, &update);
            drop(update);
            verdict
        }
        ActionChange::Delete(key) => {
            drop(key);
            judge_delete(rows, aim, condition, values)
        }
        ActionChange::Check(key) => {
            drop(key);
            judge_check(rows, aim, condition, values)
        }
    }
}

/// What is made of a change that is kept, whose item is copied.
fn judge_copy(
    rows: &TableRows,
    alloc: Global,
    aim: Aim,
    condition: Option<&Condition>,
    values: &Seq<Value>,
    change: &ActionChange,
) -> Result<Verdict, NoMemory>
    ensures { IfOk result (λ verdict. verdict ≡ judged_in rows.now aim.key (action_of aim (option_copied condition.entry) values.now change.now)) }
{
    match change {
        ActionChange::Put(item) => judge_put(rows, aim, condition, values, item.try_clone()?),
        ActionChange::Update { key, update } => {
            let key = key.try_clone()?;
            judge_update(rows, alloc, aim, condition, values, key, update)
        }
        ActionChange::Delete(_) => judge_delete(rows, aim, condition, values),
        ActionChange::Check(_) => judge_check(rows, aim, condition, values),
    }
}

/// What is made of an action, whose item moves.
fn judge_in(rows: &TableRows, alloc: Global, aimed: Aimed) -> Result<Verdict, NoMemory>
    ensures { IfOk result (λ verdict. verdict ≡ judged_in rows.now aimed.key (action_in aimed)) }
{
    let Aimed { key, action } = aimed;
    let NumberedAction { table: _, action } = action;
    let TransactAction {
        table,
        change,
        condition,
        values,
        show_old,
    } = action;
    let aim = Aim {
        table,
        key,
        show_old,
    };
    let verdict = judge_change(rows, alloc, aim, condition.as_ref(), &values, change);
    drop(condition);
    drop(values);
    verdict
}

/// What is made of an action, on the tables as they are. Its item moves.
pub(crate) fn judge(
    tables: &BTreeMap<Text, NumberedTable>,
    alloc: Global,
    aimed: Aimed,
) -> Result<Verdict, NoMemory>
    requires { IsTarget (database_of tables.now.entries) aimed }
    ensures { IfOk result (λ verdict. verdict ≡ judged (database_of tables.now.entries) (action_in aimed)) }
{
    match tables.get(&aimed.action.action.table) {
        Some(table) => judge_in(&table.rows, alloc, aimed),
        None => unreachable!(),
    }
}

/// The same of an action that is kept, whose item is copied.
pub(crate) fn judge_kept(
    tables: &BTreeMap<Text, NumberedTable>,
    alloc: Global,
    key: RowKey,
    action: &TransactAction,
) -> Result<Verdict, NoMemory>
    requires { IsAt (database_of tables.now.entries) action.now key }
    ensures { IfOk result (λ verdict. verdict ≡ judged (database_of tables.now.entries) action.now) }
{
    match tables.get(&action.table) {
        Some(table) => {
            let aim = Aim {
                table: action.table.try_clone()?,
                key,
                show_old: action.show_old,
            };
            let condition = action.condition.as_ref();
            judge_copy(
                &table.rows,
                alloc,
                aim,
                condition,
                &action.values,
                &action.change,
            )
        }
        None => unreachable!(),
    }
}
