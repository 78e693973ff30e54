//! What an action makes of an item.

ghost use Rattle.std.specs.Prelude.{◌≡◌, IfOk};
ghost use Rattle.std.specs.Option.{option_copied, option_map};
ghost use Rattle.expr_words.specs.Trees.{tree};
ghost use Rattle.cell_model.specs.declared.key.CellKey.{CellKey as AnyKey};
ghost use Rattle.cell_model.specs.Actions.{Update, action_of, change_of, is_met, change_outcome, action_outcome, outcome_of, act};
ghost use Rattle.table_items.specs.Outcomes as items;
ghost use Rattle.expr_parse.specs.Update.{update_tree};

use attr_value::{Item, SharedItem, Value, kept, lent};
use base_types::Seq;
use cell_catalog::{table_numbered, table_of};
use cell_model::{Catalog, KeyedAction, StatedChange, Statement};
use expr_parse::Update as ItemUpdate;
use expr_words::Condition;
use std::alloc::{AllocError as NoMemory, Global};
use table_items::{ItemOutcome, is_met, put_outcome, update_outcome};
use table_schema::Schema;
use txn_core::Outcome;
use update_eval::EvalFault;

/// An outcome in the words of the protocol.
fn told(alloc: Global, outcome: ItemOutcome) -> Result<Outcome<SharedItem, EvalFault>, NoMemory>
    ensures { IfOk result (λ told. told ≡ outcome_of (items.outcome_of outcome)) }
{
    match outcome {
        ItemOutcome::Becomes(item) => Ok(Outcome::New {
            item: kept(alloc, item)?,
        }),
        ItemOutcome::False => Ok(Outcome::Unmet),
        ItemOutcome::Faulty(fault) => Ok(Outcome::Fails { fault }),
    }
}

/// The item, where there is one, for one more owner.
fn shared(item: Option<&SharedItem>) -> Result<Option<SharedItem>, NoMemory>
    ensures { IfOk result (λ shared. shared ≡ option_copied item.entry) }
{
    match item {
        Some(item) => Ok(Some(item.share()?)),
        None => Ok(None),
    }
}

/// Whether the condition is true of the item, or there is none.
fn is_allowed(condition: &Option<Condition>, values: &Seq<Value>, item: Option<&SharedItem>) -> bool
    ensures { result ≡ is_met (option_map tree condition.now) values.now (option_copied item.entry) }
{
    is_met(condition.as_ref(), values, lent(item))
}

/// What an update, if there is one, makes of an item, or of the key alone where there is none.
fn update(
    alloc: Global,
    schema: &Schema,
    values: &Seq<Value>,
    key: &Item,
    by: &Option<ItemUpdate>,
    item: Option<&SharedItem>,
) -> Result<Outcome<SharedItem, EvalFault>, NoMemory>
    ensures { IfOk result (λ outcome. outcome ≡ outcome_of
        (change_outcome schema.now values.now (option_copied item.entry) (Update key.now (option_map update_tree by.now)))) }
{
    let key = key.try_clone()?;
    let outcome = update_outcome(alloc, schema, None, by.as_ref(), values, key, item)?;
    told(alloc, outcome)
}

/// What a change makes of an item.
fn changed(
    alloc: Global,
    schema: &Schema,
    values: &Seq<Value>,
    change: &StatedChange,
    item: Option<&SharedItem>,
) -> Result<Outcome<SharedItem, EvalFault>, NoMemory>
    ensures { IfOk result (λ outcome. outcome
        ≡ outcome_of (change_outcome schema.now values.now (option_copied item.entry) (change_of change.now))) }
{
    match change {
        StatedChange::Put(new) => told(
            alloc,
            put_outcome(schema, None, values, new.try_clone()?, item),
        ),
        StatedChange::Update { key, update: by } => update(alloc, schema, values, key, by, item),
        StatedChange::Delete(_) => Ok(Outcome::New { item: None }),
        StatedChange::Check(_) => Ok(Outcome::New {
            item: shared(item)?,
        }),
    }
}

/// What an action makes of an item in a table of this schema.
fn act_in(
    alloc: Global,
    schema: &Schema,
    statement: &Statement,
    item: Option<&SharedItem>,
) -> Result<Outcome<SharedItem, EvalFault>, NoMemory>
    ensures { IfOk result (λ outcome. (key : AnyKey) → outcome
        ≡ outcome_of (action_outcome schema.now (action_of key statement.now) (option_copied item.entry))) }
{
    if !is_allowed(&statement.condition, &statement.values, item) {
        return Ok(Outcome::Unmet);
    }
    changed(alloc, schema, &statement.values, &statement.change, item)
}

/// What an action makes of its item under a catalog. Of a table that is not there nothing is kept.
pub(crate) fn act(
    alloc: Global,
    catalog: &Catalog,
    action: &KeyedAction,
    item: Option<&SharedItem>,
) -> Result<Outcome<SharedItem, EvalFault>, NoMemory>
    ensures { IfOk result (λ outcome. outcome ≡ act catalog.now action.now (option_copied item.entry)) }
{
    match table_numbered(catalog, table_of(action.key())) {
        Some(table) => act_in(alloc, &table.schema, action.statement(), item),
        None => Ok(Outcome::New { item: None }),
    }
}
