//! Parts that requests of one item have in common with actions of a transaction.

ghost use Rattle.std.specs.Prelude.{◌≡◌, IfOk};
ghost use Rattle.serde_json.specs.View.{view};
ghost use Rattle.api_form.specs.declared.name.Name.TheVariants as name;
ghost use Rattle.request_parts.specs.Members.{text_at, item_at};
ghost use Rattle.request_parts.specs.Ends.{IsToldOf};
ghost use Rattle.request_parts.specs.Asks.{IsPart};
ghost use Rattle.request_parts.specs.Parts.{condition_asks, projection_asks, StatesConditional, StatesProjected};

use crate::asks::{read_projection, read_write};
use crate::member::{copy_at, item_at, stated_text};
use crate::placeholder::Placeholders;
use crate::refusal::RequestEnd;
use api_form::Name;
use attr_value::{Item, Value};
use base_types::{Seq, Text};
use expr_parse::{Condition, Paths};
use serde_json::Value as Json;
use std::alloc::{AllocError as NoMemory, Global};

/// A table, and an item of it or the attributes of a key.
#[derive(Drop)]
pub struct Placed {
    pub table: Text,
    pub item: Item,
}

impl Placed {
    /// The table, and the item that a member states. NoMemory where memory is refused.
    pub fn read(alloc: Global, json: &Json, member: Name) -> Result<Placed, NoMemory>
        ensures table { IfOk result (λ p. p.table ≡ text_at name.TableName (view json.now)) }
        ensures item { IfOk result (λ p. p.item ≡ item_at member (view json.now)) }
    {
        Ok(Placed {
            table: copy_at(alloc, json, Name::TableName)?,
            item: item_at(alloc, json, member)?,
        })
    }
}

/// A write with a condition, as of PutItem, DeleteItem, and the Put, Delete and ConditionCheck of a transaction.
#[derive(Drop)]
pub struct Conditional {
    pub placed: Placed,
    pub condition: Option<Condition>,
    /// The values that the condition names by their places.
    pub values: Seq<Value>,
}

impl Conditional {
    /// The write of the item, or of the key, that a member states; or why its condition or a placeholder is refused.
    /// NoMemory where memory is refused.
    pub fn read(alloc: Global, json: &Json, member: Name) -> Result<Conditional, RequestEnd>
        ensures { IsToldOf (IsPart condition_asks (StatesConditional member) (view json.now)) result }
    {
        let placed = Placed::read(alloc, json, member)?;
        let placeholders = Placeholders::read(alloc, json)?;
        let condition = stated_text(json, Name::ConditionExpression);
        let trees = read_write(alloc, &placeholders, None, condition)?;
        Ok(Conditional {
            placed,
            condition: trees.condition,
            values: placeholders.values,
        })
    }
}

/// A read of one item, as of GetItem and the Get of a transaction.
#[derive(Drop)]
pub struct Projected {
    pub placed: Placed,
    pub projection: Option<Paths>,
}

impl Projected {
    /// The read of the key that is stated; or why its projection or a placeholder is refused. NoMemory where memory is
    /// refused.
    pub fn read(alloc: Global, json: &Json) -> Result<Projected, RequestEnd>
        ensures { IsToldOf (IsPart projection_asks StatesProjected (view json.now)) result }
    {
        let placed = Placed::read(alloc, json, Name::Key)?;
        let placeholders = Placeholders::named(alloc, json)?;
        let text = stated_text(json, Name::ProjectionExpression);
        let projection = read_projection(alloc, &placeholders, text)?;
        Ok(Projected { placed, projection })
    }
}
