//! What JSON states of each type.

ghost use Rattle.std.specs.Prelude.{◌≡◌, IfOk};
ghost use Rattle.serde_json.specs.Data.{Data};
ghost use Rattle.serde_json.specs.View.{view, items_view};
ghost use Rattle.request_parts.specs.Members.{each};

use attr_value::Item;
use base_types::Seq;
use request_parts::item_in;
use serde_json::Value;
use std::alloc::{AllocError as NoMemory, Global};

/// A type whose values JSON states.
pub(crate) trait Stated: Sized {
    ghost stated: { Data → Self };

    /// What the JSON states.
    fn read(alloc: Global, json: &Value) -> Result<Self, NoMemory>
        ensures { IfOk result (λ value. value ≡ stated (view json.now)) };
}

/// What each element states, in order.
#[tactic(auto, using(request_parts::proofs::Lists::each_step))]
pub(crate) fn read_all<T: Stated + Drop>(alloc: Global, items: &[Value]) -> Result<Seq<T>, NoMemory>
    ensures { IfOk result (λ values. values ≡ each T.stated (items_view items.now)) }
{
    let mut values = Seq::with_capacity(alloc, items.len())?;
    for item in items {
        values.push(T::read(alloc, item)?)?;
    }
    Ok(values)
}

impl Stated for Item {
    ghost use Rattle.request_parts.specs.Members.{item_in};

    ghost stated = { item_in };

    fn read(alloc: Global, json: &Value) -> Result<Item, NoMemory> {
        item_in(alloc, json)
    }
}
