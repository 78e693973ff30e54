//! The action that removes an item.

ghost use Rattle.std.specs.Prelude.{◌≡◌, IfOk};
ghost use Rattle.cell_model.specs.Actions.{removal};

use attr_value::Item;
use base_types::{Seq, Text};
use cell_model::{CellKey, KeyedAction, StatedChange, Statement};
use std::alloc::{AllocError as NoMemory, Global};

/// The action that removes the item of a key, whatever it holds: a delete without a condition.
pub(crate) fn removal(alloc: Global, key: &CellKey) -> Result<KeyedAction, NoMemory>
    ensures { IfOk result (λ action. action ≡ removal key.now) }
{
    let key = key.try_clone()?;
    let delete = Statement {
        table: Text::copied(alloc, "")?,
        change: StatedChange::Delete(Item::new(alloc)),
        condition: None,
        values: Seq::new(alloc),
        show_old: false,
    };
    Ok(KeyedAction::new(key, delete))
}
