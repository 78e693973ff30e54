//! What is told of a write.

ghost use Rattle.std.specs.Prelude.{◌≡◌, IfOk};
ghost use Rattle.std.specs.Option.{option_copied};
ghost use Rattle.table_model.specs.Writes.{used_by_write};
ghost use Rattle.table_items.specs.Steps.{told_of};

use crate::returned::shown;
use crate::used::halves_written;
use attr_value::{SharedItem, lent};
use base_types::Text;
use expr_parse::Update;
use std::alloc::{AllocError as NoMemory, Global};
use table_model::Reply;
use table_request::{Consumed, ReturnValues};

/// What a request wants to be told of its write.
#[derive(Drop)]
pub struct Telling {
    /// The name of the table.
    pub table: Text,
    pub return_values: ReturnValues,
    /// Whether the item is shown where the condition is false of it.
    pub show_old: bool,
    /// Whether the capacity that was used is told.
    pub capacity: bool,
}

impl Telling {
    /// The reply to a write that was made. The table's name moves into it.
    pub fn written(
        self,
        alloc: Global,
        update: Option<&Update>,
        old: Option<&SharedItem>,
        new: Option<&SharedItem>,
    ) -> Result<Reply, NoMemory>
        ensures { IfOk result (λ reply. reply
            ≡ told_of self (option_copied update.entry) (option_copied old.entry) (option_copied new.entry)) }
    {
        let shown = shown(alloc, self.return_values, update, old, new)?;
        let consumed = self.used(old, new);
        Ok(Reply::Written { shown, consumed })
    }

    /// What the write uses, where that is told. Else nothing is measured.
    fn used(self, old: Option<&SharedItem>, new: Option<&SharedItem>) -> Option<Consumed>
        ensures { result ≡ used_by_write self.capacity self.table (option_copied old.entry) (option_copied new.entry) }
    {
        let Telling {
            table,
            capacity,
            ..
        } = self;
        if !capacity {
            drop(table);
            return None;
        }
        let halves = halves_written(lent(old), lent(new));
        Some(Consumed { table, halves })
    }
}
