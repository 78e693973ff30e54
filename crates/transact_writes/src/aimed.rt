//! Actions with their tables' numbers and their items' keys.

ghost use Rattle.std.specs.Prelude.{◌≡◌};

use base_types::Text;
use row_keys::RowKey;
use table_model::NumberedAction;
use transact_reads::Targeted;

/// An action with the number of its table and the key of its item.
#[derive(Drop)]
pub struct Aimed {
    pub key: RowKey,
    pub action: NumberedAction,
}

impl Targeted for Aimed {
    ghost use Rattle.transact_writes.specs.Aimed.{target_in};

    ghost target_of = { target_in };

    fn table(&self) -> &Text {
        &self.action.action.table
    }

    fn key(&self) -> &RowKey {
        &self.key
    }
}
