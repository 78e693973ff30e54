//! Changes of items.

ghost use Rattle.std.specs.Prelude.{◌≡◌};
ghost use Rattle.table_rows.specs.View.{is_pending};

use attr_value::SharedItem;
use row_keys::RowKey;

/// What the item at a key is to be: this one, or none.
#[derive(Drop)]
pub struct RowChange {
    pub key: RowKey,
    pub new: Option<SharedItem>,
}

/// Whether one of the changes is of the item at this key.
pub(crate) fn is_pending(changes: &[RowChange], key: &RowKey) -> bool
    ensures { result ≡ is_pending changes.now key.now }
{
    for change in changes {
        if key.cmp(&change.key).is_eq() {
            return true;
        }
    }
    false
}
