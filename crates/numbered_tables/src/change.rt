//! Changes of items.

use attr_value::Item;
use base_types::Text;
use row_keys::RowKey;

/// The item at a key of a table becomes this one, or none.
#[derive(Drop)]
pub struct TableChange {
    pub table: Text,
    pub key: RowKey,
    pub new: Option<Item>,
}
