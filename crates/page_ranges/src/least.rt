//! The least value and the least key.

ghost use Rattle.std.specs.Prelude.{◌≡◌, IfOk};
ghost use Rattle.page_ranges.specs.Least.{least_value, least_at};

use base_types::Text;
use item_keys::KeyValue;
use row_keys::{RowKey, SortPoint};
use std::alloc::{AllocError as NoMemory, Global};

/// The value that no value is below: the string of no byte. No key has it.
pub(crate) fn least_value(alloc: Global) -> Result<KeyValue, NoMemory>
    ensures { IfOk result (λ value. value ≡ least_value) }
{
    Ok(KeyValue::S(Text::copied(alloc, "")?))
}

/// The key that no key at this place or behind it is below.
pub(crate) fn least_at(alloc: Global, place: u64) -> Result<RowKey, NoMemory>
    ensures { IfOk result (λ key. key ≡ least_at place) }
{
    Ok(RowKey {
        place,
        partition: least_value(alloc)?,
        sort: SortPoint::Least,
    })
}
