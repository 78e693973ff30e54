//! What reads and writes of items count for.

ghost use Rattle.std.specs.Prelude.{◌≡◌};
ghost use Rattle.std.specs.Option.{option_copied};
ghost use Rattle.table_model.specs.Consumed as model;

use attr_value::Item;
use capacity::{Mode, write_halves};

/// The bytes of an item, none where it is not there, or the last `u64` where they are more.
pub fn bytes_of(item: Option<&Item>) -> u64
    ensures { result ≡ model.bytes_of (option_copied item.entry) }
{
    match item {
        Some(item) => item.size(),
        None => 0,
    }
}

/// How an item is read, by itself or among others.
pub fn read_mode(consistent: bool) -> Mode
    ensures { result ≡ model.read_mode consistent }
{
    if consistent {
        Mode::Consistent
    } else {
        Mode::Eventual
    }
}

/// The halves of a capacity unit that a write counts for, by the greater of the item as it was and as it is (Developer
/// Guide: Capacity unit consumption for write operations).
pub fn halves_written(old: Option<&Item>, new: Option<&Item>) -> u64
    ensures { result ≡ model.halves_written (option_copied old.entry) (option_copied new.entry) }
{
    write_halves(bytes_of(old).max(bytes_of(new)), Mode::Consistent)
}
