//! Where keys live.

ghost use Rattle.std.specs.Prelude.{◌≡◌, ◌≤◌, ◌<◌, IfOk};
ghost use Rattle.cell_model.specs.Keys.{place_of, cell_at, item_of};

use cell_model::{CellKey, ItemKey};
use item_keys::cell_of as cell_of_place;
use std::alloc::AllocError as NoMemory;

/// The place by which the key's cell is told: of an index row, that of the index's partition key.
fn place_of(key: &CellKey) -> u64
    ensures { result ≡ place_of key.now }
{
    match key {
        CellKey::Item(key) => key.key.place,
        CellKey::Row(key) => key.at.read.place,
    }
}

/// The cell of a place, where the places are cut into `partitions` parts of one length.
#[tactic(auto, unfolding(cell_model::specs::Keys::cell_at))]
fn cell_at(partitions: u32, place: u64) -> u32
    requires { 1 ≤ partitions }
    ensures { result ≡ cell_at partitions place }
{
    cell_of_place(place, partitions)
}

/// The partition in which an item lives, or a row of an index.
pub(crate) fn cell_of(partitions: u32, key: &CellKey) -> u32
    requires { 1 ≤ partitions }
    ensures { result ≡ cell_at partitions (place_of key.now) }
{
    cell_at(partitions, place_of(key))
}

/// The item that a key is of. An index row's key names it.
pub(crate) fn item_of(key: &CellKey) -> Result<CellKey, NoMemory>
    ensures { IfOk result (λ item. item ≡ item_of key.now) }
{
    match key {
        CellKey::Item(key) => Ok(CellKey::Item(key.try_clone()?)),
        CellKey::Row(key) => Ok(CellKey::Item(ItemKey {
            table: key.table,
            key: key.at.item.try_clone()?,
        })),
    }
}
