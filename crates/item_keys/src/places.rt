//! Places: where the items of a partition key stand, and how places are cut into cells.

ghost use Rattle.std.specs.Prelude.{◌≡◌, ◌*◌, ◌/◌, ◌^◌, ◌<◌, IfOk, OnErr};
ghost use Rattle.item_keys.specs.KeyBytes.{IsNumber};
ghost use Rattle.item_keys.specs.Place.{fnv1a, hash_place, place_of};

use crate::value::KeyValue;
use std::alloc::{AllocError as NoMemory, Global};

/// The hash of no bytes, by FNV-1a of 64 bits.
const OFFSET_BASIS: u64 = 0xcbf2_9ce4_8422_2325;

/// What FNV-1a of 64 bits multiplies by.
const PRIME: u64 = 0x0100_0000_01b3;

/// FNV-1a of 64 bits (Fowler, Noll and Vo: draft-eastlake-fnv).
fn fnv1a(bytes: &[u8]) -> u64
    ensures { result ≡ fnv1a bytes.now }
{
    bytes.iter().fold(OFFSET_BASIS, |hash, byte| {
        (hash ^ u64::from(*byte)).wrapping_mul(PRIME)
    })
}

/// The place of a partition key with these bytes. The bytes of the hash are turned round, since its low ones change most
/// from key to key, and places are cut by their high ones.
#[tactic(auto, unfolding(crate::specs::Place::hash_place))]
fn hash_place(bytes: &[u8]) -> u64
    ensures { result ≡ hash_place bytes.now }
{
    fnv1a(bytes).swap_bytes()
}

/// The place of the items with this partition key's value: a hash of its bytes, which are those of the text or of the
/// binary, or of the number's text. Only a number's text takes memory.
pub fn place(alloc: Global, partition: &KeyValue) -> Result<u64, NoMemory>
    ensures place { IfOk result (λ place. place ≡ place_of partition.now) }
    ensures memory { OnErr result (IsNumber partition.now) }
{
    match partition {
        KeyValue::S(text) => Ok(hash_place(text.as_str().as_bytes())),
        KeyValue::N(number) => {
            let text = number.print(alloc)?;
            Ok(hash_place(text.as_bytes()))
        }
        KeyValue::B(bytes) => Ok(hash_place(bytes.as_slice())),
    }
}

/// The cell that keeps a place, where the places are cut into `partitions` parts of one length, counted from 0.
pub fn cell_of(place: u64, partitions: u32) -> u32
    ensures cell { result ≡ place * partitions / 2 ^ 64 }
    ensures within { 0 < partitions → result < partitions }
{
    ((u128::from(place) * u128::from(partitions)) >> 64) as u32
}
