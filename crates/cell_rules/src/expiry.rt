//! When items are expired.

ghost use Rattle.std.specs.Prelude.{◌≡◌, ◌/◌, ℕ, false};
ghost use Rattle.index_changes.specs.Expiry.{NeverExpires};
ghost use Rattle.row_keys.specs.Expiry.{is_expired as is_past};
ghost use Rattle.cell_model.specs.Expiry.{is_expired_at};
ghost use Rattle.cell_model.specs.Service.{service};

use attr_value::Item;
use cell_catalog::{table_numbered, table_of};
use cell_model::{Catalog, CellKey};
use row_keys::{Expiry, expiry_of};
use table_schema::Schema;

/// How many microseconds a second has.
const SECOND: u64 = 1_000_000;

/// Whether an item of a table is expired at a second.
fn is_past(schema: &Schema, item: &Item, second: u64) -> bool
    ensures { result ≡ is_past schema.now.ttl item.now second }
{
    matches!(expiry_of(schema, item, second), Expiry::Expired)
}

/// Whether what an item holds is expired at a moment, in microseconds since 1970-01-01T00:00:00Z (Developer Guide: Using time to
/// live).
pub(crate) fn is_expired(catalog: &Catalog, key: &CellKey, item: &Item, moment: u64) -> bool
    ensures { result ≡ is_expired_at catalog.now key.now item.now moment }
{
    match table_numbered(catalog, table_of(key)) {
        None => false,
        Some(table) => is_past(&table.schema, item, moment / SECOND),
    }
}

/// Whether items of the table of this number may expire: whether it is there, and has a time to live.
pub(crate) fn may_expire(catalog: &Catalog, table: u64) -> bool
    ensures { result ≡ false → (partitions : ℕ) → NeverExpires (service partitions).core catalog.now table }
{
    match table_numbered(catalog, table) {
        None => false,
        Some(table) => table.schema.ttl.is_some(),
    }
}
