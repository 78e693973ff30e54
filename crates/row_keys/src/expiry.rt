//! When items are expired.

ghost use Rattle.std.specs.Prelude.{◌≡◌};
ghost use Rattle.row_keys.specs.Expiry.{is_below, is_expired, is_long_past, is_now, is_past, IsFreshFrom};

use attr_value::{Item, Value};
use number38::{Number, from_u64};
use table_schema::Schema;

/// Five times 365 days, in seconds: an item that is expired for longer stays (Developer Guide: Using time to live).
const LONGEST: u64 = 157_680_000;

/// Whether an item is expired, as it is seen at a second.
#[derive(Clone, Copy)]
pub enum Expiry {
    /// It is expired.
    Expired,
    /// It is not, nor at any later second.
    Never,
    /// It is not, nor at any later second up to this number.
    After(Number),
}

/// Whether an item of a table is expired at a second, and if not, until when it is not. It takes no memory.
///
/// The second is counted as the item's number is: from 1970 on (API Reference: TimeToLiveSpecification).
pub fn expiry_of(schema: &Schema, item: &Item, second: u64) -> Expiry
    ensures now { is_now result ≡ is_expired schema.now.ttl item.now second }
    ensures later { IsFreshFrom (is_expired schema.now.ttl item.now) second result }
{
    let Some(name) = &schema.ttl else {
        return Expiry::Never;
    };
    match item.attribute(name) {
        Some(Value::N(number)) => expiry_at(*number, second),
        _ => Expiry::Never,
    }
}

/// Whether what expires at a number of seconds is expired at a second.
#[tactic(auto, using(crate::proofs::Seconds::negative_never, crate::proofs::Seconds::not_yet, crate::proofs::Seconds::no_longer, crate::proofs::Seconds::past_now))]
fn expiry_at(number: Number, second: u64) -> Expiry
    ensures now { is_now result ≡ is_past number second }
    ensures later { IsFreshFrom (is_past number) second result }
{
    if is_below(&number, 0) {
        return Expiry::Never;
    }
    if !is_below(&number, second) {
        return Expiry::After(number);
    }
    if is_long_past(&number, second) {
        return Expiry::Never;
    }
    Expiry::Expired
}

/// Whether the number is below a second. It takes no memory.
pub fn is_below(number: &Number, second: u64) -> bool
    ensures { result ≡ is_below number.now second }
{
    *number < from_u64(second)
}

/// Whether the number is below a second by more than five years.
fn is_long_past(number: &Number, second: u64) -> bool
    ensures { result ≡ is_long_past number.now second }
{
    match second.checked_sub(LONGEST) {
        Some(earliest) => is_below(number, earliest),
        None => false,
    }
}
