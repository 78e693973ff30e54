ghost use Rattle.std.specs.Prelude.{◌≡◌, ◌↔◌, IsTrue};
ghost use Rattle.case_rules.specs.Parameters.{same_item, same_condition, same_deed, same_action, same_actions};

use crate::action::{Action, Condition, Deed, Fault};
use crate::item::Item;
use crate::key::Key;
use crate::question::Told;

/// Whether both are one key.
pub(crate) fn are_equal_keys(left: &Key, right: &Key) -> bool
    ensures { IsTrue result ↔ (left.now ≡ right.now) }
{
    left.compare(right).is_eq()
}

/// Whether both hold the same.
pub(crate) fn are_equal_items(left: &Item, right: &Item) -> bool
    ensures tested { result ≡ same_item left.now right.now }
    ensures exact { IsTrue result ↔ (left.now ≡ right.now) }
{
    left.customer == right.customer && left.amount == right.amount && left.expires == right.expires
}

fn are_equal_conditions(left: &Condition, right: &Condition) -> bool
    ensures { result ≡ same_condition left.now right.now }
{
    match (left, right) {
        (Condition::Always, Condition::Always) => true,
        (Condition::Absent, Condition::Absent) => true,
        (Condition::Holds { amount }, Condition::Holds { amount: other }) => *amount == *other,
        _ => false,
    }
}

fn are_equal_deeds(left: &Deed, right: &Deed) -> bool
    ensures { result ≡ same_deed left.now right.now }
{
    match (left, right) {
        (Deed::Put { item }, Deed::Put { item: other }) => are_equal_items(item, other),
        (Deed::Take { amount }, Deed::Take { amount: other }) => *amount == *other,
        (Deed::Delete, Deed::Delete) => true,
        (Deed::Check, Deed::Check) => true,
        _ => false,
    }
}

/// Whether both are on one key, under one condition, and do the same.
pub(crate) fn are_equal_actions(left: &Action, right: &Action) -> bool
    ensures tested { result ≡ same_action left.now right.now }
    ensures exact { IsTrue result ↔ (left.now ≡ right.now) }
{
    left.key.compare(&right.key).is_eq()
        && are_equal_conditions(&left.condition, &right.condition)
        && are_equal_deeds(&left.deed, &right.deed)
}

/// Whether the lists have equal actions in one order.
pub(crate) fn are_same_actions(left: &[Action], right: &[Action]) -> bool
    ensures { result ≡ same_actions left.now right.now }
{
    match (left.split_first(), right.split_first()) {
        (None, None) => true,
        (Some((one, others)), Some((another, rest))) => {
            are_equal_actions(one, another) && are_same_actions(others, rest)
        }
        (None, Some(_)) | (Some(_), None) => false,
    }
}

/// Whether both are one fault.
pub(crate) fn are_equal_faults(left: Fault, right: Fault) -> bool
    ensures { IsTrue result ↔ (left ≡ right) }
{
    match (left, right) {
        (Fault::NoItem, Fault::NoItem) => true,
        (Fault::TooLittle, Fault::TooLittle) => true,
        (Fault::IndexKey, Fault::IndexKey) => true,
        _ => false,
    }
}

fn are_equal_rows(left: &[(Key, Item)], right: &[(Key, Item)]) -> bool
    ensures { IsTrue result ↔ (left.now ≡ right.now) }
{
    match (left.split_first(), right.split_first()) {
        (None, None) => true,
        (Some((one, others)), Some((another, rest))) => {
            are_equal_keys(&one.0, &another.0)
                && are_equal_items(&one.1, &another.1)
                && are_equal_rows(others, rest)
        }
        (None, Some(_)) | (Some(_), None) => false,
    }
}

/// Whether both tell the same.
pub(crate) fn are_equal_told(left: &Told, right: &Told) -> bool
    ensures { IsTrue result ↔ (left.now ≡ right.now) }
{
    match (left, right) {
        (Told::Numbered { number }, Told::Numbered { number: other }) => *number == *other,
        (Told::NoTable, Told::NoTable) => true,
        (Told::InUse, Told::InUse) => true,
        (Told::HasIndex, Told::HasIndex) => true,
        (Told::Full, Told::Full) => true,
        (Told::Rows { rows }, Told::Rows { rows: other }) => {
            are_equal_rows(rows.as_slice(), other.as_slice())
        }
        _ => false,
    }
}
