//! Whether two answers are equal.

ghost use Rattle.std.specs.Prelude.{◌≡◌, ◌↔◌, IsTrue};
ghost use Rattle.txn_replay.specs.Kinds.{answer_kind};

use txn_core::{Answer, HeldItem, Reason, Reply, Rules};

/// Whether both are one item, or both are none.
fn are_equal_rows<R: Rules>(left: &Option<R::Value>, right: &Option<R::Value>) -> bool
    ensures { IsTrue result ↔ (left.now ≡ right.now) }
{
    match (left, right) {
        (None, None) => true,
        (Some(one), Some(other)) => R::are_equal_values(one, other),
        _ => false,
    }
}

/// Whether the actions are equal, one by one.
fn are_equal_actions<R: Rules>(left: &[R::Action], right: &[R::Action]) -> bool
    ensures { IsTrue result ↔ (left.now ≡ right.now) }
{
    let mut one = left;
    let mut other = right;
    while let Some((first, rest)) = one.split_first() {
        let Some((second, others)) = other.split_first() else {
            return false;
        };
        if !R::are_equal_actions(first, second) {
            return false;
        }
        one = rest;
        other = others;
    }
    other.is_empty()
}

/// Whether two reasons are equal.
fn are_equal_reason<R: Rules>(
    left: &Reason<R::Value, R::Fault>,
    right: &Reason<R::Value, R::Fault>,
) -> bool
    ensures { IsTrue result ↔ (left.now ≡ right.now) }
{
    match (left, right) {
        (Reason::None, Reason::None) => true,
        (Reason::ConditionFalse { old }, Reason::ConditionFalse { old: other }) => {
            are_equal_rows::<R>(old, other)
        }
        (Reason::Held { number }, Reason::Held { number: other }) => *number == *other,
        (Reason::Late { stamp }, Reason::Late { stamp: other }) => *stamp == *other,
        (
            Reason::Moved { first, second },
            Reason::Moved {
                first: one,
                second: two,
            },
        ) => *first == *one && *second == *two,
        (Reason::Invalid { fault }, Reason::Invalid { fault: other }) => {
            R::are_equal_faults(fault, other)
        }
        _ => false,
    }
}

/// Whether the reasons are equal, one by one.
fn are_equal_reasons<R: Rules>(
    left: &[Reason<R::Value, R::Fault>],
    right: &[Reason<R::Value, R::Fault>],
) -> bool
    ensures { IsTrue result ↔ (left.now ≡ right.now) }
{
    let mut one = left;
    let mut other = right;
    while let Some((first, rest)) = one.split_first() {
        let Some((second, others)) = other.split_first() else {
            return false;
        };
        if !are_equal_reason::<R>(first, second) {
            return false;
        }
        one = rest;
        other = others;
    }
    other.is_empty()
}

/// Whether both are one item, held by one transaction.
fn are_equal_held<R: Rules>(left: &HeldItem<R::Key>, right: &HeldItem<R::Key>) -> bool
    ensures { IsTrue result ↔ (left.now ≡ right.now) }
{
    left.number == right.number && R::are_equal_keys(&left.key, &right.key)
}

/// Whether the held items are equal, one by one.
fn are_equal_lists<R: Rules>(left: &[HeldItem<R::Key>], right: &[HeldItem<R::Key>]) -> bool
    ensures { IsTrue result ↔ (left.now ≡ right.now) }
{
    let mut one = left;
    let mut other = right;
    while let Some((first, rest)) = one.split_first() {
        let Some((second, others)) = other.split_first() else {
            return false;
        };
        if !are_equal_held::<R>(first, second) {
            return false;
        }
        one = rest;
        other = others;
    }
    other.is_empty()
}

/// Whether the keys are equal, one by one.
fn are_equal_keys<R: Rules>(left: &[R::Key], right: &[R::Key]) -> bool
    ensures { IsTrue result ↔ (left.now ≡ right.now) }
{
    let mut one = left;
    let mut other = right;
    while let Some((first, rest)) = one.split_first() {
        let Some((second, others)) = other.split_first() else {
            return false;
        };
        if !R::are_equal_keys(first, second) {
            return false;
        }
        one = rest;
        other = others;
    }
    other.is_empty()
}

/// Whether both are one answer about an item, with what it carries.
fn are_equal_of_items<R: Rules>(left: &Reply<R>, right: &Reply<R>) -> bool
    ensures { IsTrue result ↔ ((answer_kind left.now ≡ 1) × (left.now ≡ right.now)) }
{
    match (left, right) {
        (Answer::Row { item }, Answer::Row { item: other }) => are_equal_rows::<R>(item, other),
        (
            Answer::Written { old, new },
            Answer::Written {
                old: before,
                new: after,
            },
        ) => are_equal_rows::<R>(old, before) && are_equal_rows::<R>(new, after),
        (Answer::Held { number }, Answer::Held { number: other }) => *number == *other,
        (Answer::CondFalse { old }, Answer::CondFalse { old: other }) => {
            are_equal_rows::<R>(old, other)
        }
        (Answer::Invalid { fault }, Answer::Invalid { fault: other }) => {
            R::are_equal_faults(fault, other)
        }
        (Answer::Expired { old }, Answer::Expired { old: other }) => {
            R::are_equal_values(old, other)
        }
        (Answer::Late { stamp }, Answer::Late { stamp: other }) => *stamp == *other,
        (
            Answer::Version {
                item,
                version,
                held,
            },
            Answer::Version {
                item: other,
                version: told,
                held: holder,
            },
        ) => *version == *told && *held == *holder && are_equal_rows::<R>(item, other),
        _ => false,
    }
}

/// Whether both are one answer about what a cell keeps beside its items.
fn are_equal_of_cells<R: Rules>(left: &Reply<R>, right: &Reply<R>) -> bool
    ensures { IsTrue result ↔ ((answer_kind left.now ≡ 2) × (left.now ≡ right.now)) }
{
    match (left, right) {
        (Answer::ExpiredList { keys }, Answer::ExpiredList { keys: other }) => {
            are_equal_keys::<R>(keys.as_slice(), other.as_slice())
        }
        (Answer::PendingList { pendings }, Answer::PendingList { pendings: other }) => {
            are_equal_lists::<R>(pendings.as_slice(), other.as_slice())
        }
        (
            Answer::Out {
                sequence,
                index,
                target,
                row_key,
                after,
            },
            Answer::Out {
                sequence: place,
                index: of,
                target: cell,
                row_key: key,
                after: row,
            },
        ) => {
            *sequence == *place
                && *index == *of
                && *target == *cell
                && R::are_equal_keys(row_key, key)
                && are_equal_rows::<R>(after, row)
        }
        _ => false,
    }
}

/// Whether both are one answer about a transaction's number.
fn are_equal_of_numbers<R: Rules>(left: &Reply<R>, right: &Reply<R>) -> bool
    ensures { IsTrue result ↔ ((answer_kind left.now ≡ 3) × (left.now ≡ right.now)) }
{
    match (left, right) {
        (Answer::Mismatch { number }, Answer::Mismatch { number: other }) => *number == *other,
        (Answer::Repeat { number }, Answer::Repeat { number: other }) => *number == *other,
        (Answer::Running { number }, Answer::Running { number: other }) => *number == *other,
        (
            Answer::Begun { number, stamp },
            Answer::Begun {
                number: other,
                stamp: drawn,
            },
        ) => *number == *other && *stamp == *drawn,
        (Answer::Numbers { numbers }, Answer::Numbers { numbers: other }) => {
            numbers.as_slice() == other.as_slice()
        }
        _ => false,
    }
}

/// Whether both are one answer about what became of a transaction.
fn are_equal_of_fates<R: Rules>(left: &Reply<R>, right: &Reply<R>) -> bool
    ensures { IsTrue result ↔ ((answer_kind left.now ≡ 4) × (left.now ≡ right.now)) }
{
    match (left, right) {
        (
            Answer::Decided { fate, first },
            Answer::Decided {
                fate: told,
                first: set,
            },
        ) => *fate == *told && *first == *set,
        (Answer::Is { fate }, Answer::Is { fate: other }) => *fate == *other,
        (
            Answer::Known {
                fate,
                stamp,
                actions,
                reasons,
            },
            Answer::Known {
                fate: told,
                stamp: drawn,
                actions: begun,
                reasons: given,
            },
        ) => {
            *fate == *told
                && *stamp == *drawn
                && are_equal_actions::<R>(actions.as_slice(), begun.as_slice())
                && are_equal_reasons::<R>(reasons.as_slice(), given.as_slice())
        }
        _ => false,
    }
}

/// Whether both are one answer that tells of the catalog or of a page.
fn are_equal_of_tables<R: Rules>(left: &Reply<R>, right: &Reply<R>) -> bool
    ensures { IsTrue result ↔ ((answer_kind left.now ≡ 5) × (left.now ≡ right.now)) }
{
    match (left, right) {
        (Answer::Part { told }, Answer::Part { told: other }) => R::are_equal_told(told, other),
        (Answer::Told { told }, Answer::Told { told: other }) => R::are_equal_told(told, other),
        (Answer::Changed { told }, Answer::Changed { told: other }) => {
            R::are_equal_told(told, other)
        }
        (Answer::Refused { told }, Answer::Refused { told: other }) => {
            R::are_equal_told(told, other)
        }
        _ => false,
    }
}

/// Whether both are one answer that carries nothing.
fn are_equal_words<R: Rules>(left: &Reply<R>, right: &Reply<R>) -> bool
    ensures { IsTrue result ↔ ((answer_kind left.now ≡ 0) × (left.now ≡ right.now)) }
{
    match (left, right) {
        (Answer::Stale, Answer::Stale) => true,
        (Answer::Kept, Answer::Kept) => true,
        (Answer::Accepted, Answer::Accepted) => true,
        (Answer::Applied, Answer::Applied) => true,
        (Answer::Released, Answer::Released) => true,
        (Answer::Nothing, Answer::Nothing) => true,
        (Answer::Empty, Answer::Empty) => true,
        (Answer::Fed, Answer::Fed) => true,
        (Answer::Already, Answer::Already) => true,
        (Answer::Acked, Answer::Acked) => true,
        (Answer::Finished, Answer::Finished) => true,
        (Answer::Forgotten, Answer::Forgotten) => true,
        (Answer::Unknown, Answer::Unknown) => true,
        _ => false,
    }
}

/// Whether both answers are equal.
pub(crate) fn are_equal_answers<R: Rules>(left: &Reply<R>, right: &Reply<R>) -> bool
    ensures { IsTrue result ↔ (left.now ≡ right.now) }
{
    if are_equal_of_items::<R>(left, right) {
        return true;
    }
    if are_equal_of_cells::<R>(left, right) {
        return true;
    }
    if are_equal_of_numbers::<R>(left, right) {
        return true;
    }
    if are_equal_of_fates::<R>(left, right) {
        return true;
    }
    if are_equal_of_tables::<R>(left, right) {
        return true;
    }
    are_equal_words::<R>(left, right)
}
