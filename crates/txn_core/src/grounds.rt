//! What a message needs of the entries before it.
ghost use Rattle.std.specs.Prelude.{◌≡◌, ◌≢◌, ◌↔◌, ◌≤◌, ◌⊎◌, ℕ, Bool, true, false, reverse, length, All, Any, AllPairs, IsTrue, MatchBool, Some};
ghost use Rattle.txn_core.specs.State.{IsAmong};
ghost use Rattle.txn_core.specs.History.{reason_of};
ghost use Rattle.txn_core.specs.Legal.{prepares, AreTold, HasCause, WasPeeked};
ghost use Rattle.txn_core.specs.Replay.{are_apart, touch, HadOnEach, RefusesWith, Shows};
ghost use Rattle.txn_core.specs.declared.reason.Reason.{Reason};

use crate::answer::Answer;
use crate::entry::{Event, Reply};
use crate::fact::{Fact, ItemFact};
use crate::message::Message;
use crate::past::{was, was_on};
use crate::reason::Reason;
use crate::rules::Rules;

/// Whether one of the actions is on the item.
fn touch<R: Rules>(actions: &[R::Action], key: &R::Key) -> bool
    ensures { (partitions : ℕ) → result ≡ touch (R.protocol partitions) actions.now key.now }
{
    for action in actions {
        if R::is_same(key, R::key_of(action)) {
            return true;
        }
    }
    false
}

/// Whether no two of the actions are on one item.
pub fn are_apart<R: Rules>(actions: &[R::Action]) -> bool
    ensures { (partitions : ℕ) → result ≡ are_apart (R.protocol partitions).core actions.now }
{
    let mut rest = actions;
    while let Some((first, others)) = rest.split_first() {
        if touch::<R>(others, R::key_of(first)) {
            return false;
        }
        rest = others;
    }
    true
}

/// Whether the action is the one among these on its item.
pub fn is_action_of<R: Rules>(actions: &[R::Action], action: &R::Action) -> bool
    ensures { (partitions : ℕ) → (IsTrue result ↔ IsAmong (R.protocol partitions).core actions.now action.now) }
{
    for each in actions {
        if R::is_same(R::key_of(each), R::key_of(action)) {
            return R::are_equal_actions(each, action);
        }
    }
    false
}

/// Whether this was told of the number on the item of each action.
pub fn was_on_all<R: Rules>(
    past: &[Event<R>],
    fact: ItemFact,
    number: u64,
    actions: &[R::Action],
) -> bool
    ensures { (partitions : ℕ) → (IsTrue result ↔ HadOnEach (R.protocol partitions) fact number actions.now (reverse past.now)) }
{
    for action in actions {
        if !was_on::<R>(past, fact, number, R::key_of(action)) {
            return false;
        }
    }
    true
}

/// Whether both are one item, or both are none.
pub fn are_equal_items<R: Rules>(left: &Option<R::Value>, right: &Option<R::Value>) -> bool
    ensures { IsTrue result ↔ (left.now ≡ right.now) }
{
    match (left, right) {
        (None, None) => true,
        (Some(one), Some(other)) => R::are_equal_values(one, other),
        _ => false,
    }
}

/// Whether a Prepare's answer gives this reason.
fn gives<R: Rules>(answer: &Reply<R>, reason: &Reason<R::Value, R::Fault>) -> bool
    ensures { IsTrue result ↔ (reason_of answer.now ≡ Some reason.now) }
{
    match (answer, reason) {
        (Answer::Accepted, Reason::None) => true,
        (Answer::Held { number }, Reason::Held { number: told }) => *number == *told,
        (Answer::Late { stamp }, Reason::Late { stamp: told }) => *stamp == *told,
        (Answer::CondFalse { old }, Reason::ConditionFalse { old: told }) => {
            are_equal_items::<R>(old, told)
        }
        (Answer::Invalid { fault }, Reason::Invalid { fault: told }) => {
            R::are_equal_faults(fault, told)
        }
        _ => false,
    }
}

/// Whether it is a Prepare of the number on the item.
fn prepares<R: Rules>(entry: &Event<R>, number: u64, key: &R::Key) -> bool
    ensures { (partitions : ℕ) → result ≡ prepares (R.protocol partitions) number key.now entry.now.message }
{
    match &entry.message {
        Message::Prepare {
            number: held,
            action,
            ..
        } => { *held == number && R::is_same(R::key_of(action), key) }
        _ => false,
    }
}

/// Whether a Prepare of the number on the item was answered with this reason.
fn was_told<R: Rules>(
    past: &[Event<R>],
    number: u64,
    key: &R::Key,
    reason: &Reason<R::Value, R::Fault>,
) -> bool
    ensures { (partitions : ℕ) → (IsTrue result ↔ Any (RefusesWith (R.protocol partitions) number key.now reason.now) (reverse past.now)) }
{
    for entry in past {
        if refuses_with::<R>(entry, number, key, reason) {
            return true;
        }
    }
    false
}

/// Whether it is a Prepare of the number on the item, answered with this reason.
fn refuses_with<R: Rules>(
    entry: &Event<R>,
    number: u64,
    key: &R::Key,
    reason: &Reason<R::Value, R::Fault>,
) -> bool
    ensures { (partitions : ℕ) → (IsTrue result ↔ RefusesWith (R.protocol partitions) number key.now reason.now entry.now) }
{
    prepares::<R>(entry, number, key) && gives::<R>(&entry.answer, reason)
}

/// Whether each reason is one that a Prepare of its action was answered.
fn are_told<R: Rules>(
    past: &[Event<R>],
    number: u64,
    actions: &[R::Action],
    reasons: &[Reason<R::Value, R::Fault>],
) -> bool
    ensures { (partitions : ℕ) → (IsTrue result ↔ AreTold (R.protocol partitions) (reverse past.now) number actions.now reasons.now) }
{
    let Some((action, others)) = actions.split_first() else {
        return reasons.is_empty();
    };
    let Some((reason, rest)) = reasons.split_first() else {
        return false;
    };
    was_told::<R>(past, number, R::key_of(action), reason)
        && are_told::<R>(past, number, others, rest)
}

/// Whether one of the reasons is a refusal: any but the one of an action that was accepted.
pub fn have_refusal<V, F>(reasons: &[Reason<V, F>]) -> bool
    ensures { MatchBool result (Any (λ r. r ≢ Reason.None) reasons.now) (All (λ r. r ≡ Reason.None) reasons.now) }
{
    for reason in reasons {
        if !is_none(reason) {
            return true;
        }
    }
    false
}

/// Whether the reason is that its action was accepted.
fn is_none<V, F>(reason: &Reason<V, F>) -> bool
    ensures { IsTrue result ↔ (reason.now ≡ Reason.None) }
{
    matches!(reason, Reason::None)
}

/// Whether a cancel of the number has its cause: the reasons were told and one of them is a
/// refusal, or a table was gone and no reason is given.
pub fn has_cause<R: Rules>(
    past: &[Event<R>],
    number: u64,
    actions: &[R::Action],
    reasons: &[Reason<R::Value, R::Fault>],
) -> bool
    ensures { (partitions : ℕ) → (IsTrue result ↔ HasCause (R.protocol partitions) (reverse past.now) number actions.now reasons.now) }
{
    if have_refusal(reasons) {
        are_told::<R>(past, number, actions, reasons)
    } else {
        was::<R>(past, Fact::NoTable, number) && reasons.len() == actions.len()
    }
}

/// Whether a PeekOut of the source was answered with exactly this change.
pub fn was_peeked<R: Rules>(
    partitions: u32,
    past: &[Event<R>],
    source: u32,
    sequence: u64,
    index: u64,
    row_key: &R::Key,
    after: &Option<R::Value>,
) -> bool
    requires { 1 ≤ partitions }
    ensures { IsTrue result ↔ WasPeeked (R.protocol partitions) (reverse past.now) source sequence index row_key.now after.now }
{
    let target = R::cell_of(partitions, row_key);
    for entry in past {
        if shows::<R>(entry, source, sequence, index, target, row_key, after) {
            return true;
        }
    }
    false
}

/// Whether it is a PeekOut of the source that was answered with exactly this change.
fn shows<R: Rules>(
    entry: &Event<R>,
    source: u32,
    sequence: u64,
    index: u64,
    target: u32,
    row_key: &R::Key,
    after: &Option<R::Value>,
) -> bool
    ensures { IsTrue result ↔ Shows source sequence index target row_key.now after.now entry.now }
{
    match (&entry.message, &entry.answer) {
        (
            Message::PeekOut { source: peeked },
            Answer::Out {
                sequence: number,
                index: fed,
                target: cell,
                row_key: row,
                after: next,
            },
        ) => {
            *peeked == source
                && *number == sequence
                && *fed == index
                && *cell == target
                && R::are_equal_keys(row, row_key)
                && are_equal_items::<R>(next, after)
        }
        _ => false,
    }
}
