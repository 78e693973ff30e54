//! The rules of legal histories one by one, but for the answers.
ghost use Rattle.std.specs.Prelude.{◌≡◌, ◌↔◌, ◌≤◌, ◌⊎◌, ℕ, reverse, IsTrue};
ghost use Rattle.txn_core.specs.Serial.{begun_stamp};
ghost use Rattle.txn_core.specs.History.{Had, cancels, forgets, effects};
ghost use Rattle.txn_core.specs.Legal.{HasGround, BeginFits, Allowed, sent_to};
ghost use Rattle.txn_core.specs.Replay.{IsFinishable, IsSettled, is_command};
ghost use Rattle.txn_core.specs.declared.message.Message.{Message};
ghost use Rattle.txn_core.specs.Breaks.{HaveOneReach, NamesBegun, HasGroundFor, AppliesLate, ReleasesLate, FinishesLate, ForgetsLate, FeedsInOrder};

use crate::entry::{Asked, Event};
use crate::fact::{Fact, ItemFact};
use crate::grounds::{are_apart, has_cause, is_action_of, was_on_all, was_peeked};
use crate::message::Message;
use crate::past::{actions_of, stamp_of, was, was_begun_by, was_fed};
use crate::reason::Reason;
use crate::rules::Rules;
use crate::stamp::Stamp;

/// Whether a Begin has 1 to 100 actions on items that differ, and a Prepare and a Decide name a
/// begun number, a Prepare with its stamp and one of its actions.
pub fn names_begun<R: Rules>(past: &[Event<R>], message: &Asked<R>) -> bool
    ensures { (partitions pass : ℕ) → (IsTrue result ↔ NamesBegun (R.protocol partitions) (reverse past.now) pass message.now) }
{
    match message {
        Message::Begin { actions, .. } => may_begin::<R>(actions.as_slice()),
        Message::Prepare {
            number,
            stamp,
            action,
        } => { may_prepare::<R>(past, *number, *stamp, action) }
        Message::Decide { number, .. } => was::<R>(past, Fact::Begun, *number),
        _ => true,
    }
}

fn may_begin<R: Rules>(actions: &[R::Action]) -> bool
    ensures { (partitions : ℕ) → (IsTrue result ↔ BeginFits (R.protocol partitions) actions.now) }
{
    let many = actions.len();
    if many < 1 {
        return false;
    }
    if many > 100 {
        return false;
    }
    are_apart::<R>(actions)
}

fn may_prepare<R: Rules>(past: &[Event<R>], number: u64, stamp: Stamp, action: &R::Action) -> bool
    ensures { (partitions pass : ℕ) → (IsTrue result
        ↔ Allowed (R.protocol partitions) (reverse past.now) pass (Message.Prepare number stamp action.now)) }
{
    if !was::<R>(past, Fact::Begun, number) {
        return false;
    }
    if !has_stamp::<R>(past, number, stamp) {
        return false;
    }
    is_action_of::<R>(actions_of::<R>(past, number), action)
}

fn has_stamp<R: Rules>(past: &[Event<R>], number: u64, stamp: Stamp) -> bool
    ensures { IsTrue result ↔ (stamp ≡ begun_stamp (effects (reverse past.now)) number) }
{
    are_equal_stamps(stamp, stamp_of::<R>(past, number))
}

fn are_equal_stamps(left: Stamp, right: Stamp) -> bool
    ensures { IsTrue result ↔ (left ≡ right) }
{
    left == right
}

/// Whether a Decide that commits, or one that cancels, has its ground; true of any other message.
pub fn has_ground_for<R: Rules>(commit: bool, past: &[Event<R>], message: &Asked<R>) -> bool
    ensures { (partitions : ℕ) → (IsTrue result ↔ HasGroundFor (R.protocol partitions) commit (reverse past.now) message.now) }
{
    match message {
        Message::Decide {
            number,
            commit: decided,
            reasons,
        } => { *decided != commit || has_ground::<R>(past, *number, *decided, reasons.as_slice()) }
        _ => true,
    }
}

fn has_ground<R: Rules>(
    past: &[Event<R>],
    number: u64,
    commit: bool,
    reasons: &[Reason<R::Value, R::Fault>],
) -> bool
    ensures { (partitions : ℕ) → (IsTrue result ↔ HasGround (R.protocol partitions) (reverse past.now) number commit reasons.now) }
{
    let actions = actions_of::<R>(past, number);
    if commit {
        was_on_all::<R>(past, ItemFact::Accepted, number, actions)
    } else {
        has_cause::<R>(past, number, actions, reasons)
    }
}

/// Whether an Apply comes after the commit.
pub fn applies_late<R: Rules>(past: &[Event<R>], message: &Asked<R>) -> bool
    ensures { (partitions pass : ℕ) → (IsTrue result ↔ AppliesLate (R.protocol partitions) (reverse past.now) pass message.now) }
{
    match message {
        Message::Apply { number, .. } => was::<R>(past, Fact::Committed, *number),
        _ => true,
    }
}

/// Whether a Release comes after the cancel, or after the number was forgotten.
pub fn releases_late<R: Rules>(past: &[Event<R>], message: &Asked<R>) -> bool
    ensures { (partitions pass : ℕ) → (IsTrue result ↔ ReleasesLate (R.protocol partitions) (reverse past.now) pass message.now) }
{
    match message {
        Message::Release { number, .. } => may_release::<R>(past, *number),
        _ => true,
    }
}

fn may_release<R: Rules>(past: &[Event<R>], number: u64) -> bool
    ensures { IsTrue result ↔ (Had (cancels number) (reverse past.now) ⊎ Had (forgets number) (reverse past.now)) }
{
    was::<R>(past, Fact::Cancelled, number) || was::<R>(past, Fact::Forgotten, number)
}

/// Whether a Done comes after an Apply of each action and the commit, or a Release of each and the
/// cancel.
pub fn finishes_late<R: Rules>(past: &[Event<R>], message: &Asked<R>) -> bool
    ensures { (partitions pass : ℕ) → (IsTrue result ↔ FinishesLate (R.protocol partitions) (reverse past.now) pass message.now) }
{
    match message {
        Message::Done { number } => {
            was::<R>(past, Fact::Begun, *number) && is_settled::<R>(past, *number)
        }
        _ => true,
    }
}

/// Whether the number was committed and applied on each item, or cancelled and released on each.
fn is_settled<R: Rules>(past: &[Event<R>], number: u64) -> bool
    ensures { (partitions : ℕ) → (IsTrue result ↔ IsSettled (R.protocol partitions) number (reverse past.now)) }
{
    is_ended::<R>(past, Fact::Committed, ItemFact::Applied, number)
        || is_ended::<R>(past, Fact::Cancelled, ItemFact::Released, number)
}

/// Whether the number was decided so, and this was told of it on each item.
fn is_ended<R: Rules>(past: &[Event<R>], decided: Fact, ended: ItemFact, number: u64) -> bool
    ensures { (partitions : ℕ) → (IsTrue result ↔ IsFinishable (R.protocol partitions) decided ended number (reverse past.now)) }
{
    was::<R>(past, decided, number)
        && was_on_all::<R>(past, ended, number, actions_of::<R>(past, number))
}

/// Whether a Forget comes after the Done, by the pass that began the transaction.
pub fn forgets_late<R: Rules>(past: &[Event<R>], pass: u32, message: &Asked<R>) -> bool
    ensures { (partitions : ℕ) → (IsTrue result ↔ ForgetsLate (R.protocol partitions) (reverse past.now) pass message.now) }
{
    match message {
        Message::Forget { number } => {
            was::<R>(past, Fact::Finished, *number) && was_begun_by::<R>(past, pass, *number)
        }
        _ => true,
    }
}

/// Whether a change is sent to its index after a PeekOut showed it, and acknowledged after it was
/// sent.
pub fn feeds_in_order<R: Rules>(partitions: u32, past: &[Event<R>], message: &Asked<R>) -> bool
    requires { 1 ≤ partitions }
    ensures { (pass : ℕ) → (IsTrue result ↔ FeedsInOrder (R.protocol partitions) (reverse past.now) pass message.now) }
{
    match message {
        Message::ApplyIndex {
            source,
            sequence,
            index,
            row_key,
            after,
        } => { was_peeked::<R>(partitions, past, *source, *sequence, *index, row_key, after) }
        Message::Ack { source, sequence } => was_fed::<R>(past, *source, *sequence),
        _ => true,
    }
}

/// Whether a command is over all cells, and any other message at one.
pub fn has_its_reach<R: Rules>(cell: Option<u32>, message: &Asked<R>) -> bool
    ensures { (partitions : ℕ) → (IsTrue result ↔ HaveOneReach cell (sent_to (R.protocol partitions) message.now)) }
{
    match cell {
        None => is_command(message),
        Some(_cell) => !is_command(message),
    }
}

fn is_command<K, V, A, F, D, Q>(message: &Message<K, V, A, F, D, Q>) -> bool
    ensures { result ≡ is_command message.now }
{
    matches!(message, Message::Command { .. })
}
