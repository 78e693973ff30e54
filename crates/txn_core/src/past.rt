//! What the entries before say: the calls of whoever reads a history, here and in the crates above.
//! The entries are given in order of time; the words of a history go by the newest first.
ghost use Rattle.std.specs.Prelude.{◌≡◌, ℕ, reverse};
ghost use Rattle.std.specs.List.{list_any};
ghost use Rattle.txn_core.specs.Serial.{begun_stamp, begun_actions};
ghost use Rattle.txn_core.specs.History.{effects, is_own_begin};
ghost use Rattle.txn_core.specs.Legal.{accepts, applies, releases, feeds};
ghost use Rattle.txn_core.specs.Replay.{tells, tells_on};

use crate::answer::Answer;
use crate::entry::Event;
use crate::fact::{Fact, ItemFact};
use crate::message::Message;
use crate::rules::Rules;
use crate::stamp::Stamp;

/// Whether an entry told this of the number.
pub fn was<R: Rules>(past: &[Event<R>], fact: Fact, number: u64) -> bool
    ensures { result ≡ list_any (λ e. tells fact number e.message e.answer) (reverse past.now) }
{
    for entry in past {
        if entry.tells(fact, number) {
            return true;
        }
    }
    false
}

/// Whether an entry told this of the number on the item.
pub fn was_on<R: Rules>(past: &[Event<R>], fact: ItemFact, number: u64, key: &R::Key) -> bool
    ensures { (partitions : ℕ) → result ≡ list_any (λ e. tells_on (R.protocol partitions) fact number key.now e.message e.answer) (reverse past.now) }
{
    for entry in past {
        if tells_on::<R>(entry, fact, number, key) {
            return true;
        }
    }
    false
}

fn tells_on<R: Rules>(entry: &Event<R>, fact: ItemFact, number: u64, key: &R::Key) -> bool
    ensures { (partitions : ℕ) → result ≡ tells_on (R.protocol partitions) fact number key.now entry.now.message entry.now.answer }
{
    match fact {
        ItemFact::Accepted => accepts::<R>(entry, number, key),
        ItemFact::Applied => applies::<R>(entry, number, key),
        ItemFact::Released => releases::<R>(entry, number, key),
    }
}

fn accepts<R: Rules>(entry: &Event<R>, number: u64, key: &R::Key) -> bool
    ensures { (partitions : ℕ) → result ≡ accepts (R.protocol partitions) number key.now entry.now.message entry.now.answer }
{
    match &entry.message {
        Message::Prepare {
            number: held,
            action,
            ..
        } => {
            *held == number
                && R::is_same(R::key_of(action), key)
                && matches!(entry.answer, Answer::Accepted)
        }
        _ => false,
    }
}

fn applies<R: Rules>(entry: &Event<R>, number: u64, key: &R::Key) -> bool
    ensures { (partitions : ℕ) → result ≡ applies (R.protocol partitions) number key.now entry.now.message entry.now.answer }
{
    match &entry.message {
        Message::Apply {
            number: applied,
            key: item,
        } => { *applied == number && R::is_same(item, key) }
        _ => false,
    }
}

fn releases<R: Rules>(entry: &Event<R>, number: u64, key: &R::Key) -> bool
    ensures { (partitions : ℕ) → result ≡ releases (R.protocol partitions) number key.now entry.now.message entry.now.answer }
{
    match &entry.message {
        Message::Release {
            number: released,
            key: item,
        } => { *released == number && R::is_same(item, key) }
        _ => false,
    }
}

/// Whether the pass's own Begin drew the number.
pub fn was_begun_by<R: Rules>(past: &[Event<R>], pass: u32, number: u64) -> bool
    ensures { result ≡ list_any (is_own_begin pass number) (reverse past.now) }
{
    for entry in past {
        if entry.is_own_begin(pass, number) {
            return true;
        }
    }
    false
}

/// Whether an ApplyIndex of this change in the source's outbox was sent.
pub fn was_fed<R: Rules>(past: &[Event<R>], source: u32, sequence: u64) -> bool
    ensures { (partitions : ℕ) → result ≡ list_any (λ e. feeds (R.protocol partitions) source sequence e.message e.answer) (reverse past.now) }
{
    for entry in past {
        if feeds::<R>(entry, source, sequence) {
            return true;
        }
    }
    false
}

fn feeds<R: Rules>(entry: &Event<R>, source: u32, sequence: u64) -> bool
    ensures { (partitions : ℕ) → result ≡ feeds (R.protocol partitions) source sequence entry.now.message entry.now.answer }
{
    match &entry.message {
        Message::ApplyIndex {
            source: fed,
            sequence: change,
            ..
        } => { *fed == source && *change == sequence }
        _ => false,
    }
}

/// The stamp with which the number was begun.
pub fn stamp_of<R: Rules>(past: &[Event<R>], number: u64) -> Stamp
    ensures { result ≡ begun_stamp (effects (reverse past.now)) number }
{
    let mut found = Stamp {
        moment: 0,
        number: 0,
    };
    for entry in past {
        found = entry.stamp_or(number, found);
    }
    found
}

/// The actions with which the number was begun.
pub fn actions_of<R: Rules>(past: &[Event<R>], number: u64) -> &[R::Action]
    ensures { result.now ≡ begun_actions (effects (reverse past.now)) number }
{
    let mut found: &[R::Action] = &[];
    for entry in past {
        found = entry.actions_or(number, found);
    }
    found
}
