//! Lists of held items, which may stand in any order.

ghost use Rattle.std.specs.Prelude.{◌≡◌, ◌&&◌, ◌==◌, ℕ};
ghost use Rattle.std.specs.List.{list_any};
ghost use Rattle.txn_replay.specs.Held.{are_among, are_once, is_hold, is_listed, TellsPendings};

use txn_core::{Answer, HeldItem, Reply, Rules};

/// Whether both are one item, held by one transaction.
fn is_hold<R: Rules>(held: &HeldItem<R::Key>, other: &HeldItem<R::Key>) -> bool
    ensures { (n : ℕ) → result ≡ is_hold (R.protocol n).core held.now other.now }
{
    R::is_same(&other.key, &held.key) && other.number == held.number
}

/// Whether it is one of these.
fn is_listed<R: Rules>(held: &HeldItem<R::Key>, others: &[HeldItem<R::Key>]) -> bool
    ensures { (n : ℕ) → result ≡ is_listed (R.protocol n).core others.now held.now }
{
    for other in others {
        if is_hold::<R>(held, other) {
            return true;
        }
    }
    false
}

/// Whether each of these is one of the others.
fn are_among<R: Rules>(pendings: &[HeldItem<R::Key>], others: &[HeldItem<R::Key>]) -> bool
    ensures { (n : ℕ) → result ≡ are_among (R.protocol n).core pendings.now others.now }
{
    for held in pendings {
        if !is_listed::<R>(held, others) {
            return false;
        }
    }
    true
}

/// Whether another of these is the item.
fn is_again<R: Rules>(key: &R::Key, others: &[HeldItem<R::Key>]) -> bool
    ensures { (n : ℕ) → result ≡ list_any (λ p. (R.protocol n).core.same key.now p.key) others.now }
{
    for held in others {
        if R::is_same(key, &held.key) {
            return true;
        }
    }
    false
}

/// Whether no two of these are one item.
fn are_once<R: Rules>(pendings: &[HeldItem<R::Key>]) -> bool
    ensures { (n : ℕ) → result ≡ are_once (R.protocol n).core pendings.now }
{
    let mut rest = pendings;
    while let Some((first, others)) = rest.split_first() {
        if is_again::<R>(&first.key, others) {
            return false;
        }
        rest = others;
    }
    true
}

/// Whether both list the same items, where the first list has none twice.
fn are_same<R: Rules>(given: &[HeldItem<R::Key>], told: &[HeldItem<R::Key>]) -> bool
    ensures { (n : ℕ) → result ≡ (are_among (R.protocol n).core told.now given.now
        && (are_among (R.protocol n).core given.now told.now && are_once (R.protocol n).core told.now)) }
{
    are_among::<R>(told, given) && are_among::<R>(given, told) && are_once::<R>(told)
}

/// Whether a Pendings may be told so too, where this is what it was given as its answer.
pub(crate) fn are_same_pendings<R: Rules>(given: &Reply<R>, told: &Reply<R>) -> bool
    ensures { (n : ℕ) → TellsPendings (R.protocol n) given.now told.now result }
{
    let Answer::PendingList { pendings } = given else {
        return false;
    };
    match told {
        Answer::PendingList { pendings: others } => {
            are_same::<R>(pendings.as_slice(), others.as_slice())
        }
        _ => false,
    }
}
