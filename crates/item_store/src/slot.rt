//! What is kept of one item.

ghost use Rattle.std.specs.Prelude.{◌≡◌, ◌+◌, ◌<◌, ◌^◌, None, Some, IsSome};
ghost use Rattle.std.specs.Option.{option_copied};
ghost use Rattle.txn_core.specs.Answers.{is_holder};
ghost use Rattle.item_store.specs.Counts.{tally};
ghost use Rattle.item_store.specs.Ends.{committed_after, counted_after};
ghost use Rattle.item_store.specs.Slots.{committed_at, counted, holder_of, last_of, row_of, version_of};
ghost use Rattle.txn_core.specs.Stamps.{later};

use crate::counts::Counts;
use txn_core::Stamp;

/// A committed row.
#[derive(Drop)]
pub struct Committed<V> {
    /// The item.
    pub item: V,
    /// The stamp at which it was changed last.
    pub stamp: Stamp,
    /// The count of its cell's changes at that change.
    pub version: u64,
}

/// A transaction that holds an item.
#[derive(Drop)]
pub struct Pending<V> {
    /// The transaction's number.
    pub number: u64,
    /// The transaction's stamp.
    pub stamp: Stamp,
    /// The item as it will be, or none where it will be absent.
    pub image: Option<V>,
}

/// What is kept of an item that is there or held.
#[derive(Drop)]
pub struct Slot<V> {
    /// None where the item is absent.
    pub committed: Option<Committed<V>>,
    /// None where no transaction holds it.
    pub pending: Option<Pending<V>>,
}

/// How a transaction on an item ends.
#[derive(Clone, Copy, Drop)]
pub(crate) enum End {
    /// The item becomes what it was to be.
    Settle,
    /// The item stays as it is.
    LetGo,
}

/// The committed item of a slot.
pub fn row_of<V>(slot: Option<&Slot<V>>) -> Option<&V>
    ensures { option_copied result ≡ row_of (option_copied slot.entry) }
{
    match slot {
        None => None,
        Some(slot) => match &slot.committed {
            None => None,
            Some(committed) => Some(&committed.item),
        },
    }
}

/// The number of the transaction that holds the item of a slot.
pub fn holder_of<V>(slot: Option<&Slot<V>>) -> Option<u64>
    ensures { result ≡ holder_of (option_copied slot.entry) }
{
    match slot {
        None => None,
        Some(slot) => match &slot.pending {
            None => None,
            Some(pending) => Some(pending.number),
        },
    }
}

/// The stamp at which the item was changed last, or where it is absent, the cell's floor.
pub(crate) fn last<V>(floor: Stamp, slot: Option<&Slot<V>>) -> Stamp
    ensures { result ≡ last_of floor (option_copied slot.entry) }
{
    match slot {
        None => floor,
        Some(slot) => match &slot.committed {
            None => floor,
            Some(committed) => committed.stamp,
        },
    }
}

/// The version of the item, or where it is absent, that of its cell's last absence.
pub(crate) fn version<V>(gone: u64, slot: Option<&Slot<V>>) -> u64
    ensures { result ≡ version_of gone (option_copied slot.entry) }
{
    match slot {
        None => gone,
        Some(slot) => match &slot.committed {
            None => gone,
            Some(committed) => committed.version,
        },
    }
}

/// The item of a slot that is let go.
pub(crate) fn item_in<V: Drop>(slot: Option<Slot<V>>) -> Option<V>
    ensures { result ≡ row_of slot }
{
    let Slot { committed, .. } = slot?;
    let Committed { item, .. } = committed?;
    Some(item)
}

impl<V> Slot<V> {
    /// Whether the transaction of this number holds the item.
    pub(crate) fn is_held_by(&self, number: u64) -> bool
        ensures { result ≡ is_holder (holder_of (Some self.now)) number }
    {
        match &self.pending {
            None => false,
            Some(pending) => pending.number == number,
        }
    }

    /// Puts what is committed in the place of what was, at its stamp or at the later one of what was, and hands the item out
    /// that was there. What holds it stays.
    pub(crate) fn write(&mut self, floor: Stamp, committed: Committed<V>) -> Option<V>
    where
        V: Drop,
        ensures old { result ≡ row_of (Some self.old) }
        ensures new { self.new.committed
            ≡ committed_at (Some committed.item) (later (last_of floor (Some self.old)) committed.stamp) committed.version }
        ensures held { self.new.pending ≡ self.old.pending }
    {
        let last = last(floor, Some(self));
        let Committed {
            item,
            stamp,
            version,
        } = committed;
        let committed = Committed {
            item,
            stamp: last.later(stamp),
            version,
        };
        let Committed { item, .. } = self.committed.replace(committed)?;
        Some(item)
    }

    /// Ends the transaction that holds the item. It takes no memory.
    pub(crate) fn end(&mut self, end: End, counts: &mut Counts)
    where
        V: Drop,
        requires held { IsSome self.old.pending }
        requires room { counts.old.count + 1 < 2 ^ 64 }
        ensures new { self.new.committed ≡ committed_after end (tally counts.old) (Some self.old) }
        ensures free { self.new.pending ≡ None }
        ensures counts { tally counts.new ≡ counted_after end (tally counts.old) (Some self.old) }
    {
        let Some(pending) = self.pending.take() else {
            unreachable!()
        };
        match end {
            End::Settle => self.settle(pending, counts),
            End::LetGo => drop(pending),
        }
    }

    /// Makes the item what a transaction made it, at that one's stamp.
    fn settle(&mut self, pending: Pending<V>, counts: &mut Counts)
    where
        V: Drop,
        requires room { counts.old.count + 1 < 2 ^ 64 }
        ensures new { self.new.committed ≡ committed_at pending.image pending.stamp (counts.old.count + 1) }
        ensures held { self.new.pending ≡ self.old.pending }
        ensures counts { tally counts.new ≡ counted (tally counts.old) (Some self.old) pending.image pending.stamp }
    {
        let Pending { stamp, image, .. } = pending;
        match image {
            Some(item) => {
                let version = counts.count + 1;
                self.committed = Some(Committed {
                    item,
                    stamp,
                    version,
                });
                counts.count = version;
            }
            None => {
                let last = last(counts.floor, Some(self));
                self.committed = None;
                *counts = counts.left_absent(last, stamp);
            }
        }
    }
}
