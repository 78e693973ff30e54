//! The changes that wait for other cells.

ghost use Rattle.std.specs.Prelude.{◌≡◌, ◌+◌, ◌∷◌, ◌++◌, ◌≤◌, ◌<◌, ◌^◌, [], OnOk, OnErr, option_map};
ghost use Rattle.std.specs.VecDeque.{deque_capacity, deque_len};
ghost use Rattle.index_feed.specs.Feed.{peek};
ghost use Rattle.global_index.specs.Outboxes.{has_first, shown};

use index_feed::Change;
use std::alloc::{AllocError as NoMemory, Global};
use std::collections::VecDeque;

/// The changes of index rows that a cell's items gave rise to and that were not acknowledged yet, the oldest first, each
/// under a number: the first has the number after those that were acknowledged.
///
/// A change wants a place that was set aside for it: a place in memory, and a number.
#[derive(Drop)]
pub struct Outbox<K, V> {
    waiting: VecDeque<Change<K, V>>,
    sent: u64,
    set_aside: usize,
    ghost places: { deque_len waiting + set_aside ≤ deque_capacity waiting },
    ghost numbers: { sent + deque_len waiting + set_aside < 2 ^ 64 },
}

impl<K, V> Outbox<K, V> {
    ghost use Rattle.global_index.specs.Changes.{Acknowledges, Same};

    /// Nothing waits.
    pub fn new(alloc: Global) -> Outbox<K, V>
        ensures waiting { result.waiting.items ≡ [] }
        ensures sent { result.sent ≡ 0 }
        ensures set_aside { result.set_aside ≡ 0 }
    {
        Outbox {
            waiting: VecDeque::new(alloc),
            sent: 0,
            set_aside: 0,
        }
    }

    /// The first change that waits, and its number.
    pub fn first(&self) -> Option<(u64, &Change<K, V>)>
        ensures { option_map shown result ≡ peek self.now.sent self.now.waiting.items }
    {
        let change = self.waiting.front()?;
        Some((self.sent + 1, change))
    }

    /// How many places are set aside.
    pub fn places(&self) -> usize
        ensures { result ≡ self.now.set_aside }
    {
        self.set_aside
    }

    /// Sets places aside for changes to come. `NoMemory` also where there are not so many numbers left.
    pub fn set_aside(&mut self, count: usize) -> Result<(), NoMemory>
        ensures same { Same self.old self.new }
        ensures ok { OnOk result (self.new.set_aside ≡ self.old.set_aside + count) }
        ensures err { OnErr result (self.new.set_aside ≡ self.old.set_aside) }
    {
        if count as u64 > self.numbers_left() {
            return Err(NoMemory);
        }
        let set_aside = self.set_aside + count;
        self.waiting.reserve(set_aside)?;
        self.set_aside = set_aside;
        Ok(())
    }

    /// Gives places back that were set aside.
    pub fn give_back(&mut self, count: usize)
        requires { count ≤ self.old.set_aside }
        ensures same { Same self.old self.new }
        ensures rest { self.new.set_aside + count ≡ self.old.set_aside }
    {
        self.set_aside -= count;
    }

    /// Lets a change wait behind the others, in a place that was set aside. It takes no memory.
    pub fn queue(&mut self, change: Change<K, V>)
        requires { 1 ≤ self.old.set_aside }
        ensures waiting { self.new.waiting.items ≡ self.old.waiting.items ++ change ∷ [] }
        ensures sent { self.new.sent ≡ self.old.sent }
        ensures rest { self.new.set_aside + 1 ≡ self.old.set_aside }
    {
        self.set_aside -= 1;
        self.waiting.push_back_reserved(change);
    }

    /// Takes the first change out where it has this number, and answers whether it has.
    pub fn acknowledge(&mut self, sequence: u64) -> bool
    where
        K: Drop,
        V: Drop,
        ensures first { result ≡ has_first self.old.sent self.old.waiting.items sequence }
        ensures acknowledged { Acknowledges self.old self.new sequence }
        ensures rest { self.new.set_aside ≡ self.old.set_aside }
    {
        if self.waiting.is_empty() || sequence != self.sent + 1 {
            return false;
        }
        drop(self.waiting.pop_front());
        self.sent = sequence;
        true
    }

    /// How many numbers are neither taken nor set aside.
    fn numbers_left(&self) -> u64
        ensures { result + self.now.sent + deque_len self.now.waiting + self.now.set_aside + 1 ≡ 2 ^ 64 }
    {
        u64::MAX - self.sent - self.waiting.len() as u64 - self.set_aside as u64
    }
}
