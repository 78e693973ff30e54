//! Who walks: what he was told, and what he asks then. He sends nothing that the protocol forbids.

ghost use Rattle.std.specs.Prelude.{◌≤◌};

use crate::asks::{Ask, Change, Verdict};
use crate::choices::{action, beginning, below, command, expiration, key, name, page};
use crate::kinds::{KINDS, Kind};
use case_rules::{Action, Shop};
use rand_pcg::Pcg32;
use std::alloc::{AllocError as NoMemory, Global};
use txn_core::{Answer, Fate, Reply, Stamp};

/// How many transactions are under way at once.
const PLACES: u32 = 4;

/// One of the two actions of a transaction.
#[derive(Clone, Copy)]
struct Part {
    action: Action,
    verdict: Verdict,
    // Whether its last message was sent.
    is_ended: bool,
}

/// A transaction, and what was told of it.
#[derive(Clone, Copy)]
struct Transaction {
    // The pass that began it.
    pass: u32,
    number: u64,
    stamp: Stamp,
    first: Part,
    second: Part,
    fate: Fate,
    is_done: bool,
}

/// Who walks.
#[derive(Drop)]
pub(crate) struct Walker {
    random: Pcg32,
    transactions: Vec<Transaction>,
    // The pass that asks.
    pass: u32,
    // The place of the transaction that was chosen last, and of its action.
    place: usize,
    is_second: bool,
    // The change that was shown last, and the number of the one that was sent to its index last.
    shown: Option<Change>,
    fed: Option<u64>,
}

impl Part {
    fn new(action: Action) -> Part {
        Part {
            action,
            verdict: Verdict::Untold,
            is_ended: false,
        }
    }
}

impl Transaction {
    fn new(pass: u32, number: u64, stamp: Stamp, first: Action, second: Action) -> Transaction {
        Transaction {
            pass,
            number,
            stamp,
            first: Part::new(first),
            second: Part::new(second),
            fate: Fate::Undecided,
            is_done: false,
        }
    }

    fn part(&self, is_second: bool) -> Part {
        if is_second { self.second } else { self.first }
    }

    fn prepare(&self, is_second: bool) -> Ask {
        let action = self.part(is_second).action;
        Ask::Prepare(self.stamp, action)
    }

    /// What comes next on the way to its end, as far as this action goes.
    fn step(&self, is_second: bool) -> Option<Ask> {
        let part = self.part(is_second);
        match self.fate {
            Fate::Undecided if matches!(part.verdict, Verdict::Untold) => {
                Some(self.prepare(is_second))
            }
            Fate::Undecided => self.decide(),
            _ if part.is_ended => self.done(),
            _ => self.finish(is_second),
        }
    }

    /// A Decide, where there is a ground for it.
    fn decide(&self) -> Option<Ask> {
        match (self.first.verdict, self.second.verdict) {
            (Verdict::Accepted, Verdict::Accepted) => Some(Ask::Commit(self.number)),
            (Verdict::Stale, _) | (_, Verdict::Stale) => {
                Some(Ask::CancelTwo(self.number, Verdict::Stale, Verdict::Stale))
            }
            (Verdict::Untold, _) | (_, Verdict::Untold) => None,
            (first, second) => Some(Ask::CancelTwo(self.number, first, second)),
        }
    }

    /// The last message of an action, once there is a decision.
    fn finish(&self, is_second: bool) -> Option<Ask> {
        let key = self.part(is_second).action.key;
        match self.fate {
            Fate::Committed => Some(Ask::Apply(self.number, key)),
            Fate::Cancelled => Some(Ask::Release(self.number, key)),
            _ => None,
        }
    }

    fn done(&self) -> Option<Ask> {
        if self.first.is_ended && self.second.is_ended {
            Some(Ask::Done(self.number))
        } else {
            None
        }
    }

    fn forget(&self, pass: u32) -> Option<Ask> {
        if self.is_done && self.pass == pass {
            Some(Ask::Forget(self.number))
        } else {
            None
        }
    }

    /// Takes down what an action was told, until the transaction is decided.
    fn took_verdict(&mut self, is_second: bool, verdict: Verdict) {
        if !matches!(self.fate, Fate::Undecided) {
            return;
        }
        if is_second {
            self.second.verdict = verdict;
        } else {
            self.first.verdict = verdict;
        }
    }

    fn took_fate(&mut self, fate: Fate) {
        if matches!(self.fate, Fate::Undecided) {
            self.fate = fate;
        }
    }

    fn took_end(&mut self, is_second: bool) {
        if is_second {
            self.second.is_ended = true;
        } else {
            self.first.is_ended = true;
        }
    }
}

/// What the answer to a Prepare says of its action.
fn verdict_of(reply: &Reply<Shop>) -> Verdict {
    match reply {
        Answer::Accepted => Verdict::Accepted,
        Answer::CondFalse { old } => Verdict::Unmet(*old),
        Answer::Held { number } => Verdict::Held(*number),
        Answer::Late { stamp } => Verdict::Late(*stamp),
        Answer::Invalid { fault } => Verdict::Invalid(*fault),
        Answer::Stale => Verdict::Stale,
        _ => Verdict::Untold,
    }
}

impl Walker {
    pub(crate) fn new(alloc: Global, seed: u64) -> Walker {
        Walker {
            random: Pcg32::new(seed, 54),
            transactions: Vec::new(alloc),
            pass: 0,
            place: 0,
            is_second: false,
            shown: None,
            fed: None,
        }
    }

    /// How much time goes by until the next message, in microseconds: under two seconds.
    pub(crate) fn pause(&mut self) -> u64 {
        u64::from(below(&mut self.random, 1_500_000))
    }

    /// Which of the two passes asked last.
    pub(crate) fn pass(&self) -> u32 {
        self.pass
    }

    /// What is asked next.
    pub(crate) fn choose(&mut self) -> Ask {
        self.pass = below(&mut self.random, 2);
        self.place = below(&mut self.random, PLACES) as usize;
        self.is_second = below(&mut self.random, 2) == 0;
        let kind = KINDS[below(&mut self.random, 64) as usize];
        match self.allowed(kind) {
            Some(ask) => ask,
            None => self.of_number(kind),
        }
    }

    /// A message of this kind, where one may be sent.
    fn allowed(&mut self, kind: Kind) -> Option<Ask> {
        match kind {
            Kind::Begin => self.begin(),
            Kind::Step | Kind::Prepare | Kind::Decide => self.of_transaction(kind),
            Kind::Finish | Kind::Done | Kind::Forget => self.of_transaction(kind),
            Kind::Fate | Kind::Recall => Some(self.of_number(kind)),
            Kind::Feed => match self.shown {
                Some(change) => Some(Ask::Feed(change)),
                None => None,
            },
            Kind::Ack => match self.fed {
                Some(sequence) => Some(Ask::Ack(sequence)),
                None => None,
            },
            _ => Some(self.of_tables(kind)),
        }
    }

    fn of_tables(&mut self, kind: Kind) -> Ask {
        let random = &mut self.random;
        match kind {
            Kind::Version => Ask::Version(key(random)),
            Kind::Write => Ask::Write(action(random)),
            Kind::Expire => Ask::Expire(expiration(random)),
            Kind::Due => Ask::Due(below(random, 4)),
            Kind::Query => Ask::Query(page(random)),
            Kind::Scan => Ask::Scan(page(random)),
            Kind::Pendings => Ask::Pendings,
            Kind::Peek => Ask::Peek,
            Kind::Unfinished => Ask::Unfinished,
            Kind::Number => Ask::Number(name(random)),
            Kind::Command => Ask::Command(command(random)),
            _ => Ask::Get(key(random)),
        }
    }

    /// Of any number that may have been drawn.
    fn of_number(&mut self, kind: Kind) -> Ask {
        let number = u64::from(below(&mut self.random, 200));
        match kind {
            Kind::Fate => Ask::Fate(number),
            _ => Ask::Recall(number),
        }
    }

    /// A Begin, where the transaction at the place is done.
    fn begin(&mut self) -> Option<Ask> {
        if let Some(found) = self.transactions.get(self.place) {
            if !found.is_done {
                return None;
            }
        }
        let (token, (first, second)) = beginning(&mut self.random);
        Some(Ask::BeginTwo(token, first, second))
    }

    /// A message on the transaction at the place.
    fn of_transaction(&self, kind: Kind) -> Option<Ask> {
        let found = self.transactions.get(self.place)?;
        match kind {
            Kind::Step => found.step(self.is_second),
            Kind::Prepare => Some(found.prepare(self.is_second)),
            Kind::Decide => found.decide(),
            Kind::Finish => found.finish(self.is_second),
            Kind::Done => found.done(),
            _ => found.forget(self.pass),
        }
    }

    /// Takes down what the answer tells.
    pub(crate) fn note(&mut self, ask: Ask, reply: &Reply<Shop>) -> Result<(), NoMemory> {
        match (ask, reply) {
            (Ask::BeginTwo(_, first, second), Answer::Begun { number, stamp }) => {
                let begun = Transaction::new(self.pass, *number, *stamp, first, second);
                self.put(begun)?;
            }
            (
                Ask::Peek,
                Answer::Out {
                    sequence,
                    index,
                    row_key,
                    after,
                    ..
                },
            ) => {
                self.shown = Some(Change {
                    source: 0,
                    sequence: *sequence,
                    index: *index,
                    row_key: *row_key,
                    after: *after,
                });
            }
            (Ask::Feed(change), _) => self.fed = Some(change.sequence),
            _ => self.note_step(ask, reply),
        }
        Ok(())
    }

    /// Puts a transaction at the place, or behind all others.
    fn put(&mut self, transaction: Transaction) -> Result<(), NoMemory> {
        match self.transactions.get_mut(self.place) {
            Some(found) => *found = transaction,
            None => self.transactions.push(transaction)?,
        }
        Ok(())
    }

    fn note_step(&mut self, ask: Ask, reply: &Reply<Shop>) {
        let is_second = self.is_second;
        let Some(found) = self.transactions.get_mut(self.place) else {
            return;
        };
        match (ask, reply) {
            (Ask::Prepare(..), _) => found.took_verdict(is_second, verdict_of(reply)),
            (Ask::Commit(_) | Ask::CancelTwo(..), Answer::Decided { fate, .. }) => {
                found.took_fate(*fate);
            }
            (Ask::Apply(..) | Ask::Release(..), _) => found.took_end(is_second),
            (Ask::Done(_), Answer::Finished) => found.is_done = true,
            _ => {}
        }
    }
}
