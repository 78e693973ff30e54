ghost use Rattle.std.specs.Prelude.{◌≡◌};
ghost use Rattle.txn_core.specs.History.{begins, commits, cancels, finishes, forgets, finds_no_table, is_own_begin, effect};
ghost use Rattle.txn_core.specs.Replay.{tells, stamp_by, actions_by};

use crate::answer::Answer;
use crate::fact::Fact;
use crate::fate::Fate;
use crate::message::Message;
use crate::rules::Rules;
use crate::stamp::Stamp;

/// One step of a history: which pass took it, at which cell, what it asked and what it was
/// answered, and when.
#[derive(Drop)]
pub struct Entry<K, V, A, F, D, Q, B> {
    /// The number of the pass.
    pub pass: u32,
    /// The cell, or none where the entry is over all cells.
    pub cell: Option<u32>,
    /// What was asked.
    pub message: Message<K, V, A, F, D, Q>,
    /// What was answered.
    pub answer: Answer<K, V, A, F, B>,
    /// Microseconds since 1970-01-01T00:00:00Z.
    pub moment: u64,
}

/// What is asked, with the keys, values and actions of these rules.
pub type Asked<R> = Message<
    <R as Rules>::Key,
    <R as Rules>::Value,
    <R as Rules>::Action,
    <R as Rules>::Fault,
    <R as Rules>::Command,
    <R as Rules>::Question,
>;

/// What is answered, with the keys, values and actions of these rules.
pub type Reply<R> = Answer<
    <R as Rules>::Key,
    <R as Rules>::Value,
    <R as Rules>::Action,
    <R as Rules>::Fault,
    <R as Rules>::Told,
>;

/// An entry with the keys, values and actions of these rules.
pub type Event<R> = Entry<
    <R as Rules>::Key,
    <R as Rules>::Value,
    <R as Rules>::Action,
    <R as Rules>::Fault,
    <R as Rules>::Command,
    <R as Rules>::Question,
    <R as Rules>::Told,
>;

impl<K, V, A, F, D, Q, B> Entry<K, V, A, F, D, Q, B> {
    /// Whether it tells this of the number.
    pub fn tells(&self, fact: Fact, number: u64) -> bool
        ensures { result ≡ tells fact number self.now.message self.now.answer }
    {
        match fact {
            Fact::Begun => self.begins(number),
            Fact::Committed => self.commits(number),
            Fact::Cancelled => self.cancels(number),
            Fact::Finished => self.finishes(number),
            Fact::Forgotten => self.forgets(number),
            Fact::NoTable => self.finds_no_table(number),
        }
    }

    fn begins(&self, number: u64) -> bool
        ensures { result ≡ begins number self.now.message self.now.answer }
    {
        matches!(self.message, Message::Begin { .. })
            && matches!(self.answer, Answer::Begun { number: drawn, .. } if drawn == number)
    }

    fn commits(&self, number: u64) -> bool
        ensures { result ≡ commits number self.now.message self.now.answer }
    {
        matches!(self.message, Message::Decide { number: decided, .. } if decided == number)
            && matches!(
                self.answer,
                Answer::Decided {
                    fate: Fate::Committed,
                    ..
                }
            )
    }

    fn cancels(&self, number: u64) -> bool
        ensures { result ≡ cancels number self.now.message self.now.answer }
    {
        matches!(self.message, Message::Decide { number: decided, .. } if decided == number)
            && matches!(
                self.answer,
                Answer::Decided {
                    fate: Fate::Cancelled,
                    ..
                }
            )
    }

    fn finishes(&self, number: u64) -> bool
        ensures { result ≡ finishes number self.now.message self.now.answer }
    {
        matches!(self.message, Message::Done { number: done } if done == number)
            && matches!(self.answer, Answer::Finished)
    }

    fn forgets(&self, number: u64) -> bool
        ensures { result ≡ forgets number self.now.message self.now.answer }
    {
        matches!(self.message, Message::Forget { number: forgotten } if forgotten == number)
            && matches!(self.answer, Answer::Forgotten)
    }

    fn finds_no_table(&self, number: u64) -> bool
        ensures { result ≡ finds_no_table number self.now.message self.now.answer }
    {
        matches!(self.message, Message::Prepare { number: held, .. } if held == number)
            && matches!(self.answer, Answer::Stale)
    }

    /// The stamp with which the number was begun, where this is its Begin, else the older one.
    pub fn stamp_or(&self, number: u64, older: Stamp) -> Stamp
        ensures { result ≡ stamp_by number (effect self.now) older }
    {
        match (&self.message, &self.answer) {
            (Message::Begin { .. }, Answer::Begun { stamp, .. }) if stamp.number == number => {
                *stamp
            }
            _ => older,
        }
    }

    /// The actions with which the number was begun, where this is its Begin, else the older ones.
    pub fn actions_or<'a>(&'a self, number: u64, older: &'a [A]) -> &'a [A]
        ensures { result.now ≡ actions_by number (effect self.now) older.now }
    {
        match (&self.message, &self.answer) {
            (Message::Begin { actions, .. }, Answer::Begun { stamp, .. })
                if stamp.number == number => { actions.as_slice() }
            _ => older,
        }
    }

    /// Whether it is the pass's own Begin, and drew the number.
    pub fn is_own_begin(&self, pass: u32, number: u64) -> bool
        ensures { result ≡ is_own_begin pass number self.now }
    {
        self.pass == pass && self.begins(number)
    }
}
