ghost use Rattle.std.specs.Prelude.{◌≡◌, []};
ghost use Rattle.txn_core.specs.Course.{Told, IsToldSo, next_move, with_verdict, with_fate, with_done};

use crate::fate::Fate;
use crate::verdict::Verdict;

/// What a driver of a transaction does next. An action is named by its place in the transaction,
/// from 0.
#[derive(Clone, Copy, PartialEq, Eq, Debug, Drop)]
pub enum Move {
    /// Ask the cell of this action's item to accept the action.
    Prepare(u32),
    /// Decide that the transaction is committed.
    Commit,
    /// Decide that the transaction is cancelled.
    Cancel,
    /// Carry out this action of a committed transaction.
    Apply(u32),
    /// Let this action's item go, after a cancel.
    Release(u32),
    /// Tell the ledger that each action was applied or released.
    Done,
    /// Nothing is left to do.
    End,
}

/// The way of one transaction from its begin to its end: what was told so far decides what comes
/// next.
///
/// Every action is prepared, also after one was refused, since a cancellation names the reason of
/// each item. Then the transaction is decided: committed where every action was accepted, else
/// cancelled. Then each action is applied or released, by the fate that stands, and at last Done is
/// sent. A driver may begin in the middle: it tells the fate that it found, and the course goes on
/// from there.
#[derive(Clone, Copy, Debug, Drop)]
pub struct Course {
    actions: u32,
    prepared: u32,
    is_refused: bool,
    fate: Fate,
    done: u64,
}

impl Course {
    /// The course of a transaction of so many actions, of which nothing was told yet.
    pub fn start(actions: u32) -> Course
        ensures { IsToldSo result (record { actions = actions; verdicts = []; fate = Fate.Undecided; done = 0 }) }
    {
        Course {
            actions,
            prepared: 0,
            is_refused: false,
            fate: Fate::Undecided,
            done: 0,
        }
    }

    /// What comes next. It stays the same until something is told.
    pub fn next(&self) -> Move
        ensures { (told : Told) → IsToldSo self.now told → result ≡ next_move told }
    {
        match self.fate {
            Fate::Undecided if self.prepared < self.actions => Move::Prepare(self.prepared),
            Fate::Undecided if self.is_refused => Move::Cancel,
            Fate::Undecided => Move::Commit,
            Fate::Committed if self.done < u64::from(self.actions) => Move::Apply(self.done as u32),
            Fate::Cancelled if self.done < u64::from(self.actions) => Move::Release(
                self.done as u32,
            ),
            Fate::Committed | Fate::Cancelled if self.done == u64::from(self.actions) => Move::Done,
            Fate::Committed | Fate::Cancelled | Fate::Gone => Move::End,
        }
    }

    /// Takes the verdict on the action whose Prepare comes next. Where no Prepare does, nothing
    /// changes.
    pub fn took_verdict(&mut self, verdict: Verdict)
        ensures { (told : Told) → IsToldSo self.old told → IsToldSo self.new (with_verdict told verdict) }
    {
        if matches!(self.fate, Fate::Undecided) && self.prepared < self.actions {
            self.prepared += 1;
            if !matches!(verdict, Verdict::Accepted) {
                self.is_refused = true;
            }
        }
    }

    /// Takes the transaction's fate, as a Decide or the recalled record told it. The first one that
    /// isn't Undecided stands, and a later one changes nothing.
    pub fn took_fate(&mut self, fate: Fate)
        ensures { (told : Told) → IsToldSo self.old told → IsToldSo self.new (with_fate told fate) }
    {
        if matches!(self.fate, Fate::Undecided) {
            self.fate = fate;
        }
    }

    /// Takes that the Apply, the Release or the Done that comes next was done. Where none of them
    /// does, nothing changes.
    pub fn took_done(&mut self)
        ensures { (told : Told) → IsToldSo self.old told → IsToldSo self.new (with_done told) }
    {
        if matches!(self.fate, Fate::Committed | Fate::Cancelled)
            && self.done <= u64::from(self.actions)
        {
            self.done += 1;
        }
    }
}
