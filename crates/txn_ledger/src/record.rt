//! What is kept of a transaction.

ghost use Rattle.std.specs.Prelude.{◌≡◌};
ghost use Rattle.txn_ledger.specs.Records.{begun, decided, fate_after};

use base_types::{Seq, Text};
use txn_core::{Fate, Stamp};

/// What is kept of a transaction until it is forgotten. `A` is an action, `Q` why an action was not accepted.
#[derive(Drop)]
pub struct Record<A, Q> {
    pub stamp: Stamp,
    /// What it was begun with.
    pub actions: Seq<A>,
    /// The token that it was begun with.
    pub token: Option<Text>,
    pub fate: Fate,
    /// Why it was cancelled, action by action.
    pub reasons: Seq<Q>,
    /// Whether each action was applied or released.
    pub done: bool,
}

impl<A, Q> Record<A, Q> {
    /// The record of a transaction that is begun.
    pub(crate) fn begun(stamp: Stamp, actions: Seq<A>, token: Option<Text>) -> Record<A, Q>
        ensures { result ≡ begun stamp actions token }
    {
        let reasons = Seq::new(actions.allocator());
        Record {
            stamp,
            actions,
            token,
            fate: Fate::Undecided,
            reasons,
            done: false,
        }
    }

    /// Decides the transaction where it is not decided yet. Answers the fate that stands then, and whether this set it.
    pub(crate) fn decide(&mut self, commit: bool, reasons: Seq<Q>) -> (Fate, bool)
    where
        Q: Drop,
        ensures fate { result ≡ fate_after self.old.fate commit }
        ensures decided { self.new ≡ decided commit reasons self.old }
    {
        if !matches!(self.fate, Fate::Undecided) {
            return (self.fate, false);
        }
        self.fate = if commit {
            Fate::Committed
        } else {
            Fate::Cancelled
        };
        self.reasons = reasons;
        (self.fate, true)
    }
}
