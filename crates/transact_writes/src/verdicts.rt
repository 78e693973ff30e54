//! What became of the actions of a transaction, one after the other.

ghost use Rattle.std.specs.Prelude.{◌≡◌, [], false, IfOk, OnOk};
ghost use Rattle.transact_writes.specs.Verdicts.{no_verdicts, with_verdict, settled};

use base_types::Seq;
use numbered_tables::TableChange;
use std::alloc::{AllocError as NoMemory, Global};
use table_model::Reason;

/// What is made of an action: a change, none by a check, or the reason why it is not accepted.
pub(crate) type Verdict = Result<Option<TableChange>, Reason>;

/// The verdicts so far.
#[derive(Drop)]
pub(crate) struct Verdicts {
    /// Those of the accepted actions.
    changes: Seq<TableChange>,
    /// One of each action.
    reasons: Seq<Reason>,
    /// Whether an action was not accepted.
    is_cancelled: bool,
}

impl Verdicts {
    /// No verdicts, with room for those of this many actions.
    pub(crate) fn new(alloc: Global, actions: usize) -> Result<Verdicts, NoMemory>
        ensures { IfOk result (λ verdicts. verdicts ≡ no_verdicts) }
    {
        Ok(Verdicts {
            changes: Seq::with_capacity(alloc, actions)?,
            reasons: Seq::with_capacity(alloc, actions)?,
            is_cancelled: false,
        })
    }

    /// Adds the verdict of the next action.
    pub(crate) fn add(&mut self, verdict: Verdict) -> Result<(), NoMemory>
        ensures { OnOk result (self.new ≡ with_verdict self.old verdict) }
    {
        match verdict {
            Ok(Some(change)) => {
                self.changes.push(change)?;
                self.reasons.push(Reason::None)?;
            }
            Ok(None) => self.reasons.push(Reason::None)?,
            Err(reason) => {
                self.reasons.push(reason)?;
                self.is_cancelled = true;
            }
        }
        Ok(())
    }

    /// The changes, where all actions are accepted, and the reasons otherwise.
    pub(crate) fn settled(self) -> Result<Seq<TableChange>, Seq<Reason>>
        ensures { result ≡ settled self }
    {
        if self.is_cancelled {
            Err(self.reasons)
        } else {
            Ok(self.changes)
        }
    }
}
