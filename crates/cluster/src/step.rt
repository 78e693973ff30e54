//! One step: the turn of a cell is taken, the cell answers a message, and the entry is counted.

ghost use Rattle.std.specs.Prelude.{◌≡◌, ◌≢◌, ◌↔◌, ◌≤◌, true, false, Some, [], ◌∷◌, reverse, IfOk, Err};
ghost use Rattle.turnstile.specs.Histories.{Ends, IsTimely, at_cell};
ghost use Rattle.turnstile.specs.Kept.{ticket};
ghost use Rattle.turnstile.specs.Passes.{most_units};
ghost use Rattle.txn_core.specs.Cells.{of_cell};
ghost use Rattle.txn_core.specs.Legal.{sent_to};
ghost use Rattle.txn_core.specs.Memory.{takes_no_memory};
ghost use Rattle.cluster.specs.Events.{cell_of, event_of, moment_of, pass_of};
ghost use Rattle.cluster.specs.World.{IsLegalLog};
ghost use Rattle.cluster.specs.Standing.{StandsFor};
ghost use Rattle.cluster.specs.Serving.{IsServedAt};
ghost use Rattle.cluster.specs.Steps.{Adds, AddsNone, Fits, IsAtRest, MayAsk, partitions_of};

use crate::serve::serve;
use crate::world::TableWorld;
use partition::PageRules;
use std::alloc::{AllocError as NoMemory, Global};
use std::marker::Brand;
use std::snapshot::Snapshot;
use std::sync::Wait;
use turnstile::{EntryOf, Pass, Turn, Turnstile};
use txn_core::{Asked, Event, Reply};

/// Why a step was not taken.
#[derive(Clone, Copy, Debug, PartialEq, Eq)]
pub enum StepError {
    /// The budget of the pass is used up.
    Spent,
    /// Memory was refused, or a number was not left.
    NoMemory,
}

impl From<NoMemory> for StepError {
    ghost use Rattle.cluster.specs.declared.step.StepError.TheVariants as error;

    ghost from_gives = { λ _ why. why ≡ error.NoMemory };

    fn from(_: NoMemory) -> StepError {
        StepError::NoMemory
    }
}

// Counts that a message was answered so.
fn count<E: EntryOf<TableWorld<R>, Event<R>>, R: PageRules>(
    turnstile: &Turnstile<TableWorld<R>>,
    pass: &mut Pass<TableWorld<R>>,
    turn: &mut Turn<TableWorld<R>>,
    asked: &Snapshot<Asked<R>>,
    answer: &Reply<R>,
)
    requires of { pass.old.turnstile ≡ turnstile.now.id }
    requires turn { pass.old.turns ≡ ticket turn.old.cell turn.old.number ∷ [] }
    requires once { turn.old.counted ≡ false }
    requires entry { E.entry ≡ event_of pass.old (Some turn.old.cell) asked.now.value answer.now }
    requires fits { Fits (R.protocol (partitions_of turnstile.now)) turnstile.now.id.slots pass.old.front
        (event_of pass.old (Some turn.old.cell) asked.now.value answer.now) }
    requires stands { StandsFor (R.protocol (partitions_of turnstile.now)) R.locals turn.old.cell turn.old.value.value
        (event_of pass.old (Some turn.old.cell) asked.now.value answer.now ∷ of_cell turn.old.cell (reverse pass.old.front)) }
    ensures pass { pass.new ≡ record pass.old { front = pass.new.front } }
    ensures turn { turn.new ≡ record turn.old { counted = true } }
    ensures ends { Ends pass_of pass.old.number pass.old.front (event_of pass.old (Some turn.old.cell) asked.now.value answer.now) pass.new.front }
    ensures stands { StandsFor (R.protocol (partitions_of turnstile.now)) R.locals turn.new.cell turn.new.value.value
        (reverse (at_cell cell_of turn.new.cell pass.new.front)) }
{
    turnstile.commit_entry::<E>(pass, turn);
}

/// Tells what holds of a pass.
pub(crate) fn facts<R: PageRules>(turnstile: &Turnstile<TableWorld<R>>, pass: &Pass<TableWorld<R>>)
    requires { pass.now.turnstile ≡ turnstile.now.id }
    ensures legal { IsLegalLog (R.protocol (partitions_of turnstile.now)) pass.now.front }
    ensures timely { IsTimely pass_of moment_of pass.now.number pass.now.moment pass.now.front }
{
    let _ = turnstile;
    pass.facts();
}

/// Has a cell answer a message that it serves by itself, at the moment of the pass and for one unit of it.
pub(crate) fn ask<R: PageRules, T: Wait>(
    turnstile: &Turnstile<TableWorld<R>>,
    rt: &T,
    alloc: Global,
    pass: &mut Pass<TableWorld<R>>,
    cell: u32,
    message: Asked<R>,
) -> Result<Reply<R>, StepError>
where
    R::Fault: Copy,
    requires cells { 2 ≤ turnstile.now.id.slots }
    requires rests { IsAtRest turnstile.now pass.old }
    requires served { IsServedAt (R.protocol (partitions_of turnstile.now)) cell message }
    requires sent { sent_to (R.protocol (partitions_of turnstile.now)) message ≡ Some cell }
    requires may { MayAsk (R.protocol (partitions_of turnstile.now)) pass.old message }
    ensures ok { IfOk result (λ a. Adds (R.protocol (partitions_of turnstile.now)) pass.old (Some cell) message a pass.new) }
    ensures no_memory { result ≡ Err StepError.NoMemory → AddsNone (R.protocol (partitions_of turnstile.now)) pass.old pass.new }
    ensures spent { result ≡ Err StepError.Spent ↔ (pass.old.used ≡ most_units) }
    ensures unchanged { result ≡ Err StepError.Spent → pass.new ≡ pass.old }
    ensures sure { takes_no_memory message ≡ true → result ≢ Err StepError.NoMemory }
{
    let Ok(mut turn) = turnstile.enter(pass, rt, cell) else {
        return Err(StepError::Spent);
    };
    facts::<R>(turnstile, pass);
    let moment = pass.moment();
    let asked = Snapshot::of(&message);
    match serve::<R>(alloc, turn.cell(), message, moment) {
        Ok(answer) => {
            count::<Brand, R>(turnstile, pass, &mut turn, &asked, &answer);
            turnstile.leave(pass, rt, turn);
            facts::<R>(turnstile, pass);
            Ok(answer)
        }
        Err(_) => {
            turnstile.leave(pass, rt, turn);
            Err(StepError::NoMemory)
        }
    }
}
