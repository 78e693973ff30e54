//! The step of a command: the turns of all cells are taken, they answer, and the entry is counted.

ghost use Rattle.std.specs.Prelude.{◌≡◌, ◌↔◌, ◌+◌, ◌≤◌, false, true, None, [], ◌∷◌, length, reverse, IfOk, Err};
ghost use Rattle.turnstile.specs.Histories.{Ends, Trail};
ghost use Rattle.turnstile.specs.Passes.{HoldsAll, most_units};
ghost use Rattle.txn_core.specs.declared.message.Message.{Message};
ghost use Rattle.cluster.specs.Commanding.{AllStand};
ghost use Rattle.cluster.specs.Events.{event_of, pass_of};
ghost use Rattle.cluster.specs.Steps.{Adds, AddsNone, Fits, IsAtRest, partitions_of};

use crate::answering::answer_all;
use crate::step::{StepError, facts};
use crate::world::TableWorld;
use partition::{CommandRules, PageRules};
use std::alloc::Global;
use std::marker::Brand;
use std::sync::Wait;
use turnstile::{AllTurns, EntryOf, Pass, TurnEnd, Turnstile};
use txn_core::{Event, Reply};

// Counts that a command was answered so.
fn count_all<E: EntryOf<TableWorld<R>, Event<R>>, R: CommandRules + PageRules>(
    turnstile: &Turnstile<TableWorld<R>>,
    pass: &mut Pass<TableWorld<R>>,
    turns: &mut AllTurns<TableWorld<R>>,
    command: &R::Command,
    answer: &Reply<R>,
)
    requires of { pass.old.turnstile ≡ turnstile.now.id }
    requires turns { HoldsAll pass.old turns.old.numbers.items }
    requires once { turns.old.counted ≡ false }
    requires count { length turns.old.values.items ≡ turnstile.now.id.slots }
    requires entry { E.entry ≡ event_of pass.old None (Message.Command command.now) answer.now }
    requires fits { Fits (R.protocol (partitions_of turnstile.now)) turnstile.now.id.slots pass.old.front
        (event_of pass.old None (Message.Command command.now) answer.now) }
    requires stand { AllStand (R.protocol (partitions_of turnstile.now)) R.locals turns.old.values.items
        (event_of pass.old None (Message.Command command.now) answer.now ∷ reverse pass.old.front) }
    ensures pass { pass.new ≡ record pass.old { front = pass.new.front } }
    ensures turns { turns.new ≡ record turns.old { counted = true } }
    ensures ends { Ends pass_of pass.old.number pass.old.front (event_of pass.old None (Message.Command command.now) answer.now) pass.new.front }
    ensures stand { AllStand (R.protocol (partitions_of turnstile.now)) R.locals turns.new.values.items (reverse pass.new.front) }
{
    turnstile.commit_all::<E>(pass, turns);
}

// Takes the turns of all cells for one unit of the pass. Where memory is refused the unit is used as well.
fn take_turns<R: CommandRules + PageRules, T: Wait>(
    turnstile: &Turnstile<TableWorld<R>>,
    rt: &T,
    alloc: Global,
    pass: &mut Pass<TableWorld<R>>,
) -> Result<AllTurns<TableWorld<R>>, StepError>
    requires rests { IsAtRest turnstile.now pass.old }
    ensures turns { IfOk result (λ t. (length t.values.items ≡ turnstile.now.id.slots) × (t.counted ≡ false)) }
    ensures pass { IfOk result (λ t. pass.new ≡ record pass.old { used = pass.old.used + 1; front = pass.new.front; turns = pass.new.turns }) }
    ensures holds { IfOk result (λ t. HoldsAll pass.new t.numbers.items) }
    ensures stand { IfOk result (λ t. AllStand (R.protocol (partitions_of turnstile.now)) R.locals t.values.items (reverse pass.new.front)) }
    ensures trail { IfOk result (λ t. Trail pass_of pass.old.number pass.old.front [] pass.new.front) }
    ensures no_memory { result ≡ Err StepError.NoMemory → AddsNone (R.protocol (partitions_of turnstile.now)) pass.old pass.new }
    ensures spent { result ≡ Err StepError.Spent ↔ (pass.old.used ≡ most_units) }
    ensures unchanged { result ≡ Err StepError.Spent → pass.new ≡ pass.old }
{
    match turnstile.enter_all(alloc, pass, rt) {
        Ok(turns) => Ok(turns),
        Err(TurnEnd::Spent) => Err(StepError::Spent),
        Err(TurnEnd::NoMemory) => {
            facts::<R>(turnstile, pass);
            let Ok(()) = pass.spend() else { unreachable!() };
            Err(StepError::NoMemory)
        }
    }
}

/// Has all cells answer a command, at the moment of the pass and for one unit of it.
pub(crate) fn ask_all<R: CommandRules + PageRules, T: Wait>(
    turnstile: &Turnstile<TableWorld<R>>,
    rt: &T,
    alloc: Global,
    pass: &mut Pass<TableWorld<R>>,
    command: &R::Command,
) -> Result<Reply<R>, StepError>
    requires cells { (2 ≤ turnstile.now.id.slots) × (turnstile.now.id.slots ≤ 65) }
    requires rests { IsAtRest turnstile.now pass.old }
    ensures ok { IfOk result (λ a. Adds (R.protocol (partitions_of turnstile.now)) pass.old None (Message.Command command.now) a pass.new) }
    ensures no_memory { result ≡ Err StepError.NoMemory → AddsNone (R.protocol (partitions_of turnstile.now)) pass.old pass.new }
    ensures spent { result ≡ Err StepError.Spent ↔ (pass.old.used ≡ most_units) }
    ensures unchanged { result ≡ Err StepError.Spent → pass.new ≡ pass.old }
{
    let mut turns = take_turns(turnstile, rt, alloc, pass)?;
    facts::<R>(turnstile, pass);
    match answer_all::<R>(turnstile, alloc, pass, &mut turns, command) {
        Ok(answer) => {
            count_all::<Brand, R>(turnstile, pass, &mut turns, command, &answer);
            turnstile.leave_all(pass, rt, turns);
            facts::<R>(turnstile, pass);
            Ok(answer)
        }
        Err(_) => {
            turnstile.leave_all(pass, rt, turns);
            Err(StepError::NoMemory)
        }
    }
}
