//! A command over all cells, whose turns are held: each plans, and when all have, each carries it out.

ghost use Rattle.std.specs.Prelude.{◌≡◌, ◌≤◌, length, reverse, OnErr, OnOk};
ghost use Rattle.cluster.specs.Commanding.{AllStand, AllStandAfter, CarriedBefore, PlannedBefore, TellsFirst, catalog_made_by, own};
ghost use Rattle.cluster.specs.Steps.{partitions_of};

use crate::commanding::{abandon_in, carry_out_in, holder_in, plan_in, take_catalog};
use crate::world::TableWorld;
use partition::{CommandRules, PageRules};
use std::alloc::{AllocError as NoMemory, Global};
use turnstile::{AllTurns, Pass, Turnstile};

/// How many partitions there are.
pub(crate) fn partitions<R: PageRules>(turnstile: &Turnstile<TableWorld<R>>) -> u32
    requires cells { (2 ≤ turnstile.now.id.slots) × (turnstile.now.id.slots ≤ 65) }
    ensures count { result ≡ partitions_of turnstile.now }
    ensures some { (1 ≤ result) × (result ≤ 64) }
{
    turnstile.cells() as u32 - 1
}

/// Who stands in a command's way: the least number of those that hold an item of its table in the first cell in which one is held.
pub(crate) fn in_the_way<R: CommandRules + PageRules>(
    turnstile: &Turnstile<TableWorld<R>>,
    pass: &Pass<TableWorld<R>>,
    turns: &mut AllTurns<TableWorld<R>>,
    command: &R::Command,
) -> Option<u64>
    requires cells { (2 ≤ turnstile.now.id.slots) × (turnstile.now.id.slots ≤ 65) }
    requires count { length turns.old.values.items ≡ turnstile.now.id.slots }
    requires stand { AllStand (R.protocol (partitions_of turnstile.now)) R.locals turns.old.values.items (reverse pass.now.front) }
    ensures turns { turns.new ≡ record turns.old { values = turns.new.values } }
    ensures count { length turns.new.values.items ≡ length turns.old.values.items }
    ensures stand { AllStand (R.protocol (partitions_of turnstile.now)) R.locals turns.new.values.items (reverse pass.now.front) }
    ensures tells { TellsFirst (R.protocol (partitions_of turnstile.now))
        (own (R.protocol (partitions_of turnstile.now)) (reverse pass.now.front)) command.now result }
{
    let _ = pass;
    for i in 0..partitions(turnstile) {
        let holder = holder_in::<R>(turns.cell(i), command);
        if holder.is_some() {
            return holder;
        }
    }
    None
}

/// Has each partition plan a command. Where memory is refused some have, and others have not.
fn plan_each<R: CommandRules + PageRules>(
    turnstile: &Turnstile<TableWorld<R>>,
    alloc: Global,
    pass: &Pass<TableWorld<R>>,
    turns: &mut AllTurns<TableWorld<R>>,
    command: &R::Command,
) -> Result<(), NoMemory>
    requires cells { (2 ≤ turnstile.now.id.slots) × (turnstile.now.id.slots ≤ 65) }
    requires count { length turns.old.values.items ≡ turnstile.now.id.slots }
    requires stand { AllStand (R.protocol (partitions_of turnstile.now)) R.locals turns.old.values.items (reverse pass.now.front) }
    ensures turns { turns.new ≡ record turns.old { values = turns.new.values } }
    ensures count { length turns.new.values.items ≡ length turns.old.values.items }
    ensures stand { AllStand (R.protocol (partitions_of turnstile.now)) R.locals turns.new.values.items (reverse pass.now.front) }
    ensures planned { OnOk result (PlannedBefore (R.protocol (partitions_of turnstile.now)) R.locals R.target R.numbers (partitions_of turnstile.now)
        turns.new.values.items command.now pass.now.moment) }
{
    let moment = pass.moment();
    for i in 0..partitions(turnstile) {
        plan_in::<R>(alloc, turns.cell(i), i, command, moment)?;
    }
    Ok(())
}

/// Has each partition give up what it has planned.
fn abandon_all<R: CommandRules + PageRules>(
    turnstile: &Turnstile<TableWorld<R>>,
    pass: &Pass<TableWorld<R>>,
    turns: &mut AllTurns<TableWorld<R>>,
)
    requires cells { (2 ≤ turnstile.now.id.slots) × (turnstile.now.id.slots ≤ 65) }
    requires count { length turns.old.values.items ≡ turnstile.now.id.slots }
    requires stand { AllStand (R.protocol (partitions_of turnstile.now)) R.locals turns.old.values.items (reverse pass.now.front) }
    ensures turns { turns.new ≡ record turns.old { values = turns.new.values } }
    ensures count { length turns.new.values.items ≡ length turns.old.values.items }
    ensures stand { AllStand (R.protocol (partitions_of turnstile.now)) R.locals turns.new.values.items (reverse pass.now.front) }
{
    let _ = pass;
    for i in 0..partitions(turnstile) {
        abandon_in::<R>(turns.cell(i));
    }
}

/// Has each partition carry out what it has planned of a command.
fn carry_out_each<R: CommandRules + PageRules>(
    turnstile: &Turnstile<TableWorld<R>>,
    pass: &Pass<TableWorld<R>>,
    turns: &mut AllTurns<TableWorld<R>>,
    command: &R::Command,
)
    requires cells { (2 ≤ turnstile.now.id.slots) × (turnstile.now.id.slots ≤ 65) }
    requires count { length turns.old.values.items ≡ turnstile.now.id.slots }
    requires ready { CarriedBefore (R.protocol (partitions_of turnstile.now)) R.locals R.target R.numbers 0 turns.old.values.items
        (reverse pass.now.front) command.now pass.now.moment }
    ensures turns { turns.new ≡ record turns.old { values = turns.new.values } }
    ensures count { length turns.new.values.items ≡ length turns.old.values.items }
    ensures carried { CarriedBefore (R.protocol (partitions_of turnstile.now)) R.locals R.target R.numbers (partitions_of turnstile.now)
        turns.new.values.items (reverse pass.now.front) command.now pass.now.moment }
{
    let _ = pass;
    let _ = command;
    for i in 0..partitions(turnstile) {
        carry_out_in::<R>(turns.cell(i));
    }
}

/// Carries a command out, to which this is the catalog afterwards. Where memory is refused all cells stand as before.
pub(crate) fn carry_out<R: CommandRules + PageRules>(
    turnstile: &Turnstile<TableWorld<R>>,
    alloc: Global,
    pass: &Pass<TableWorld<R>>,
    turns: &mut AllTurns<TableWorld<R>>,
    command: &R::Command,
    catalog: R::Catalog,
) -> Result<(), NoMemory>
    requires cells { (2 ≤ turnstile.now.id.slots) × (turnstile.now.id.slots ≤ 65) }
    requires count { length turns.old.values.items ≡ turnstile.now.id.slots }
    requires stand { AllStand (R.protocol (partitions_of turnstile.now)) R.locals turns.old.values.items (reverse pass.now.front) }
    requires catalog { catalog ≡ catalog_made_by (R.protocol (partitions_of turnstile.now)) turnstile.now pass.now command.now }
    ensures turns { turns.new ≡ record turns.old { values = turns.new.values } }
    ensures count { length turns.new.values.items ≡ length turns.old.values.items }
    ensures carried { OnOk result (AllStandAfter (R.protocol (partitions_of turnstile.now)) R.locals turns.new.values.items (reverse pass.now.front)
        command.now pass.now.moment) }
    ensures kept { OnErr result (AllStand (R.protocol (partitions_of turnstile.now)) R.locals turns.new.values.items (reverse pass.now.front)) }
{
    if let Err(refused) = plan_each::<R>(turnstile, alloc, pass, turns, command) {
        abandon_all::<R>(turnstile, pass, turns);
        return Err(refused);
    }
    carry_out_each::<R>(turnstile, pass, turns, command);
    take_catalog::<R>(turns.cell(partitions(turnstile)), catalog);
    Ok(())
}
