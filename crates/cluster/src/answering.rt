//! What all cells answer to a command, whose turns are held, and what becomes of them.

ghost use Rattle.std.specs.Prelude.{◌≡◌, ◌≤◌, length, reverse, IfOk, OnErr};
ghost use Rattle.txn_core.specs.declared.message.Message.{Message};
ghost use Rattle.txn_core.specs.Legal.{IsAnswer};
ghost use Rattle.control_cell.specs.Plans.{IsPlan};
ghost use Rattle.cluster.specs.Commanding.{AllStand, AllStandWith, catalog_seen_by};
ghost use Rattle.cluster.specs.Steps.{partitions_of};
ghost use Rattle.cluster.specs.World.{IsLegalLog};

use crate::all::{carry_out, in_the_way, partitions};
use crate::commanding::plan_of;
use crate::world::TableWorld;
use control_cell::{CatalogPlan, others_leave_it};
use partition::{CommandRules, PageRules};
use std::alloc::{AllocError as NoMemory, Global};
use turnstile::{AllTurns, Pass, Turnstile};
use txn_core::{Answer, Reply};

/// What the catalog says of a command, with the catalog afterwards.
fn plan_there<R: CommandRules + PageRules>(
    turnstile: &Turnstile<TableWorld<R>>,
    alloc: Global,
    pass: &Pass<TableWorld<R>>,
    turns: &mut AllTurns<TableWorld<R>>,
    command: &R::Command,
) -> Result<CatalogPlan<R::Told, R::Catalog>, NoMemory>
    requires cells { (2 ≤ turnstile.now.id.slots) × (turnstile.now.id.slots ≤ 65) }
    requires count { length turns.old.values.items ≡ turnstile.now.id.slots }
    requires stand { AllStand (R.protocol (partitions_of turnstile.now)) R.locals turns.old.values.items (reverse pass.now.front) }
    ensures turns { turns.new ≡ record turns.old { values = turns.new.values } }
    ensures count { length turns.new.values.items ≡ length turns.old.values.items }
    ensures stand { AllStand (R.protocol (partitions_of turnstile.now)) R.locals turns.new.values.items (reverse pass.now.front) }
    ensures plan { IfOk result (λ plan. IsPlan (R.protocol (partitions_of turnstile.now))
        (catalog_seen_by (R.protocol (partitions_of turnstile.now)) turnstile.now pass.now) command.now pass.now.moment plan) }
{
    let moment = pass.moment();
    let last = partitions(turnstile);
    plan_of::<R>(alloc, turns.cell(last), command, moment)
}

/// What the cells answer to a command, and each as it is afterwards: it is refused by its name, else by who stands in its way, else by the
/// catalog, or it is carried out. Where memory is refused all cells stand as before.
pub(crate) fn answer_all<R: CommandRules + PageRules>(
    turnstile: &Turnstile<TableWorld<R>>,
    alloc: Global,
    pass: &Pass<TableWorld<R>>,
    turns: &mut AllTurns<TableWorld<R>>,
    command: &R::Command,
) -> Result<Reply<R>, NoMemory>
    requires cells { (2 ≤ turnstile.now.id.slots) × (turnstile.now.id.slots ≤ 65) }
    requires count { length turns.old.values.items ≡ turnstile.now.id.slots }
    requires stand { AllStand (R.protocol (partitions_of turnstile.now)) R.locals turns.old.values.items (reverse pass.now.front) }
    requires legal { IsLegalLog (R.protocol (partitions_of turnstile.now)) pass.now.front }
    ensures turns { turns.new ≡ record turns.old { values = turns.new.values } }
    ensures count { length turns.new.values.items ≡ length turns.old.values.items }
    ensures answers { IfOk result (λ a. IsAnswer (R.protocol (partitions_of turnstile.now)) (reverse pass.now.front) pass.now.moment
        (Message.Command command.now) a) }
    ensures stand { IfOk result (λ a. AllStandWith (R.protocol (partitions_of turnstile.now)) R.locals turns.new.values.items (reverse pass.now.front)
        command.now pass.now.moment a) }
    ensures kept { OnErr result (AllStand (R.protocol (partitions_of turnstile.now)) R.locals turns.new.values.items (reverse pass.now.front)) }
{
    others_leave_it::<R>();
    match plan_there::<R>(turnstile, alloc, pass, turns, command)? {
        CatalogPlan::Refused { told } => Ok(Answer::Refused { told }),
        CatalogPlan::Denied { told } => match in_the_way::<R>(turnstile, pass, turns, command) {
            Some(number) => Ok(Answer::Held { number }),
            None => Ok(Answer::Refused { told }),
        },
        CatalogPlan::Carried { told, catalog } => {
            match in_the_way::<R>(turnstile, pass, turns, command) {
                Some(number) => Ok(Answer::Held { number }),
                None => {
                    carry_out::<R>(turnstile, alloc, pass, turns, command, catalog)?;
                    Ok(Answer::Changed { told })
                }
            }
        }
    }
}
