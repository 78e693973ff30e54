//! Partitions of the shop and its control cell, asked one message after another.

ghost use Rattle.std.specs.Prelude.{◌≡◌, ◌≤◌, ℕ};
ghost use Rattle.case_rules.specs.Shop.{service};
ghost use Rattle.control_cell.specs.Holding.{goes_to_control};

use crate::asks::{Ask, message};
use case_rules::{Catalog, Command, Shop};
use control_cell::{CatalogPlan, ControlCell};
use partition::{
    PartitionOf, abandon_catalog, commit_catalog, first_holder, is_served, plan_catalog, step,
};
use std::alloc::{AllocError as NoMemory, Global};
use txn_core::{Answer, Asked, Message, Reply};

/// The cells. The partitions are numbered from 0, and the control cell comes behind them.
#[derive(Drop)]
pub(crate) struct Cells {
    partitions: Vec<PartitionOf<Shop>>,
    control: ControlCell<Shop>,
}

/// So many partitions before anything happened.
fn partitions(alloc: Global, many: u32) -> Result<Vec<PartitionOf<Shop>>, NoMemory>
    requires { 1 ≤ many }
{
    let mut partitions = Vec::new(alloc);
    for _ in 0..many {
        partitions.push(partition::new::<Shop>(alloc, many)?)?;
    }
    Ok(partitions)
}

fn of_partition(
    alloc: Global,
    moment: u64,
    partition: &mut PartitionOf<Shop>,
    message: Asked<Shop>,
) -> Result<Option<Reply<Shop>>, NoMemory> {
    if !is_served::<Shop>(partition, &message) {
        return Ok(None);
    }
    Ok(Some(step::<Shop>(alloc, partition, message, moment)?))
}

/// Whether a message goes to the control cell.
fn is_of_control(message: &Asked<Shop>) -> bool
    ensures { (n : ℕ) → result ≡ goes_to_control (service n) message.now }
{
    match message {
        Message::Begin { .. } | Message::Decide { .. } | Message::Done { .. } => true,
        Message::Forget { .. } | Message::FateOf { .. } | Message::Recall { .. } => true,
        Message::Unfinished | Message::Ask { .. } => true,
        _ => false,
    }
}

fn of_control(
    alloc: Global,
    moment: u64,
    control: &mut ControlCell<Shop>,
    message: Asked<Shop>,
) -> Result<Option<Reply<Shop>>, NoMemory> {
    if is_of_control(&message) {
        Ok(Some(control.step(alloc, message, moment)?))
    } else {
        Ok(None)
    }
}

/// Plans a command in a partition of this number, gives the plan up, and makes it again.
fn plan_twice(
    alloc: Global,
    moment: u64,
    partition: &mut PartitionOf<Shop>,
    here: u32,
    command: &Command,
) -> Result<(), NoMemory> {
    plan_catalog::<Shop>(alloc, partition, here, command, moment)?;
    abandon_catalog::<Shop>(partition);
    plan_catalog::<Shop>(alloc, partition, here, command, moment)
}

impl Cells {
    /// Before anything happened.
    pub(crate) fn new(alloc: Global, many: u32) -> Result<Cells, NoMemory>
        requires { 1 ≤ many }
    {
        Ok(Cells {
            partitions: partitions(alloc, many)?,
            control: ControlCell::new(alloc)?,
        })
    }

    /// What a cell answers at a moment, or all of them do; none, where it is nothing that they are asked.
    pub(crate) fn answer(
        &mut self,
        alloc: Global,
        moment: u64,
        cell: Option<u32>,
        ask: Ask,
    ) -> Result<Option<Reply<Shop>>, NoMemory> {
        match (cell, ask) {
            (Some(cell), _) => self.of_cell(alloc, moment, cell, message(alloc, cell, ask)?),
            (None, Ask::Command(command)) => self.of_all(alloc, moment, &command),
            _ => Ok(None),
        }
    }

    fn of_cell(
        &mut self,
        alloc: Global,
        moment: u64,
        cell: u32,
        message: Asked<Shop>,
    ) -> Result<Option<Reply<Shop>>, NoMemory> {
        match self.partitions.get_mut(cell as usize) {
            Some(partition) => of_partition(alloc, moment, partition, message),
            None => of_control(alloc, moment, &mut self.control, message),
        }
    }

    fn of_all(
        &mut self,
        alloc: Global,
        moment: u64,
        command: &Command,
    ) -> Result<Option<Reply<Shop>>, NoMemory> {
        let reply = match self.control.plan_catalog(alloc, command, moment)? {
            CatalogPlan::Refused { told } => Answer::Refused { told },
            CatalogPlan::Denied { told } => match self.holder(command) {
                Some(number) => Answer::Held { number },
                None => Answer::Refused { told },
            },
            CatalogPlan::Carried { told, catalog } => match self.holder(command) {
                Some(number) => Answer::Held { number },
                None => {
                    self.carry_out(alloc, moment, command, catalog)?;
                    Answer::Changed { told }
                }
            },
        };
        Ok(Some(reply))
    }

    /// Who stands in the way of a command.
    fn holder(&self, command: &Command) -> Option<u64> {
        for partition in &self.partitions {
            if let Some(number) = first_holder::<Shop>(partition, command) {
                return Some(number);
            }
        }
        None
    }

    /// Carries out a command, to which this is the catalog afterwards.
    fn carry_out(
        &mut self,
        alloc: Global,
        moment: u64,
        command: &Command,
        catalog: Catalog,
    ) -> Result<(), NoMemory> {
        let mut here = 0u32;
        for partition in self.partitions.iter_mut() {
            plan_twice(alloc, moment, partition, here, command)?;
            commit_catalog::<Shop>(partition);
            here = here.wrapping_add(1);
        }
        self.control.commit_catalog(catalog);
        Ok(())
    }
}
