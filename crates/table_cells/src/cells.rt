//! Partitions and the control cell of real tables, and who calls on them.

ghost use Rattle.std.specs.Prelude.{◌≡◌, ◌≤◌, [], All, IfOk};
ghost use Rattle.turnstile.specs.Histories.{Trail, longer};
ghost use Rattle.turnstile.specs.Passes.{first_passes};
ghost use Rattle.cluster.specs.Events.{pass_of};
ghost use Rattle.cluster.specs.Steps.{IsAtRest, partitions_of};
ghost use Rattle.cluster.specs.World.{IsLegalLog};
ghost use Rattle.cell_model.specs.Service.{service};

use base_types::Seq;
use cell_rules::TableRules;
use cluster::{Caller, Cluster, TableWorld};
use std::alloc::{AllocError as NoMemory, Global};
use turnstile::Pass;

/// What a thread counts with that works on the cells of real tables.
pub type TablePass = Pass<TableWorld<TableRules>>;

/// Partitions and the control cell of real tables, for threads that have a pass each.
#[derive(Drop)]
pub struct TableCells {
    pub(crate) cluster: Cluster<TableRules>,
}

impl TableCells {
    /// Makes 1 to 64 partitions and a control cell, without a table, and 1 to 64 passes, numbered from 0.
    #[tactic(auto, using(crate::proofs::Resting::made_rest))]
    pub fn make(
        alloc: Global,
        partitions: u32,
        passes: u32,
    ) -> Result<(TableCells, Seq<TablePass>), NoMemory>
        requires partitions { (1 ≤ partitions) × (partitions ≤ 64) }
        requires passes { (1 ≤ passes) × (passes ≤ 64) }
        ensures cells { IfOk result (λ made. (partitions_of made.0.cluster ≡ partitions) × (made.0.cluster.passes ≡ passes)) }
        ensures passes { IfOk result (λ made. made.1 ≡ first_passes made.0.cluster.id passes passes) }
        ensures rest { IfOk result (λ made. All (IsAtRest made.0.cluster) made.1) }
    {
        let (cluster, passes) = Cluster::make(alloc, partitions, passes)?;
        Ok((TableCells { cluster }, passes))
    }

    /// Lets two passes see what the other had seen.
    pub fn meet(&self, pass: &mut TablePass, other: &mut TablePass)
        requires rest { IsAtRest self.now.cluster pass.old × IsAtRest self.now.cluster other.old }
        ensures pass { pass.new ≡ record pass.old { front = longer pass.old.front other.old.front } }
        ensures other { other.new ≡ record other.old { front = pass.new.front } }
        ensures trail { Trail pass_of pass.old.number pass.old.front [] pass.new.front }
        ensures other_trail { Trail pass_of other.old.number other.old.front [] pass.new.front }
    {
        self.cluster.meet(pass, other);
    }

    /// Does nothing. It is told to a caller's proof that what a pass has seen is legal.
    pub fn facts(&self, pass: &TablePass)
        requires of { pass.now.turnstile ≡ self.now.cluster.id }
        ensures legal { IsLegalLog (service (partitions_of self.now.cluster)) pass.now.front }
    {
        self.cluster.facts(pass);
    }

    /// Who calls on these cells: the runtime is what its thread waits by.
    pub fn caller<'a, T>(&'a self, rt: &'a T, alloc: Global) -> TableCaller<'a, T>
        ensures { result.caller ≡ self.now.cluster }
    {
        TableCaller {
            caller: Caller::new(&self.cluster, rt, alloc),
        }
    }
}

/// What calls on the cells of real tables are made with. The pass is lent to each call beside it, is one of the cells', and holds no turn
/// between two messages.
#[derive(Drop)]
pub struct TableCaller<'a, T> {
    pub(crate) caller: Caller<'a, TableRules, T>,
}
