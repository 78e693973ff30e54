//! Helpers: a pass each, and where they are told what to do.

ghost use Rattle.std.specs.Prelude.{◌≡◌, [], ◌∷◌, map, IfOk};
ghost use Rattle.turnstile.specs.Histories.{Trail, longer};
ghost use Rattle.cluster.specs.Events.{pass_of};
ghost use Rattle.cluster.specs.Steps.{IsAtRest};
ghost use Rattle.cell_helpers.specs.Upkeep.{Upkeep};
ghost use Rattle.cell_helpers.specs.Passes.{pass_in};

use crate::hints::{Calls, Hints, make_hints};
use crate::rounds::{follow_calls, follow_feeds};
use base_types::Seq;
use crossbeam_channel::Receiver;
use std::alloc::{AllocError as NoMemory, Global};
use std::sync::Wait;
use table_cells::{TableCells, TablePass};

/// Who works beside the sessions, in a thread of its own: the feeder or the recovery worker. Contracts see its pass.
pub struct Helper {
    pass: TablePass,
    duty: Duty,
}

// By hand, so that a crate above calls this one function where it would else prove again how all of it is let go.
impl Drop for Helper {
    fn drop(self) {
        let Helper { pass: _, duty: _ } = self;
    }
}

/// Which helper it is, and where it is told.
#[derive(Drop)]
enum Duty {
    Feed(Receiver<u64, Global>),
    Recover(Calls),
}

/// The feeder and the recovery worker, in this order, each with its pass; and where sessions tell them.
///
/// Want of memory is the only error. Then the passes are let go.
pub fn make_helpers(
    alloc: Global,
    feeder: TablePass,
    recovery: TablePass,
) -> Result<(Hints, Seq<Helper>), NoMemory>
    ensures passes { IfOk result (λ made. map pass_in made.1 ≡ feeder ∷ recovery ∷ []) }
{
    let (hints, told, calls) = make_hints(alloc)?;
    let mut helpers = Seq::new(alloc);
    helpers.push(Helper {
        pass: feeder,
        duty: Duty::Feed(told),
    })?;
    helpers.push(Helper {
        pass: recovery,
        duty: Duty::Recover(calls),
    })?;
    Ok((hints, helpers))
}

impl Helper {
    /// Follows hints until no [`Hints`] is left. On one, the moment of the pass is raised to that of the hint. Then the feeder feeds all
    /// partitions until it finds nothing to feed; the recovery worker ends each transaction that was left in the middle, or removes at
    /// most 25 expired items of each partition, in order, and then feeds as the feeder does.
    ///
    /// Where memory is refused a round ends there, and the next hint begins another. Where the budget of the pass is used up it goes
    /// on to take hints, and does nothing more.
    ///
    /// That indexes follow their tables later, and expired items go some time after they expired: "Using Global Secondary Indexes" and
    /// "Using time to live (TTL)" of the Developer Guide.
    pub fn help<R: Wait>(&mut self, rt: &R, alloc: Global, cells: &TableCells)
        requires rests { IsAtRest cells.now.cluster (pass_in self.old) }
        ensures upkeep { Upkeep (pass_in self.old) (pass_in self.new) }
        ensures rests { IsAtRest cells.now.cluster (pass_in self.new) }
    {
        let caller = cells.caller(rt, alloc);
        match &self.duty {
            Duty::Feed(told) => follow_feeds(&caller, rt, &mut self.pass, told),
            Duty::Recover(calls) => follow_calls(&caller, rt, &mut self.pass, calls),
        }
    }

    /// Lets the helper's pass and another see what the other had seen.
    pub fn meet(&mut self, cells: &TableCells, pass: &mut TablePass)
        requires rests { IsAtRest cells.now.cluster (pass_in self.old) × IsAtRest cells.now.cluster pass.old }
        ensures pass { pass.new ≡ record pass.old { front = longer pass.old.front (pass_in self.old).front } }
        ensures helper { pass_in self.new ≡ record (pass_in self.old) { front = pass.new.front } }
        ensures trail { Trail pass_of pass.old.number pass.old.front [] pass.new.front }
        ensures helper_trail { Trail pass_of (pass_in self.old).number (pass_in self.old).front [] pass.new.front }
    {
        cells.meet(pass, &mut self.pass);
    }
}
