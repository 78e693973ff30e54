//! One message at the cell that it goes to.

ghost use Rattle.std.specs.Prelude.{◌≡◌, ℕ, true, IfOk, OnErr};
ghost use Rattle.txn_core.specs.Memory.{takes_no_memory};
ghost use Rattle.cluster.specs.Serving.{ServeAnswers, ServeKeeps, ServeStands, Serves};

use crate::cell::{CellOf, ClusterCell};
use control_cell::{own_entries_tell_it, unchanged_holds};
use partition::PageRules;
use std::alloc::{AllocError as NoMemory, Global};
use txn_core::{Asked, Reply};

/// Has a cell answer a message, at a moment in microseconds. Where memory is refused the cell is as it was.
pub(crate) fn serve<R: PageRules>(
    alloc: Global,
    cell: &mut CellOf<R>,
    message: Asked<R>,
    moment: u64,
) -> Result<Reply<R>, NoMemory>
where
    R::Fault: Copy,
    requires { (n : ℕ) → Serves (R.protocol n) cell.old message }
    ensures answers { IfOk result (λ a. (n : ℕ) → ServeAnswers (R.protocol n) R.locals cell.old message moment a) }
    ensures stands { IfOk result (λ a. (n : ℕ) → ServeStands (R.protocol n) R.locals cell.old cell.new message moment a) }
    ensures err { OnErr result ((n : ℕ) → ServeKeeps (R.protocol n) R.locals cell.old cell.new message) }
    ensures sure { takes_no_memory message ≡ true → OnErr result ⊥ }
{
    own_entries_tell_it::<R>();
    unchanged_holds::<R>();
    match cell {
        ClusterCell::Partition(partition) => {
            partition::step::<R>(alloc, partition, message, moment)
        }
        ClusterCell::Control(control) => control.step(alloc, message, moment),
    }
}
