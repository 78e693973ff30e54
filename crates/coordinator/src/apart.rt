//! Whether actions are on items that differ.

ghost use Rattle.std.specs.Prelude.{◌≡◌, ℕ, IfOk};
ghost use Rattle.txn_core.specs.Replay.{are_apart};

use partition::PageRules;
use std::alloc::{AllocError as NoMemory, Global};
use std::collections::BTreeSet;

/// Whether no two of these actions are on one item. `NoMemory` is for want of memory.
pub(crate) fn are_apart<R: PageRules>(
    alloc: Global,
    actions: &[R::Action],
) -> Result<bool, NoMemory>
    ensures { IfOk result (λ apart. (n : ℕ) → apart ≡ are_apart (R.protocol n).core actions.now) }
{
    let mut seen = BTreeSet::new(alloc);
    for action in actions {
        if !seen.insert(R::key_of(action))? {
            return Ok(false);
        }
    }
    Ok(true)
}
