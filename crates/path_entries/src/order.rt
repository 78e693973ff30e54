//! Entries in order of their paths.

ghost use Rattle.std.specs.Prelude.{◌≡◌, IfOk};
ghost use Rattle.std.specs.List.Sorted.{IsPermutation, IsStableBy};
ghost use Rattle.path_entries.specs.Entries.{entries_of};
ghost use Rattle.path_entries.specs.Order.{AreInOrder, is_before, path_order};

use crate::key::PathEntry;
use base_types::Step;
use std::alloc::AllocError as NoMemory;
use std::cmp::Ordering;

/// The entries in order of their paths; those with one path keep their order.
pub fn sorted<A: Drop>(entries: Vec<PathEntry<'_, A>>) -> Result<Vec<PathEntry<'_, A>>, NoMemory>
    ensures same { IfOk result (λ ordered. IsPermutation entries.entry.items ordered.items) }
    ensures in_order { IfOk result (λ ordered. AreInOrder (entries_of ordered.items)) }
    ensures stable { IfOk result (λ ordered. IsStableBy is_before entries.entry.items ordered.items) }
{
    let mut ordered = entries;
    ordered.sort_by(|first, second| path_order(first.steps, second.steps))?;
    Ok(ordered)
}

/// The order of two paths by the first step in which they differ, a proper front first.
fn path_order(first: &[Step], second: &[Step]) -> Ordering
    ensures { result ≡ path_order first.now second.now }
{
    first.cmp(second)
}
