//! The entries behind a key.

ghost use Rattle.std.specs.Prelude.{◌≡◌, IfOk, option_map};
ghost use Rattle.path_entries.specs.Entries.{entry_of, entries_of, behind, below, passes};
ghost use Rattle.path_entries.specs.Order.{AreInOrder};

use crate::key::{Key, PathEntry, key_order};
use crate::search::range;
use std::alloc::{AllocError as NoMemory, Global};

/// The entries behind this key, from there on.
pub fn below<'p, A: Copy + Drop>(
    alloc: Global,
    entries: &[PathEntry<'p, A>],
    key: Key<'_>,
) -> Result<Vec<PathEntry<'p, A>>, NoMemory>
    requires { AreInOrder (entries_of entries.now) }
    ensures behind { IfOk result
        (λ deeper. entries_of deeper.items ≡ below (passes key.entry) (entries_of entries.now)) }
    ensures in_order { IfOk result (λ deeper. AreInOrder (entries_of deeper.items)) }
{
    let mut deeper = Vec::new(alloc);
    for entry in range(entries, key) {
        if let Some(entry) = behind(entry, key) {
            deeper.push(entry)?;
        }
    }
    Ok(deeper)
}

/// The entry from behind this key on, if that is its first step.
fn behind<'p, A: Copy + Drop>(entry: &PathEntry<'p, A>, key: Key<'_>) -> Option<PathEntry<'p, A>>
    ensures { option_map entry_of result ≡ behind (passes key.entry) entry.now.steps.now entry.now.value }
{
    let (_, rest) = entry.steps.split_first()?;
    if !key_order(entry.steps, key).is_eq() {
        return None;
    }
    Some(PathEntry {
        steps: rest,
        value: entry.value,
    })
}
