//! The entries whose first step is a key.

ghost use Rattle.std.specs.Prelude.{◌≡◌, filter};
ghost use Rattle.path_entries.specs.Entries.{entries_of, begins, passes};
ghost use Rattle.path_entries.specs.Order.{AreInOrder};

use crate::key::{Key, PathEntry, key_order};

/// The entries whose first step is the key, which stand side by side where all are in order.
pub fn range<'e, 'p, A>(entries: &'e [PathEntry<'p, A>], key: Key<'_>) -> &'e [PathEntry<'p, A>]
    requires { AreInOrder (entries_of entries.now) }
    ensures { result.now ≡ filter (λ e. begins (passes key.entry) e.steps.now) entries.now }
{
    let from = entries.partition_point(|entry| key_order(entry.steps, key).is_lt());
    let rest = &entries[from..];
    let count = rest.partition_point(|entry| key_order(entry.steps, key).is_le());
    &rest[..count]
}
