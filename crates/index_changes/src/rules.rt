ghost use Rattle.std.specs.Prelude.{◌≡◌, ℕ, false, IfOk};
ghost use Rattle.index_changes.specs.Entries.{AreEntriesLawful, LocalEntries};
ghost use Rattle.index_changes.specs.Expiry.{NeverExpires};

use std::alloc::{AllocError as NoMemory, Global};
use txn_core::Rules;

/// What a cell needs to know of tables beside [`Rules`]: that keys are compared as the rules compare them, in which table an
/// item is, where it stands in the local indexes of its table, and which tables have items that expire.
pub trait CellRules: Rules<Key: Ord> {
    /// An entry of a local index: the index, and where an item stands in its order. It names the item.
    type LocalEntry: Ord + Clone + Drop;

    /// The entries of items, and the item that an entry names.
    ghost locals: { LocalEntries Self.Key Self.Value Self.Catalog Self.LocalEntry };

    /// The number of the table of a key's item.
    fn table_of(key: &Self::Key) -> u64
        ensures { (partitions : ℕ) → result ≡ (Self.protocol partitions).core.table key.now };

    /// The item that an action is on. The rest of the action is let go.
    fn into_key(action: Self::Action) -> Self::Key
        ensures { (partitions : ℕ) → result ≡ (Self.protocol partitions).core.key_of action };

    /// The entries of an item in the local indexes of its table.
    fn entries_of(
        alloc: Global,
        catalog: &Self::Catalog,
        key: &Self::Key,
        item: &Self::Value,
    ) -> Result<Vec<Self::LocalEntry>, NoMemory>
        ensures { IfOk result (λ entries. entries.items ≡ locals.entries catalog.now key.now item.now) };

    /// Whether items of the table of this number may expire. Where they may not, no item of it is looked at for it.
    fn may_expire(catalog: &Self::Catalog, table: u64) -> bool
        ensures { result ≡ false → (partitions : ℕ) → NeverExpires (Self.protocol partitions).core catalog.now table };

    /// Keys are compared as the rules compare them, for every number of partitions.
    ghost ordered: { (partitions : ℕ) (x y : Self.Key) → (Self.protocol partitions).index.cmp x y ≡ Self.Key.cmp x y };

    /// An item's entries name it, and a command leaves the entries of tables alone that it doesn't concern.
    ghost entries_lawful: { (partitions : ℕ) → AreEntriesLawful (Self.protocol partitions) locals Self.LocalEntry.cmp };

    /// A copy of an entry is equal to it.
    ghost copied: { (entry copy : Self.LocalEntry) → Self.LocalEntry.is_clone entry copy → copy ≡ entry };
}
