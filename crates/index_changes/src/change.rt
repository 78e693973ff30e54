//! What a change of an item makes of indexes.

ghost use Rattle.std.specs.Prelude.{◌↔◌, IsTrue};
ghost use Rattle.index_changes.specs.Prepared.{IsNothing};

use index_feed::Change;

/// What a change of an item makes of indexes: the changes of its rows, which are queued for the cells in which they live, and
/// its local entries before it and after it. An entry of a local index is `N`.
#[derive(Drop)]
pub struct IndexChanges<K, V, N> {
    /// The changes of rows, in the order in which they are queued.
    pub rows: Vec<Change<K, V>>,
    /// The item's local entries before the change.
    pub old: Vec<N>,
    /// Its local entries after it.
    pub new: Vec<N>,
}

impl<K, V, N> IndexChanges<K, V, N> {
    /// Whether there is nothing of all that.
    pub fn is_empty(&self) -> bool
        ensures { IsTrue result ↔ IsNothing self.now.rows.items self.now.old.items self.now.new.items }
    {
        if !self.rows.is_empty() {
            return false;
        }
        if !self.old.is_empty() {
            return false;
        }
        self.new.is_empty()
    }
}
