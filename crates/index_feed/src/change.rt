/// An item's row in an index. `K` is a key, `V` what a row holds.
#[derive(Drop)]
pub struct Row<K, V> {
    /// The row's key, which names the index key and the item.
    pub key: K,
    /// What the index has of the item.
    pub content: V,
}

/// A change that waits in an outbox for its index.
#[derive(Drop)]
pub struct Change<K, V> {
    /// The number of the index.
    pub index: u64,
    /// The key of the row that changes.
    pub key: K,
    /// The row afterwards, or none where it is removed.
    pub after: Option<V>,
}
