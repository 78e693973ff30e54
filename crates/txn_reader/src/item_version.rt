//! What one read of an item tells.

/// A committed item with its version, as one read found it. `V` is what an item holds.
#[derive(Drop)]
pub struct ItemVersion<V> {
    /// The item, if there is one.
    pub item: Option<V>,
    /// Its version, or that of its cell's last delete.
    pub version: u64,
    /// The number of the transaction that held it, if one did.
    pub held: Option<u64>,
}
