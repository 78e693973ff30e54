/// What an entry tells of a transaction.
#[derive(Clone, Copy, Drop)]
pub enum Fact {
    /// A Begin drew its number.
    Begun,
    /// A Decide was answered Committed.
    Committed,
    /// A Decide was answered Cancelled.
    Cancelled,
    /// Its Done was answered Finished.
    Finished,
    /// Its Forget was answered Forgotten.
    Forgotten,
    /// A Prepare was answered Stale.
    NoTable,
}

/// What an entry tells of a transaction on an item.
#[derive(Clone, Copy, Drop)]
pub enum ItemFact {
    /// A Prepare of it was answered Accepted.
    Accepted,
    /// An Apply of it was sent.
    Applied,
    /// A Release of it was sent.
    Released,
}
