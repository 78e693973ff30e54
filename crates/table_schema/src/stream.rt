//! The stream of a table's changes.

/// What a stream tells of each change of an item (API Reference: StreamSpecification, StreamViewType).
#[derive(Clone, Copy, Debug, PartialEq, Eq)]
pub enum View {
    /// The key alone.
    KeysOnly,
    /// The item as it is.
    NewImage,
    /// The item as it was.
    OldImage,
    /// The item as it was and as it is.
    NewAndOldImages,
}

/// A stream (API Reference: StreamSpecification). No table has one yet.
#[derive(Clone, Copy, Debug, PartialEq, Eq)]
pub struct Stream {
    pub view: View,
    /// How many streams were enabled when this one was, itself included.
    pub number: u64,
}
