//! Requests on a table's time to live.

use base_types::Text;

/// Lets the items of a table expire by an attribute, or no longer (API Reference: UpdateTimeToLive).
#[derive(Drop)]
pub struct UpdateTimeToLive {
    pub table: Text,
    /// The name of the attribute.
    pub name: Text,
    /// Whether items expire by it from now on, or no longer.
    pub enabled: bool,
}

/// Describes by which attribute the items of a table expire (API Reference: DescribeTimeToLive).
#[derive(Drop)]
pub struct DescribeTimeToLive {
    pub table: Text,
}
