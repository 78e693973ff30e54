//! Where in an ordered map the rows of a Query or of a segment of a Scan lie.
//!
//! A [`Span`] is a half-open range of row keys. [`Span::of_range`] makes one of a key condition's range and
//! [`Span::of_segment`] one of a segment: the rows at keys inside it are those that are asked for, and no other. So a
//! page looks at no row outside. [`Span::positions`] is the same range in an index, where rows stand by the index's key
//! and then by the table's. API Reference: Query, KeyConditionExpression; Scan, Segment.
#![tactic(auto)]

mod bounds;
mod least;
mod points;
mod positions;
mod segment;
mod span;

pub use bounds::{from_low, up_to_high};
pub use positions::PositionSpan;
pub use segment::is_in_segment;
pub use span::Span;
