//! Exact decimal numbers of 38 digits: DynamoDB's Number type (DynamoDB Developer Guide, "Data types", Number).
//!
//! To contracts a [`Number`] is one whole number: its value times 10^167. Every number has such a whole number, since the
//! least magnitude is 1E-130 and there are at most 38 significant digits. So equality, order and sum are those of whole
//! numbers, and equal numbers are equal values.
//!
//! What the layer above can rely on:
//!
//! - [`parse`] answers the number that a text denotes by the grammar of numerals, or the first fault. What it answers is
//!   exact ([`nothing_is_rounded`]).
//! - [`Number::add`] and [`Number::sub`] are exact: a sum that is no number is refused and never rounded.
//! - [`Number::print`] writes the one plain decimal text of the number.
//! - Only `print` takes memory.
#![tactic(auto)]

mod halves;
mod mantissa;
mod number;
mod numeral;
mod order;
mod printed;
mod scaled;
mod sum;
mod text;

pub use number::{Number, NumberFault, from_u64};
pub use text::{nothing_is_rounded, parse};
