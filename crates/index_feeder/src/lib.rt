//! Feeding of indexes: the changes that wait in the partitions' outboxes are applied where their rows live, and acknowledged.
//!
//! [`feed_one`] feeds the first change of one partition, and [`drain`] feeds all partitions until each is found empty. Others may do
//! the same beside them: a change that is applied or acknowledged twice changes nothing the second time. What the layer above can
//! rely on:
//!
//! - The entries of a call are those of its feeds alone (`specs/Feeds.antt`), one unit each, and where it ends by an error, of a feed
//!   that was cut off behind them.
//! - After [`drain`] each partition was found empty since the last change was fed. Where no other pass set an item or changed the
//!   catalog since the call began, and no item waits, what the pass has seen is drained. By the laws of `txn_core` every index is
//!   then the projection of the tables.
#![tactic(auto)]

mod draining;
mod feeding;

pub use draining::drain;
pub use feeding::{Feed, feed_one};
