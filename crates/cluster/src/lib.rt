//! Partitions and the control cell behind turns: each message is one step of one legal history.
//!
//! A [`Cluster`] has some partitions, the cells from 0 on, and after them the control cell. Threads that work on it have a
//! [`Pass`](turnstile::Pass) each. A step takes the turn of one cell, has it answer a message, and counts an entry. What the layer above can rely on:
//!
//! - [`Cluster::step`], [`Cluster::step_ledger`] and, of a command over all cells, [`Cluster::step_all`] add one own entry, of the
//!   message and its answer at the pass's moment, at the end of a history that is legal by the protocol of transactions
//!   (`txn_core`), and in which others' entries alone came in since the pass looked last. So the laws of `txn_core` hold of what
//!   the pass has then seen. Where they answer an error they add nothing.
//! - A [`Caller`] is what calls of several messages are made with. [`Caller::ask`], [`Caller::ask_ledger`] and [`Caller::ask_all`] say
//!   which entries the pass counted, in order, all of them at its moment, and how many units they took (`specs/Counts.antt`). A message
//!   is not answered for want of a unit exactly where none is left, and then nothing changes; one that takes no memory never for want
//!   of memory.
//! - [`Cluster::meet`] lets two passes see what the other had seen, and [`Cluster::close`] gives the cells after the one history
//!   that begins with what each pass has seen.
//!
//! The history is not stored: contracts alone speak of it.
#![tactic(auto)]

mod all;
mod answering;
mod caller;
mod cell;
mod closing;
mod cluster;
mod command_step;
mod commanding;
mod serve;
mod start;
mod step;
mod world;

pub use caller::Caller;
pub use cell::{CellOf, ClusterCell};
pub use closing::Cells;
pub use cluster::Cluster;
pub use step::StepError;
pub use world::TableWorld;
