//! Replays a list of entries and finds where it stops being a legal history.
//!
//! [`replay_check`] goes along the entries, in order of time, and asks fresh cells what each entry asks: partitions and a control
//! cell, as a server has them. They answer what legal histories ask of their entries, so each entry's answer is compared with
//! theirs; what may be sent is asked of `sending_check` of [`txn_core`]. A step may change a cell also where the entry's answer is
//! wrong: the replay ends there.
//!
//! The definitions stand in `specs/`: `Ends` says how a replay ends, in the words of `txn_core`; `Standing` for which entries the
//! cells stand, and what is asked of each function that asks them; `Told` when an answer is the entry's, with `Kinds` of answers, and
//! `Held` of lists of held items, which may stand in any order; `Copies` which messages are copied for a cell.
#![tactic(auto)]

mod answers;
mod asking;
mod cells;
mod commands;
mod copies;
mod equality;
mod pendings;
mod replay;
mod routes;
mod timely;

pub use replay::{ReplayEnd, replay_check};
