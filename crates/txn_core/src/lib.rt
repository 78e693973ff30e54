//! Why the transactions have one serial order, and the way of one transaction through it.
//!
//! Cells answer [`Message`]s, and each step is an [`Entry`] of one history: which pass took it, at
//! which cell, what was asked and answered, and when. A history is legal where each entry has the
//! answer that its cell gives after those before it, and nobody sends what the protocol forbids: no
//! commit before every action was accepted, no Apply before the commit, no Done before every Apply.
//! The module [`laws`] has what holds of every legal history, whatever the schedule; each law is
//! the contract of a function without parameters, generic over [`Rules`], so that no table is named
//! here.
//!
//! Each cell can answer by itself: [`cells`] has the laws that a cell's own entries decide what it
//! holds and answers.
//!
//! A [`Course`] tells the driver of one transaction what comes next. It is a plain value, and what
//! it was told so far decides what it says. [`driver`] has the laws on what a driver knows, and
//! that a driver who follows the course sends nothing that is forbidden.
//!
//! [`sending_check`] reads a list of entries and finds the first that nobody may send, with the
//! first rule that it breaks; [`past`] has what it asks the entries before. It takes answers as they
//! stand. [`laws::rules_one_by_one`] says that
//! its rules and that of answers are together what makes a history legal.
//!
//! What the cells hold beside items is a fold of its own over the same entries: the outboxes of
//! changes that wait for indexes, the marks of what was carried out, and the rows of indexes. Pages
//! and the messages of the feed are answered by it. [`indexes`] has its laws.
//!
//! The definitions stand in `specs/` in reading order: `Protocol`, `Indexing` and `Service` (what is
//! asked of tables), `Effects`, `State` and `Runs` (what entries change, and when that may happen),
//! `Serial` (the one order and its tables), `Answers`, `History`, `Feeding` (outboxes, marks and
//! index rows) and `Legal` (legal histories), `Breaks` (their rules one by one), `Replay` (words of
//! the checker), `Tokens`, `Course` and `Driver`, `Cells` (what the cells hold apart), `Laws` and
//! `Indexes`.
#![tactic(auto)]

mod answer;
pub mod cells;
mod copies;
mod course;
pub mod driver;
mod entry;
mod fact;
mod fate;
mod grounds;
pub mod indexes;
mod kind;
pub mod laws;
mod message;
mod order;
mod outcome;
pub mod past;
mod reason;
mod replay;
mod rules;
mod ruling;
mod stamp;
mod verdict;

pub use answer::{Answer, HeldItem};
pub use copies::copy_of_actions;
pub use course::{Course, Move};
pub use entry::{Asked, Entry, Event, Reply};
pub use fact::{Fact, ItemFact};
pub use fate::Fate;
pub use grounds::have_refusal;
pub use kind::BreakKind;
pub use message::Message;
pub use outcome::Outcome;
pub use reason::Reason;
pub use replay::{Break, sending_check};
pub use rules::Rules;
pub use ruling::Ruling;
pub use stamp::Stamp;
pub use verdict::Verdict;
