//! One counted history over many cells, each behind a turn of its own.
//!
//! A [`Turnstile`] has cells, and threads that work on them have a [`Pass`] each. A thread [enters](Turnstile::enter)
//! a cell, changes its value through the [`Turn`], [counts](Turnstile::commit_entry) an entry for what it did, and
//! [leaves](Turnstile::leave). All entries, of whatever cell, make one history, in the order in which they were
//! counted. It is not stored: contracts alone speak of it, and the [`World`] says which histories are legal and for
//! which entries a value stands.
//!
//! What a pass has seen of the history is its front. A commit adds its entry at the end of a legal front that begins
//! with the old one, entering and [meeting](Turnstile::meet) add no own entry, all fronts are beginnings of one
//! history, and [`Turnstile::close`] gives values that stand for it. Who counts an entry knows, as it is counted, all
//! entries of the cell and of its own pass, and the law `goes_on` of the world has to make do with that.
//!
//! A turn can't be dropped: it must be left. Nothing is promised of waiting. Who wants a turn that others are after looks
//! again later and later, then sleeps without a ticket, and draws one when it finds nobody after the turn, was woken or has
//! slept for 10 milliseconds; with it, it looks a hundred times more and then sleeps. Who leaves wakes the holder of the next
//! ticket where it sleeps, and where nobody has that ticket one of those that sleep without.
#![tactic(auto)]

mod bells;
mod board;
mod life;
mod pass;
mod slot;
mod steps;
mod turn;
mod turns;
mod turnstile;
mod waiting;
mod world;

pub use pass::{Pass, Spent, TurnEnd};
pub use turn::{AllTurns, Turn};
pub use turnstile::Turnstile;
pub use world::{EntryOf, World};
