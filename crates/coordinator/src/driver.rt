//! What the driver of one transaction keeps.

ghost use Rattle.std.specs.Prelude.{◌<◌, ◌^◌, length};
ghost use Rattle.coordinator.specs.Writes.{StartsWith};

use base_types::Seq;
use std::alloc::Global;
use std::collections::VecDeque;
use txn_core::{Course, Fate, Reason, Rules, Stamp};

/// The driver of a transaction: what it was begun with, and what was told of it so far. `A` is an action, `V` what an item holds and
/// `F` why an action can't be evaluated.
///
/// After a step that was given up it is of no further use: who goes on begins with the record again.
#[derive(Drop)]
pub struct Driver<A, V, F> {
    pub(crate) number: u64,
    pub(crate) stamp: Stamp,
    // Those whose last message was not sent yet.
    pub(crate) actions: VecDeque<A>,
    // Of each action that was prepared, why it was not accepted, in their order.
    pub(crate) found: Seq<Reason<V, F>>,
    // The place of an action whose table was found gone.
    pub(crate) no_table: Option<u32>,
    // The reasons that a cancel is to carry, made before it is sent, and a copy that stays.
    pub(crate) carried: Seq<Reason<V, F>>,
    pub(crate) copy: Seq<Reason<V, F>>,
    // The reasons of a cancel that stands, where they are known.
    pub(crate) reasons: Option<Seq<Reason<V, F>>>,
    pub(crate) fate: Fate,
    pub(crate) course: Course,
}

/// A driver under these rules.
pub type DriverOf<R> = Driver<<R as Rules>::Action, <R as Rules>::Value, <R as Rules>::Fault>;

impl<A, V, F> Driver<A, V, F> {
    /// The driver of a transaction that was begun with this number and stamp, and with these actions. Nothing was told of it yet.
    pub(crate) fn begun(
        alloc: Global,
        number: u64,
        stamp: Stamp,
        actions: Seq<A>,
    ) -> Driver<A, V, F>
        requires { length actions < 2 ^ 32 }
        ensures { StartsWith number stamp actions result }
    {
        let course = Course::start(actions.len() as u32);
        Driver {
            number,
            stamp,
            actions: VecDeque::from(Vec::from(actions)),
            found: Seq::new(alloc),
            no_table: None,
            carried: Seq::new(alloc),
            copy: Seq::new(alloc),
            reasons: None,
            fate: Fate::Undecided,
            course,
        }
    }
}
