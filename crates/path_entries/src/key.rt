//! Entries, and their order beside a step.

ghost use Rattle.std.specs.Prelude.{◌≡◌};
ghost use Rattle.path_entries.specs.Order.{key_order, step_key_order};

use base_types::{Step, Text};
use std::cmp::Ordering;

/// Steps that lead on from some place, with what is said of their end.
#[derive(Clone, Copy)]
pub struct PathEntry<'p, A> {
    pub steps: &'p [Step],
    pub value: A,
}

/// The step behind which entries are looked for.
#[derive(Clone, Copy)]
pub enum Key<'k> {
    Name(&'k Text),
    Place(usize),
}

/// The order of the first step beside the key: names by their bytes, and then places by number. No step is below each
/// key.
pub(crate) fn key_order(steps: &[Step], key: Key<'_>) -> Ordering
    ensures { result ≡ key_order key.entry steps.now }
{
    let Some((first, _)) = steps.split_first() else {
        return Ordering::Less;
    };
    step_order(first, key)
}

/// The order of a step beside the key.
fn step_order(step: &Step, key: Key<'_>) -> Ordering
    ensures { result ≡ step_key_order key.entry step.now }
{
    match key {
        Key::Name(name) => match step {
            Step::Name(here) => here.cmp(name),
            Step::Index(_) => Ordering::Greater,
        },
        Key::Place(place) => match step {
            Step::Name(_) => Ordering::Less,
            Step::Index(here) => (*here as usize).cmp(&place),
        },
    }
}
