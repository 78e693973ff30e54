//! Paths of which one begins the other.

ghost use Rattle.std.specs.Prelude.{◌≡◌, ◌↔◌, ◌++◌, IsTrue, OnOk, map};
ghost use Rattle.expr_parse.specs.Overlaps.{Overlap, HaveOverlap, SomeNeighbours, pointees};
ghost use Rattle.expr_parse.specs.Agreement.{Agree};

use base_types::{DocPath, Step};
use std::alloc::AllocError as NoMemory;

/// Whether two lists of steps are the same as far as both go.
fn agree(one: &[Step], other: &[Step]) -> bool
    ensures { IsTrue result ↔ Agree one.now other.now }
{
    one.iter()
        .zip(other.iter())
        .all(|(step, another)| step == another)
}

/// Whether the steps of one path begin the other's.
fn alike(one: &DocPath, other: &DocPath) -> bool
    ensures { IsTrue result ↔ Overlap one.now other.now }
{
    agree(one.steps.as_slice(), other.steps.as_slice())
}

/// Whether a path overlaps the next.
fn neighbours_overlap(paths: &[&DocPath]) -> bool
    ensures { IsTrue result ↔ SomeNeighbours (pointees paths.now) }
{
    for place in 1..paths.len() {
        if alike(paths[place - 1], paths[place]) {
            return true;
        }
    }
    false
}

/// Whether two of the paths overlap. They are put in order for this: then two neighbours do.
pub(crate) fn overlap(paths: &mut [&DocPath]) -> bool
    ensures { IsTrue result ↔ HaveOverlap (pointees paths.old) }
{
    paths.sort_unstable();
    neighbours_overlap(paths)
}

/// Adds the paths to those that are lent.
pub(crate) fn lend_paths<'p>(
    paths: &'p [DocPath],
    lent: &mut Vec<&'p DocPath>,
) -> Result<(), NoMemory>
    ensures { OnOk result (pointees lent.new.items ≡ pointees lent.old.items ++ paths.now) }
{
    for path in paths {
        lent.push(path)?;
    }
    Ok(())
}
