ghost use Rattle.std.specs.Prelude.{◌≤◌, reverse};
ghost use Rattle.txn_core.specs.Breaks.{BreaksFirst, StopsAt, of_sending};

use crate::entry::Event;
use crate::kind::BreakKind;
use crate::order::{
    applies_late, feeds_in_order, finishes_late, forgets_late, has_ground_for, has_its_reach,
    names_begun, releases_late,
};
use crate::rules::Rules;

/// Where a list of entries stops being legal.
#[derive(Clone, Copy, PartialEq, Eq, Debug, Drop)]
pub struct Break {
    /// The place of the entry in the list, from 0.
    pub place: usize,
    /// The first rule that it breaks.
    pub kind: BreakKind,
}

/// The first of these entries, in order of time, that nobody may send after those before it, and
/// the first rule that it breaks; none where each may be sent. The answers are taken as they stand:
/// whether a cell would give them isn't asked, so no break is of the kind WrongAnswer.
///
/// A checker for tests and tools: it takes no memory, and at most the square of the number of
/// entries in steps, where the actions of a transaction, 100 at most, count as one step.
pub fn sending_check<R: Rules>(partitions: u32, entries: &[Event<R>]) -> Option<Break>
    requires { 1 ≤ partitions }
    ensures { StopsAt (R.protocol partitions) of_sending entries.now result }
{
    for (place, entry) in entries.iter().enumerate() {
        if let Some(kind) = broken_rule::<R>(partitions, &entries[..place], entry) {
            return Some(Break { place, kind });
        }
    }
    None
}

/// The first rule of what may be sent that the entry breaks.
fn broken_rule<R: Rules>(partitions: u32, past: &[Event<R>], entry: &Event<R>) -> Option<BreakKind>
    requires { 1 ≤ partitions }
    ensures { BreaksFirst (R.protocol partitions) of_sending (reverse past.now) entry.now result }
{
    let message = &entry.message;
    if !names_begun::<R>(past, message) {
        return Some(BreakKind::NotBegun);
    }
    if !has_ground_for::<R>(true, past, message) {
        return Some(BreakKind::EarlyCommit);
    }
    if !has_ground_for::<R>(false, past, message) {
        return Some(BreakKind::CauselessCancel);
    }
    if !applies_late::<R>(past, message) {
        return Some(BreakKind::EarlyApply);
    }
    if !releases_late::<R>(past, message) {
        return Some(BreakKind::EarlyRelease);
    }
    if !finishes_late::<R>(past, message) {
        return Some(BreakKind::EarlyDone);
    }
    if !forgets_late::<R>(past, entry.pass, message) {
        return Some(BreakKind::EarlyForget);
    }
    if !feeds_in_order::<R>(partitions, past, message) {
        return Some(BreakKind::IndexOrder);
    }
    if !has_its_reach::<R>(entry.cell, message) {
        return Some(BreakKind::AllCells);
    }
    None
}
