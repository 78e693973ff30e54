//! Which answers a walk has met.

use case_rules::Shop;
use txn_core::{Answer, Event, Fate, Reply};

/// All that a walk is to meet.
pub(crate) const ALL: u64 = (1 << 42) - 1;

/// A bit for each kind of answer.
fn mark(reply: &Reply<Shop>) -> u64 {
    match reply {
        Answer::Stale => 1 << 0,
        Answer::Row { item: None } => 1 << 1,
        Answer::Row { item: Some(_) } => 1 << 2,
        Answer::Written { .. } => 1 << 3,
        Answer::Held { .. } => 1 << 4,
        Answer::CondFalse { .. } => 1 << 5,
        Answer::Invalid { .. } => 1 << 6,
        Answer::Accepted => 1 << 7,
        Answer::Late { .. } => 1 << 8,
        Answer::Applied => 1 << 9,
        Answer::Released => 1 << 10,
        Answer::Nothing => 1 << 11,
        Answer::Version { held: None, .. } => 1 << 12,
        Answer::Version { held: Some(_), .. } => 1 << 13,
        Answer::Part { .. } => 1 << 14,
        Answer::PendingList { .. } => 1 << 15,
        _ => mark_of_feed(reply),
    }
}

fn mark_of_feed(reply: &Reply<Shop>) -> u64 {
    match reply {
        Answer::Out { after: Some(_), .. } => 1 << 16,
        Answer::Out { after: None, .. } => 1 << 17,
        Answer::Empty => 1 << 18,
        Answer::Fed => 1 << 19,
        Answer::Already => 1 << 20,
        Answer::Acked => 1 << 21,
        Answer::Told { .. } => 1 << 22,
        Answer::Changed { .. } => 1 << 23,
        Answer::Refused { .. } => 1 << 24,
        Answer::Expired { .. } => 1 << 38,
        Answer::Kept => 1 << 39,
        Answer::ExpiredList { keys } if keys.is_empty() => 1 << 40,
        Answer::ExpiredList { .. } => 1 << 41,
        _ => mark_of_transaction(reply),
    }
}

fn mark_of_transaction(reply: &Reply<Shop>) -> u64 {
    match reply {
        Answer::Mismatch { .. } => 1 << 25,
        Answer::Repeat { .. } => 1 << 26,
        Answer::Running { .. } => 1 << 27,
        Answer::Begun { .. } => 1 << 28,
        Answer::Finished => 1 << 29,
        Answer::Forgotten => 1 << 30,
        Answer::Is { .. } => 1 << 31,
        Answer::Known { .. } => 1 << 32,
        Answer::Unknown => 1 << 33,
        Answer::Numbers { .. } => 1 << 34,
        Answer::Decided { first: false, .. } => 1 << 35,
        Answer::Decided {
            fate: Fate::Committed,
            ..
        } => 1 << 36,
        Answer::Decided { .. } => 1 << 37,
        _ => 0,
    }
}

/// How many entries there are of the partition and of the control cell, and which answers.
#[derive(Clone, Copy)]
pub(crate) struct Seen {
    pub(crate) to_partition: usize,
    pub(crate) to_control: usize,
    pub(crate) marks: u64,
}

pub(crate) fn seen_in(entries: &[Event<Shop>]) -> Seen {
    let mut seen = Seen {
        to_partition: 0,
        to_control: 0,
        marks: 0,
    };
    for entry in entries {
        match entry.cell {
            Some(0) => seen.to_partition = seen.to_partition.saturating_add(1),
            Some(_) => seen.to_control = seen.to_control.saturating_add(1),
            None => {}
        }
        seen.marks |= mark(&entry.answer);
    }
    seen
}
