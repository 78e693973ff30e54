//! What is answered, in short.

use crate::asks::{Change, Verdict, listed_actions, listed_reasons};
use base_types::Seq;
use case_rules::{Action, Fault, Item, Key, Shop, Told};
use std::alloc::{AllocError as NoMemory, Global};
use txn_core::{Answer, Fate, HeldItem, Stamp};

/// What is answered. The stamp of a Begun has the moment of its entry.
#[derive(Clone, Copy)]
pub(crate) enum Reply {
    Stale,
    Row(Option<Item>),
    Versioned(Option<Item>, u64, Option<u64>),
    Written(Option<Item>, Option<Item>),
    Expired(Item),
    Kept,
    /// The keys of expired items.
    Keys(&'static [Key]),
    Accepted,
    Unmet(Option<Item>),
    Held(u64),
    Late(Stamp),
    Invalid(Fault),
    Part(&'static [(Key, Item)]),
    Applied,
    Released,
    Nothing,
    /// One item is held, by the transaction of this number.
    Holds(Key, u64),
    /// A change waits for this cell.
    Out(u32, Change),
    Empty,
    Fed,
    Already,
    Acked,
    Mismatch(u64),
    Repeat(u64),
    Running(u64),
    Begun(u64),
    Decided(Fate, bool),
    Finished,
    Forgotten,
    Is(Fate),
    /// With the actions, and with the reasons that these answers give.
    Known(Stamp, Fate, &'static [Action], &'static [Verdict]),
    Unknown,
    /// The only number.
    Number(u64),
    Told(u64),
    ToldNone,
    Changed(u64),
    InUse,
    HasIndex,
    NoTable,
    Full,
}

type Replied = txn_core::Reply<Shop>;

fn part(alloc: Global, listed: &[(Key, Item)]) -> Result<Replied, NoMemory> {
    let mut rows = Seq::new(alloc);
    for row in listed {
        rows.push(*row)?;
    }
    Ok(Answer::Part {
        told: Told::Rows { rows },
    })
}

fn keys_of(alloc: Global, listed: &[Key]) -> Result<Replied, NoMemory> {
    let mut keys = Seq::new(alloc);
    for key in listed {
        keys.push(*key)?;
    }
    Ok(Answer::ExpiredList { keys })
}

fn only_number(alloc: Global, number: u64) -> Result<Replied, NoMemory> {
    let mut numbers = Seq::new(alloc);
    numbers.push(number)?;
    Ok(Answer::Numbers { numbers })
}

fn only_held(alloc: Global, key: Key, number: u64) -> Result<Replied, NoMemory> {
    let mut pendings = Seq::new(alloc);
    pendings.push(HeldItem { key, number })?;
    Ok(Answer::PendingList { pendings })
}

fn known(
    alloc: Global,
    stamp: Stamp,
    fate: Fate,
    listed: &[Action],
    verdicts: &[Verdict],
) -> Result<Replied, NoMemory> {
    let actions = listed_actions(alloc, listed)?;
    let reasons = listed_reasons(alloc, verdicts)?;
    Ok(Answer::Known {
        fate,
        stamp,
        actions,
        reasons,
    })
}

/// The answer of an entry of this moment.
pub(crate) fn answer(alloc: Global, moment: u64, reply: Reply) -> Result<Replied, NoMemory> {
    match reply {
        Reply::Part(rows) => part(alloc, rows),
        Reply::Keys(keys) => keys_of(alloc, keys),
        Reply::Number(number) => only_number(alloc, number),
        Reply::Holds(key, number) => only_held(alloc, key, number),
        Reply::Known(stamp, fate, acts, verdicts) => known(alloc, stamp, fate, acts, verdicts),
        Reply::Begun(number) => Ok(Answer::Begun {
            number,
            stamp: Stamp { moment, number },
        }),
        _ => Ok(on_item(reply)),
    }
}

fn on_item(reply: Reply) -> Replied {
    match reply {
        Reply::Stale => Answer::Stale,
        Reply::Row(item) => Answer::Row { item },
        Reply::Versioned(item, version, held) => Answer::Version {
            item,
            version,
            held,
        },
        Reply::Written(old, new) => Answer::Written { old, new },
        Reply::Expired(old) => Answer::Expired { old },
        Reply::Kept => Answer::Kept,
        Reply::Accepted => Answer::Accepted,
        Reply::Unmet(old) => Answer::CondFalse { old },
        Reply::Held(number) => Answer::Held { number },
        Reply::Late(stamp) => Answer::Late { stamp },
        Reply::Invalid(fault) => Answer::Invalid { fault },
        Reply::Applied => Answer::Applied,
        Reply::Released => Answer::Released,
        _ => on_transaction(reply),
    }
}

fn on_transaction(reply: Reply) -> Replied {
    match reply {
        Reply::Mismatch(number) => Answer::Mismatch { number },
        Reply::Repeat(number) => Answer::Repeat { number },
        Reply::Running(number) => Answer::Running { number },
        Reply::Decided(fate, first) => Answer::Decided { fate, first },
        Reply::Finished => Answer::Finished,
        Reply::Forgotten => Answer::Forgotten,
        Reply::Is(fate) => Answer::Is { fate },
        Reply::Unknown => Answer::Unknown,
        _ => on_tables(reply),
    }
}

fn on_tables(reply: Reply) -> Replied {
    match reply {
        Reply::Out(target, change) => Answer::Out {
            sequence: change.sequence,
            index: change.index,
            target,
            row_key: change.row_key,
            after: change.after,
        },
        Reply::Empty => Answer::Empty,
        Reply::Fed => Answer::Fed,
        Reply::Already => Answer::Already,
        Reply::Acked => Answer::Acked,
        Reply::Told(number) => Answer::Told {
            told: Told::Numbered { number },
        },
        Reply::ToldNone => Answer::Told {
            told: Told::NoTable,
        },
        Reply::Changed(number) => Answer::Changed {
            told: Told::Numbered { number },
        },
        _ => refusal(reply),
    }
}

fn refusal(reply: Reply) -> Replied {
    let told = match reply {
        Reply::InUse => Told::InUse,
        Reply::HasIndex => Told::HasIndex,
        Reply::NoTable => Told::NoTable,
        Reply::Full => Told::Full,
        _ => return Answer::Nothing,
    };
    Answer::Refused { told }
}
