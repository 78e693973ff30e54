//! What is asked, in short.

use base_types::{Seq, Text};
use case_rules::{Action, Command, Fault, Item, Key, Name, Question, Shop};
use std::alloc::{AllocError as NoMemory, Global};
use txn_core::{Asked, Message, Reason, Stamp};

/// What a Prepare was answered.
#[derive(Clone, Copy)]
pub(crate) enum Verdict {
    /// Nothing yet.
    Untold,
    Accepted,
    Unmet(Option<Item>),
    Held(u64),
    Late(Stamp),
    Invalid(Fault),
    Stale,
}

/// A change that an outbox shows: its cell, its number, the index, the row, and the row afterwards.
#[derive(Clone, Copy)]
pub(crate) struct Change {
    pub(crate) source: u32,
    pub(crate) sequence: u64,
    pub(crate) index: u64,
    pub(crate) row_key: Key,
    pub(crate) after: Option<Item>,
}

/// What a cell is asked, or all of them are. The number of a transaction that prepares is that of its stamp. A cancel has the
/// reasons that these answers give.
#[derive(Clone, Copy)]
pub(crate) enum Ask {
    Command(Command),
    Number(Name),
    Get(Key),
    Version(Key),
    Write(Action),
    Expire(Action),
    /// So many keys of expired items at most.
    Due(u32),
    Query(Question),
    Scan(Question),
    Begin(Option<&'static str>, &'static [Action]),
    BeginTwo(Option<&'static str>, Action, Action),
    Prepare(Stamp, Action),
    Commit(u64),
    Cancel(u64, &'static [Verdict]),
    CancelTwo(u64, Verdict, Verdict),
    Apply(u64, Key),
    Release(u64, Key),
    Done(u64),
    Forget(u64),
    Fate(u64),
    Recall(u64),
    Unfinished,
    Pendings,
    Peek,
    Feed(Change),
    /// Of the change of this number.
    Ack(u64),
}

fn text(alloc: Global, token: Option<&str>) -> Result<Option<Text>, NoMemory> {
    match token {
        Some(token) => Ok(Some(Text::copied(alloc, token)?)),
        None => Ok(None),
    }
}

pub(crate) fn listed_actions(alloc: Global, listed: &[Action]) -> Result<Seq<Action>, NoMemory> {
    let mut actions = Seq::new(alloc);
    for action in listed {
        actions.push(*action)?;
    }
    Ok(actions)
}

type Reasons = Seq<Reason<Item, Fault>>;

fn reason(verdict: Verdict) -> Reason<Item, Fault> {
    match verdict {
        Verdict::Unmet(old) => Reason::ConditionFalse { old },
        Verdict::Held(number) => Reason::Held { number },
        Verdict::Late(stamp) => Reason::Late { stamp },
        Verdict::Invalid(fault) => Reason::Invalid { fault },
        _ => Reason::None,
    }
}

pub(crate) fn listed_reasons(alloc: Global, verdicts: &[Verdict]) -> Result<Reasons, NoMemory> {
    let mut reasons = Seq::new(alloc);
    for verdict in verdicts {
        reasons.push(reason(*verdict))?;
    }
    Ok(reasons)
}

fn two_reasons(alloc: Global, first: Verdict, second: Verdict) -> Result<Reasons, NoMemory> {
    let mut reasons = Seq::new(alloc);
    reasons.push(reason(first))?;
    reasons.push(reason(second))?;
    Ok(reasons)
}

fn two_actions(alloc: Global, first: Action, second: Action) -> Result<Seq<Action>, NoMemory> {
    let mut actions = Seq::new(alloc);
    actions.push(first)?;
    actions.push(second)?;
    Ok(actions)
}

/// What the cell of this number is asked.
pub(crate) fn message(alloc: Global, cell: u32, ask: Ask) -> Result<Asked<Shop>, NoMemory> {
    Ok(match ask {
        Ask::Begin(token, listed) => {
            let actions = listed_actions(alloc, listed)?;
            let token = text(alloc, token)?;
            Message::Begin { token, actions }
        }
        Ask::BeginTwo(token, first, second) => {
            let actions = two_actions(alloc, first, second)?;
            let token = text(alloc, token)?;
            Message::Begin { token, actions }
        }
        Ask::Commit(number) => Message::Decide {
            number,
            commit: true,
            reasons: Seq::new(alloc),
        },
        Ask::Cancel(number, listed) => Message::Decide {
            number,
            commit: false,
            reasons: listed_reasons(alloc, listed)?,
        },
        Ask::CancelTwo(number, first, second) => Message::Decide {
            number,
            commit: false,
            reasons: two_reasons(alloc, first, second)?,
        },
        _ => of_transaction(cell, ask),
    })
}

fn of_transaction(cell: u32, ask: Ask) -> Asked<Shop> {
    match ask {
        Ask::Prepare(stamp, action) => Message::Prepare {
            number: stamp.number,
            stamp,
            action,
        },
        Ask::Apply(number, key) => Message::Apply { number, key },
        Ask::Release(number, key) => Message::Release { number, key },
        Ask::Done(number) => Message::Done { number },
        Ask::Forget(number) => Message::Forget { number },
        Ask::Fate(number) => Message::FateOf { number },
        Ask::Recall(number) => Message::Recall { number },
        Ask::Due(limit) => Message::ExpiredKeys { cell, limit },
        Ask::Pendings => Message::Pendings { cell },
        _ => of_tables(cell, ask),
    }
}

fn of_tables(cell: u32, ask: Ask) -> Asked<Shop> {
    match ask {
        Ask::Command(command) => Message::Command { command },
        Ask::Number(name) => Message::Ask {
            question: Question::Number { name },
        },
        Ask::Get(key) => Message::Get { key },
        Ask::Version(key) => Message::ReadVersion { key },
        Ask::Write(action) => Message::Write { action },
        Ask::Expire(action) => Message::Expire { action },
        Ask::Query(page) => Message::QueryPage { page },
        Ask::Scan(page) => Message::ScanPage { page },
        Ask::Peek => Message::PeekOut { source: cell },
        Ask::Feed(change) => Message::ApplyIndex {
            source: change.source,
            sequence: change.sequence,
            index: change.index,
            row_key: change.row_key,
            after: change.after,
        },
        Ask::Ack(sequence) => Message::Ack {
            source: cell,
            sequence,
        },
        _ => Message::Unfinished,
    }
}
