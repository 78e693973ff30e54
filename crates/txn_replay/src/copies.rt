//! Copies of messages, to be handed to the cells.

ghost use Rattle.std.specs.Prelude.{◌≡◌, true, IfOk};
ghost use Rattle.txn_core.specs.declared.message.Message.{Message};
ghost use Rattle.txn_replay.specs.Copies.{is_about_item, is_copied, is_of_ledger};

use base_types::Text;
use control_cell::copy_of_reasons;
use std::alloc::{AllocError as NoMemory, Global};
use txn_core::{Asked, Message, Reason, Rules, copy_of_actions};

/// A copy of an item, or none.
fn copy_of_item<R: Rules>(
    alloc: Global,
    item: &Option<R::Value>,
) -> Result<Option<R::Value>, NoMemory>
    ensures { IfOk result (λ copy. copy ≡ item.now) }
{
    match item {
        Some(value) => Ok(Some(R::copy_of_value(alloc, value)?)),
        None => Ok(None),
    }
}

/// A copy of an ApplyIndex.
fn copy_of_apply_index<R: Rules>(
    alloc: Global,
    source: u32,
    sequence: u64,
    index: u64,
    row_key: &R::Key,
    after: &Option<R::Value>,
) -> Result<Asked<R>, NoMemory>
    ensures { IfOk result (λ copy. copy ≡ Message.ApplyIndex source sequence index row_key.now after.now) }
{
    Ok(Message::ApplyIndex {
        source,
        sequence,
        index,
        row_key: R::copy_of_key(alloc, row_key)?,
        after: copy_of_item::<R>(alloc, after)?,
    })
}

/// A copy of a message that names an item.
fn copy_about_item<R: Rules>(alloc: Global, message: &Asked<R>) -> Result<Asked<R>, NoMemory>
    requires { is_about_item message.now ≡ true }
    ensures { IfOk result (λ copy. copy ≡ message.now) }
{
    match message {
        Message::Get { key } => Ok(Message::Get {
            key: R::copy_of_key(alloc, key)?,
        }),
        Message::Write { action } => Ok(Message::Write {
            action: R::copy_of_action(alloc, action)?,
        }),
        Message::Expire { action } => Ok(Message::Expire {
            action: R::copy_of_action(alloc, action)?,
        }),
        Message::Prepare {
            number,
            stamp,
            action,
        } => Ok(Message::Prepare {
            number: *number,
            stamp: *stamp,
            action: R::copy_of_action(alloc, action)?,
        }),
        Message::Apply { number, key } => Ok(Message::Apply {
            number: *number,
            key: R::copy_of_key(alloc, key)?,
        }),
        Message::Release { number, key } => Ok(Message::Release {
            number: *number,
            key: R::copy_of_key(alloc, key)?,
        }),
        Message::ReadVersion { key } => Ok(Message::ReadVersion {
            key: R::copy_of_key(alloc, key)?,
        }),
        _ => unreachable!(),
    }
}

/// A copy of a message to one partition. Pages are handed on as they are lent.
pub(crate) fn copy_of<R: Rules>(alloc: Global, message: &Asked<R>) -> Result<Asked<R>, NoMemory>
    requires { is_copied message.now ≡ true }
    ensures { IfOk result (λ copy. copy ≡ message.now) }
{
    match message {
        Message::ExpiredKeys { cell, limit } => Ok(Message::ExpiredKeys {
            cell: *cell,
            limit: *limit,
        }),
        Message::Pendings { cell } => Ok(Message::Pendings { cell: *cell }),
        Message::PeekOut { source } => Ok(Message::PeekOut { source: *source }),
        Message::ApplyIndex {
            source,
            sequence,
            index,
            row_key,
            after,
        } => copy_of_apply_index::<R>(alloc, *source, *sequence, *index, row_key, after),
        Message::Ack { source, sequence } => Ok(Message::Ack {
            source: *source,
            sequence: *sequence,
        }),
        _ => copy_about_item::<R>(alloc, message),
    }
}

/// A copy of a Begin.
fn copy_of_begin<R: Rules>(
    alloc: Global,
    token: &Option<Text>,
    actions: &[R::Action],
) -> Result<Asked<R>, NoMemory>
    ensures { IfOk result (λ copy. copy ≡ Message.Begin token.now actions.now) }
{
    let token = match token {
        Some(text) => Some(text.try_clone()?),
        None => None,
    };
    Ok(Message::Begin {
        token,
        actions: copy_of_actions::<R>(alloc, actions)?,
    })
}

/// A copy of a Decide.
fn copy_of_decide<R: Rules>(
    alloc: Global,
    number: u64,
    commit: bool,
    reasons: &[Reason<R::Value, R::Fault>],
) -> Result<Asked<R>, NoMemory>
where
    R::Fault: Copy,
    ensures { IfOk result (λ copy. copy ≡ Message.Decide number commit reasons.now) }
{
    Ok(Message::Decide {
        number,
        commit,
        reasons: copy_of_reasons::<R>(alloc, reasons)?,
    })
}

/// A copy of a message about transactions.
pub(crate) fn copy_of_ledger<R: Rules>(
    alloc: Global,
    message: &Asked<R>,
) -> Result<Asked<R>, NoMemory>
where
    R::Fault: Copy,
    requires { is_of_ledger message.now ≡ true }
    ensures { IfOk result (λ copy. copy ≡ message.now) }
{
    match message {
        Message::Begin { token, actions } => {
            copy_of_begin::<R>(alloc, token, actions.as_slice())
        }
        Message::Decide {
            number,
            commit,
            reasons,
        } => copy_of_decide::<R>(alloc, *number, *commit, reasons.as_slice()),
        Message::Done { number } => Ok(Message::Done { number: *number }),
        Message::Forget { number } => Ok(Message::Forget { number: *number }),
        Message::FateOf { number } => Ok(Message::FateOf { number: *number }),
        Message::Recall { number } => Ok(Message::Recall { number: *number }),
        Message::Unfinished => Ok(Message::Unfinished),
        _ => unreachable!(),
    }
}
