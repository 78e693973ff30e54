//! Whole requests.

ghost use Rattle.std.specs.Prelude.{◌≡◌, Some, map, IfOk, OnErr};
ghost use Rattle.numbered_tables.specs.Tables.{AreIdle};
ghost use Rattle.transact_writes.specs.Aimed.{database_of, action_in, AreFit};
ghost use Rattle.transact_writes.specs.Writes.{IsTransactWrite, IsMade, IsAnswered, AreSameOrPurged, told};

use crate::aim::checked;
use crate::aimed::Aimed;
use crate::settle::{Copied, judge_all, judge_all_kept};
use crate::token::{keep, repeated};
use base_types::{Seq, Text};
use client_tokens::Tokens;
use numbered_tables::{NumberedTable, change_all};
use std::alloc::{AllocError as NoMemory, Global};
use std::collections::BTreeMap;
use table_model::{NumberedAction, Refusal, Reply};
use table_request::{Consumed, TransactWrite};

/// Makes actions without a token, all or none. Where memory is refused nothing changes.
fn made(
    tables: &mut BTreeMap<Text, NumberedTable>,
    alloc: Global,
    aimed: Seq<Aimed>,
) -> Result<Result<(), Refusal>, NoMemory>
    requires idle { AreIdle tables.old.entries }
    requires fit { AreFit (database_of tables.old.entries) aimed }
    ensures idle { AreIdle tables.new.entries }
    ensures ok { IfOk result (IsMade tables.old.entries (map action_in aimed) tables.new.entries) }
    ensures err { OnErr result (tables.new.entries ≡ tables.old.entries) }
{
    match judge_all(tables, alloc, aimed)? {
        Ok(changes) => {
            change_all(tables, alloc, changes)?;
            Ok(Ok(()))
        }
        Err(reasons) => Ok(Err(Refusal::Cancelled(reasons))),
    }
}

/// Makes actions, all or none, unless their token is kept. Where memory is refused nothing changes.
fn made_once(
    tables: &mut BTreeMap<Text, NumberedTable>,
    tokens: &mut Tokens<Seq<NumberedAction>>,
    alloc: Global,
    aimed: Seq<Aimed>,
    token: Text,
    moment: u64,
) -> Result<Result<(), Refusal>, NoMemory>
    requires idle { AreIdle tables.old.entries }
    requires fit { AreFit (database_of tables.old.entries) aimed }
    ensures idle { AreIdle tables.new.entries }
    ensures ok { IfOk result (IsAnswered tables.old.entries tokens.old (map action_in aimed) (Some token) moment tables.new.entries tokens.new) }
    ensures err { OnErr result (tables.new.entries ≡ tables.old.entries) }
    ensures err_tokens { OnErr result (tokens.new ≡ tokens.old) }
{
    if let Some(kept) = tokens.find(token.as_str()) {
        return Ok(repeated(kept, aimed.as_slice()));
    }
    let Copied { judgement, actions } = judge_all_kept(tables, alloc, aimed)?;
    match judgement {
        Ok(changes) => keep(tables, tokens, alloc, token, actions, changes, moment),
        Err(reasons) => Ok(Err(Refusal::Cancelled(reasons))),
    }
}

/// Makes actions that fit the tables, all or none, unless their token is kept. Where memory is refused nothing changes.
fn answered(
    tables: &mut BTreeMap<Text, NumberedTable>,
    tokens: &mut Tokens<Seq<NumberedAction>>,
    alloc: Global,
    aimed: Seq<Aimed>,
    token: Option<Text>,
    moment: u64,
) -> Result<Result<(), Refusal>, NoMemory>
    requires idle { AreIdle tables.old.entries }
    requires fit { AreFit (database_of tables.old.entries) aimed }
    ensures idle { AreIdle tables.new.entries }
    ensures ok { IfOk result (IsAnswered tables.old.entries tokens.old (map action_in aimed) token moment tables.new.entries tokens.new) }
    ensures err { OnErr result (tables.new.entries ≡ tables.old.entries) }
    ensures err_tokens { OnErr result (tokens.new ≡ tokens.old) }
{
    match token {
        Some(token) => made_once(tables, tokens, alloc, aimed, token, moment),
        None => made(tables, alloc, aimed),
    }
}

/// What is told of actions that were made, or made before, or refused.
fn told(done: Result<(), Refusal>, consumed: Option<Seq<Consumed>>) -> Reply
    ensures { result ≡ told consumed done }
{
    match done {
        Ok(()) => Reply::TransactWritten { consumed },
        Err(refusal) => {
            drop(consumed);
            Reply::Refused(refusal)
        }
    }
}

/// Changes items of tables together at a moment, in microseconds: all of them, or none (API Reference: TransactWriteItems).
/// It is refused, in this order, for a table that is not there, for a key that is none of its table's, where an item stands
/// twice, where a key attribute is updated, for a token that is kept with other actions, and where an action is not
/// accepted, with a reason for each. Where the token is kept with these actions they were made before, and nothing changes.
///
/// A request that is not refused for its actions alone forgets the tokens whose life is over. Where memory is refused
/// nothing changes but for those tokens, which may be forgotten.
pub fn transact_write(
    tables: &mut BTreeMap<Text, NumberedTable>,
    tokens: &mut Tokens<Seq<NumberedAction>>,
    alloc: Global,
    request: TransactWrite,
    moment: u64,
) -> Result<Reply, NoMemory>
    requires idle { AreIdle tables.old.entries }
    ensures idle { AreIdle tables.new.entries }
    ensures ok { IfOk result (IsTransactWrite tables.old.entries tokens.old request moment tables.new.entries tokens.new) }
    ensures err { OnErr result (tables.new.entries ≡ tables.old.entries) }
    ensures err_tokens { OnErr result (AreSameOrPurged tokens.old moment tokens.new) }
{
    let TransactWrite {
        actions,
        token,
        consumed,
    } = request;
    match checked(tables, alloc, actions)? {
        Ok(aimed) => {
            tokens.purge(moment);
            let done = answered(tables, tokens, alloc, aimed, token, moment)?;
            Ok(told(done, consumed))
        }
        Err(refusal) => Ok(Reply::Refused(refusal)),
    }
}
