//! What a token stands for: a transaction that was made, with its actions.

ghost use Rattle.std.specs.Prelude.{◌≡◌, false, None, map, IfOk, OnErr};
ghost use Rattle.std.specs.FinMap.{get};
ghost use Rattle.std.specs.Cmp.Lexicographic.{pointwise};
ghost use Rattle.table_model.specs.Transactions.{same_action};
ghost use Rattle.numbered_tables.specs.Changes.{has_repeat};
ghost use Rattle.numbered_tables.specs.Tables.{AreIdle};
ghost use Rattle.transact_writes.specs.Writes.{repeat_ending, IsKept};

use crate::aimed::Aimed;
use base_types::{Seq, Text};
use client_tokens::{Kept, Tokens};
use numbered_tables::{NumberedTable, TableChange, change_all};
use std::alloc::{AllocError as NoMemory, Global};
use std::collections::BTreeMap;
use table_model::{NumberedAction, Refusal};

/// Whether these are the actions that were kept, each in every part.
fn are_same(kept: &[NumberedAction], aimed: &[Aimed]) -> bool
    ensures { result ≡ pointwise same_action kept.now (map (λ aimed. aimed.action) aimed.now) }
{
    match (kept, aimed) {
        ([], []) => true,
        ([], [_, ..]) => false,
        ([_, ..], []) => false,
        ([kept, others @ ..], [aimed, rest @ ..]) => {
            *kept == aimed.action && are_same(others, rest)
        }
    }
}

/// What becomes of actions whose token is kept: they were made before, or others were.
pub(crate) fn repeated(kept: &Kept<Seq<NumberedAction>>, aimed: &[Aimed]) -> Result<(), Refusal>
    ensures { result ≡ repeat_ending kept.now (map (λ aimed. aimed.action) aimed.now) }
{
    if are_same(kept.actions.as_slice(), aimed) {
        Ok(())
    } else {
        Err(Refusal::Mismatch)
    }
}

/// Makes changes, and keeps the token with the actions at a moment. Where memory is refused nothing changes.
pub(crate) fn keep(
    tables: &mut BTreeMap<Text, NumberedTable>,
    tokens: &mut Tokens<Seq<NumberedAction>>,
    alloc: Global,
    token: Text,
    actions: Seq<NumberedAction>,
    changes: Seq<TableChange>,
    moment: u64,
) -> Result<Result<(), Refusal>, NoMemory>
    requires idle { AreIdle tables.old.entries }
    requires apart { has_repeat changes ≡ false }
    requires absent { get tokens.old token ≡ None }
    ensures idle { AreIdle tables.new.entries }
    ensures ok { IfOk result (IsKept tables.old.entries tokens.old token actions changes moment tables.new.entries tokens.new) }
    ensures err { OnErr result (tables.new.entries ≡ tables.old.entries) }
    ensures err_tokens { OnErr result (tokens.new ≡ tokens.old) }
{
    let name = token.try_clone()?;
    let kept = Kept {
        number: 0,
        actions,
        completed: Some(moment),
    };
    tokens.keep(name, kept)?;
    match change_all(tables, alloc, changes) {
        Ok(()) => Ok(Ok(())),
        Err(refused) => {
            tokens.free(token.as_str());
            Err(refused)
        }
    }
}
