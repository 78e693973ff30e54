//! All actions judged, on the tables as they are.

ghost use Rattle.std.specs.Prelude.{◌≡◌, map, IfOk};
ghost use Rattle.std.specs.List.{AllByRecursion};
ghost use Rattle.transact_writes.specs.Aimed.{database_of, action_in, IsTarget};
ghost use Rattle.transact_writes.specs.Verdicts.{AreJudged};

use crate::aimed::Aimed;
use crate::judge::{judge, judge_kept};
use crate::verdicts::Verdicts;
use base_types::{Seq, Text};
use numbered_tables::{NumberedTable, TableChange};
use std::alloc::{AllocError as NoMemory, Global};
use std::collections::BTreeMap;
use table_model::{NumberedAction, Reason};

/// The changes that all actions make, where each is accepted, or what became of each.
pub(crate) type Judgement = Result<Seq<TableChange>, Seq<Reason>>;

/// What is made of all actions. Their items move.
pub(crate) fn judge_all(
    tables: &BTreeMap<Text, NumberedTable>,
    alloc: Global,
    aimed: Seq<Aimed>,
) -> Result<Judgement, NoMemory>
    requires { AllByRecursion (IsTarget (database_of tables.now.entries)) aimed }
    ensures { IfOk result (AreJudged (database_of tables.now.entries) (map action_in aimed)) }
{
    let mut verdicts = Verdicts::new(alloc, aimed.len())?;
    for aimed in Vec::from(aimed) {
        verdicts.add(judge(tables, alloc, aimed)?)?;
    }
    Ok(verdicts.settled())
}

/// What is made of all actions, and the actions.
#[derive(Drop)]
pub(crate) struct Copied {
    pub(crate) judgement: Judgement,
    pub(crate) actions: Seq<NumberedAction>,
}

/// What is made of all actions, which stay. Their items are copied.
pub(crate) fn judge_all_kept(
    tables: &BTreeMap<Text, NumberedTable>,
    alloc: Global,
    aimed: Seq<Aimed>,
) -> Result<Copied, NoMemory>
    requires { AllByRecursion (IsTarget (database_of tables.now.entries)) aimed }
    ensures judged { IfOk result (λ copied. AreJudged (database_of tables.now.entries) (map action_in aimed) copied.judgement) }
    ensures actions { IfOk result (λ copied. copied.actions ≡ map (λ aimed. aimed.action) aimed) }
{
    let mut verdicts = Verdicts::new(alloc, aimed.len())?;
    let mut actions = Seq::with_capacity(alloc, aimed.len())?;
    for aimed in Vec::from(aimed) {
        let Aimed { key, action } = aimed;
        match judge_kept(tables, alloc, key, &action.action) {
            Ok(verdict) => {
                actions.push(action)?;
                verdicts.add(verdict)?;
            }
            Err(refused) => {
                drop(action);
                return Err(refused);
            }
        }
    }
    Ok(Copied {
        judgement: verdicts.settled(),
        actions,
    })
}
