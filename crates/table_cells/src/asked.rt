//! One message each.

ghost use Rattle.std.specs.Prelude.{◌≡◌, IfOk, IfErr};
ghost use Rattle.txn_core.specs.declared.message.Message.{Message};
ghost use Rattle.cell_model.specs.declared.question.CatalogQuestion.TheVariants.{Look, Names, Page};
ghost use Rattle.cluster.specs.Steps.{IsAtRest, partitions_of};
ghost use Rattle.cell_asks.specs.Steps.{One, Stops};
ghost use Rattle.cell_asks.specs.Answers.{got_answer, look_answer, names_answer, page_answer, ruled_answer, wrote_answer};
ghost use Rattle.table_cells.specs.Kinds.{IsOfCommand, IsOfGet, IsOfLook, IsOfNames, IsOfPage, IsOfWrite};

use crate::cells::TablePass;
use attr_value::SharedItem;
use base_types::Text;
use cell_asks::{Got, Ruled, StepError, Wrote};
use cell_model::{
    CatalogAnswer, CatalogCommand, CatalogQuestion, CellKey, KeyedAction, NameList, PageQuestion,
    Part, TableLook,
};
use cell_rules::TableRules;
use cluster::Caller;
use std::sync::Wait;
use txn_core::{Answer, Message, Rules};
use update_eval::EvalFault;

type TableAnswer = Answer<CellKey, SharedItem, KeyedAction, EvalFault, CatalogAnswer>;

/// The answer of a Get.
fn got_of(answer: TableAnswer) -> Got
    requires { IsOfGet answer }
    ensures { got_answer result ≡ answer }
{
    match answer {
        Answer::Row { item } => Got::Row(item),
        Answer::Stale => Got::Stale,
        _ => unreachable!(),
    }
}

/// The committed item of a key.
#[tactic(auto, using(crate::proofs::Steps::stops_of, crate::proofs::Resting::after_counts, crate::proofs::Resting::after_until))]
pub(crate) fn get<T: Wait>(
    caller: &Caller<'_, TableRules, T>,
    pass: &mut TablePass,
    key: CellKey,
) -> Result<Got, StepError>
    requires fits { IsAtRest caller.now pass.old }
    ensures ok { IfOk result (λ got. One (partitions_of caller.now) pass.old (Message.Get key) (got_answer got) pass.new) }
    ensures err { IfErr result (λ why. Stops (partitions_of caller.now) pass.old why pass.new) }
    ensures fits { IsAtRest caller.now pass.new }
{
    let cell = caller.cell_of(&key);
    match caller.ask(pass, cell, Message::Get { key }) {
        Ok(answer) => Ok(got_of(answer)),
        Err(why) => Err(why),
    }
}

/// The answer of a Write.
fn wrote_of(answer: TableAnswer) -> Wrote
    requires { IsOfWrite answer }
    ensures { wrote_answer result ≡ answer }
{
    match answer {
        Answer::Written { old, new } => Wrote::Written { old, new },
        Answer::Held { number } => Wrote::Held { number },
        Answer::CondFalse { old } => Wrote::CondFalse { old },
        Answer::Invalid { fault } => Wrote::Invalid(fault),
        Answer::Stale => Wrote::Stale,
        _ => unreachable!(),
    }
}

/// A single write.
#[tactic(auto, using(crate::proofs::Steps::stops_of, crate::proofs::Resting::after_counts, crate::proofs::Resting::after_until))]
pub(crate) fn write<T: Wait>(
    caller: &Caller<'_, TableRules, T>,
    pass: &mut TablePass,
    action: KeyedAction,
) -> Result<Wrote, StepError>
    requires fits { IsAtRest caller.now pass.old }
    ensures ok { IfOk result (λ wrote. One (partitions_of caller.now) pass.old (Message.Write action) (wrote_answer wrote) pass.new) }
    ensures err { IfErr result (λ why. Stops (partitions_of caller.now) pass.old why pass.new) }
    ensures fits { IsAtRest caller.now pass.new }
{
    let cell = caller.cell_of(action.key());
    match caller.ask(pass, cell, Message::Write { action }) {
        Ok(answer) => Ok(wrote_of(answer)),
        Err(why) => Err(why),
    }
}

/// The answer of a Look.
fn look_of(answer: TableAnswer) -> Option<TableLook>
    requires { IsOfLook answer }
    ensures { look_answer result ≡ answer }
{
    match answer {
        Answer::Told { told } => told.into_look(),
        _ => unreachable!(),
    }
}

/// The table of a name.
#[tactic(auto, using(crate::proofs::Steps::stops_of, crate::proofs::Resting::after_counts, crate::proofs::Resting::after_until))]
pub(crate) fn look<T: Wait>(
    caller: &Caller<'_, TableRules, T>,
    pass: &mut TablePass,
    name: Text,
) -> Result<Option<TableLook>, StepError>
    requires fits { IsAtRest caller.now pass.old }
    ensures ok { IfOk result (λ told. One (partitions_of caller.now) pass.old (Message.Ask (Look name)) (look_answer told) pass.new) }
    ensures err { IfErr result (λ why. Stops (partitions_of caller.now) pass.old why pass.new) }
    ensures fits { IsAtRest caller.now pass.new }
{
    let question = CatalogQuestion::Look { name };
    match caller.ask_ledger(pass, Message::Ask { question }) {
        Ok(answer) => Ok(look_of(answer)),
        Err(why) => Err(why),
    }
}

/// The answer of a Names.
fn names_of(answer: TableAnswer) -> NameList
    requires { IsOfNames answer }
    ensures { names_answer result ≡ answer }
{
    match answer {
        Answer::Told { told } => {
            let Some(names) = told.into_names() else {
                unreachable!()
            };
            names
        }
        _ => unreachable!(),
    }
}

/// At most so many names of tables, from behind the one that is given.
#[tactic(auto, using(crate::proofs::Steps::stops_of, crate::proofs::Resting::after_counts, crate::proofs::Resting::after_until))]
pub(crate) fn names<T: Wait>(
    caller: &Caller<'_, TableRules, T>,
    pass: &mut TablePass,
    after: Option<Text>,
    limit: u64,
) -> Result<NameList, StepError>
    requires fits { IsAtRest caller.now pass.old }
    ensures ok { IfOk result (λ told. One (partitions_of caller.now) pass.old (Message.Ask (Names after limit)) (names_answer told) pass.new) }
    ensures err { IfErr result (λ why. Stops (partitions_of caller.now) pass.old why pass.new) }
    ensures fits { IsAtRest caller.now pass.new }
{
    let question = CatalogQuestion::Names { after, limit };
    match caller.ask_ledger(pass, Message::Ask { question }) {
        Ok(answer) => Ok(names_of(answer)),
        Err(why) => Err(why),
    }
}

/// The answer of a page.
fn part_of(answer: TableAnswer) -> Option<Part>
    requires { IsOfPage answer }
    ensures { page_answer result ≡ answer }
{
    match answer {
        Answer::Part { told } => told.into_part(),
        Answer::Stale => None,
        _ => unreachable!(),
    }
}

/// A cell's part of a page, or none where its table or its index is gone.
#[tactic(auto, using(crate::proofs::Steps::stops_of, crate::proofs::Resting::after_counts, crate::proofs::Resting::after_until))]
pub(crate) fn page<T: Wait>(
    caller: &Caller<'_, TableRules, T>,
    pass: &mut TablePass,
    question: PageQuestion,
) -> Result<Option<Part>, StepError>
    requires fits { IsAtRest caller.now pass.old }
    ensures ok { IfOk result (λ part. One (partitions_of caller.now) pass.old (Message.ScanPage (Page question)) (page_answer part) pass.new) }
    ensures err { IfErr result (λ why. Stops (partitions_of caller.now) pass.old why pass.new) }
    ensures fits { IsAtRest caller.now pass.new }
{
    let page = CatalogQuestion::Page(question);
    let cell = TableRules::page_cell(caller.partitions(), &page);
    match caller.ask(pass, cell, Message::ScanPage { page }) {
        Ok(answer) => Ok(part_of(answer)),
        Err(why) => Err(why),
    }
}

/// The answer of a command.
fn ruled_of(answer: TableAnswer) -> Ruled
    requires { IsOfCommand answer }
    ensures { ruled_answer result ≡ answer }
{
    match answer {
        Answer::Changed { told } => Ruled::Changed(told),
        Answer::Refused { told } => Ruled::Refused(told),
        Answer::Held { number } => Ruled::Held { number },
        _ => unreachable!(),
    }
}

/// A change of the catalog.
#[tactic(auto, using(crate::proofs::Steps::stops_of, crate::proofs::Resting::after_counts, crate::proofs::Resting::after_until))]
pub(crate) fn command<T: Wait>(
    caller: &Caller<'_, TableRules, T>,
    pass: &mut TablePass,
    command: CatalogCommand,
) -> Result<Ruled, StepError>
    requires fits { IsAtRest caller.now pass.old }
    ensures ok { IfOk result (λ ruled. One (partitions_of caller.now) pass.old (Message.Command command) (ruled_answer ruled) pass.new) }
    ensures err { IfErr result (λ why. Stops (partitions_of caller.now) pass.old why pass.new) }
    ensures fits { IsAtRest caller.now pass.new }
{
    match caller.ask_all(pass, command) {
        Ok(answer) => Ok(ruled_of(answer)),
        Err(why) => Err(why),
    }
}
