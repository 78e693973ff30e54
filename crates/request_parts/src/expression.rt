//! One expression of a request: its text, with what its placeholders stand for.

ghost use Rattle.std.specs.Prelude.{◌≡◌, ◌<◌, ◌^◌, length, IfOk, OnOk, map, option_map};
ghost use Rattle.api_form.specs.declared.name.Name.TheVariants as name;
ghost use Rattle.expr_words.specs.Marks.{IsMadeFor, IsMarked};
ghost use Rattle.expr_words.specs.Mentions.{of_code};
ghost use Rattle.expr_words.specs.Trees.{tree};
ghost use Rattle.expr_parse.specs.Update.{update_tree};
ghost use Rattle.attr_value.specs.View.{tree_of};
ghost use Rattle.request_parts.specs.Ends.{IsToldAs};
ghost use Rattle.request_parts.specs.Placeholders.{shown};
ghost use Rattle.request_parts.specs.Expressions.{kinds_fit, fits, names_type, is_type, UpdateOf, ConditionOf, PathsOf, WhereStated, IsFitting, IsFailed};
ghost use Rattle.request_parts.specs.Asks.{lent, MarksText};

use crate::placeholder::Placeholders;
use crate::refusal::{Refusal, RequestEnd};
use api_form::{Fault, Name};
use attr_value::Value;
use expr_parse::{Condition, Mention, ParseEnd, Paths, Update, Used};
use std::alloc::{AllocError as NoMemory, Global};

/// The update that the text of an UpdateExpression states.
#[tactic(auto, using(crate::proofs::Telling::failed_in))]
pub(crate) fn read_update(
    alloc: Global,
    placeholders: &Placeholders,
    text: &str,
    used: &mut Used,
) -> Result<Update, RequestEnd>
    requires made_for { IsMadeFor placeholders.now.given used.old }
    requires few_values { length placeholders.now.given.value_names < 2 ^ 32 }
    ensures told { IsToldAs update_tree (UpdateOf (shown placeholders.now) name.UpdateExpression text.now) result }
    ensures marks { OnOk result (IsMarked placeholders.now.given text.now used.old used.new) }
    ensures made_for { IsMadeFor placeholders.now.given used.new }
{
    match expr_parse::update(alloc, text, &placeholders.given, used) {
        Ok(update) => Ok(update),
        Err(end) => Err(failed(Name::UpdateExpression, end)),
    }
}

/// The condition that the text of a member states.
#[tactic(auto, using(crate::proofs::Telling::condition_failed_in))]
pub(crate) fn read_condition(
    alloc: Global,
    placeholders: &Placeholders,
    member: Name,
    text: &str,
    used: &mut Used,
) -> Result<Condition, RequestEnd>
    requires made_for { IsMadeFor placeholders.now.given used.old }
    requires few_values { length placeholders.now.given.value_names < 2 ^ 32 }
    ensures told { IsToldAs tree (ConditionOf (shown placeholders.now) member text.now) result }
    ensures marks { OnOk result (IsMarked placeholders.now.given text.now used.old used.new) }
    ensures made_for { IsMadeFor placeholders.now.given used.new }
{
    match expr_parse::condition(alloc, text, &placeholders.given, used) {
        Ok(condition) => fitting(alloc, condition, placeholders.values.as_slice()),
        Err(end) => Err(failed(member, end)),
    }
}

/// The condition, where its values that have to name a type do.
fn fitting(alloc: Global, condition: Condition, values: &[Value]) -> Result<Condition, RequestEnd>
    ensures { IsToldAs tree (IsFitting (map tree_of values.now) (tree condition)) result }
{
    match kinds_fit(alloc, &condition, values) {
        Ok(true) => Ok(condition),
        Ok(false) => {
            let name = Name::ExpressionAttributeValues;
            Err(RequestEnd::Fault(Refusal::Body(Fault::OutOfRange(name))))
        }
        Err(_) => Err(RequestEnd::NoMemory),
    }
}

/// The paths that the text of a ProjectionExpression states.
#[tactic(auto, using(crate::proofs::Telling::failed_in))]
pub(crate) fn read_paths(
    alloc: Global,
    placeholders: &Placeholders,
    text: &str,
    used: &mut Used,
) -> Result<Paths, RequestEnd>
    requires made_for { IsMadeFor placeholders.now.given used.old }
    requires few_values { length placeholders.now.given.value_names < 2 ^ 32 }
    ensures told { IsToldAs (λ p. p.paths) (PathsOf (shown placeholders.now) name.ProjectionExpression text.now) result }
    ensures marks { OnOk result (IsMarked placeholders.now.given text.now used.old used.new) }
    ensures made_for { IsMadeFor placeholders.now.given used.new }
{
    match expr_parse::paths(alloc, text, &placeholders.given, used) {
        Ok(paths) => Ok(paths),
        Err(end) => Err(failed(Name::ProjectionExpression, end)),
    }
}

/// The update, where its text is stated.
#[tactic(auto, using(crate::proofs::Telling::where_stated))]
pub(crate) fn stated_update(
    alloc: Global,
    placeholders: &Placeholders,
    text: Option<&str>,
    used: &mut Used,
) -> Result<Option<Update>, RequestEnd>
    requires made_for { IsMadeFor placeholders.now.given used.old }
    requires few_values { length placeholders.now.given.value_names < 2 ^ 32 }
    ensures told { IsToldAs (option_map update_tree)
        (WhereStated (UpdateOf (shown placeholders.now) name.UpdateExpression) (lent text.entry)) result }
    ensures marks { OnOk result (MarksText placeholders.now.given (lent text.entry) used.old used.new) }
    ensures made_for { IsMadeFor placeholders.now.given used.new }
{
    match text {
        Some(text) => Ok(Some(read_update(alloc, placeholders, text, used)?)),
        None => Ok(None),
    }
}

/// The condition, where its text is stated.
#[tactic(auto, using(crate::proofs::Telling::where_stated))]
pub(crate) fn stated_condition(
    alloc: Global,
    placeholders: &Placeholders,
    member: Name,
    text: Option<&str>,
    used: &mut Used,
) -> Result<Option<Condition>, RequestEnd>
    requires made_for { IsMadeFor placeholders.now.given used.old }
    requires few_values { length placeholders.now.given.value_names < 2 ^ 32 }
    ensures told { IsToldAs (option_map tree)
        (WhereStated (ConditionOf (shown placeholders.now) member) (lent text.entry)) result }
    ensures marks { OnOk result (MarksText placeholders.now.given (lent text.entry) used.old used.new) }
    ensures made_for { IsMadeFor placeholders.now.given used.new }
{
    match text {
        Some(text) => Ok(Some(read_condition(alloc, placeholders, member, text, used)?)),
        None => Ok(None),
    }
}

/// The paths, where their text is stated.
#[tactic(auto, using(crate::proofs::Telling::where_stated))]
pub(crate) fn stated_paths(
    alloc: Global,
    placeholders: &Placeholders,
    text: Option<&str>,
    used: &mut Used,
) -> Result<Option<Paths>, RequestEnd>
    requires made_for { IsMadeFor placeholders.now.given used.old }
    requires few_values { length placeholders.now.given.value_names < 2 ^ 32 }
    ensures told { IsToldAs (option_map (λ p. p.paths))
        (WhereStated (PathsOf (shown placeholders.now) name.ProjectionExpression) (lent text.entry)) result }
    ensures marks { OnOk result (MarksText placeholders.now.given (lent text.entry) used.old used.new) }
    ensures made_for { IsMadeFor placeholders.now.given used.new }
{
    match text {
        Some(text) => Ok(Some(read_paths(alloc, placeholders, text, used)?)),
        None => Ok(None),
    }
}

/// The end of a request whose expression is refused.
fn failed(member: Name, end: ParseEnd) -> RequestEnd
    ensures { IsFailed member end result }
{
    match end {
        ParseEnd::NoMemory => RequestEnd::NoMemory,
        fault => RequestEnd::Fault(Refusal::Expression { member, fault }),
    }
}

/// Whether each value that has to name a type does (Developer Guide, "attribute_type").
fn kinds_fit(alloc: Global, condition: &Condition, values: &[Value]) -> Result<bool, NoMemory>
    ensures { IfOk result (λ fit. fit ≡ kinds_fit (map tree_of values.now) (tree condition.now)) }
{
    let mentions = condition.mentions(alloc)?;
    for mention in &mentions {
        if !fits(*mention, values) {
            return Ok(false);
        }
    }
    Ok(true)
}

/// Whether what is mentioned, if it has to name a type, does.
fn fits(mention: Mention<'_>, values: &[Value]) -> bool
    ensures { result ≡ fits (map tree_of values.now) (of_code mention.entry) }
{
    match mention {
        Mention::Kind(place) => names_type(values.get(place as usize)),
        Mention::Path(_) | Mention::Value(_) => true,
    }
}

/// Whether the value is a text that names a type.
fn names_type(value: Option<&Value>) -> bool
    ensures { result ≡ names_type (option_map (λ v. tree_of v.now) value.entry) }
{
    match value {
        Some(Value::S(text)) => is_type(text.as_str()),
        _ => false,
    }
}

/// Whether the text is the name of a type of attribute values.
fn is_type(text: &str) -> bool
    ensures { result ≡ is_type text.now }
{
    text == "S"
        || text == "N"
        || text == "B"
        || text == "BOOL"
        || text == "NULL"
        || text == "L"
        || text == "M"
        || text == "SS"
        || text == "NS"
        || text == "BS"
}
