//! The legacy members of requests: what clients sent before there were expressions (Developer Guide: Legacy conditional
//! parameters).

ghost use Rattle.std.specs.Prelude.{◌≡◌, ◌≢◌, ◌↔◌, None, Ok, IfOk, IfErr, IsTrue, AllPairs, map, option_map};
ghost use Rattle.serde_json.specs.View.{view};
ghost use Rattle.expr_parse.specs.Overlaps.{HaveOverlap};
ghost use Rattle.legacy_params.specs.Answers.{IsEnd};
ghost use Rattle.legacy_params.specs.Trees.{path_to};
ghost use Rattle.request_parts.specs.Ends.{IsToldOf};
ghost use Rattle.request_parts.specs.Asks.{lent};
ghost use Rattle.request_parts.specs.Legacy.{legacy_names, expression_names, is_stated, any_stated, has_legacy, changes_of, keys_of, tests_of, joined_by, joined_of, names_of, shown_test, shown_change, AreLegacyParts, fault_if, names_fault, parts_fault, first_legacy, lacks_key, shown_paths, IsJudgment, AreLegacyTrees, IsLegacy};

use crate::legacy_part::{changes_at, stated_names, tests_at};
use crate::member::stated_text;
use crate::refusal::{Refusal, RequestEnd};
use api_form::{Fault, Name};
use attr_value::Value;
use base_types::{Seq, Text};
use expr_parse::{Condition, ParseEnd, Paths, Update};
use legacy_params::{
    Legacy, LegacyChange, LegacyEnd, LegacyFault, LegacyTest, any_twice, attributes,
    attributes_fault, changes_fault, condition, joins_by_or, keys_fault, least, tests_fault,
    update,
};
use serde_json::Value as Json;
use std::alloc::{AllocError as NoMemory, Global};

/// The kinds of requests that have legacy members.
#[derive(Clone, Copy)]
pub enum LegacyKind {
    /// PutItem and DeleteItem.
    Write,
    /// UpdateItem.
    Update,
    /// GetItem, and a table of a BatchGetItem.
    Read,
    Query,
    Scan,
}

pub const WRITE: [Name; 2] = [Name::ConditionalOperator, Name::Expected];

pub const UPDATE: [Name; 3] = [
    Name::AttributeUpdates,
    Name::ConditionalOperator,
    Name::Expected,
];

pub const READ: [Name; 1] = [Name::AttributesToGet];

pub const QUERY: [Name; 4] = [
    Name::AttributesToGet,
    Name::ConditionalOperator,
    Name::KeyConditions,
    Name::QueryFilter,
];

pub const SCAN: [Name; 3] = [
    Name::AttributesToGet,
    Name::ConditionalOperator,
    Name::ScanFilter,
];

/// The legacy members that a request may have.
fn legacy_names(kind: LegacyKind) -> &'static [Name]
    ensures { result.now ≡ legacy_names kind }
{
    match kind {
        LegacyKind::Write => &WRITE,
        LegacyKind::Update => &UPDATE,
        LegacyKind::Read => &READ,
        LegacyKind::Query => &QUERY,
        LegacyKind::Scan => &SCAN,
    }
}

pub const WRITE_EXPRESSIONS: [Name; 1] = [Name::ConditionExpression];

pub const UPDATE_EXPRESSIONS: [Name; 2] = [Name::ConditionExpression, Name::UpdateExpression];

pub const READ_EXPRESSIONS: [Name; 1] = [Name::ProjectionExpression];

pub const QUERY_EXPRESSIONS: [Name; 3] = [
    Name::FilterExpression,
    Name::KeyConditionExpression,
    Name::ProjectionExpression,
];

pub const SCAN_EXPRESSIONS: [Name; 2] = [Name::FilterExpression, Name::ProjectionExpression];

/// The expressions that it may have in their place.
fn expression_names(kind: LegacyKind) -> &'static [Name]
    ensures { result.now ≡ expression_names kind }
{
    match kind {
        LegacyKind::Write => &WRITE_EXPRESSIONS,
        LegacyKind::Update => &UPDATE_EXPRESSIONS,
        LegacyKind::Read => &READ_EXPRESSIONS,
        LegacyKind::Query => &QUERY_EXPRESSIONS,
        LegacyKind::Scan => &SCAN_EXPRESSIONS,
    }
}

/// Whether the member is there.
#[tactic(auto, using(crate::proofs::Stated::stated_there))]
fn is_stated(json: &Json, name: Name) -> bool
    ensures { result ≡ is_stated name (view json.now) }
{
    match json.get(name.text()) {
        Some(value) => !value.is_null(),
        None => false,
    }
}

/// Whether one of the members is there.
fn any_stated(json: &Json, names: &[Name]) -> bool
    ensures { result ≡ any_stated names.now (view json.now) }
{
    for name in names {
        if is_stated(json, *name) {
            return true;
        }
    }
    false
}

/// Whether a request has legacy members.
pub fn has_legacy(json: &Json, kind: LegacyKind) -> bool
    ensures { result ≡ has_legacy kind (view json.now) }
{
    any_stated(json, legacy_names(kind))
}

/// What the legacy members of a request state.
#[derive(Drop)]
pub(crate) struct LegacyParts {
    pub changes: Seq<LegacyChange>,
    pub keys: Seq<LegacyTest>,
    /// Those of the condition of a write, or of the filter of a page.
    pub tests: Seq<LegacyTest>,
    /// Whether these are joined by OR; None where the word is unknown.
    pub joined_by_or: Option<bool>,
    pub names: Option<Seq<Text>>,
}

impl LegacyParts {
    /// What the legacy members of a body state.
    fn read(alloc: Global, json: &Json, kind: LegacyKind) -> Result<LegacyParts, NoMemory>
        ensures parts { IfOk result (AreLegacyParts kind (view json.now)) }
        ensures once { IfOk result (λ parts. AllPairs (λ one other. one.name ≢ other.name) parts.changes) }
    {
        let changes = changes_of(alloc, json, kind)?;
        let keys = keys_of(alloc, json, kind)?;
        let tests = tests_of(alloc, json, kind)?;
        let names = names_of(alloc, json, kind)?;
        Ok(LegacyParts {
            changes,
            keys,
            tests,
            joined_by_or: joined_of(json, kind),
            names,
        })
    }
}

fn changes_of(alloc: Global, json: &Json, kind: LegacyKind) -> Result<Seq<LegacyChange>, NoMemory>
    ensures changes { IfOk result (λ changes. map shown_change changes ≡ changes_of kind (view json.now)) }
    ensures once { IfOk result (λ changes. AllPairs (λ one other. one.name ≢ other.name) changes) }
{
    match kind {
        LegacyKind::Update => changes_at(alloc, json, Name::AttributeUpdates),
        LegacyKind::Write | LegacyKind::Read | LegacyKind::Query | LegacyKind::Scan => Ok(Seq::new(
            alloc,
        )),
    }
}

fn keys_of(alloc: Global, json: &Json, kind: LegacyKind) -> Result<Seq<LegacyTest>, NoMemory>
    ensures { IfOk result (λ keys. map shown_test keys ≡ keys_of kind (view json.now)) }
{
    match kind {
        LegacyKind::Query => tests_at(alloc, json, Name::KeyConditions, false),
        LegacyKind::Write | LegacyKind::Update | LegacyKind::Read | LegacyKind::Scan => Ok(Seq::new(
            alloc,
        )),
    }
}

fn tests_of(alloc: Global, json: &Json, kind: LegacyKind) -> Result<Seq<LegacyTest>, NoMemory>
    ensures { IfOk result (λ tests. map shown_test tests ≡ tests_of kind (view json.now)) }
{
    match kind {
        LegacyKind::Write | LegacyKind::Update => tests_at(alloc, json, Name::Expected, true),
        LegacyKind::Read => Ok(Seq::new(alloc)),
        LegacyKind::Query => tests_at(alloc, json, Name::QueryFilter, false),
        LegacyKind::Scan => tests_at(alloc, json, Name::ScanFilter, false),
    }
}

/// Whether tests are joined by OR; None where the word is unknown.
fn joined_of(json: &Json, kind: LegacyKind) -> Option<bool>
    ensures { result ≡ joined_of kind (view json.now) }
{
    match kind {
        LegacyKind::Read => Some(false),
        LegacyKind::Write | LegacyKind::Update | LegacyKind::Query | LegacyKind::Scan => {
            joined_by(stated_text(json, Name::ConditionalOperator))
        }
    }
}

/// Whether a word joins tests by OR; AND is the default.
fn joined_by(word: Option<&str>) -> Option<bool>
    ensures { result ≡ joined_by (lent word.entry) }
{
    match word {
        Some(word) => joins_by_or(word),
        None => Some(false),
    }
}

fn names_of(alloc: Global, json: &Json, kind: LegacyKind) -> Result<Option<Seq<Text>>, NoMemory>
    ensures { IfOk result (λ names. names ≡ names_of kind (view json.now)) }
{
    match kind {
        LegacyKind::Write | LegacyKind::Update => Ok(None),
        LegacyKind::Read | LegacyKind::Query | LegacyKind::Scan => stated_names(alloc, json),
    }
}

/// The fault that is told first.
fn first_legacy(json: &Json, kind: LegacyKind, parts: &LegacyParts) -> Option<LegacyFault>
    ensures { result ≡ first_legacy kind (view json.now) parts.now }
{
    let mixed = fault_if(any_stated(json, expression_names(kind)), LegacyFault::Mixed);
    let unknown = fault_if(parts.joined_by_or.is_none(), LegacyFault::BadOperator);
    least(mixed, least(unknown, parts_fault(parts)))
}

/// The first fault of what single members state.
fn parts_fault(parts: &LegacyParts) -> Option<LegacyFault>
    ensures { result ≡ parts_fault parts.now }
{
    let changes = changes_fault(parts.changes.as_slice());
    let keys = keys_fault(parts.keys.as_slice());
    let tests = tests_fault(parts.tests.as_slice());
    let names = names_fault(&parts.names);
    least(changes, least(keys, least(tests, names)))
}

fn fault_if(holds: bool, fault: LegacyFault) -> Option<LegacyFault>
    ensures { result ≡ fault_if holds fault }
{
    if holds { Some(fault) } else { None }
}

fn names_fault(names: &Option<Seq<Text>>) -> Option<LegacyFault>
    ensures { result ≡ names_fault names.now }
{
    match names {
        Some(names) => attributes_fault(names.as_slice()),
        None => None,
    }
}

/// Whether a Query does not say which keys it reads.
fn lacks_key(kind: LegacyKind, keys: &[LegacyTest]) -> bool
    ensures { result ≡ lacks_key kind keys.now }
{
    match kind {
        LegacyKind::Query => keys.is_empty(),
        LegacyKind::Write | LegacyKind::Update | LegacyKind::Read | LegacyKind::Scan => false,
    }
}

/// Whether a name stands twice among those that are shown.
fn have_overlap(alloc: Global, names: &Option<Seq<Text>>) -> Result<bool, NoMemory>
    ensures { IfOk result (λ twice. IsTrue twice ↔ HaveOverlap (shown_paths names.now)) }
{
    match names {
        Some(names) => any_twice(alloc, names.as_slice()),
        None => Ok(false),
    }
}

/// Refuses what legacy members may not state.
fn judged(
    alloc: Global,
    json: &Json,
    kind: LegacyKind,
    parts: &LegacyParts,
) -> Result<(), RequestEnd>
    ensures { IsToldOf (IsJudgment kind (view json.now) parts.now) result }
{
    if let Some(fault) = first_legacy(json, kind, parts) {
        return Err(RequestEnd::Fault(Refusal::Legacy(fault)));
    }
    if lacks_key(kind, parts.keys.as_slice()) {
        let missing = Fault::Missing(Name::KeyConditionExpression);
        return Err(RequestEnd::Fault(Refusal::Body(missing)));
    }
    if have_overlap(alloc, &parts.names)? {
        return Err(RequestEnd::Fault(Refusal::Expression {
            member: Name::ProjectionExpression,
            fault: ParseEnd::Overlap,
        }));
    }
    Ok(())
}

/// What the legacy members of a request stand for, and the values that are named there.
#[derive(Drop)]
pub struct LegacyTrees {
    pub update: Option<Update>,
    pub key_condition: Option<Condition>,
    /// The condition of a write, or the filter of a page.
    pub condition: Option<Condition>,
    pub projection: Option<Paths>,
    pub values: Seq<Value>,
}

/// What the parts stand for, which are sound. Values are moved.
fn trees_of(alloc: Global, parts: LegacyParts) -> Result<LegacyTrees, NoMemory>
    requires once { AllPairs (λ one other. one.name ≢ other.name) parts.changes }
    requires faultless { parts_fault parts ≡ None }
    ensures { IfOk result (AreLegacyTrees parts) }
{
    let LegacyParts {
        changes,
        keys,
        tests,
        joined_by_or,
        names,
    } = parts;
    let any = joined_by_or.unwrap_or(false);
    let updating = made(update(alloc, changes))?;
    let keyed = made(condition(alloc, keys, false, updating.values))?;
    let tested = made(condition(alloc, tests, any, keyed.values))?;
    let projection = paths_of(alloc, names)?;
    Ok(LegacyTrees {
        update: updating.tree,
        key_condition: keyed.tree,
        condition: tested.tree,
        projection,
        values: tested.values,
    })
}

/// The paths of names, where they are stated.
fn paths_of(alloc: Global, names: Option<Seq<Text>>) -> Result<Option<Paths>, NoMemory>
    requires { names_fault names ≡ None }
    ensures { IfOk result (λ paths. option_map (λ p. p.paths) paths ≡ option_map (map path_to) names) }
{
    match names {
        Some(names) => Ok(Some(made(attributes(alloc, names))?)),
        None => Ok(None),
    }
}

/// What was made of members without a fault.
fn made<T>(made: Result<T, LegacyEnd>) -> Result<T, NoMemory>
    requires { IfErr made (IsEnd None) }
    ensures { IfOk result (λ value. made ≡ Ok value) }
{
    match made {
        Ok(value) => Ok(value),
        Err(LegacyEnd::NoMemory) => Err(NoMemory),
        Err(LegacyEnd::Fault(_)) => unreachable!(),
    }
}

/// What the legacy members of a request stand for, or why they are refused: their first fault, of LegacyFault's order;
/// a Query without a key; a name of AttributesToGet that stands twice, told as of a ProjectionExpression. Values are named
/// by their places: those of AttributeUpdates, then of KeyConditions, then of the tests of a condition or a filter.
/// NoMemory where memory is refused.
pub fn read_legacy(alloc: Global, json: &Json, kind: LegacyKind) -> Result<LegacyTrees, RequestEnd>
    ensures { IsToldOf (IsLegacy kind (view json.now)) result }
{
    let parts = LegacyParts::read(alloc, json, kind)?;
    judged(alloc, json, kind, &parts)?;
    Ok(trees_of(alloc, parts)?)
}
