//! The expressions of a request, in the order in which they are read; behind them the placeholders that none uses.
//!
//! Each call answers the trees of the texts that are stated, or the first refusal: of an expression, told in the name of
//! its member, where all before it are read; of a value that has to name a type and does not, right behind its own
//! expression; then of the first placeholder of a name that no text uses; then of the first one of a value. A text that
//! is not stated is no expression, the empty text is one that has a fault. NoMemory where memory is refused.
//!
//! The values have to be fewer than 2^32, as those of `Placeholders` are.

ghost use Rattle.std.specs.Prelude.{◌≡◌, ◌<◌, ◌^◌, ◌≤◌, ◌-◌, [], length, slice_get, unwrap_or, IfOk};
ghost use Rattle.expr_words.specs.Marks.{IsMadeFor};
ghost use Rattle.request_parts.specs.Ends.{IsToldOf};
ghost use Rattle.request_parts.specs.Placeholders.{shown};
ghost use Rattle.request_parts.specs.Asks.{lent, IsEnd, AreBoth, unused};
ghost use Rattle.request_parts.specs.Trees.{IsWrite, IsChange, IsProjection, IsPage, IsQueried};

use crate::expression::{
    read_condition, read_update, stated_condition, stated_paths, stated_update,
};
use crate::placeholder::Placeholders;
use crate::refusal::{Refusal, RequestEnd};
use api_form::Name;
use base_types::Text;
use expr_parse::{Condition, Given, Paths, Update, Used};
use std::alloc::{AllocError as NoMemory, Global};

/// The expressions of a write.
#[derive(Drop)]
pub struct WriteTrees {
    pub update: Option<Update>,
    pub condition: Option<Condition>,
}

/// The expressions of a write that has to state an update.
#[derive(Drop)]
pub struct ChangeTrees {
    pub update: Update,
    pub condition: Option<Condition>,
}

/// The expressions of a page.
#[derive(Drop)]
pub struct PageTrees {
    pub filter: Option<Condition>,
    pub projection: Option<Paths>,
}

/// The expressions of a page of one partition key.
#[derive(Drop)]
pub struct QueryTrees {
    pub key_condition: Condition,
    pub page: PageTrees,
}

/// The expressions of a write: its update, its condition.
#[tactic(auto, using(crate::proofs::Asking::write_first))]
pub fn read_write(
    alloc: Global,
    placeholders: &Placeholders,
    update: Option<&str>,
    condition: Option<&str>,
) -> Result<WriteTrees, RequestEnd>
    requires few_values { length placeholders.now.given.value_names < 2 ^ 32 }
    ensures { IsToldOf (IsWrite (shown placeholders.now) (lent update.entry) (lent condition.entry)) result }
{
    let mut used = Used::make(alloc, &placeholders.given)?;
    let update = stated_update(alloc, placeholders, update, &mut used)?;
    let name = Name::ConditionExpression;
    let condition = stated_condition(alloc, placeholders, name, condition, &mut used)?;
    all_used(
        alloc,
        WriteTrees { update, condition },
        &placeholders.given,
        &used,
    )
}

/// The expressions of a write that has to state an update: the update, its condition.
#[tactic(auto, using(crate::proofs::Asking::change_first))]
pub fn read_change(
    alloc: Global,
    placeholders: &Placeholders,
    update: &str,
    condition: Option<&str>,
) -> Result<ChangeTrees, RequestEnd>
    requires few_values { length placeholders.now.given.value_names < 2 ^ 32 }
    ensures { IsToldOf (IsChange (shown placeholders.now) update.now (lent condition.entry)) result }
{
    let mut used = Used::make(alloc, &placeholders.given)?;
    let update = read_update(alloc, placeholders, update, &mut used)?;
    let name = Name::ConditionExpression;
    let condition = stated_condition(alloc, placeholders, name, condition, &mut used)?;
    all_used(
        alloc,
        ChangeTrees { update, condition },
        &placeholders.given,
        &used,
    )
}

/// The expression of a read of one item: its projection.
#[tactic(auto, using(crate::proofs::Asking::projection_first))]
pub fn read_projection(
    alloc: Global,
    placeholders: &Placeholders,
    text: Option<&str>,
) -> Result<Option<Paths>, RequestEnd>
    requires few_values { length placeholders.now.given.value_names < 2 ^ 32 }
    ensures { IsToldOf (IsProjection (shown placeholders.now) (lent text.entry)) result }
{
    let mut used = Used::make(alloc, &placeholders.given)?;
    let projection = stated_paths(alloc, placeholders, text, &mut used)?;
    all_used(alloc, projection, &placeholders.given, &used)
}

/// The expressions of a page: its filter, its projection.
#[tactic(auto, using(crate::proofs::Asking::page_first, crate::proofs::Asking::page_second))]
pub fn read_page(
    alloc: Global,
    placeholders: &Placeholders,
    filter: Option<&str>,
    projection: Option<&str>,
) -> Result<PageTrees, RequestEnd>
    requires few_values { length placeholders.now.given.value_names < 2 ^ 32 }
    ensures { IsToldOf (IsPage (shown placeholders.now) (lent filter.entry) (lent projection.entry)) result }
{
    let mut used = Used::make(alloc, &placeholders.given)?;
    let name = Name::FilterExpression;
    let filter = stated_condition(alloc, placeholders, name, filter, &mut used)?;
    let projection = stated_paths(alloc, placeholders, projection, &mut used);
    let (filter, projection) = both(filter, projection)?;
    all_used(
        alloc,
        PageTrees { filter, projection },
        &placeholders.given,
        &used,
    )
}

/// The expressions of a page of one partition key: its key condition, its filter, its projection.
#[tactic(auto, using(crate::proofs::Asking::query_first))]
pub fn read_query(
    alloc: Global,
    placeholders: &Placeholders,
    key: &str,
    filter: Option<&str>,
    projection: Option<&str>,
) -> Result<QueryTrees, RequestEnd>
    requires few_values { length placeholders.now.given.value_names < 2 ^ 32 }
    ensures { IsToldOf
        (IsQueried (shown placeholders.now) key.now (lent filter.entry) (lent projection.entry)) result }
{
    let mut used = Used::make(alloc, &placeholders.given)?;
    let name = Name::KeyConditionExpression;
    let key = read_condition(alloc, placeholders, name, key, &mut used)?;
    let name = Name::FilterExpression;
    let filter = stated_condition(alloc, placeholders, name, filter, &mut used);
    let (key_condition, filter) = both(key, filter)?;
    let held = (key_condition, filter);
    let projection = stated_paths(alloc, placeholders, projection, &mut used);
    let ((key_condition, filter), projection) = both(held, projection)?;
    let page = PageTrees { filter, projection };
    let trees = QueryTrees {
        key_condition,
        page,
    };
    all_used(alloc, trees, &placeholders.given, &used)
}

/// A value beside a further one, where that is there.
///
/// What is held goes through a generic function, where it is dropped by one call, whatever it is.
fn both<T: Drop, U>(held: T, next: Result<U, RequestEnd>) -> Result<(T, U), RequestEnd>
    ensures { AreBoth held next result }
{
    match next {
        Ok(next) => Ok((held, next)),
        Err(end) => Err(end),
    }
}

/// What was read, unless a placeholder is not used; then the first of those is refused.
fn all_used<T: Drop>(alloc: Global, whole: T, given: &Given, used: &Used) -> Result<T, RequestEnd>
    requires { IsMadeFor given.now used.now }
    ensures { IsToldOf (IsEnd whole given.now used.now) result }
{
    let Some(place) = used.unused(given) else {
        return Ok(whole);
    };
    match given.names.get(place) {
        Some(pair) => Err(RequestEnd::Fault(Refusal::UnusedName(pair.placeholder.try_clone()?))),
        None => Err(RequestEnd::Fault(Refusal::UnusedValue(value_name(alloc, given, place)?))),
    }
}

/// The name of a value, by the place behind all names.
fn value_name(alloc: Global, given: &Given, place: usize) -> Result<Text, NoMemory>
    requires { length given.now.names ≤ place }
    ensures { IfOk result (λ name. name ≡ unwrap_or (slice_get given.now.value_names (place - length given.now.names)) []) }
{
    match given.value_names.get(place - given.names.len()) {
        Some(name) => name.try_clone(),
        None => Text::copied(alloc, ""),
    }
}
