//! The attributes that paths begin with.

ghost use Rattle.std.specs.Prelude.{◌≡◌, IfOk};
ghost use Rattle.std.specs.List.{list_any};
ghost use Rattle.std.specs.Option.{option_copied};
ghost use Rattle.expr_words.specs.Mentions.{mentioned, of_code};
ghost use Rattle.table_model.specs.Pages as model;
ghost use Rattle.page_reads.specs.Sources.{named_by};

use base_types::{DocPath, Step, Text};
use expr_words::{Condition, Mention};
use std::alloc::{AllocError as NoMemory, Global};
use table_schema::KeyNames;

/// The attribute that a path begins with.
pub(crate) fn root_of(path: &DocPath) -> &str
    ensures { result.now ≡ model.root_of path.now.steps }
{
    match path.steps.as_slice() {
        [Step::Name(name), ..] => name.as_str(),
        _ => "",
    }
}

/// Whether this is a path at or below the attribute.
fn is_rooted(mention: &Mention<'_>, name: &Text) -> bool
    ensures { result ≡ model.is_rooted name.now (of_code mention.now) }
{
    match mention {
        Mention::Path(path) => root_of(path) == name.as_str(),
        Mention::Value(_) | Mention::Kind(_) => false,
    }
}

/// Whether one of these is a path at or below the attribute.
fn names_attribute(mentions: &[Mention<'_>], name: &Text) -> bool
    ensures { result ≡ list_any (model.is_rooted name.now) (mentioned mentions.now) }
{
    for mention in mentions {
        if is_rooted(mention, name) {
            return true;
        }
    }
    false
}

/// The key attribute that one of these names, the partition key first.
fn key_named_by<'k>(mentions: &[Mention<'_>], keys: &'k KeyNames) -> Option<&'k Text>
    ensures { option_copied result ≡ named_by (mentioned mentions.now) keys.now }
{
    if names_attribute(mentions, &keys.partition) {
        return Some(&keys.partition);
    }
    match &keys.sort {
        Some(name) if names_attribute(mentions, name) => Some(name),
        _ => None,
    }
}

/// The key attribute that a filter names, the partition key first (API Reference: Query, FilterExpression).
pub(crate) fn named_key<'k>(
    alloc: Global,
    filter: Option<&Condition>,
    keys: &'k KeyNames,
) -> Result<Option<&'k Text>, NoMemory>
    ensures { IfOk result (λ name. option_copied name ≡ model.named_key (option_copied filter.entry) keys.now) }
{
    match filter {
        Some(condition) => {
            let mentions = condition.mentions(alloc)?;
            Ok(key_named_by(&mentions, keys))
        }
        None => Ok(None),
    }
}
