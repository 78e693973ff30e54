//! Where a path may be written, and which attribute it begins with.

ghost use Rattle.std.specs.Prelude.{◌≡◌, map};
ghost use Rattle.std.specs.List.{list_any};
ghost use Rattle.attr_value.specs.View.{tree_of};
ghost use Rattle.expr_parse.specs.Update.{update_tree};
ghost use Rattle.expr_words.specs.Trees.{set_tree};
ghost use Rattle.update_eval.specs.Places.{begins_with, has_place, place_in, takes, touches, touches_by_kind};

use attr_value::{Item, Value};
use base_types::{DocPath, Step};
use expr_parse::Update;
use expr_words::{PathValue, SetTo};

/// Whether a path that the update writes begins with this name.
pub fn touches(tree: &Update, name: &str) -> bool
    ensures { result ≡ touches (update_tree tree.now) name.now }
{
    some_begin(tree, name)
}

fn some_begin(tree: &Update, name: &str) -> bool
    ensures { result ≡ touches_by_kind (update_tree tree.now) name.now }
{
    if sets_begin(tree.sets.as_slice(), name) {
        return true;
    }
    if paths_begin(tree.removes.as_slice(), name) {
        return true;
    }
    if pairs_begin(tree.adds.as_slice(), name) {
        return true;
    }
    pairs_begin(tree.deletes.as_slice(), name)
}

fn sets_begin(sets: &[SetTo], name: &str) -> bool
    ensures { result ≡ list_any (begins_with name.now) (map (λ set. set.path) (map set_tree sets.now)) }
{
    for set in sets {
        if begins_with(&set.path, name) {
            return true;
        }
    }
    false
}

fn paths_begin(paths: &[DocPath], name: &str) -> bool
    ensures { result ≡ list_any (begins_with name.now) paths.now }
{
    for path in paths {
        if begins_with(path, name) {
            return true;
        }
    }
    false
}

fn pairs_begin(pairs: &[PathValue], name: &str) -> bool
    ensures { result ≡ list_any (begins_with name.now) (map (λ pair. pair.path) pairs.now) }
{
    for pair in pairs {
        if begins_with(&pair.path, name) {
            return true;
        }
    }
    false
}

/// Whether the path's first step is this name.
fn begins_with(path: &DocPath, name: &str) -> bool
    ensures { result ≡ begins_with name.now path.now }
{
    match path.steps.as_slice().split_first() {
        Some((Step::Name(first), _)) => first.as_str() == name,
        _ => false,
    }
}

/// Whether the path's parent is there and of the kind that its last step needs.
pub(crate) fn has_place(path: &DocPath, old: &Item) -> bool
    ensures { result ≡ has_place path.now.steps old.now }
{
    let Some((first, rest)) = path.steps.as_slice().split_first() else {
        return false;
    };
    let Step::Name(name) = first else {
        return false;
    };
    if rest.is_empty() {
        return true;
    }
    match old.attribute(name) {
        Some(value) => place_in(value, rest),
        None => false,
    }
}

/// The same from a value on.
fn place_in(value: &Value, steps: &[Step]) -> bool
    ensures { result ≡ place_in steps.now (tree_of value.now) }
{
    let Some((first, rest)) = steps.split_first() else {
        return false;
    };
    if rest.is_empty() {
        return takes(value, first);
    }
    match value.child(first) {
        Some(deeper) => place_in(deeper, rest),
        None => false,
    }
}

/// Whether the value is of the kind that the step needs.
fn takes(value: &Value, step: &Step) -> bool
    ensures { result ≡ takes step.now (tree_of value.now) }
{
    match (step, value) {
        (Step::Name(_), Value::M(_)) => true,
        (Step::Index(_), Value::L(_)) => true,
        _ => false,
    }
}
