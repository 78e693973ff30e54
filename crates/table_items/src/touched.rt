//! The attributes of an item that an update writes.

ghost use Rattle.std.specs.Prelude.{◌≡◌, [], ◌∷◌, ◌++◌, map, IfOk, OnOk};
ghost use Rattle.expr_words.specs.Trees.{set_tree};
ghost use Rattle.item_keys.specs.Row.{only};
ghost use Rattle.path_entries.specs.Entries.{entries_of};
ghost use Rattle.path_entries.specs.Order.{AreInOrder};
ghost use Rattle.update_eval.specs.Places.{touches};
ghost use Rattle.expr_parse.specs.Update.{update_tree};
ghost use Rattle.expr_parse.specs.UpdateTree.{written};
ghost use Rattle.table_items.specs.Touched.{has_name, steps_of};

use attr_value::Item;
use base_types::{DocPath, Text};
use expr_parse::Update;
use expr_words::{PathValue, SetTo};
use path_entries::{Key, PathEntry, range, sorted};
use std::alloc::{AllocError as NoMemory, Global};

/// The attributes at or below which the update writes, copied. The update's paths are put in order, and each attribute is
/// looked for among them by halves.
pub(crate) fn only_touched(alloc: Global, update: &Update, item: &Item) -> Result<Item, NoMemory>
    ensures { IfOk result (λ touched. touched ≡ only (touches (update_tree update.now)) item.now) }
{
    let paths = sorted(written(alloc, update)?)?;
    only_named(alloc, &paths, item)
}

/// The attributes with which some path begins.
fn only_named(alloc: Global, paths: &[PathEntry<'_, ()>], item: &Item) -> Result<Item, NoMemory>
    requires { AreInOrder (entries_of paths.now) }
    ensures { IfOk result (λ named. named ≡ only (has_name paths.now) item.now) }
{
    let mut named = Item::new(alloc);
    for (name, value) in item.iter() {
        if has_name(paths, name) {
            named.put(name.try_clone()?, value.try_clone()?)?;
        }
    }
    Ok(named)
}

/// Whether some path begins with the name.
fn has_name(paths: &[PathEntry<'_, ()>], name: &Text) -> bool
    requires { AreInOrder (entries_of paths.now) }
    ensures { result ≡ has_name paths.now name.now }
{
    !range(paths, Key::Name(name)).is_empty()
}

/// The paths that the update writes.
fn written(alloc: Global, update: &Update) -> Result<Vec<PathEntry<'_, ()>>, NoMemory>
    ensures { IfOk result (λ paths. steps_of paths.items ≡ map (λ path. path.steps) (written (update_tree update.now))) }
{
    let mut paths = Vec::new(alloc);
    push_sets(&mut paths, update.sets.as_slice())?;
    push_paths(&mut paths, update.removes.as_slice())?;
    push_pairs(&mut paths, update.adds.as_slice())?;
    push_pairs(&mut paths, update.deletes.as_slice())?;
    Ok(paths)
}

fn push_sets<'u>(paths: &mut Vec<PathEntry<'u, ()>>, sets: &'u [SetTo]) -> Result<(), NoMemory>
    ensures { OnOk result (steps_of paths.new.items ≡ steps_of paths.old.items ++ map (λ set. set.path.steps) (map set_tree sets.now)) }
{
    for set in sets {
        push(paths, &set.path)?;
    }
    Ok(())
}

fn push_paths<'u>(
    paths: &mut Vec<PathEntry<'u, ()>>,
    removes: &'u [DocPath],
) -> Result<(), NoMemory>
    ensures { OnOk result (steps_of paths.new.items ≡ steps_of paths.old.items ++ map (λ path. path.steps) removes.now) }
{
    for path in removes {
        push(paths, path)?;
    }
    Ok(())
}

fn push_pairs<'u>(
    paths: &mut Vec<PathEntry<'u, ()>>,
    pairs: &'u [PathValue],
) -> Result<(), NoMemory>
    ensures { OnOk result (steps_of paths.new.items ≡ steps_of paths.old.items ++ map (λ pair. pair.path.steps) pairs.now) }
{
    for pair in pairs {
        push(paths, &pair.path)?;
    }
    Ok(())
}

fn push<'u>(paths: &mut Vec<PathEntry<'u, ()>>, path: &'u DocPath) -> Result<(), NoMemory>
    ensures { OnOk result (steps_of paths.new.items ≡ steps_of paths.old.items ++ path.now.steps ∷ []) }
{
    let steps = path.steps.as_slice();
    paths.push(PathEntry { steps, value: () })?;
    Ok(())
}
