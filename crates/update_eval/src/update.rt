//! The new item.

ghost use Rattle.std.specs.Prelude.{◌≡◌, OnOk, ◌++◌, IfOk, Ok, map};
ghost use Rattle.expr_parse.specs.Update.{update_tree};
ghost use Rattle.expr_words.specs.Trees.{set_tree};
ghost use Rattle.item_writes.specs.Apart.{AreApart, paths_of};
ghost use Rattle.item_writes.specs.Edits.{item_with_all};
ghost use Rattle.item_writes.specs.NewTree.{seen};
ghost use Rattle.path_entries.specs.Entries.{entries_of};
ghost use Rattle.path_entries.specs.Order.{AreInOrder};
ghost use Rattle.update_eval.specs.Answers.{Gives, GivesOn};
ghost use Rattle.update_eval.specs.Actions.{add_writes, delete_writes, remove_writes, set_writes, with_writes};
ghost use Rattle.update_eval.specs.Updated.{behind_removes, behind_sets, updated, within, writes_of};
ghost use Rattle.update_eval.specs.Views.{one_seen, seen_writes};

use crate::action::{Write, add_write, delete_write, remove_write, set_write};
use crate::fault::{EvalEnd, EvalFault};
use crate::sources::Sources;
use attr_value::{Item, MAX_DEPTH, Value};
use base_types::{DocPath, Seq};
use expr_parse::Update;
use expr_words::{PathValue, SetTo};
use item_writes::{NewValue, extent_with_all, write_all};
use path_entries::{PathEntry, sorted};
use std::alloc::{AllocError as NoMemory, Global};

/// The most bytes of an item (DynamoDB Developer Guide, "Service, account, and table quotas").
pub const MAX_SIZE: u64 = 409_600;

/// The item that the update makes of the old one, with these values. Where no item is there yet, the old one is that which
/// holds the key alone.
///
/// The first fault is answered, of the actions in the order SET, REMOVE, ADD, DELETE, each in order of the text; then
/// `TooDeep` and `ItemTooLarge` of the new item, which is made only where it has neither. `IndexKey` is never answered.
///
/// Values are lent until then, so what is refused takes memory for its writes alone, for what is lent to them, and for
/// numbers and rests of sets that are computed. Bytes are counted up to the most that an item has: of what is written,
/// each value that comes after is not looked at. How deep it nests is asked once of each value that came, and once for
/// each path of what the path finds, however often right sides name them.
pub fn apply(alloc: Global, tree: &Update, values: &Seq<Value>, old: &Item) -> Result<Item, EvalEnd>
    ensures { Gives (λ item. item) (updated values.now old.now (update_tree tree.now)) result }
{
    let writes = writes_of(alloc, tree, values, old)?;
    let entries = sorted(entries(alloc, &writes)?)?;
    new_item(alloc, old, &entries)
}

/// The item with these writes, where it is neither too deep nor too large.
fn new_item(
    alloc: Global,
    old: &Item,
    writes: &[PathEntry<'_, Option<&NewValue<'_>>>],
) -> Result<Item, EvalEnd>
    requires in_order { AreInOrder (entries_of writes.now) }
    requires apart { AreApart (paths_of (seen (entries_of writes.now))) }
    ensures { Gives (λ item. item) (within (item_with_all old.now (seen (entries_of writes.now)))) result }
{
    let extent = extent_with_all(alloc, old, writes, MAX_SIZE + 1)?;
    if extent.levels > MAX_DEPTH {
        return Err(EvalEnd::Fault(EvalFault::TooDeep));
    }
    if extent.bytes > MAX_SIZE {
        return Err(EvalEnd::Fault(EvalFault::ItemTooLarge));
    }
    Ok(write_all(alloc, old, writes)?)
}

/// The writes, lent.
fn entries<'w, 'u>(
    alloc: Global,
    writes: &'w [Write<'u>],
) -> Result<Vec<PathEntry<'u, Option<&'w NewValue<'u>>>>, NoMemory>
    ensures { IfOk result (λ entries. seen (entries_of entries.items) ≡ seen_writes writes.now) }
{
    let mut entries = Vec::new(alloc);
    for write in writes {
        entries.push(PathEntry {
            steps: write.steps,
            value: write.value.as_ref(),
        })?;
    }
    Ok(entries)
}

/// What all actions write.
fn writes_of<'u>(
    alloc: Global,
    tree: &'u Update,
    values: &'u Seq<Value>,
    old: &'u Item,
) -> Result<Vec<Write<'u>>, EvalEnd>
    ensures { Gives (λ writes. seen_writes writes.items) (writes_of values.now old.now (update_tree tree.now)) result }
{
    let mut writes = Vec::new(alloc);
    push_sets(alloc, tree.sets.as_slice(), values, old, &mut writes)?;
    push_behind_sets(tree, values, old, &mut writes)?;
    Ok(writes)
}

/// Adds what the actions behind SET write.
fn push_behind_sets<'u>(
    tree: &'u Update,
    values: &'u Seq<Value>,
    old: &'u Item,
    writes: &mut Vec<Write<'u>>,
) -> Result<(), EvalEnd>
    ensures { GivesOn (seen_writes writes.new.items) (behind_sets values.now old.now (update_tree tree.now) (seen_writes writes.old.items)) result }
{
    push_removes(tree.removes.as_slice(), old, writes)?;
    push_behind_removes(tree, values, old, writes)
}

/// Adds what the actions behind REMOVE write.
fn push_behind_removes<'u>(
    tree: &'u Update,
    values: &'u Seq<Value>,
    old: &'u Item,
    writes: &mut Vec<Write<'u>>,
) -> Result<(), EvalEnd>
    ensures { GivesOn (seen_writes writes.new.items) (behind_removes values.now old.now (update_tree tree.now) (seen_writes writes.old.items)) result }
{
    push_adds(tree.adds.as_slice(), values, old, writes)?;
    push_deletes(tree.deletes.as_slice(), values, old, writes)
}

fn push_sets<'u>(
    alloc: Global,
    sets: &'u [SetTo],
    values: &'u Seq<Value>,
    old: &'u Item,
    writes: &mut Vec<Write<'u>>,
) -> Result<(), EvalEnd>
    ensures { GivesOn (seen_writes writes.new.items)
        (with_writes (set_writes values.now old.now) (map set_tree sets.now) (seen_writes writes.old.items)) result }
{
    let sources = Sources::new(alloc, sets, values, old)?;
    push_each_set(alloc, sets, &sources, writes)
}

fn push_each_set<'u>(
    alloc: Global,
    sets: &'u [SetTo],
    sources: &Sources<'u>,
    writes: &mut Vec<Write<'u>>,
) -> Result<(), EvalEnd>
    ensures { GivesOn (seen_writes writes.new.items)
        (with_writes (set_writes sources.now.values.now sources.now.old.now) (map set_tree sets.now) (seen_writes writes.old.items)) result }
{
    for set in sets {
        let write = set_write(alloc, set, sources)?;
        push(writes, Some(write))?;
    }
    Ok(())
}

fn push_removes<'u>(
    removes: &'u [DocPath],
    old: &Item,
    writes: &mut Vec<Write<'u>>,
) -> Result<(), EvalEnd>
    ensures { GivesOn (seen_writes writes.new.items) (with_writes (remove_writes old.now) removes.now (seen_writes writes.old.items)) result }
{
    for path in removes {
        push(writes, remove_write(path, old))?;
    }
    Ok(())
}

fn push_adds<'u>(
    adds: &'u [PathValue],
    values: &'u Seq<Value>,
    old: &'u Item,
    writes: &mut Vec<Write<'u>>,
) -> Result<(), EvalEnd>
    ensures { GivesOn (seen_writes writes.new.items) (with_writes (add_writes values.now old.now) adds.now (seen_writes writes.old.items)) result }
{
    for add in adds {
        let write = add_write(add, values, old)?;
        push(writes, Some(write))?;
    }
    Ok(())
}

fn push_deletes<'u>(
    deletes: &'u [PathValue],
    values: &'u Seq<Value>,
    old: &'u Item,
    writes: &mut Vec<Write<'u>>,
) -> Result<(), EvalEnd>
    ensures { GivesOn (seen_writes writes.new.items) (with_writes (delete_writes values.now old.now) deletes.now (seen_writes writes.old.items)) result }
{
    for delete in deletes {
        let write = delete_write(delete, values, old)?;
        push(writes, write)?;
    }
    Ok(())
}

/// Adds a write, where there is one.
fn push<'u>(writes: &mut Vec<Write<'u>>, write: Option<Write<'u>>) -> Result<(), NoMemory>
    ensures { OnOk result (seen_writes writes.new.items ≡ seen_writes writes.old.items ++ one_seen write.entry) }
{
    let Some(write) = write else {
        return Ok(());
    };
    writes.push(write)?;
    Ok(())
}
