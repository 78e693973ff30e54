//! Changes as an update.

ghost use Rattle.std.specs.Prelude.{◌≡◌, ◌≢◌, ◌++◌, length, None, IfOk, IfErr, OnOk, AllPairs};
ghost use Rattle.std.specs.Option.{option_map, option_to_list};
ghost use Rattle.expr_parse.specs.Overlaps.{HaveOverlap};
ghost use Rattle.expr_parse.specs.Update.{update_tree};
ghost use Rattle.expr_parse.specs.UpdateTree.{written};
ghost use Rattle.legacy_params.specs.Faults.{changes_fault};
ghost use Rattle.legacy_params.specs.Changes.{change_values};
ghost use Rattle.legacy_params.specs.Trees.{update_of, changed, followed, change_of, done_at};
ghost use Rattle.legacy_params.specs.Drafts.{draft_tree};
ghost use Rattle.legacy_params.specs.Answers.{IsEnd};

use crate::fault::{LegacyEnd, LegacyFault, least};
use crate::leaf::{next_place, path_to, push_value};
use crate::operator::Action;
use crate::part::{Legacy, LegacyChange};
use attr_value::Value;
use base_types::{DocPath, Seq};
use expr_parse::Update;
use expr_words::{PathValue, SetTo, Sum, Term};
use std::alloc::{AllocError as NoMemory, Global};

/// The first fault of changes: BadOperator, BadCount.
pub fn changes_fault(changes: &[LegacyChange]) -> Option<LegacyFault>
    ensures { result ≡ changes_fault changes.now }
{
    let mut first = None;
    for change in changes {
        first = least(first, change.fault());
    }
    first
}

/// The update of AttributeUpdates: its changes in their order, each in the clause of its action. No change is no update.
/// The values are moved, and named by their places.
///
/// No two changes may have one name. A fault is the first of BadOperator and BadCount over all changes. NoMemory where
/// memory is refused, and for 2^32 values and more, which no place names.
pub fn update(
    alloc: Global,
    changes: Seq<LegacyChange>,
) -> Result<Legacy<Option<Update>>, LegacyEnd>
    requires once { AllPairs (λ one other. one.name ≢ other.name) changes }
    ensures tree { IfOk result (λ made. option_map update_tree made.tree ≡ update_of 0 changes) }
    ensures values { IfOk result (λ made. made.values ≡ change_values changes) }
    ensures sound { OnOk result (changes_fault changes ≡ None) }
    ensures fault { IfErr result (λ end. IsEnd (changes_fault changes) end) }
{
    if let Some(fault) = changes_fault(changes.as_slice()) {
        return Err(LegacyEnd::Fault(fault));
    }
    if changes.is_empty() {
        return Ok(Legacy {
            tree: None,
            values: Seq::new(alloc),
        });
    }
    let Legacy { tree, values } = drafted(alloc, changes)?;
    let tree = Some(tree.finished());
    Ok(Legacy { tree, values })
}

/// An update as far as its changes were read.
#[derive(Drop)]
struct Draft {
    sets: Seq<SetTo>,
    removes: Seq<DocPath>,
    adds: Seq<PathValue>,
    deletes: Seq<PathValue>,
}

impl Draft {
    /// Adds what a change does to its attribute. Its value is moved behind the others.
    fn add(
        &mut self,
        alloc: Global,
        change: LegacyChange,
        values: &mut Seq<Value>,
    ) -> Result<(), NoMemory>
        ensures tree { OnOk result (draft_tree self.new
            ≡ followed (draft_tree self.old) (change_of (length values.old) change)) }
        ensures values { OnOk result (values.new ≡ values.old ++ option_to_list change.value) }
    {
        let action = change.done();
        let (name, value) = change.into_parts();
        let has_value = value.is_some();
        let place = next_place(values)?;
        push_value(value, values)?;
        let path = path_to(alloc, name)?;
        self.place(action, path, place, has_value)
    }

    /// Adds what an action does to the attribute of a path, with the value of a place or without one.
    fn place(
        &mut self,
        action: Action,
        path: DocPath,
        place: u32,
        has_value: bool,
    ) -> Result<(), NoMemory>
        ensures { OnOk result (draft_tree self.new ≡ followed (draft_tree self.old) (done_at action path place has_value)) }
    {
        match action {
            Action::Put => self.sets.push(SetTo {
                path,
                sum: Sum::One(Term::Value(place)),
            })?,
            Action::Add => self.adds.push(PathValue { path, value: place })?,
            Action::Delete if has_value => self.deletes.push(PathValue { path, value: place })?,
            Action::Delete => self.removes.push(path)?,
        }
        Ok(())
    }

    /// The update, whose paths have to be apart.
    fn finished(self) -> Update
        requires { ¬ HaveOverlap (written (draft_tree self)) }
        ensures { update_tree result ≡ draft_tree self }
    {
        Update {
            sets: self.sets,
            removes: self.removes,
            adds: self.adds,
            deletes: self.deletes,
        }
    }
}

/// What the changes do, with their values.
fn drafted(alloc: Global, changes: Seq<LegacyChange>) -> Result<Legacy<Draft>, NoMemory>
    ensures tree { IfOk result (λ made. draft_tree made.tree ≡ changed 0 changes) }
    ensures values { IfOk result (λ made. made.values ≡ change_values changes) }
{
    let mut draft = Draft {
        sets: Seq::new(alloc),
        removes: Seq::new(alloc),
        adds: Seq::new(alloc),
        deletes: Seq::new(alloc),
    };
    let mut values = Seq::new(alloc);
    for change in Vec::from(changes) {
        draft.add(alloc, change, &mut values)?;
    }
    Ok(Legacy {
        tree: draft,
        values,
    })
}
