//! From the clauses of an update to what they come to.

ghost use Rattle.std.specs.Prelude.{◌≡◌, false, [], map};
ghost use Rattle.expr_words.specs.Trees.{section_tree};
ghost use Rattle.expr_parse.specs.UpdateTree.{kind_of, first_twice, update_of};

use base_types::{DocPath, Seq};
use expr_words::{Clause, PathValue, Section, SetTo};
use std::alloc::Global;

/// Which kinds of clauses were met.
#[derive(Clone, Copy)]
struct Met {
    set: bool,
    remove: bool,
    add: bool,
    delete: bool,
}

impl Met {
    ghost use Rattle.expr_parse.specs.Met.{has, with_kind};

    /// Whether this kind was.
    fn has(self, clause: Clause) -> bool
        ensures { result ≡ has self clause }
    {
        match clause {
            Clause::Set => self.set,
            Clause::Remove => self.remove,
            Clause::Add => self.add,
            Clause::Delete => self.delete,
        }
    }

    /// These and this kind.
    fn with(self, clause: Clause) -> Met
        ensures { result ≡ with_kind self clause }
    {
        match clause {
            Clause::Set => Met { set: true, ..self },
            Clause::Remove => Met {
                remove: true,
                ..self
            },
            Clause::Add => Met { add: true, ..self },
            Clause::Delete => Met {
                delete: true,
                ..self
            },
        }
    }
}

/// The kind of a clause.
fn kind_of(section: &Section) -> Clause
    ensures { result ≡ kind_of (section_tree section.now) }
{
    match section {
        Section::Set(_) => Clause::Set,
        Section::Remove(_) => Clause::Remove,
        Section::Add(_) => Clause::Add,
        Section::Delete(_) => Clause::Delete,
    }
}

/// The first clause of a kind that stands before it already.
pub(crate) fn first_twice(sections: &[Section]) -> Option<Clause>
    ensures { result ≡ first_twice [] (map section_tree sections.now) }
{
    let mut met = Met {
        set: false,
        remove: false,
        add: false,
        delete: false,
    };
    for section in sections {
        let kind = kind_of(section);
        if met.has(kind) {
            return Some(kind);
        }
        met = met.with(kind);
    }
    None
}

/// An update before its operators are counted and its paths compared.
#[derive(Drop)]
pub(crate) struct Draft {
    pub sets: Seq<SetTo>,
    pub removes: Seq<DocPath>,
    pub adds: Seq<PathValue>,
    pub deletes: Seq<PathValue>,
}

impl Draft {
    ghost use Rattle.expr_parse.specs.Draft.{draft_tree, before_draft};

    /// What the clauses come to. Of a kind that stands twice, the first counts.
    pub(crate) fn of(alloc: Global, sections: Seq<Section>) -> Draft
        ensures { draft_tree result ≡ update_of (map section_tree sections) }
    {
        let mut draft = Draft {
            sets: Seq::new(alloc),
            removes: Seq::new(alloc),
            adds: Seq::new(alloc),
            deletes: Seq::new(alloc),
        };
        let mut left = Vec::from(sections);
        while let Some(section) = left.pop() {
            draft = draft.behind(section);
        }
        draft
    }

    /// This clause before the others.
    fn behind(self, section: Section) -> Draft
        ensures { draft_tree result ≡ before_draft (section_tree section) (draft_tree self) }
    {
        let mut draft = self;
        match section {
            Section::Set(sets) => draft.sets = sets,
            Section::Remove(paths) => draft.removes = paths,
            Section::Add(pairs) => draft.adds = pairs,
            Section::Delete(pairs) => draft.deletes = pairs,
        }
        draft
    }
}
