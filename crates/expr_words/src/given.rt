//! What an expression's placeholders stand for, and which of them are used.

ghost use Rattle.std.specs.Prelude.{◌≡◌, ◌<◌, length, IfOk, IfSome};
ghost use Rattle.expr_words.specs.Given.{name_place, value_place, name_at};
ghost use Rattle.expr_words.specs.Ascending.{Ascend, AreAscending};
ghost use Rattle.expr_words.specs.Marks.{IsMadeFor, IsUnmarked, first_unused};

use base_types::{Seq, Text};
use std::alloc::{AllocError as NoMemory, Global};

/// The placeholders that a request gives, each with its sign: `#name` of names, `:name` of values.
/// Where one is given twice, the first counts.
#[derive(Debug)]
pub struct Given {
    pub names: Seq<NamePair>,
    pub value_names: Seq<Text>,
}

// By hand, so that no crate above proves it again.
impl Drop for Given {
    fn drop(self) {
        let Given {
            names: _,
            value_names: _,
        } = self;
    }
}

/// A placeholder of an attribute's name, and the name that it stands for.
#[derive(Debug)]
pub struct NamePair {
    pub placeholder: Text,
    pub name: Text,
}

// By hand, so that no crate above proves it again.
impl Drop for NamePair {
    fn drop(self) {
        let NamePair {
            placeholder: _,
            name: _,
        } = self;
    }
}

/// Whether the placeholders of names, and those of values, ascend in the order of their bytes, as
/// those do that come from a map. Then they are found by halves.
#[derive(Clone, Copy)]
pub(crate) struct Ascending {
    pub names: bool,
    pub values: bool,
}

impl Given {
    /// Which of the placeholders ascend.
    pub(crate) fn ascending(&self) -> Ascending
        ensures { AreAscending self.now result }
    {
        Ascending {
            names: self
                .names
                .as_slice()
                .is_sorted_by(|pair, next| pair.placeholder < next.placeholder),
            values: self
                .value_names
                .as_slice()
                .is_sorted_by(|name, next| name < next),
        }
    }

    /// The place of the name with this placeholder, where placeholders ascend.
    fn ascending_name_place(&self, placeholder: &str) -> Option<usize>
        requires { Ascend (λ pair. pair.placeholder) self.now.names }
        ensures { result ≡ name_place self.now placeholder.now }
    {
        self.names
            .as_slice()
            .binary_search_by(|pair| pair.placeholder.as_str().cmp(placeholder))
            .ok()
    }

    /// The place of the value with this placeholder, where placeholders ascend.
    fn ascending_value_place(&self, placeholder: &str) -> Option<usize>
        requires { Ascend (λ name. name) self.now.value_names }
        ensures { result ≡ value_place self.now placeholder.now }
    {
        self.value_names
            .as_slice()
            .binary_search_by(|name| name.as_str().cmp(placeholder))
            .ok()
    }

    /// The place of the first name that is given with this placeholder, which has its `#`.
    pub(crate) fn name_place(&self, ascending: Ascending, placeholder: &str) -> Option<usize>
        requires { AreAscending self.now ascending }
        ensures place { result ≡ name_place self.now placeholder.now }
        ensures within { IfSome result (λ place. place < length self.now.names) }
    {
        if ascending.names {
            return self.ascending_name_place(placeholder);
        }
        self.names
            .iter()
            .position(|pair| pair.placeholder.as_str() == placeholder)
    }

    /// The place of the first value that is given with this placeholder, which has its `:`.
    pub(crate) fn value_place(&self, ascending: Ascending, placeholder: &str) -> Option<usize>
        requires { AreAscending self.now ascending }
        ensures place { result ≡ value_place self.now placeholder.now }
        ensures within { IfSome result (λ place. place < length self.now.value_names) }
    {
        if ascending.values {
            return self.ascending_value_place(placeholder);
        }
        self.value_names
            .iter()
            .position(|name| name.as_str() == placeholder)
    }

    /// The name at a place of those given, if there is such a place.
    pub(crate) fn name_at(&self, place: usize) -> &str
        ensures { result.now ≡ name_at self.now place }
    {
        match self.names.get(place) {
            Some(pair) => pair.name.as_str(),
            None => "",
        }
    }
}

/// Which placeholders of a [`Given`] were used by the expressions read so far.
#[derive(Debug)]
pub struct Used {
    pub(crate) names: Vec<bool>,
    pub(crate) values: Vec<bool>,
}

// By hand, so that no crate above proves it again.
impl Drop for Used {
    fn drop(self) {
        let Used {
            names: _,
            values: _,
        } = self;
    }
}

impl Used {
    /// The marks for what is given, of which none is used yet.
    pub fn make(alloc: Global, given: &Given) -> Result<Used, NoMemory>
        ensures made_for { IfOk result (λ used. IsMadeFor given.now used) }
        ensures unmarked { IfOk result IsUnmarked }
    {
        Ok(Used {
            names: vec![in alloc; false; given.names.len()]?,
            values: vec![in alloc; false; given.value_names.len()]?,
        })
    }

    /// The place of the first placeholder that is not used, in the list of all names followed by
    /// all value names, from 0. These marks have to be made for what is given.
    pub fn unused(&self, given: &Given) -> Option<usize>
        requires { IsMadeFor given.now self.now }
        ensures { result ≡ first_unused self.now }
    {
        self.names
            .iter()
            .chain(self.values.iter())
            .position(|used| !*used)
    }
}
