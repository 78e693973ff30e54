//! The set, how it is made, asked and combined.

ghost use Rattle.std.specs.Prelude.{◌≡◌, ◌↔◌, ◌<◌, ◌++◌, [], filter, length, not, IfOk, Ok, Err};
ghost use Rattle.std.specs.List.{IsAllAdjacentAnswer};
ghost use Rattle.std.specs.List.Sorted.{IsStrictlySortedBy};
ghost use Rattle.std.specs.Ordering.{is_lt};
ghost use Rattle.std.specs.Slice.Iter.{iter_rest};
ghost use Rattle.ordered_set.specs.Sets.{IsSetOf, HasRepeat, has, elements_of};

use base_types::{Bytes, Seq, Text};
use number38::Number;
use std::alloc::AllocError as NoMemory;
use std::marker::Model;
use std::slice;

/// Why a list of elements is no set. Where both stand together, the first in this order is answered.
#[derive(Clone, Copy, Debug, PartialEq, Eq)]
pub enum SetFault {
    /// There is no element.
    Empty = 1,
    /// An element is there twice.
    Duplicate = 2,
}

/// A set: at least one element, and each below the next.
#[derive(Debug)]
pub struct OrderedSet<T: Ord> {
    elements: Seq<T>,
}

// By hand, so that no crate above proves it again.
impl<T: Ord + Drop> Drop for OrderedSet<T> {
    fn drop(self) {
        let OrderedSet { elements: _ } = self;
    }
}

impl<T: Ord> Model for OrderedSet<T> {
    ghost use Rattle.std.specs.Prelude.{List, length, ◌<◌};
    ghost use Rattle.std.specs.List.Sorted.{IsStrictlySortedBy};

    ghost Value = { List T };

    ghost view = { λ s. s.elements };

    ghost invariant = { λ s. (0 < length s.elements) × IsStrictlySortedBy T.cmp s.elements };
}

impl<T: Ord> OrderedSet<T> {
    /// The set of these elements, in order.
    ///
    /// `Empty` where there is none, and `Duplicate` where one is there twice. It takes no memory.
    pub fn new(elements: Seq<T>) -> Result<OrderedSet<T>, SetFault>
    where
        T: Drop,
        ensures ok { IfOk result (λ set. IsSetOf T.cmp elements set) }
        ensures empty { (result ≡ Err SetFault.Empty) ↔ (elements ≡ []) }
        ensures duplicate { (result ≡ Err SetFault.Duplicate) ↔ HasRepeat T.cmp elements }
    {
        if elements.is_empty() {
            return Err(SetFault::Empty);
        }
        let mut sorted = Vec::from(elements);
        sorted.sort_unstable();
        if !is_ascending(&sorted) {
            return Err(SetFault::Duplicate);
        }
        Ok(OrderedSet {
            elements: Seq::from(sorted),
        })
    }

    fn into_elements(self) -> Seq<T>
        ensures value { result ≡ self }
        ensures some { 0 < length result }
        ensures in_order { IsStrictlySortedBy T.cmp result }
    {
        let OrderedSet { elements } = self;
        elements
    }

    /// The elements, in order: at least one, and each below the next.
    pub fn as_slice(&self) -> &[T]
        ensures value { result.now ≡ self.now }
        ensures some { 0 < length self.now }
        ensures in_order { IsStrictlySortedBy T.cmp self.now }
    {
        self.elements.as_slice()
    }

    /// How many elements there are, at least one.
    pub fn len(&self) -> usize
        ensures count { result ≡ length self.now }
        ensures some { 0 < result }
    {
        self.elements.len()
    }

    /// Goes over the elements in order.
    pub fn iter(&self) -> slice::Iter<'_, T>
        ensures { iter_rest result ≡ self.now }
    {
        self.elements.iter()
    }

    /// Whether the element is there. It costs the logarithm of the elements.
    pub fn contains(&self, element: &T) -> bool
        ensures { result ≡ has T.cmp element.now self.now }
    {
        self.elements.as_slice().binary_search(element).is_ok()
    }

    /// The elements that are not in the other set, if there are any. It takes no memory, and costs a search by halves
    /// for each element.
    pub fn difference(self, other: &OrderedSet<T>) -> Option<OrderedSet<T>>
    where
        T: Drop,
        ensures { elements_of result ≡ filter (λ x. not (has T.cmp x other.now)) self }
    {
        let mut left = Vec::from(self.into_elements());
        left.retain(|element| !other.contains(element));
        let elements = Seq::from(left);
        if elements.is_empty() {
            return None;
        }
        Some(OrderedSet { elements })
    }

    /// The elements of both sets: of those that tie, this set's.
    ///
    /// The elements of one stand behind those of the other, two runs in order, which std's stable sort merges.
    pub fn union(self, other: OrderedSet<T>) -> Result<OrderedSet<T>, NoMemory>
    where
        T: Drop,
        ensures { IfOk result (λ both. IsSetOf T.cmp (self ++ filter (λ x. not (has T.cmp x self)) other) both) }
    {
        let Some(added) = other.difference(&self) else {
            return Ok(self);
        };
        let mut both = Vec::from(self.into_elements());
        both.append(&mut Vec::from(added.into_elements()))?;
        both.sort()?;
        Ok(OrderedSet {
            elements: Seq::from(both),
        })
    }
}

impl OrderedSet<Text> {
    /// An equal set.
    pub fn try_clone(&self) -> Result<OrderedSet<Text>, NoMemory>
        ensures { IfOk result (λ copy. copy ≡ self.now) }
    {
        Ok(OrderedSet {
            elements: self.elements.try_clone()?,
        })
    }
}

impl OrderedSet<Number> {
    /// An equal set.
    pub fn try_clone(&self) -> Result<OrderedSet<Number>, NoMemory>
        ensures { IfOk result (λ copy. copy ≡ self.now) }
    {
        Ok(OrderedSet {
            elements: self.elements.try_clone()?,
        })
    }
}

impl OrderedSet<Bytes> {
    /// An equal set.
    pub fn try_clone(&self) -> Result<OrderedSet<Bytes>, NoMemory>
        ensures { IfOk result (λ copy. copy ≡ self.now) }
    {
        Ok(OrderedSet {
            elements: self.elements.try_clone()?,
        })
    }
}

impl<T: Ord> From<OrderedSet<T>> for Seq<T> {
    ghost from_gives = { λ set seq. seq ≡ set };

    fn from(set: OrderedSet<T>) -> Seq<T> {
        set.into_elements()
    }
}

/// Sets are equal where their elements are, one by one.
impl<T: Ord> PartialEq for OrderedSet<T> {
    ghost use Rattle.std.specs.Cmp.Lexicographic.{pointwise, lists_per};

    ghost eq = { pointwise T.eq };

    ghost laws = { lists_per T.PartialEq.laws };

    fn eq(&self, other: &OrderedSet<T>) -> bool {
        self.elements == other.elements
    }
}

impl<T: Ord> Eq for OrderedSet<T> {
    ghost use Rattle.std.specs.Cmp.Lexicographic.{lists_equiv};

    ghost laws = { lists_equiv T.Eq.laws };
}

/// Whether each element is below the next.
fn is_ascending<T: Ord>(elements: &[T]) -> bool
    ensures { IsAllAdjacentAnswer (λ x y b. b ≡ is_lt (T.cmp x y)) elements.now result }
{
    for place in 1..elements.len() {
        if !elements[place - 1].cmp(&elements[place]).is_lt() {
            return false;
        }
    }
    true
}
