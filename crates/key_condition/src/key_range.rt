//! Ranges of keys.

ghost use Rattle.std.specs.Prelude.{◌≡◌};
ghost use Rattle.key_condition.specs.KeyRange.{has_front, is_from, is_up_to, lies_in};

use item_keys::{Key, KeyValue};

/// An end of a range of the sort key's values, which are ordered as keys are.
#[derive(Debug, PartialEq, Eq)]
pub enum Bound {
    /// No end: every key lies on its inner side, also one without a sort key.
    Open,
    /// The value, which lies inside.
    At(KeyValue),
    /// The value, which lies outside.
    Past(KeyValue),
    /// As the high end, the values that are below this one or begin with it lie inside. As the low end it is `At`, since
    /// no value that is below this one begins with it.
    BeforePrefixEnd(KeyValue),
}

// By hand, so that no crate above proves it again.
impl Drop for Bound {
    fn drop(self) {
        match self {
            Bound::Open | Bound::At(_) | Bound::Past(_) | Bound::BeforePrefixEnd(_) => {}
        }
    }
}

impl Bound {
    /// Whether a sort key lies on the inner side of this low end.
    fn is_from(&self, sort: &Option<KeyValue>) -> bool
        ensures { result ≡ is_from self.now sort.now }
    {
        match (self, sort) {
            (Bound::Open, _) => true,
            (_, None) => false,
            (Bound::At(low), Some(value)) => value >= low,
            (Bound::Past(low), Some(value)) => value > low,
            (Bound::BeforePrefixEnd(low), Some(value)) => value >= low,
        }
    }

    /// Whether a sort key lies on the inner side of this high end.
    fn is_up_to(&self, sort: &Option<KeyValue>) -> bool
        ensures { result ≡ is_up_to self.now sort.now }
    {
        match (self, sort) {
            (Bound::Open, _) => true,
            (_, None) => false,
            (Bound::At(high), Some(value)) => value <= high,
            (Bound::Past(high), Some(value)) => value < high,
            (Bound::BeforePrefixEnd(front), Some(value)) => {
                value < front || has_front(value, front)
            }
        }
    }
}

/// Whether both are strings or both binaries, and the second begins the first.
fn has_front(value: &KeyValue, front: &KeyValue) -> bool
    ensures { result ≡ has_front value.now front.now }
{
    match (value, front) {
        (KeyValue::S(value), KeyValue::S(front)) => {
            value
                .as_str()
                .as_bytes()
                .starts_with(front.as_str().as_bytes())
        }
        (KeyValue::B(value), KeyValue::B(front)) => value.as_slice().starts_with(front.as_slice()),
        _ => false,
    }
}

/// The keys with one partition key whose sort keys lie between two ends. Where the low end is above the high one there
/// are none.
#[derive(Debug, PartialEq, Eq)]
pub struct KeyRange {
    pub partition: KeyValue,
    pub low: Bound,
    pub high: Bound,
}

// By hand, so that no crate above proves it again.
impl Drop for KeyRange {
    fn drop(self) {
        let KeyRange {
            partition: _,
            low: _,
            high: _,
        } = self;
    }
}

impl KeyRange {
    /// Whether the key lies in the range. It takes no memory.
    pub fn contains(&self, key: &Key) -> bool
        ensures { result ≡ lies_in self.now key.now }
    {
        key.partition == self.partition
            && self.low.is_from(&key.sort)
            && self.high.is_up_to(&key.sort)
    }
}
