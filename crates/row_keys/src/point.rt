//! Points in the order of sort keys.

ghost use Rattle.std.specs.Prelude.{◌≡◌, IfOk};
ghost use Rattle.std.specs.Cmp.Lexicographic.{slice_cmp};
ghost use Rattle.std.specs.Ordering.{nat_cmp};
ghost use Rattle.std.specs.Option.{option_map};
ghost use Rattle.row_keys.specs.Points.{marked, rank, values_order};
ghost use Rattle.row_keys.specs.Tails.{tail_of, named, valued, before_more};

use item_keys::KeyValue;
use std::alloc::AllocError as NoMemory;
use std::cmp::Ordering;

/// A point in the order of sort keys: where a value stands, or between values, where a range of them ends.
pub enum SortPoint {
    /// Before every value. A key without a sort key stands here.
    Least,
    /// Where this value stands.
    At(KeyValue),
    /// Behind this value and before every greater one.
    After(KeyValue),
    /// Behind every string or binary that begins with this one, and before every greater value. Of a number, behind it.
    AfterPrefix(KeyValue),
    /// Behind every value.
    Greatest,
}

// By hand, so that no crate above proves it again.
impl Drop for SortPoint {
    fn drop(self) {
        match self {
            SortPoint::Least
            | SortPoint::At(_)
            | SortPoint::After(_)
            | SortPoint::AfterPrefix(_)
            | SortPoint::Greatest => {}
        }
    }
}

/// Where a point stands to the value that it names.
#[derive(Clone, Copy, PartialEq, Eq)]
pub(crate) enum Tail {
    At,
    After,
    AfterPrefix,
}

impl Tail {
    /// Tails of one value, in order.
    fn compare(self, other: Tail) -> Ordering
        ensures { result ≡ slice_cmp nat_cmp (tail_of self) (tail_of other) }
    {
        match (self, other) {
            (Tail::At, Tail::At)
            | (Tail::After, Tail::After)
            | (Tail::AfterPrefix, Tail::AfterPrefix) => Ordering::Equal,
            (Tail::At, _) | (Tail::After, Tail::AfterPrefix) => Ordering::Less,
            _ => Ordering::Greater,
        }
    }

    /// Against bytes that go on.
    fn before_more(self) -> Ordering
        ensures { result ≡ before_more self }
    {
        match self {
            Tail::At | Tail::After => Ordering::Less,
            Tail::AfterPrefix => Ordering::Greater,
        }
    }
}

impl SortPoint {
    /// An equal point.
    pub fn try_clone(&self) -> Result<SortPoint, NoMemory>
        ensures { IfOk result (λ copy. copy ≡ self.now) }
    {
        Ok(match self {
            SortPoint::Least => SortPoint::Least,
            SortPoint::At(value) => SortPoint::At(value.try_clone()?),
            SortPoint::After(value) => SortPoint::After(value.try_clone()?),
            SortPoint::AfterPrefix(value) => SortPoint::AfterPrefix(value.try_clone()?),
            SortPoint::Greatest => SortPoint::Greatest,
        })
    }

    /// The value that the point names, and where it stands to it.
    fn named(&self) -> Option<(&KeyValue, Tail)>
        ensures { option_map valued result ≡ named self.now }
    {
        match self {
            SortPoint::At(value) => Some((value, Tail::At)),
            SortPoint::After(value) => Some((value, Tail::After)),
            SortPoint::AfterPrefix(value) => Some((value, Tail::AfterPrefix)),
            SortPoint::Least | SortPoint::Greatest => None,
        }
    }

    /// 0 before all values, 1 among them, 2 behind them.
    fn rank(&self) -> u8
        ensures { result ≡ rank self.now }
    {
        match self {
            SortPoint::Least => 0,
            SortPoint::At(_) | SortPoint::After(_) | SortPoint::AfterPrefix(_) => 1,
            SortPoint::Greatest => 2,
        }
    }
}

impl Clone for SortPoint {
    ghost is_clone = { λ point copy. copy ≡ point };

    fn clone(&self) -> Result<SortPoint, NoMemory> {
        self.try_clone()
    }
}

/// Bytes with a tail against those of which they are a front, by what is left of these.
#[tactic(auto, using(crate::proofs::Bytes::goes_on))]
fn compare_front(tail: Tail, left: &[u8], other: Tail) -> Ordering
    ensures { result ≡ slice_cmp nat_cmp (tail_of tail) (marked left.now (tail_of other)) }
{
    if left.is_empty() {
        return tail.compare(other);
    }
    tail.before_more()
}

/// Bytes with their tails: by the first byte that differs, and else where one has no byte left by its tail.
fn compare_bytes(bytes: &[u8], tail: Tail, others: &[u8], other: Tail) -> Ordering
    ensures { result ≡ slice_cmp nat_cmp (marked bytes.now (tail_of tail)) (marked others.now (tail_of other)) }
{
    if let Some(left) = others.strip_prefix(bytes) {
        return compare_front(tail, left, other);
    }
    if let Some(left) = bytes.strip_prefix(others) {
        return compare_front(other, left, tail).reverse();
    }
    bytes.cmp(others)
}

/// Values with their tails.
fn compare_values(value: &KeyValue, tail: Tail, with: &KeyValue, other: Tail) -> Ordering
    ensures { result ≡ values_order (value.now, tail_of tail) (with.now, tail_of other) }
{
    match (value, with) {
        (KeyValue::S(a), KeyValue::S(b)) => compare_bytes(
            a.as_str().as_bytes(),
            tail,
            b.as_str().as_bytes(),
            other,
        ),
        (KeyValue::N(a), KeyValue::N(b)) => a.cmp(b).then(tail.compare(other)),
        (KeyValue::B(a), KeyValue::B(b)) => {
            compare_bytes(a.as_slice(), tail, b.as_slice(), other)
        }
        (KeyValue::S(_), _) | (KeyValue::N(_), KeyValue::B(_)) => Ordering::Less,
        (KeyValue::B(_), _) | (KeyValue::N(_), KeyValue::S(_)) => Ordering::Greater,
    }
}

impl PartialEq for SortPoint {
    ghost use Rattle.std.specs.Cmp.{partial_equiv_from_equiv, eq_by_cmp_equiv};
    ghost use Rattle.std.specs.Ordering.{eq_by_cmp};
    ghost use Rattle.row_keys.specs.Points.{point_order};
    ghost use Rattle.row_keys.specs.PointLaws.{point_total};

    ghost eq = { eq_by_cmp point_order };

    ghost laws = { partial_equiv_from_equiv (eq_by_cmp_equiv point_total) };

    fn eq(&self, other: &SortPoint) -> bool {
        self.cmp(other).is_eq()
    }
}

impl Eq for SortPoint {
    ghost use Rattle.std.specs.Cmp.{eq_by_cmp_equiv};
    ghost use Rattle.row_keys.specs.PointLaws.{point_total};

    ghost laws = { eq_by_cmp_equiv point_total };
}

impl PartialOrd for SortPoint {
    ghost use Rattle.std.specs.Cmp.{partial_order_from_total};
    ghost use Rattle.std.specs.Ordering.{as_partial_cmp};
    ghost use Rattle.row_keys.specs.Points.{point_order};
    ghost use Rattle.row_keys.specs.PointLaws.{point_total};

    ghost partial_cmp = { as_partial_cmp point_order };

    ghost laws = { partial_order_from_total point_total };

    fn partial_cmp(&self, other: &SortPoint) -> Option<Ordering> {
        Some(self.cmp(other))
    }
}

/// Points are ordered as they stand: strings by their UTF-8 bytes, numbers by value, binaries by their unsigned bytes.
impl Ord for SortPoint {
    ghost use Rattle.std.specs.Prelude.{refl};
    ghost use Rattle.row_keys.specs.Points.{point_order};
    ghost use Rattle.row_keys.specs.PointLaws.{point_total};

    ghost cmp = { point_order };

    ghost total = { point_total };

    ghost matches_partial_cmp = { λ x y. refl };

    ghost matches_eq = { λ x y. refl };

    #[tactic(auto, using(crate::proofs::Parts::by_name))]
    fn cmp(&self, other: &SortPoint) -> Ordering {
        match (self.named(), other.named()) {
            (Some((value, tail)), Some((with, end))) => compare_values(value, tail, with, end),
            _ => self.rank().cmp(&other.rank()),
        }
    }
}
