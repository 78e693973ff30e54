ghost use Rattle.std.specs.Prelude.{◌≡◌, List, reverse, slice_get};
ghost use Rattle.std.specs.Range.Bound.{bound_map};
ghost use Rattle.std.specs.BTreeMap.Range.{is_from_start, is_past_end};
ghost use Rattle.std.specs.Map.Iter.{deref_pair};
ghost use Rattle.std.specs.Option.{option_copied, option_map};
ghost use Rattle.paging.specs.MapRange.{rows_between, start_of, end_of};

use crate::steps::Steps;
use crate::walk::Walk;
use std::cmp::Ord;
use std::collections::BTreeMap;
use std::marker::Model;
use std::ops::Bound;
use std::sync::ledger::Ledger;

/// The rows of an ordered map between two keys. Each end is with its key, without it, or open. Where the low end is
/// above the high one there are none.
///
/// Contracts see the rows, each under its key, in ascending order. A step of a walk looks up one key, whose cost is the
/// logarithm of the map's size, and takes no memory.
#[derive(Drop)]
pub struct MapRange<'a, K: Ord, V> {
    map: &'a BTreeMap<K, V>,
    low: Bound<&'a K>,
    high: Bound<&'a K>,
}

impl<'a, K: Ord, V> Model for MapRange<'a, K, V> {
    ghost use Rattle.std.specs.Prelude.{◌^◌, ◌<◌, List};
    ghost use Rattle.std.specs.BTreeMap.{IsOrdered, btree_map_len};
    ghost use Rattle.paging.specs.MapRange.{rows_between};

    ghost Value = { List (K × V) };

    ghost view = { λ r. rows_between K.cmp r.map.now r.low r.high };

    ghost invariant = { λ r. IsOrdered K.cmp r.map.now × (btree_map_len r.map.now < 2 ^ 64) };
}

impl<'a, K: Ord, V> MapRange<'a, K, V> {
    /// The rows of `map` from `low` to `high`.
    pub fn new(map: &'a BTreeMap<K, V>, low: Bound<&'a K>, high: Bound<&'a K>) -> MapRange<'a, K, V>
        ensures { result ≡ rows_between K.cmp map.now low.entry high.entry }
    {
        // What `len` tells of a map: that its keys ascend and are fewer than 2^64.
        let _ = map.len();
        MapRange { map, low, high }
    }
}

/// Whether a range from this end on has the key.
fn is_from<K: Ord>(low: Bound<&K>, key: &K) -> bool
    ensures { result ≡ is_from_start K.cmp (bound_map (λ end. end.now) low.entry) key.now }
{
    match low {
        Bound::Included(end) => end <= key,
        Bound::Excluded(end) => end < key,
        Bound::Unbounded => true,
    }
}

/// Whether a range up to this end is over before the key.
fn is_past<K: Ord>(high: Bound<&K>, key: &K) -> bool
    ensures { result ≡ is_past_end K.cmp (bound_map (λ end. end.now) high.entry) key.now }
{
    match high {
        Bound::Included(end) => end < key,
        Bound::Excluded(end) => end <= key,
        Bound::Unbounded => false,
    }
}

/// The low end of what comes after a place in a range from `low` on.
fn start_after<'a, K: Ord>(low: Bound<&'a K>, after: Option<&'a K>) -> Bound<&'a K>
    ensures { bound_map (λ end. end.now) result
        ≡ start_of K.cmp (bound_map (λ end. end.now) low.entry) (option_copied after.entry) }
{
    match after {
        Some(place) if is_from(low, place) => Bound::Excluded(place),
        _ => low,
    }
}

/// The high end of what comes before a place in a range up to `high`.
fn end_before<'a, K: Ord>(high: Bound<&'a K>, before: Option<&'a K>) -> Bound<&'a K>
    ensures { bound_map (λ end. end.now) result
        ≡ end_of K.cmp (bound_map (λ end. end.now) high.entry) (option_copied before.entry) }
{
    match before {
        Some(place) if !is_past(high, place) => Bound::Excluded(place),
        _ => high,
    }
}

/// The first row between two ends.
fn first_between<'a, K: Ord, V>(
    map: &'a BTreeMap<K, V>,
    low: Bound<&'a K>,
    high: Bound<&'a K>,
) -> Option<(&'a K, &'a V)>
    ensures { option_map deref_pair result ≡ slice_get (rows_between K.cmp map.now low.entry high.entry) 0 }
{
    let (key, row) = map.range((low, Bound::Unbounded)).next()?;
    if is_past(high, key) {
        return None;
    }
    Some((key, row))
}

/// The last row between two ends.
fn last_between<'a, K: Ord, V>(
    map: &'a BTreeMap<K, V>,
    low: Bound<&'a K>,
    high: Bound<&'a K>,
) -> Option<(&'a K, &'a V)>
    ensures { option_map deref_pair result ≡ slice_get (reverse (rows_between K.cmp map.now low.entry high.entry)) 0 }
{
    let (key, row) = map.range((Bound::Unbounded, high)).next_back()?;
    if !is_from(low, key) {
        return None;
    }
    Some((key, row))
}

impl<'a, K: Ord, V> Walk for MapRange<'a, K, V> {
    type Place = K;

    type Row = V;

    ghost listed = { λ rows. rows };

    fn next<'b, L: Ledger>(
        &'b self,
        after: Option<&'b K>,
        forward: bool,
        steps: &mut Steps<L>,
    ) -> Option<(&'b K, &'b V)> {
        steps.tick();
        if forward {
            first_between(self.map, start_after(self.low, after), self.high)
        } else {
            last_between(self.map, self.low, end_before(self.high, after))
        }
    }
}
