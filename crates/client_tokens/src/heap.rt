//! The order in which tokens expire: the entries of the map stand in its places as a binary heap, the one that is due
//! first at the front.
//!
//! A heap beside the map would have to name its tokens, and every removal from the map moves an entry, so the heap is
//! the map's own order. An exchange of two entries hashes nothing and takes no memory.
ghost use Rattle.std.specs.Prelude.{◌≡◌, ◌+◌, ◌*◌, ◌<◌, ◌≤◌, ◌↔◌, IsTrue, OnOk, OnErr, None, IsSome, IsSomeAnd, slice_index};
ghost use Rattle.std.specs.Bool.{OnTrue, OnFalse};
ghost use Rattle.std.specs.FinMap.{get, insert, remove};
ghost use Rattle.std.specs.String.{string_bytes};
ghost use Rattle.indexmap.specs.IndexMap.{index_map_len};
ghost use Rattle.client_tokens.specs.Heap.{dues, IsHeap, IsHeapBut, IsNotBeforeParent, IsEarliestChild, token_at};
ghost use Rattle.client_tokens.specs.Kept.{has_expired};
ghost use Rattle.client_tokens.specs.TokenMap.{token_map, completed_at, purged};

use crate::kept::Kept;
use indexmap::IndexMap;
use std::alloc::AllocError as NoMemory;

/// The kept tokens. The entries at places 2k + 1 and 2k + 2 aren't due before the one at place k.
pub(crate) type Entries<A> = IndexMap<String, Kept<A>>;

/// Whether the entry at one place is due before the entry at another.
fn is_earlier<A>(map: &Entries<A>, one: usize, other: usize) -> bool
    requires one_within { one < index_map_len map.now }
    requires other_within { other < index_map_len map.now }
    ensures { let at = dues map.now.entries in
        IsTrue result ↔ (slice_index at one < slice_index at other) }
{
    map[one].due() < map[other].due()
}

/// The place below `at` whose entry is due first.
fn earliest_child<A>(map: &Entries<A>, at: usize) -> usize
    requires { 2 * at + 1 < index_map_len map.now }
    ensures within { result < index_map_len map.now }
    ensures from { 2 * at + 1 ≤ result }
    ensures to { result ≤ 2 * at + 2 }
    ensures earliest { IsEarliestChild (dues map.now.entries) at result }
{
    let len = map.len();
    let left = 2 * at + 1;
    let right = left + 1;
    if right < len && is_earlier(map, right, left) {
        right
    } else {
        left
    }
}

/// Moves the entry at `at` up past each one that is due later, and answers where it comes to stand.
fn rise<A>(map: &mut Entries<A>, mut at: usize) -> usize
    requires within { at < index_map_len map.old }
    requires others { IsHeapBut (dues map.old.entries) at }
    ensures within { result < index_map_len map.new }
    ensures others { IsHeapBut (dues map.new.entries) result }
    ensures above { IsNotBeforeParent (dues map.new.entries) result }
    ensures same { token_map map.new.entries ≡ token_map map.old.entries }
    ensures len { index_map_len map.new ≡ index_map_len map.old }
{
    while at > 0 {
        let parent = (at - 1) / 2;
        if !is_earlier(map, at, parent) {
            return at;
        }
        map.swap_indices(parent, at);
        at = parent;
    }
    at
}

/// Moves the entry at `at` down past each one that is due earlier.
fn sink<A>(map: &mut Entries<A>, mut at: usize)
    requires within { at < index_map_len map.old }
    requires others { IsHeapBut (dues map.old.entries) at }
    requires above { IsNotBeforeParent (dues map.old.entries) at }
    ensures ordered { IsHeap (dues map.new.entries) }
    ensures same { token_map map.new.entries ≡ token_map map.old.entries }
    ensures len { index_map_len map.new ≡ index_map_len map.old }
{
    let parents = map.len() / 2;
    while at < parents {
        let child = earliest_child(map, at);
        if !is_earlier(map, child, at) {
            return;
        }
        map.swap_indices(at, child);
        at = child;
    }
}

/// Moves the entry at `at`, which is new or has changed, to where it belongs.
fn settle<A>(map: &mut Entries<A>, at: usize)
    requires within { at < index_map_len map.old }
    requires others { IsHeapBut (dues map.old.entries) at }
    ensures ordered { IsHeap (dues map.new.entries) }
    ensures same { token_map map.new.entries ≡ token_map map.old.entries }
    ensures len { index_map_len map.new ≡ index_map_len map.old }
{
    let at = rise(map, at);
    sink(map, at);
}

/// Adds an entry for a token that has none.
pub(crate) fn add<A: Drop>(
    map: &mut Entries<A>,
    token: String,
    kept: Kept<A>,
) -> Result<(), NoMemory>
    requires absent { get (token_map map.old.entries) (string_bytes token) ≡ None }
    requires ordered { IsHeap (dues map.old.entries) }
    ensures ordered { IsHeap (dues map.new.entries) }
    ensures ok { OnOk result
        (token_map map.new.entries ≡ insert (token_map map.old.entries) (string_bytes token) kept) }
    ensures err { OnErr result (token_map map.new.entries ≡ token_map map.old.entries) }
{
    let at = map.len();
    map.insert(token, kept)?;
    settle(map, at);
    Ok(())
}

/// Sets the completed moment of the entry at `at`.
pub(crate) fn complete_at<A>(map: &mut Entries<A>, at: usize, moment: u64)
    requires within { at < index_map_len map.old }
    requires ordered { IsHeap (dues map.old.entries) }
    ensures ordered { IsHeap (dues map.new.entries) }
    ensures completed { let token = token_at map.old.entries at in
        token_map map.new.entries ≡ completed_at (token_map map.old.entries) token moment }
{
    let (_, kept) = map.pair_mut(at);
    kept.completed = Some(moment);
    settle(map, at);
}

/// Keeps something else with the token of the entry at `at`.
pub(crate) fn renew_at<A: Drop>(map: &mut Entries<A>, at: usize, renewed: Kept<A>)
    requires within { at < index_map_len map.old }
    requires ordered { IsHeap (dues map.old.entries) }
    ensures ordered { IsHeap (dues map.new.entries) }
    ensures renewed { let token = token_at map.old.entries at in
        token_map map.new.entries ≡ insert (token_map map.old.entries) token renewed }
{
    let (_, kept) = map.pair_mut(at);
    *kept = renewed;
    settle(map, at);
}

/// Takes out the entry at `at`.
pub(crate) fn remove_at<A: Drop>(map: &mut Entries<A>, at: usize)
    requires within { at < index_map_len map.old }
    requires ordered { IsHeap (dues map.old.entries) }
    ensures ordered { IsHeap (dues map.new.entries) }
    ensures removed { let token = token_at map.old.entries at in
        token_map map.new.entries ≡ remove (token_map map.old.entries) token }
    ensures len { index_map_len map.new + 1 ≡ index_map_len map.old }
{
    map.swap_remove_index(at);
    if at < map.len() {
        settle(map, at);
    }
}

/// The place of a token that is kept.
pub(crate) fn place_of<A>(map: &Entries<A>, token: &str) -> usize
    requires { IsSome (get (token_map map.now.entries) token.now) }
    ensures within { result < index_map_len map.now }
    ensures found { token_at map.now.entries result ≡ token.now }
{
    map.get_index_of(token).unwrap()
}

/// Whether the life of any token is over at `moment`. The one that is due first then is such a token.
fn any_has_expired<A>(map: &Entries<A>, moment: u64) -> bool
    requires { IsHeap (dues map.now.entries) }
    ensures within { OnTrue result (0 < index_map_len map.now) }
    ensures first { let token = token_at map.now.entries 0 in
        OnTrue result (IsSomeAnd (get (token_map map.now.entries) token)
        (λ kept. IsTrue (has_expired kept moment))) }
    ensures none { let tokens = token_map map.now.entries in
        OnFalse result (purged tokens moment ≡ tokens) }
{
    match map.get_index(0) {
        Some((_, first)) => first.has_expired(moment),
        None => false,
    }
}

/// Takes out each token whose life is over at `moment`.
pub(crate) fn remove_expired<A: Drop>(map: &mut Entries<A>, moment: u64)
    requires { IsHeap (dues map.old.entries) }
    ensures ordered { IsHeap (dues map.new.entries) }
    ensures purged { token_map map.new.entries ≡ purged (token_map map.old.entries) moment }
{
    while any_has_expired(map, moment) {
        remove_at(map, 0);
    }
}
