ghost use Rattle.std.specs.Prelude.{◌≡◌, None, IfOk, IsSome, IsSomeAnd, OnOk, OnErr, option_copied};
ghost use Rattle.std.specs.FinMap.{empty, get, insert, remove};
ghost use Rattle.client_tokens.specs.TokenMap.{completed_at, purged};

use crate::heap::{self, Entries};
use crate::kept::Kept;
use base_types::Text;
use indexmap::IndexMap;
use std::alloc::{AllocError as NoMemory, Global};
use std::marker::Model;

/// The tokens that are kept, each with the transaction that it stands for.
///
/// Contracts see the finite map from the bytes of each kept token to its [`Kept`].
///
/// # Cost
///
/// The entries stand in a hash map, and in its places as a binary heap: the one that was completed earliest at the
/// front, those that weren't completed behind. Nothing is stored beside them. With n tokens kept,
///
/// - `find` takes constant expected time. So does `keep`, on average over the calls between which the map grows;
/// - `complete` finds its entry, and exchanges it with each one above it that was completed later, or wasn't. Where
///   moments don't go back, as those of one clock, that is less than one exchange on average, in whatever order the
///   tokens are completed. At worst, where each moment is before all earlier ones, it is log2(n) exchanges;
/// - `free` fills the gap with the last entry, which then moves as far as it has to: about one exchange on average over
///   the tokens, log2(n) at worst;
/// - `purge` looks at the front. Where nothing is to be removed that is all, however many tokens are kept. Each token
///   that it removes costs at most log2(n) exchanges, in whatever order the moments came.
///
/// Room that the map took stays with it. The hash has no secret seed, so a client that picks tokens which collide can
/// make the calls on those tokens slow.
pub struct Tokens<A> {
    by_token: Entries<A>,
}

// By hand, so that no crate above proves it again.
impl<A: Drop> Drop for Tokens<A> {
    fn drop(self) {
        let Tokens { by_token: _ } = self;
    }
}

impl<A> Model for Tokens<A> {
    ghost use Rattle.std.specs.Coded.{coded_ℕ, coded_list};
    ghost use Rattle.std.specs.FinMap as map;
    ghost use Rattle.client_tokens.specs.TokenMap.{TokenMap, kept_code, token_map};
    ghost use Rattle.client_tokens.specs.Heap.{IsHeap, dues};

    ghost Value = { TokenMap A };

    ghost coded = { map.code (coded_list coded_ℕ) (kept_code A.code) };

    ghost view = { λ t. token_map t.by_token.entries };

    ghost invariant = { λ t. IsHeap (dues t.by_token.entries) };
}

impl<A: Drop> Tokens<A> {
    /// No tokens. `NoMemory` is for want of memory.
    pub fn make(alloc: Global) -> Result<Tokens<A>, NoMemory>
        ensures { IfOk result (λ tokens. tokens ≡ empty) }
    {
        Ok(Tokens {
            by_token: IndexMap::new(alloc),
        })
    }

    /// What `token` is kept with, or `None` where it isn't kept.
    pub fn find(&self, token: &str) -> Option<&Kept<A>>
        ensures { option_copied result ≡ get self.now token.now }
    {
        self.by_token.get(token)
    }

    /// Keeps a token that isn't kept yet. On `NoMemory`, which is for want of memory, the tokens stay as they were and
    /// `token` and `kept` are dropped.
    pub fn keep(&mut self, token: Text, kept: Kept<A>) -> Result<(), NoMemory>
        requires { get self.old token ≡ None }
        ensures ok { OnOk result (self.new ≡ insert self.old token kept) }
        ensures err { OnErr result (self.new ≡ self.old) }
    {
        heap::add(&mut self.by_token, String::from(token), kept)
    }

    /// Sets the completed moment of a kept token that has none, in microseconds. Takes no memory.
    pub fn complete(&mut self, token: &str, moment: u64)
        requires { IsSomeAnd (get self.old token.now) (λ kept. kept.completed ≡ None) }
        ensures { self.new ≡ completed_at self.old token.now moment }
    {
        let at = heap::place_of(&self.by_token, token);
        heap::complete_at(&mut self.by_token, at, moment);
    }

    /// Keeps a token that is kept with something else, as where its life is over. Takes no memory.
    pub fn renew(&mut self, token: &str, kept: Kept<A>)
        requires { IsSome (get self.old token.now) }
        ensures { self.new ≡ insert self.old token.now kept }
    {
        let at = heap::place_of(&self.by_token, token);
        heap::renew_at(&mut self.by_token, at, kept);
    }

    /// Forgets a kept token. Takes no memory.
    pub fn free(&mut self, token: &str)
        requires { IsSome (get self.old token.now) }
        ensures { self.new ≡ remove self.old token.now }
    {
        let at = heap::place_of(&self.by_token, token);
        heap::remove_at(&mut self.by_token, at);
    }

    /// Forgets each token that was completed 600 seconds or more before `moment`, and no other: not one that wasn't
    /// completed, nor one whose completed moment is later than `moment`, as after a clock went back. Takes no memory.
    pub fn purge(&mut self, moment: u64)
        ensures { self.new ≡ purged self.old moment }
    {
        heap::remove_expired(&mut self.by_token, moment);
    }
}
