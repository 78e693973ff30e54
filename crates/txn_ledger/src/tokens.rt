//! What becomes of tokens.

ghost use Rattle.std.specs.Prelude.{◌≡◌, List, ℕ, None, Some, IfOk, IfSome, OnOk, OnErr, option_map, if◌then◌else◌};
ghost use Rattle.std.specs.Option.{option_copied};
ghost use Rattle.std.specs.Str.{bytes_eq};
ghost use Rattle.std.specs.FinMap.{get, insert};
ghost use Rattle.txn_ledger.specs.Tokens.{IsTokenOf, completed, freed, kept_with, living};

use base_types::{Seq, Text};
use client_tokens::{Kept, Tokens};
use std::alloc::AllocError as NoMemory;

/// A client's token that comes with a transaction, and a copy of the transaction's actions to be kept with it.
#[derive(Drop)]
pub struct ClientToken<A> {
    pub token: Text,
    pub actions: Seq<A>,
}

/// The token's text.
pub(crate) fn text_of<A>(token: &Option<ClientToken<A>>) -> Result<Option<Text>, NoMemory>
    ensures { IfOk result (λ text. text ≡ option_map (λ t. t.token) token.now) }
{
    match token {
        Some(token) => Ok(Some(token.token.try_clone()?)),
        None => Ok(None),
    }
}

/// Keeps the token that comes with the transaction of a number, if there is one, and forgets each whose life is over.
pub(crate) fn keep_with<A: Drop>(
    tokens: &mut Tokens<Seq<A>>,
    token: Option<ClientToken<A>>,
    number: u64,
    moment: u64,
) -> Result<(), NoMemory>
    requires free { IfSome token (λ t. living moment (get tokens.old t.token) ≡ None) }
    ensures ok { OnOk result ((other : List ℕ) → get tokens.new other
        ≡ kept_with token number other (living moment (get tokens.old other))) }
    ensures err { OnErr result (tokens.new ≡ tokens.old) }
{
    let Some(ClientToken { token, actions }) = token else {
        purge(tokens, moment);
        return Ok(());
    };
    let kept = Kept {
        number,
        actions,
        completed: None,
    };
    keep(tokens, token, kept, moment)
}

/// Forgets each token whose life is over.
pub(crate) fn purge<A: Drop>(tokens: &mut Tokens<A>, moment: u64)
    ensures { (other : List ℕ) → get tokens.new other ≡ living moment (get tokens.old other) }
{
    tokens.purge(moment);
}

/// What a token is kept with, unless its life is over at the moment.
pub(crate) fn living<'t, A: Drop>(
    tokens: &'t Tokens<A>,
    token: &str,
    moment: u64,
) -> Option<&'t Kept<A>>
    ensures { option_copied result ≡ living moment (get tokens.now token.now) }
{
    let kept = tokens.find(token)?;
    if kept.has_expired(moment) {
        None
    } else {
        Some(kept)
    }
}

/// Keeps a token whose life is over or that is not kept, and forgets each whose life is over.
pub(crate) fn keep<A: Drop>(
    tokens: &mut Tokens<A>,
    token: Text,
    kept: Kept<A>,
    moment: u64,
) -> Result<(), NoMemory>
    requires free { living moment (get tokens.old token) ≡ None }
    requires new { kept.completed ≡ None }
    ensures ok { OnOk result ((other : List ℕ) → get tokens.new other
        ≡ (if bytes_eq other token then Some kept else living moment (get tokens.old other))) }
    ensures err { OnErr result (tokens.new ≡ tokens.old) }
{
    put(tokens, token, kept)?;
    tokens.purge(moment);
    Ok(())
}

/// Keeps a token, in place of what it was kept with.
fn put<A: Drop>(tokens: &mut Tokens<A>, token: Text, kept: Kept<A>) -> Result<(), NoMemory>
    ensures ok { OnOk result (tokens.new ≡ insert tokens.old token kept) }
    ensures err { OnErr result (tokens.new ≡ tokens.old) }
{
    if tokens.find(token.as_str()).is_none() {
        return tokens.keep(token, kept);
    }
    tokens.renew(token.as_str(), kept);
    Ok(())
}

/// Completes the token of a number, where it is kept with this number and is not completed.
pub(crate) fn complete<A: Drop>(
    tokens: &mut Tokens<A>,
    token: Option<&Text>,
    number: u64,
    moment: u64,
)
    requires { IsTokenOf tokens.old (option_copied token) number }
    ensures { (other : List ℕ) → get tokens.new other ≡ completed number moment (get tokens.old other) }
{
    let Some(token) = token else {
        return;
    };
    if let Some(kept) = tokens.find(token.as_str()) {
        if kept.number == number && kept.completed.is_none() {
            tokens.complete(token.as_str(), moment);
        }
    }
}

/// Forgets the token of a number, where it is kept with this number.
pub(crate) fn free<A: Drop>(tokens: &mut Tokens<A>, token: Option<&Text>, number: u64)
    requires { IsTokenOf tokens.old (option_copied token) number }
    ensures { (other : List ℕ) → get tokens.new other ≡ freed number (get tokens.old other) }
{
    let Some(token) = token else {
        return;
    };
    if let Some(kept) = tokens.find(token.as_str()) {
        if kept.number == number {
            tokens.free(token.as_str());
        }
    }
}
