//! The message that begins a transaction.

ghost use Rattle.std.specs.Prelude.{◌≡◌, ℕ, None, Some, true, IfOk, IfSome, OnErr};
ghost use Rattle.std.specs.Option.{option_copied};
ghost use Rattle.control_cell.specs.Holding.{Answers, Takes, Unchanged};
ghost use Rattle.control_cell.specs.Keeping.{found_in, token_of, with_actions};
ghost use Rattle.txn_core.specs.Answers.{begin_answer};
ghost use Rattle.txn_core.specs.declared.message.Message.{Message};
ghost use Rattle.control_cell.specs.Begins.{DrawsNone, drawn_in, have_tables};

use crate::cell::ControlCell;
use base_types::{Seq, Text};
use client_tokens::Kept;
use std::alloc::{AllocError as NoMemory, Global};
use txn_core::{Answer, Reply, Rules, copy_of_actions};
use txn_ledger::ClientToken;

/// Whether the catalog has the table of each action.
fn has_tables<R: Rules>(catalog: &R::Catalog, actions: &[R::Action]) -> bool
    ensures { (n : ℕ) → result ≡ have_tables (R.protocol n) catalog.now actions.now }
{
    for action in actions {
        if !R::is_there(catalog, R::key_of(action)) {
            return false;
        }
    }
    true
}

/// What a Begin is answered whose token stands for a transaction already.
fn told_of<R: Rules>(kept: &Kept<Seq<R::Action>>, actions: &[R::Action]) -> Reply<R>
    ensures { (n : ℕ) (stamp : _) → result ≡ begin_answer (R.protocol n).same_actions true (token_of (Some kept.now)) actions.now stamp }
{
    let number = kept.number;
    if !R::are_same_actions(kept.actions.as_slice(), actions) {
        return Answer::Mismatch { number };
    }
    if kept.completed.is_some() {
        Answer::Repeat { number }
    } else {
        Answer::Running { number }
    }
}

/// The token with a copy of the actions, to be kept with them.
fn own_token<R: Rules>(
    alloc: Global,
    token: Option<Text>,
    actions: &[R::Action],
) -> Result<Option<ClientToken<R::Action>>, NoMemory>
    ensures { IfOk result (λ own. own ≡ with_actions actions.now token) }
{
    match token {
        Some(token) => {
            let actions = copy_of_actions::<R>(alloc, actions)?;
            Ok(Some(ClientToken { token, actions }))
        }
        None => Ok(None),
    }
}

impl<R: Rules> ControlCell<R> {
    /// What the token of a Begin is kept with, if it has one that stands for a transaction.
    fn kept_with(&self, token: &Option<Text>, moment: u64) -> Option<&Kept<Seq<R::Action>>>
        ensures { token_of (option_copied result) ≡ found_in self.now.ledger moment token.now }
    {
        match token {
            Some(token) => self.ledger.kept(token.as_str(), moment),
            None => None,
        }
    }

    /// What a Begin is answered that draws no number.
    fn told_at_once(
        &self,
        token: &Option<Text>,
        actions: &[R::Action],
        moment: u64,
    ) -> Option<Reply<R>>
        ensures answers { IfSome result (λ a. (n : ℕ) → Answers (R.protocol n) self.now moment (Message.Begin token.now actions.now) a) }
        ensures draws_none { IfSome result DrawsNone }
        ensures there { result ≡ None → (n : ℕ) → have_tables (R.protocol n) self.now.catalog actions.now ≡ true }
        ensures free { result ≡ None → found_in self.now.ledger moment token.now ≡ None }
    {
        if !has_tables::<R>(&self.catalog, actions) {
            return Some(Answer::Stale);
        }
        match self.kept_with(token, moment) {
            Some(kept) => Some(told_of::<R>(kept, actions)),
            None => None,
        }
    }

    /// Draws the next number for a transaction whose token stands for none.
    fn draw(
        &mut self,
        alloc: Global,
        token: Option<Text>,
        actions: Seq<R::Action>,
        moment: u64,
    ) -> Result<Reply<R>, NoMemory>
        requires free { found_in self.old.ledger moment token ≡ None }
        ensures drawn { IfOk result (λ a. a ≡ drawn_in self.old.ledger moment) }
        ensures takes { IfOk result (λ a. (n : ℕ) → Takes (R.protocol n) self.old self.new moment (Message.Begin token actions) a) }
        ensures err { OnErr result (Unchanged self.old self.new) }
    {
        let own = own_token::<R>(alloc, token, actions.as_slice())?;
        let (number, stamp) = self.ledger.begin(actions, own, moment)?;
        Ok(Answer::Begun { number, stamp })
    }

    /// A Begin: Stale where a table of its actions is gone; else the transaction that its token stands for; else the next number,
    /// with the moment. It forgets each token whose life is over, and takes all that the end of its transaction will need.
    /// `NoMemory` also where no number is left.
    pub fn begin(
        &mut self,
        alloc: Global,
        token: Option<Text>,
        actions: Seq<R::Action>,
        moment: u64,
    ) -> Result<Reply<R>, NoMemory>
        ensures answers { IfOk result (λ a. (n : ℕ) → Answers (R.protocol n) self.old moment (Message.Begin token actions) a) }
        ensures takes { IfOk result (λ a. (n : ℕ) → Takes (R.protocol n) self.old self.new moment (Message.Begin token actions) a) }
        ensures err { OnErr result (Unchanged self.old self.new) }
    {
        if let Some(told) = self.told_at_once(&token, actions.as_slice(), moment) {
            self.ledger.purge(moment);
            return Ok(told);
        }
        self.draw(alloc, token, actions, moment)
    }
}
