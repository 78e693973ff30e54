//! The transactions and tokens of a server.

ghost use Rattle.std.specs.Prelude.{◌≡◌, ◌+◌, ◌<◌, ℕ, List, None, Some, is_some, IfOk, IfSome, OnOk, OnErr, option_map, if◌then◌else◌};
ghost use Rattle.std.specs.Option.{option_copied};
ghost use Rattle.std.specs.Ordering.{nat_cmp};
ghost use Rattle.std.specs.BTreeMap.{get, IsEmpty, IsOrdered};
ghost use Rattle.std.specs.FinMap as map;
ghost use Rattle.txn_ledger.specs.Ledgers.{AreDrawn, AreLinked};
ghost use Rattle.txn_ledger.specs.Records.{answer_to, begun, cancels, decided, fate_of, finished, unfinished_in};
ghost use Rattle.txn_ledger.specs.Tokens.{completed, freed, kept_with, living};
ghost use Rattle.txn_ledger.specs.Changes.{Alters};
ghost use Rattle.txn_ledger.specs.Records.{stamp_of};

use crate::record::Record;
use crate::records;
use crate::tokens::{self, ClientToken};
use base_types::Seq;
use client_tokens::{Kept, Tokens};
use std::alloc::{AllocError as NoMemory, Global};
use std::collections::BTreeMap;
use txn_core::{Fate, Stamp};

/// The transactions that were begun and not forgotten, by their numbers, and the tokens that stand for transactions.
#[derive(Drop)]
pub struct TxnLedger<A, Q> {
    /// The number that the next transaction has.
    next: u64,
    records: BTreeMap<u64, Record<A, Q>>,
    tokens: Tokens<Seq<A>>,
    ghost linked: { AreLinked records next tokens },
    ghost drawn: { AreDrawn records next },
}

impl<A: Drop, Q: Drop> TxnLedger<A, Q> {
    ghost use Rattle.txn_ledger.specs.Unchanged.{Unchanged};

    /// No transaction.
    pub fn new(alloc: Global) -> Result<TxnLedger<A, Q>, NoMemory>
        ensures next { IfOk result (λ ledger. ledger.next ≡ 1) }
        ensures records { IfOk result (λ ledger. IsEmpty ledger.records) }
        ensures tokens { IfOk result (λ ledger. ledger.tokens ≡ map.empty) }
    {
        Ok(TxnLedger {
            next: 1,
            records: BTreeMap::new(alloc),
            tokens: Tokens::make(alloc)?,
        })
    }

    /// What a token is kept with, unless its life is over at the moment.
    pub fn kept(&self, token: &str, moment: u64) -> Option<&Kept<Seq<A>>>
        ensures { option_copied result ≡ living moment (map.get self.now.tokens token.now) }
    {
        tokens::living(&self.tokens, token, moment)
    }

    /// The record of a transaction, where it was begun and not forgotten.
    pub fn record(&self, number: u64) -> Option<&Record<A, Q>>
        ensures { option_copied result ≡ get nat_cmp self.now.records number }
    {
        self.records.get(&number)
    }

    /// What became of a transaction.
    pub fn fate(&self, number: u64) -> Fate
        ensures { result ≡ fate_of (get nat_cmp self.now.records number) }
    {
        match self.records.get(&number) {
            Some(found) => found.fate,
            None => Fate::Gone,
        }
    }

    /// Begins a transaction at a moment: draws the next number, and keeps what it is begun with. A token that lives no more is
    /// kept with the number and with a copy of the actions, and each token whose life is over at the moment is forgotten.
    /// `NoMemory` also where no number is left.
    pub fn begin(
        &mut self,
        actions: Seq<A>,
        token: Option<ClientToken<A>>,
        moment: u64,
    ) -> Result<(u64, Stamp), NoMemory>
        requires free { IfSome token (λ t. living moment (map.get self.old.tokens t.token) ≡ None) }
        ensures number { IfOk result (λ drawn. (drawn.0 ≡ self.old.next) × (drawn.1 ≡ stamp_of moment self.old.next)) }
        ensures next { OnOk result (self.new.next ≡ self.old.next + 1) }
        ensures records { OnOk result (Alters self.old.records self.new.records self.old.next
            (Some (begun (stamp_of moment self.old.next) actions (option_map (λ t. t.token) token)))) }
        ensures tokens { OnOk result ((other : List ℕ) → map.get self.new.tokens other
            ≡ kept_with token self.old.next other (living moment (map.get self.old.tokens other))) }
        ensures err { OnErr result (Unchanged self.old self.new) }
    {
        let number = self.next;
        let Some(next) = number.checked_add(1) else {
            return Err(NoMemory);
        };
        let stamp = Stamp { moment, number };
        let begun = Record::begun(stamp, actions, tokens::text_of(&token)?);
        records::add(&mut self.records, number, begun)?;
        if tokens::keep_with(&mut self.tokens, token, number, moment).is_err() {
            records::remove(&mut self.records, number);
            return Err(NoMemory);
        }
        self.next = next;
        Ok((number, stamp))
    }

    /// Forgets each token whose life is over at the moment, as a Begin does that draws no number. It takes no memory.
    pub fn purge(&mut self, moment: u64)
        ensures tokens { (token : List ℕ) → map.get self.new.tokens token ≡ living moment (map.get self.old.tokens token) }
        ensures records { self.new.records ≡ self.old.records }
        ensures next { self.new.next ≡ self.old.next }
    {
        tokens::purge(&mut self.tokens, moment);
    }

    /// The numbers of the transactions that are not done, ascending. It costs a look at each record.
    pub fn unfinished(&self, alloc: Global) -> Result<Seq<u64>, NoMemory>
        ensures numbers { IfOk result (λ numbers. numbers ≡ unfinished_in self.now.records.entries) }
        ensures ordered { IsOrdered nat_cmp self.now.records }
    {
        let mut numbers = Seq::new(alloc);
        for (number, found) in self.records.iter() {
            if !found.done {
                numbers.push(*number)?;
            }
        }
        Ok(numbers)
    }

    /// Decides a transaction that is not decided yet, with the reasons of a cancel, and frees the token of one that it cancels.
    /// Answers the fate that stands then, and whether this set it. It takes no memory.
    pub fn decide(&mut self, number: u64, commit: bool, reasons: Seq<Q>) -> (Fate, bool)
        ensures answer { result ≡ answer_to (get nat_cmp self.old.records number) commit }
        ensures records { Alters self.old.records self.new.records number
            (option_map (decided commit reasons) (get nat_cmp self.old.records number)) }
        ensures tokens { (token : List ℕ) → map.get self.new.tokens token
            ≡ (if cancels result then freed number (map.get self.old.tokens token) else map.get self.old.tokens token) }
        ensures next { self.new.next ≡ self.old.next }
    {
        let answer = records::decide(&mut self.records, number, commit, reasons);
        if matches!(answer, (Fate::Cancelled, true)) {
            let token = records::token_of(&self.records, number);
            tokens::free(&mut self.tokens, token, number);
        }
        answer
    }

    /// Marks a transaction as done, and completes its token where that is not completed yet. Answers whether its record is
    /// there. It takes no memory.
    pub fn finish(&mut self, number: u64, moment: u64) -> bool
        ensures there { result ≡ is_some (get nat_cmp self.old.records number) }
        ensures records { Alters self.old.records self.new.records number
            (option_map finished (get nat_cmp self.old.records number)) }
        ensures tokens { (token : List ℕ) → map.get self.new.tokens token
            ≡ (if result then completed number moment (map.get self.old.tokens token) else map.get self.old.tokens token) }
        ensures next { self.new.next ≡ self.old.next }
    {
        if !records::finish(&mut self.records, number) {
            return false;
        }
        let token = records::token_of(&self.records, number);
        tokens::complete(&mut self.tokens, token, number, moment);
        true
    }

    /// Forgets the record of a transaction; its token stays. Answers whether it was there. It takes no memory.
    pub fn forget(&mut self, number: u64) -> bool
        ensures there { result ≡ is_some (get nat_cmp self.old.records number) }
        ensures records { Alters self.old.records self.new.records number None }
        ensures tokens { self.new.tokens ≡ self.old.tokens }
        ensures next { self.new.next ≡ self.old.next }
    {
        records::remove(&mut self.records, number)
    }
}
