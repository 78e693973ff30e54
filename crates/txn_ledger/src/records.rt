//! Changes of one record of many.

ghost use Rattle.std.specs.Prelude.{◌≡◌, None, Some, OnOk, OnErr, is_some, option_map};
ghost use Rattle.std.specs.Option.{option_copied};
ghost use Rattle.std.specs.Ordering.{nat_cmp};
ghost use Rattle.std.specs.BTreeMap.{get};
ghost use Rattle.txn_ledger.specs.Records.{answer_to, decided, finished, token_of};
ghost use Rattle.txn_ledger.specs.Changes.{Alters};

use crate::record::Record;
use base_types::{Seq, Text};
use std::alloc::AllocError as NoMemory;
use std::collections::BTreeMap;
use txn_core::Fate;

/// The token that a transaction was begun with.
pub(crate) fn token_of<A, Q>(records: &BTreeMap<u64, Record<A, Q>>, number: u64) -> Option<&Text>
    ensures { option_copied result ≡ token_of (get nat_cmp records.now number) }
{
    match &records.get(&number)?.token {
        Some(token) => Some(token),
        None => None,
    }
}

/// Adds a record.
pub(crate) fn add<A: Drop, Q: Drop>(
    records: &mut BTreeMap<u64, Record<A, Q>>,
    number: u64,
    added: Record<A, Q>,
) -> Result<(), NoMemory>
    ensures ok { OnOk result (Alters records.old records.new number (Some added)) }
    ensures err { OnErr result (records.new.entries ≡ records.old.entries) }
{
    match records.insert(number, added) {
        Ok(_) => Ok(()),
        Err(refused) => {
            drop(refused);
            Err(NoMemory)
        }
    }
}

/// Takes a record out, and answers whether it was there.
pub(crate) fn remove<A: Drop, Q: Drop>(
    records: &mut BTreeMap<u64, Record<A, Q>>,
    number: u64,
) -> bool
    ensures there { result ≡ is_some (get nat_cmp records.old number) }
    ensures gone { Alters records.old records.new number None }
{
    records.remove(&number).is_some()
}

/// Decides a transaction that is not decided yet, where its record is there.
pub(crate) fn decide<A, Q: Drop>(
    records: &mut BTreeMap<u64, Record<A, Q>>,
    number: u64,
    commit: bool,
    reasons: Seq<Q>,
) -> (Fate, bool)
    ensures answer { result ≡ answer_to (get nat_cmp records.old number) commit }
    ensures decided { Alters records.old records.new number (option_map (decided commit reasons) (get nat_cmp records.old number)) }
{
    match records.get_mut(&number) {
        Some(record) => record.decide(commit, reasons),
        None => (Fate::Gone, false),
    }
}

/// Marks a transaction as done, and answers whether its record is there.
pub(crate) fn finish<A, Q>(records: &mut BTreeMap<u64, Record<A, Q>>, number: u64) -> bool
    ensures there { result ≡ is_some (get nat_cmp records.old number) }
    ensures finished { Alters records.old records.new number (option_map finished (get nat_cmp records.old number)) }
{
    match records.get_mut(&number) {
        Some(record) => {
            record.done = true;
            true
        }
        None => false,
    }
}
