//! Changes of one entry of a table.

ghost use Rattle.std.specs.Prelude.{◌≡◌, IsSome, IfOk, OnOk, OnErr};
ghost use Rattle.std.specs.BTreeMap.{get};
ghost use Rattle.local_index.specs.declared.claim.Claim.TheVariants.{Committed};
ghost use Rattle.local_index.specs.Claims.{instead, joined, without};
ghost use Rattle.local_index.specs.Entries.{Places};

use crate::claim::Claim;
use std::alloc::AllocError as NoMemory;
use std::collections::BTreeMap;

/// Lets an entry have this claim too, and hands out the one that it had. An entry that is not there is copied.
pub(crate) fn add<E: Ord + Clone>(
    entries: &mut BTreeMap<E, Claim>,
    entry: &E,
    claim: Claim,
) -> Result<Option<Claim>, NoMemory>
    requires copies { (x copy : E) → E.is_clone x copy → copy ≡ x }
    ensures old { IfOk result (λ old. old ≡ get E.cmp entries.old entry.now) }
    ensures new { OnOk result (Places E.cmp entries.old entries.new entry.now (joined claim (get E.cmp entries.old entry.now))) }
    ensures err { OnErr result (entries.new.entries ≡ entries.old.entries) }
{
    if let Some(place) = entries.get_mut(entry) {
        let old = *place;
        *place = old.with(claim);
        return Ok(Some(old));
    }
    let copy = entry.clone()?;
    match entries.insert(copy, claim) {
        Ok(_) => Ok(None),
        Err(refused) => {
            drop(refused);
            Err(NoMemory)
        }
    }
}

/// Takes a claim from an entry, which goes where no other is left. It takes no memory.
pub(crate) fn take<E: Ord + Drop>(entries: &mut BTreeMap<E, Claim>, entry: &E, claim: Claim)
    ensures { Places E.cmp entries.old entries.new entry.now (without claim (get E.cmp entries.old entry.now)) }
{
    let Some(place) = entries.get_mut(entry) else {
        return;
    };
    match place.without(claim) {
        Some(left) => *place = left,
        None => {
            entries.remove(entry);
        }
    }
}

/// Commits an entry, where it is there, and holds it no longer. It takes no memory.
pub(crate) fn commit<E: Ord>(entries: &mut BTreeMap<E, Claim>, entry: &E)
    ensures { Places E.cmp entries.old entries.new entry.now (instead Committed (get E.cmp entries.old entry.now)) }
{
    if let Some(place) = entries.get_mut(entry) {
        *place = Claim::Committed;
    }
}

/// Gives an entry that is there this claim alone, or takes it out. It takes no memory.
pub(crate) fn set<E: Ord + Drop>(entries: &mut BTreeMap<E, Claim>, entry: &E, claim: Option<Claim>)
    requires { IsSome (get E.cmp entries.old entry.now) }
    ensures { Places E.cmp entries.old entries.new entry.now claim }
{
    match claim {
        None => {
            entries.remove(entry);
        }
        Some(claim) => match entries.get_mut(entry) {
            Some(place) => *place = claim,
            None => unreachable!(),
        },
    }
}
