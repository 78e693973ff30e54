//! Changes of several entries of a table.

ghost use Rattle.std.specs.Prelude.{◌≡◌, [], OnOk, OnErr};
ghost use Rattle.local_index.specs.declared.claim.Claim.TheVariants.{Committed};
ghost use Rattle.local_index.specs.Claims.{instead, joined, without};
ghost use Rattle.local_index.specs.Entries.{changed, held_too, is_among, let_go, settled, Gives, SameClaims};

use crate::claim::Claim;
use crate::entries::{add, commit, set, take};
use std::alloc::AllocError as NoMemory;
use std::collections::BTreeMap;

/// Whether an entry is one of these. It costs a comparison with each.
fn is_among<E: Ord>(entries: &[E], entry: &E) -> bool
    ensures { result ≡ is_among E.cmp entries.now entry.now }
{
    entries.contains(entry)
}

/// Gives entries that are not among others this claim too. Where memory is refused each has its own claim.
fn add_all<E: Ord + Clone>(
    entries: &mut BTreeMap<E, Claim>,
    come: &[E],
    others: &[E],
    claim: Claim,
) -> Result<(), NoMemory>
    requires copies { (x copy : E) → E.is_clone x copy → copy ≡ x }
    ensures ok { OnOk result (Gives E.cmp (changed E.cmp come.now others.now (joined claim)) entries.old entries.new) }
    ensures err { OnErr result (SameClaims E.cmp entries.old entries.new) }
{
    let Some((first, rest)) = come.split_first() else {
        return Ok(());
    };
    if is_among(others, first) {
        return add_all(entries, rest, others, claim);
    }
    let old = add(entries, first, claim)?;
    match add_all(entries, rest, others, claim) {
        Ok(()) => Ok(()),
        Err(refused) => {
            set(entries, first, old);
            Err(refused)
        }
    }
}

/// Takes this claim from entries that are not among others. It takes no memory.
fn take_all<E: Ord + Drop>(entries: &mut BTreeMap<E, Claim>, gone: &[E], others: &[E], claim: Claim)
    ensures { Gives E.cmp (changed E.cmp gone.now others.now (without claim)) entries.old entries.new }
{
    for entry in gone {
        if is_among(others, entry) {
            continue;
        }
        take(entries, entry, claim);
    }
}

/// Commits those of these entries that are there, and holds them no longer. It takes no memory.
fn commit_all<E: Ord>(entries: &mut BTreeMap<E, Claim>, image: &[E])
    ensures { Gives E.cmp (changed E.cmp image.now [] (instead Committed)) entries.old entries.new }
{
    for entry in image {
        commit(entries, entry);
    }
}

/// Holds the entries of an image. Where memory is refused each entry has its own claim.
pub(crate) fn hold_in<E: Ord + Clone>(
    entries: &mut BTreeMap<E, Claim>,
    image: &[E],
) -> Result<(), NoMemory>
    requires copies { (x copy : E) → E.is_clone x copy → copy ≡ x }
    ensures ok { OnOk result (Gives E.cmp (held_too E.cmp image.now) entries.old entries.new) }
    ensures err { OnErr result (SameClaims E.cmp entries.old entries.new) }
{
    add_all(entries, image, &[], Claim::Held)
}

/// Commits the entries of an image that are there, in place of the old ones. It takes no memory.
pub(crate) fn settle_in<E: Ord + Drop>(entries: &mut BTreeMap<E, Claim>, old: &[E], image: &[E])
    ensures { Gives E.cmp (settled E.cmp old.now image.now) entries.old entries.new }
{
    take_all(entries, old, image, Claim::Committed);
    commit_all(entries, image);
}

/// Holds the entries of an image no longer. It takes no memory.
pub(crate) fn let_go_in<E: Ord + Drop>(entries: &mut BTreeMap<E, Claim>, image: &[E])
    ensures { Gives E.cmp (let_go E.cmp image.now) entries.old entries.new }
{
    take_all(entries, image, &[], Claim::Held);
}
