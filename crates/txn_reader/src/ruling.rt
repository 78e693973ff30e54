//! What two rounds of reads tell.

ghost use Rattle.std.specs.Prelude.{◌≡◌, map, IfOk};
ghost use Rattle.txn_core.specs.declared.reason.Reason.{Reason};
ghost use Rattle.txn_reader.specs.Reasons.{IsRuled, reason_of, reasons_of};

use crate::item_version::ItemVersion;
use crate::read_end::ReadEnd;
use base_types::Seq;
use std::alloc::{AllocError as NoMemory, Global};
use txn_core::{Reason, have_refusal};

/// Why two reads of an item may be of two points.
fn reason_of<V, F>(one: &ItemVersion<V>, two: &ItemVersion<V>) -> Reason<V, F>
    ensures { result ≡ reason_of one.now two.now }
{
    match one.held.or(two.held) {
        Some(number) => Reason::Held { number },
        None if one.version == two.version => Reason::None,
        None => Reason::Moved {
            first: one.version,
            second: two.version,
        },
    }
}

/// The same of each item.
fn reasons_of<V: Drop, F: Drop>(
    alloc: Global,
    first: &[ItemVersion<V>],
    second: &[ItemVersion<V>],
) -> Result<Seq<Reason<V, F>>, NoMemory>
    ensures { IfOk result (λ reasons. reasons ≡ reasons_of first.now second.now) }
{
    let mut reasons = Vec::with_capacity(alloc, first.len())?;
    for (one, two) in first.iter().zip(second) {
        reasons.push(reason_of(one, two))?;
    }
    Ok(Seq::from(reasons))
}

/// The items that were found.
fn items_of<V: Drop>(alloc: Global, found: Seq<ItemVersion<V>>) -> Result<Seq<Option<V>>, NoMemory>
    ensures { IfOk result (λ items. items ≡ map (λ read. read.item) found) }
{
    let mut items = Vec::with_capacity(alloc, found.len())?;
    let found: Vec<ItemVersion<V>> = found.into();
    for read in found {
        items.push(read.item)?;
    }
    Ok(Seq::from(items))
}

/// The items of the first round where no item has a reason, else the reasons.
pub(crate) fn rule<V: Drop, F: Drop>(
    alloc: Global,
    first: Seq<ItemVersion<V>>,
    second: Seq<ItemVersion<V>>,
) -> Result<ReadEnd<V, F>, NoMemory>
    ensures { IfOk result (λ end. IsRuled first second end) }
{
    let reasons = reasons_of(alloc, first.as_slice(), second.as_slice())?;
    if have_refusal(reasons.as_slice()) {
        return Ok(ReadEnd::Cancelled(reasons));
    }
    Ok(ReadEnd::Rows(items_of(alloc, first)?))
}
