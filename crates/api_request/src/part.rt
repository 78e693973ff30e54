//! Parts of a request, each of which is read with expressions of its own.

ghost use Rattle.serde_json.specs.Data.{Data};
ghost use Rattle.serde_json.specs.View.{view, items_view};
ghost use Rattle.request_parts.specs.Ends.{IsToldOf};
ghost use Rattle.request_parts.specs.Asks.{Asks, IsPart, AreParts};

use base_types::Seq;
use request_parts::RequestEnd;
use serde_json::Value as Json;
use std::alloc::Global;

/// A part of a request that its expressions may refuse.
pub(crate) trait Part: Sized {
    ghost asks: { Data → Asks };

    ghost states: { Data → Self → Type 0 };

    /// The part that JSON states, or why it is refused.
    fn read(alloc: Global, json: &Json) -> Result<Self, RequestEnd>
        ensures { IsToldOf (IsPart asks states (view json.now)) result };
}

/// The parts that elements state, in order, or the first refusal.
pub(crate) fn read_parts<T: Part + Drop>(
    alloc: Global,
    items: &[Json],
) -> Result<Seq<T>, RequestEnd>
    ensures { IsToldOf (AreParts T.asks T.states (items_view items.now)) result }
{
    let mut parts = Seq::with_capacity(alloc, items.len())?;
    for item in items {
        parts.push(T::read(alloc, item)?)?;
    }
    Ok(parts)
}
