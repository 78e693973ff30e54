//! Global indexes that come and go.

ghost use Rattle.std.specs.Prelude.{◌≡◌, IfOk, is_some};
ghost use Rattle.std.specs.Option.{option_copied};
ghost use Rattle.table_model.specs.Catalog.{changed_indexes, has_index, index_refusal};
ghost use Rattle.table_model.specs.Pages.{global_named, local_named};

use base_types::{Seq, Text};
use std::alloc::AllocError as NoMemory;
use table_model::{Invalid, Refusal};
use table_request::IndexChange;
use table_schema::{GlobalIndex, Schema, SchemaFault};

/// The refusal of a change of an index: NoIndex where it goes and is not there, BadIndexName where it comes and is there.
pub(crate) fn index_refusal(
    schema: &Schema,
    change: Option<&IndexChange>,
) -> Result<Option<Refusal>, NoMemory>
    ensures { IfOk result (λ refusal. refusal ≡ index_refusal schema.now (option_copied change.entry)) }
{
    match change {
        None => Ok(None),
        Some(IndexChange::Remove(name)) if has_global(schema, name) => Ok(None),
        Some(IndexChange::Remove(name)) => Ok(Some(Refusal::NoIndex(name.try_clone()?))),
        Some(IndexChange::Make(index)) if has_index(schema, &index.name) => {
            let fault = SchemaFault::BadIndexName;
            Ok(Some(Refusal::Invalid(Invalid::Schema(fault))))
        }
        Some(IndexChange::Make(_)) => Ok(None),
    }
}

/// Whether an index of the table has the name.
fn has_index(schema: &Schema, name: &Text) -> bool
    ensures { result ≡ has_index schema.now name.now }
{
    has_local(schema, name) || has_global(schema, name)
}

/// Whether a local index of the table has the name.
fn has_local(schema: &Schema, name: &Text) -> bool
    ensures { result ≡ is_some (local_named name.now schema.now.locals) }
{
    schema.locals.iter().any(|index| index.name == *name)
}

/// Whether a global index of the table has the name.
fn has_global(schema: &Schema, name: &Text) -> bool
    ensures { result ≡ is_some (global_named name.now schema.now.globals) }
{
    schema.globals.iter().any(|index| index.name == *name)
}

/// The indexes after a change, in their order.
pub(crate) fn changed_indexes(
    mut indexes: Seq<GlobalIndex>,
    change: Option<IndexChange>,
) -> Result<Seq<GlobalIndex>, NoMemory>
    ensures { IfOk result (λ changed. changed ≡ changed_indexes change indexes) }
{
    match change {
        None => Ok(indexes),
        Some(IndexChange::Make(index)) => {
            indexes.push(index)?;
            Ok(indexes)
        }
        Some(IndexChange::Remove(name)) => {
            let mut kept = Vec::from(indexes);
            kept.retain(|index| index.name != name);
            Ok(Seq::from(kept))
        }
    }
}
