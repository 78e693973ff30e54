//! What an UpdateTimeToLive makes of a table's schema (API Reference: UpdateTimeToLive).

ghost use Rattle.std.specs.Prelude.{◌≡◌, if◌then◌else◌, None, Some, IfOk};
ghost use Rattle.table_model.specs.Catalog.{ttl_fault};

use base_types::Text;
use std::alloc::AllocError as NoMemory;
use table_model::TtlFault;
use table_schema::Schema;

/// The schema of a table whose items expire by an attribute, or no longer.
pub fn expiring(schema: &Schema, name: &Text, enabled: bool) -> Result<Schema, NoMemory>
    ensures { IfOk result (λ new. new ≡ record schema.now { ttl = if enabled then Some name.now else None }) }
{
    let mut new = schema.try_clone()?;
    new.ttl = if enabled {
        Some(name.try_clone()?)
    } else {
        None
    };
    Ok(new)
}

/// Why the time to live of a table can't become so: it is enabled already, or it is to be disabled and isn't enabled, or is for
/// another attribute.
pub fn ttl_fault(known: &Option<Text>, name: &Text, enabled: bool) -> Option<TtlFault>
    ensures { result ≡ ttl_fault known.now name.now enabled }
{
    match (known, enabled) {
        (None, true) => None,
        (None, false) => Some(TtlFault::AlreadyDisabled),
        (Some(_), true) => Some(TtlFault::AlreadyEnabled),
        (Some(known), false) if *known == *name => None,
        (Some(_), false) => Some(TtlFault::OtherAttribute),
    }
}
