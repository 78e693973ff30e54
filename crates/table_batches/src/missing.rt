//! Tables that requests name.

ghost use Rattle.std.specs.Prelude.{◌≡◌, map, IfOk};
ghost use Rattle.table_model.specs.Database.{first};
ghost use Rattle.table_model.specs.Batches.{missing};
ghost use Rattle.table_batches.specs.Answers.{tables_alone};

use crate::part::OnTable;
use base_types::Text;
use numbered_tables::NumberedTable;
use std::alloc::AllocError as NoMemory;
use std::collections::BTreeMap;
use table_model::Refusal;

/// The refusal of the first table that is not there, if one is not.
pub(crate) fn missing<T: OnTable>(
    tables: &BTreeMap<Text, NumberedTable>,
    requests: &[T],
) -> Result<Option<Refusal>, NoMemory>
    ensures { IfOk result (λ refusal. refusal ≡ first (map (λ t. missing (tables_alone tables.now.entries) (T.table_of t)) requests.now)) }
{
    for asked in requests {
        let name = asked.table();
        if !tables.contains_key(name) {
            return Ok(Some(Refusal::NoTable(name.try_clone()?)));
        }
    }
    Ok(None)
}
