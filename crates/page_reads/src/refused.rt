//! What is refused of what a request reads.

ghost use Rattle.std.specs.Prelude.{◌≡◌, IfOk};
ghost use Rattle.std.specs.Option.{option_copied, option_map};
ghost use Rattle.table_model.specs.declared.refusal.Refusal.TheVariants as refusal;
ghost use Rattle.table_model.specs.Pages as model;
ghost use Rattle.page_reads.specs.Sources.{source_in};
ghost use Rattle.page_reads.specs.Names.{is_named, first_unnamed};

use crate::names::Names;
use crate::root::root_of;
use crate::source::Source;
use base_types::{DocPath, Text};
use expr_words::Paths;
use std::alloc::{AllocError as NoMemory, Global};
use table_model::{Invalid, Refusal, Reply};
use table_request::{PageRequest, Select};
use table_schema::{Projection, Schema};

/// The reply that a request does not fit the table.
pub fn invalid(why: Invalid) -> Reply
    ensures { result ≡ Reply.Refused (Refusal.Invalid why) }
{
    Reply::Refused(Refusal::Invalid(why))
}

/// Whether all attributes are asked for.
pub(crate) fn asks_all(select: Option<Select>) -> bool
    ensures { result ≡ model.asks_all select }
{
    matches!(select, Some(Select::AllAttributes))
}

/// Whether all attributes are asked of a global index that does not keep them.
fn lacks_all(select: Option<Select>, source: Source<'_>) -> bool
    ensures { result ≡ model.lacks_all select (source_in source.entry) }
{
    match source {
        Source::Global(_, index) => {
            asks_all(select) && !matches!(index.projection, Projection::All)
        }
        Source::Table | Source::Local(..) => false,
    }
}

/// The first refusal of how a request reads what it names.
pub(crate) fn reading_refusal(page: &PageRequest, source: Source<'_>) -> Option<Invalid>
    ensures { option_map refusal.Invalid result ≡ model.reading_refusal page.now (source_in source.entry) }
{
    if page.consistent && matches!(source, Source::Global(..)) {
        return Some(Invalid::ConsistentIndexRead);
    }
    if lacks_all(page.select, source) {
        return Some(Invalid::Select);
    }
    None
}

/// The attribute that the first of these paths begins with whose attribute is not kept.
fn first_unkept<'p>(names: Names<'_>, paths: &'p [DocPath]) -> Option<&'p str>
    ensures { option_copied result ≡ first_unnamed (is_named names.entry) paths.now }
{
    for path in paths {
        let root = root_of(path);
        if !names.has(root) {
            return Some(root);
        }
    }
    None
}

/// The attribute that a projection names and the global index that is read does not keep.
pub(crate) fn unprojected(
    alloc: Global,
    schema: &Schema,
    source: Source<'_>,
    projection: Option<&Paths>,
) -> Result<Option<Text>, NoMemory>
    ensures { IfOk result (λ name.
        name ≡ model.unprojected schema.now (source_in source.entry) (option_copied projection.entry)) }
{
    let (Source::Global(_, index), Some(paths)) = (source, projection) else {
        return Ok(None);
    };
    let names = Names::Row(&schema.keys, &index.keys, &index.projection);
    match first_unkept(names, paths.paths.as_slice()) {
        Some(root) => Ok(Some(Text::copied(alloc, root)?)),
        None => Ok(None),
    }
}
