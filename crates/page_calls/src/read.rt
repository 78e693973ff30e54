//! Pages of a table that a Look told of.

ghost use Rattle.std.specs.Prelude.{◌≡◌, Some, IfOk, IfErr};
ghost use Rattle.table_model.specs.Pages.{source_of};
ghost use Rattle.page_reads.specs.Sources.{source_in, HasPlace};
ghost use Rattle.cell_asks.specs.Steps.{GivesUp};
ghost use Rattle.page_calls.specs.Asked.{page_asked, Begins};
ghost use Rattle.page_calls.specs.Steps.{asked_of, IsRead, IsWithin};

use crate::asked::Asked;
use crate::begin::{Beginning, begin};
use crate::gather::gather;
use crate::told::told_page;
use cell_asks::{Asks, StepError};
use cell_model::TableLook;
use page_reads::{Sight, Source, index_named};
use table_model::{Invalid, Reply};

/// What a page comes to in a table that a Look told of.
#[derive(Drop)]
pub(crate) enum Read {
    Told(Reply),
    /// Its schema refuses the request.
    Refused(Invalid),
    /// The table or the index is gone.
    Gone,
}

/// The page that begins so.
fn read_page<C: Asks>(
    cells: &C,
    pass: &mut C::Pass,
    look: &TableLook,
    asked: Asked<'_>,
    source: Source<'_>,
    beginning: Beginning,
) -> Result<Read, StepError>
    requires fits { C.fits cells.now pass.old }
    requires source { source_of look.now.schema (page_asked (asked_of asked)).index ≡ Some (source_in source) }
    requires begins { Begins (C.count cells.now) look.now (asked_of asked) (source_in source) beginning.first beginning.behind }
    requires within { IsWithin beginning }
    ensures ok { IfOk result (λ read. IsRead (C.count cells.now) (C.seen pass.old) look.now (asked_of asked.entry) read (C.seen pass.new)) }
    ensures err { IfErr result (λ why. GivesUp (C.count cells.now) (C.seen pass.old) why (C.seen pass.new)) }
    ensures fits { C.fits cells.now pass.new }
{
    let Beginning { first, behind } = beginning;
    match gather(cells, pass, first, behind)? {
        Some(gathered) => {
            let sight = Sight {
                schema: &look.schema,
                source,
                page: asked.page(),
            };
            let reply = told_page(cells.alloc(), &sight, &gathered);
            drop(gathered);
            Ok(Read::Told(reply?))
        }
        None => Ok(Read::Gone),
    }
}

/// The page of a source, or why the request is refused.
fn read_source<C: Asks>(
    cells: &C,
    pass: &mut C::Pass,
    look: &TableLook,
    asked: Asked<'_>,
    source: Source<'_>,
) -> Result<Read, StepError>
    requires fits { C.fits cells.now pass.old }
    requires source { source_of look.now.schema (page_asked (asked_of asked)).index ≡ Some (source_in source) }
    requires place { HasPlace look.now.schema source }
    ensures ok { IfOk result (λ read. IsRead (C.count cells.now) (C.seen pass.old) look.now (asked_of asked.entry) read (C.seen pass.new)) }
    ensures err { IfErr result (λ why. GivesUp (C.count cells.now) (C.seen pass.old) why (C.seen pass.new)) }
    ensures fits { C.fits cells.now pass.new }
{
    match begin(cells, look, asked, source)? {
        Ok(beginning) => read_page(cells, pass, look, asked, source, beginning),
        Err(why) => Ok(Read::Refused(why)),
    }
}

/// The page of the table or of its index that a request names, or why the request is refused.
pub(crate) fn read_table<C: Asks>(
    cells: &C,
    pass: &mut C::Pass,
    look: &TableLook,
    asked: Asked<'_>,
) -> Result<Read, StepError>
    requires fits { C.fits cells.now pass.old }
    ensures ok { IfOk result (λ read. IsRead (C.count cells.now) (C.seen pass.old) look.now (asked_of asked.entry) read (C.seen pass.new)) }
    ensures err { IfErr result (λ why. GivesUp (C.count cells.now) (C.seen pass.old) why (C.seen pass.new)) }
    ensures fits { C.fits cells.now pass.new }
{
    let Some(name) = &asked.page().index else {
        return read_source(cells, pass, look, asked, Source::Table);
    };
    match index_named(&look.schema, name) {
        Some(source) => read_source(cells, pass, look, asked, source),
        None => Ok(Read::Refused(Invalid::UnknownIndex(name.try_clone()?))),
    }
}
