//! Scan and Query.

ghost use Rattle.std.specs.Prelude.{◌≡◌, List, Some, reverse, IfOk, IfErr};
ghost use Rattle.table_history.specs.Entries.{TableEvent};
ghost use Rattle.cell_asks.specs.Steps.{GivesUp};
ghost use Rattle.cell_asks.specs.Told.{AreTold};
ghost use Rattle.page_calls.specs.Asked.{a_query, a_scan};
ghost use Rattle.page_calls.specs.Pages.{IsPageTry};
ghost use Rattle.page_calls.specs.Steps.{asked_of, IsKeptRead, tried_read};

use crate::asked::Asked;
use crate::read::{Read, read_table};
use cell_asks::{Asks, Looks, StepError, Tried};
use std::alloc::Global;
use table_model::{Refusal, Reply};
use table_request::{Query, Scan};

/// The page of the table of a request, where it is kept.
fn read_kept<C: Asks>(
    cells: &C,
    pass: &mut C::Pass,
    looks: &Looks,
    asked: Asked<'_>,
) -> Result<Option<Read>, StepError>
    requires fits { C.fits cells.now pass.old }
    requires told { AreTold (reverse (C.seen pass.old).front) looks.now }
    ensures ok { IfOk result (λ read. IsKeptRead (C.count cells.now) (C.seen pass.old) (asked_of asked.entry) read (C.seen pass.new)) }
    ensures err { IfErr result (λ why. GivesUp (C.count cells.now) (C.seen pass.old) why (C.seen pass.new)) }
    ensures told { AreTold (reverse (C.seen pass.new).front) looks.now }
    ensures fits { C.fits cells.now pass.new }
{
    match looks.find(&asked.page().table) {
        Some(look) => Ok(Some(read_table(cells, pass, look, asked)?)),
        None => Ok(None),
    }
}

/// What a try comes to by what became of its page.
fn tried(alloc: Global, looks: &mut Looks, read: Read) -> Tried
    ensures tried { result ≡ tried_read read }
    ensures told { (es : List TableEvent) → AreTold es looks.old → AreTold es looks.new }
{
    match read {
        Read::Told(reply) => Tried::Reply(reply),
        Read::Refused(why) => Tried::Reply(Reply::Refused(Refusal::Invalid(why))),
        Read::Gone => {
            looks.forget(alloc);
            Tried::Again
        }
    }
}

/// The page of the table of a request by an own Look, which is kept where memory allows.
fn read_looked<C: Asks>(
    cells: &C,
    pass: &mut C::Pass,
    looks: &mut Looks,
    asked: Asked<'_>,
) -> Result<Tried, StepError>
    requires fits { C.fits cells.now pass.old }
    requires told { AreTold (reverse (C.seen pass.old).front) looks.old }
    ensures ok { IfOk result (λ tried. IsPageTry (C.count cells.now) (C.seen pass.old) (asked_of asked.entry) tried (C.seen pass.new)) }
    ensures err { IfErr result (λ why. GivesUp (C.count cells.now) (C.seen pass.old) why (C.seen pass.new)) }
    ensures told { AreTold (reverse (C.seen pass.new).front) looks.new }
    ensures fits { C.fits cells.now pass.new }
{
    let name = asked.page().table.try_clone()?;
    let told = cells.look(pass, asked.page().table.try_clone()?)?;
    match told {
        Some(look) => {
            let read = read_table(cells, pass, &look, asked)?;
            drop(looks.keep(cells.alloc(), name, look));
            Ok(tried(cells.alloc(), looks, read))
        }
        None => Ok(Tried::Reply(Reply::Refused(Refusal::NoTable(name)))),
    }
}

/// The page of a request by what is kept of Looks, and else by a Look. A request is refused by a Look of its own alone.
fn page<C: Asks>(
    cells: &C,
    pass: &mut C::Pass,
    looks: &mut Looks,
    asked: Asked<'_>,
) -> Result<Tried, StepError>
    requires fits { C.fits cells.now pass.old }
    requires told { AreTold (reverse (C.seen pass.old).front) looks.old }
    ensures ok { IfOk result (λ tried. IsPageTry (C.count cells.now) (C.seen pass.old) (asked_of asked.entry) tried (C.seen pass.new)) }
    ensures err { IfErr result (λ why. GivesUp (C.count cells.now) (C.seen pass.old) why (C.seen pass.new)) }
    ensures told { AreTold (reverse (C.seen pass.new).front) looks.new }
    ensures fits { C.fits cells.now pass.new }
{
    match read_kept(cells, pass, looks, asked)? {
        Some(Read::Told(reply)) => Ok(Tried::Reply(reply)),
        Some(Read::Gone) => {
            looks.forget(cells.alloc());
            Ok(Tried::Again)
        }
        Some(Read::Refused(why)) => {
            drop(why);
            read_looked(cells, pass, looks, asked)
        }
        None => read_looked(cells, pass, looks, asked),
    }
}

/// Reads all rows of a table or of an index, or those of a segment, page by page (API Reference: Scan). It is refused by an own
/// Look where no table has the name, where the index is not there, where what is asked of a global index is not kept there or
/// can't be, and where the start key is none of the segment.
///
/// The page is read from one cell after another, each at a point of its own, from the cell of the start key on.
pub fn scan<C: Asks>(
    cells: &C,
    pass: &mut C::Pass,
    looks: &mut Looks,
    request: &Scan,
) -> Result<Tried, StepError>
    requires fits { C.fits cells.now pass.old }
    requires told { AreTold (reverse (C.seen pass.old).front) looks.old }
    ensures ok { IfOk result (λ tried. IsPageTry (C.count cells.now) (C.seen pass.old) (a_scan request.now) tried (C.seen pass.new)) }
    ensures err { IfErr result (λ why. GivesUp (C.count cells.now) (C.seen pass.old) why (C.seen pass.new)) }
    ensures told { AreTold (reverse (C.seen pass.new).front) looks.new }
    ensures fits { C.fits cells.now pass.new }
{
    page(cells, pass, looks, Asked::Scan(request))
}

/// Reads the rows of one partition key of a table or of an index, page by page (API Reference: Query). It is refused by an own
/// Look where no table has the name, where the index is not there, where what is asked of a global index is not kept there or
/// can't be, where the key condition is none, where the filter names the key, and where the start key is none of the partition.
pub fn query<C: Asks>(
    cells: &C,
    pass: &mut C::Pass,
    looks: &mut Looks,
    request: &Query,
) -> Result<Tried, StepError>
    requires fits { C.fits cells.now pass.old }
    requires told { AreTold (reverse (C.seen pass.old).front) looks.old }
    ensures ok { IfOk result (λ tried. IsPageTry (C.count cells.now) (C.seen pass.old) (a_query request.now) tried (C.seen pass.new)) }
    ensures err { IfErr result (λ why. GivesUp (C.count cells.now) (C.seen pass.old) why (C.seen pass.new)) }
    ensures told { AreTold (reverse (C.seen pass.new).front) looks.new }
    ensures fits { C.fits cells.now pass.new }
{
    page(cells, pass, looks, Asked::Query(request))
}
