//! Own Looks for the tables of a request.

ghost use Rattle.std.specs.Prelude.{◌≡◌, ℕ, List, [], ◌∷◌, map, reverse, Some, IfOk, IfErr};
ghost use Rattle.turnstile.specs.Passes.{PassView};
ghost use Rattle.table_history.specs.Entries.{TableEvent};
ghost use Rattle.cell_asks.specs.Told.{AreTold, WasTold};
ghost use Rattle.cell_asks.specs.Steps.{GivesUp, Stops};
ghost use Rattle.transact_calls.specs.Known.{AreKnown, AsksStill, Confirms, LookedUp, LooksOn, Notes};

use crate::parts::OfTable;
use crate::tables::{Tables, add};
use base_types::Text;
use cell_asks::{Asks, Looks, StepError};
use cell_model::TableLook;
use std::alloc::{AllocError as NoMemory, Global};
use table_model::Refusal;

/// Takes down what the own Look of a name told: the table is there, and kept; or no table has the name, and the request is
/// refused.
fn note(
    alloc: Global,
    tables: &mut Tables,
    looks: &mut Looks,
    name: &Text,
    told: Option<TableLook>,
) -> Result<Option<Refusal>, NoMemory>
    ensures notes { IfOk result (λ why. Notes name.now told tables.old.entries tables.new.entries why) }
    ensures told { (es : List TableEvent) → AreTold es looks.old
        → ((look : TableLook) → told ≡ Some look → WasTold es name.now look) → AreTold es looks.new }
{
    let name = name.try_clone()?;
    match told {
        Some(look) => {
            add(tables, alloc, &name, &look)?;
            looks.keep(alloc, name, look)?;
            Ok(None)
        }
        None => Ok(Some(Refusal::NoTable(name))),
    }
}

/// Looks for the table of a name, where it is not there yet; tells the refusal where no table has the name.
fn look_up<C: Asks>(
    cells: &C,
    pass: &mut C::Pass,
    looks: &mut Looks,
    tables: &mut Tables,
    name: &Text,
) -> Result<Option<Refusal>, StepError>
    requires fits { C.fits cells.now pass.old }
    requires told { AreTold (reverse (C.seen pass.old).front) looks.old }
    ensures ok { IfOk result (λ why. (p : PassView TableEvent) (names rest : List (List ℕ))
        → LooksOn (C.count cells.now) p names (name.now ∷ rest) tables.old.entries (C.seen pass.old)
        → LookedUp (C.count cells.now) p names rest tables.new.entries why (C.seen pass.new)) }
    ensures err { IfErr result (λ why. GivesUp (C.count cells.now) (C.seen pass.old) why (C.seen pass.new)) }
    ensures told { AreTold (reverse (C.seen pass.new).front) looks.new }
    ensures fits { C.fits cells.now pass.new }
{
    if tables.contains_key(name) {
        return Ok(None);
    }
    let asked = name.try_clone()?;
    let told = cells.look(pass, asked)?;
    Ok(note(cells.alloc(), tables, looks, name, told)?)
}

/// Looks for the tables of all parts, up to the first name that no table has, which is refused. What is told is kept.
pub(crate) fn look_up_all<C: Asks, P: OfTable>(
    cells: &C,
    pass: &mut C::Pass,
    looks: &mut Looks,
    tables: &mut Tables,
    parts: &[P],
) -> Result<Option<Refusal>, StepError>
    requires fits { C.fits cells.now pass.old }
    requires told { AreTold (reverse (C.seen pass.old).front) looks.old }
    requires none { tables.old.entries ≡ [] }
    ensures ok { IfOk result (λ why.
        LookedUp (C.count cells.now) (C.seen pass.old) (map P.table_of parts.now) [] tables.new.entries why (C.seen pass.new)) }
    ensures err { IfErr result (λ why. GivesUp (C.count cells.now) (C.seen pass.old) why (C.seen pass.new)) }
    ensures told { AreTold (reverse (C.seen pass.new).front) looks.new }
    ensures fits { C.fits cells.now pass.new }
{
    for part in parts {
        if let Some(why) = look_up(cells, pass, looks, tables, part.table())? {
            return Ok(Some(why));
        }
    }
    Ok(None)
}

/// Whether the own Look of a name tells the table of this number.
fn is_still<C: Asks>(
    cells: &C,
    pass: &mut C::Pass,
    name: &Text,
    number: u64,
) -> Result<bool, StepError>
    requires fits { C.fits cells.now pass.old }
    ensures ok { IfOk result (λ still. AsksStill (C.count cells.now) (C.seen pass.old) name.now number still (C.seen pass.new)) }
    ensures err { IfErr result (λ why. GivesUp (C.count cells.now) (C.seen pass.old) why (C.seen pass.new)) }
    ensures fits { C.fits cells.now pass.new }
{
    let asked = name.try_clone()?;
    match cells.look(pass, asked)? {
        Some(look) => Ok(look.number == number),
        None => Ok(false),
    }
}

/// Whether own Looks tell that all these tables, which were told of before, are still there.
pub(crate) fn confirm<C: Asks>(
    cells: &C,
    pass: &mut C::Pass,
    tables: &Tables,
) -> Result<bool, StepError>
    requires fits { C.fits cells.now pass.old }
    requires known { AreKnown (reverse (C.seen pass.old).front) tables.now.entries }
    ensures ok { IfOk result (λ all. Confirms (C.count cells.now) (C.seen pass.old) tables.now.entries all (C.seen pass.new)) }
    ensures err { IfErr result (λ why. GivesUp (C.count cells.now) (C.seen pass.old) why (C.seen pass.new)) }
    ensures fits { C.fits cells.now pass.new }
{
    for (name, table) in tables.iter() {
        if !is_still(cells, pass, name, table.number)? {
            return Ok(false);
        }
    }
    Ok(true)
}
