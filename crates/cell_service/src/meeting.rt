//! How sessions and helpers meet when all is served.

ghost use Rattle.std.specs.Prelude.{map};
ghost use Rattle.std.specs.List.{AllByRecursion, AllZip};
ghost use Rattle.turnstile.specs.Histories.{IsBeginning};
ghost use Rattle.cluster.specs.Events.{pass_of};
ghost use Rattle.cluster.specs.Steps.{IsAtRest};
ghost use Rattle.pass_sessions.specs.Meetings.{SeesMore};
ghost use Rattle.cell_helpers.specs.Passes.{pass_in};

use crate::session::Session;
use cell_helpers::Helper;
use table_cells::TableCells;

/// Lets a session meet others in their order: in the end it has seen all that they have.
pub(crate) fn meet_sessions(cells: &TableCells, one: &mut Session, others: &mut [Session])
    requires one { IsAtRest cells.now.cluster one.old }
    requires others { AllByRecursion (IsAtRest cells.now.cluster) others.old }
    ensures one { SeesMore pass_of one.old one.new }
    ensures others { AllZip (SeesMore pass_of) others.old others.new }
    ensures seen { AllByRecursion (λ p. IsBeginning p.front one.new.front) others.new }
{
    let Some((other, rest)) = others.split_first_mut() else {
        return;
    };
    one.meet(cells, other);
    meet_sessions(cells, one, rest);
}

/// Lets a session meet helpers in their order: in the end it has seen all that they have.
pub(crate) fn meet_helpers(cells: &TableCells, one: &mut Session, helpers: &mut [Helper])
    requires one { IsAtRest cells.now.cluster one.old }
    requires helpers { AllByRecursion (λ h. IsAtRest cells.now.cluster (pass_in h)) helpers.old }
    ensures one { SeesMore pass_of one.old one.new }
    ensures helpers { AllZip (SeesMore pass_of) (map pass_in helpers.old) (map pass_in helpers.new) }
    ensures seen { AllByRecursion (λ h. IsBeginning (pass_in h).front one.new.front) helpers.new }
{
    let Some((helper, rest)) = helpers.split_first_mut() else {
        return;
    };
    one.meet_helper(cells, helper);
    meet_helpers(cells, one, rest);
}
