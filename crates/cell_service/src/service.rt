//! The service of tables in cells.

ghost use Rattle.std.specs.Prelude.{◌≡◌, ◌≤◌, ◌+◌, All, map, IfOk};
ghost use Rattle.std.specs.List.{AllZip};
ghost use Rattle.cluster.specs.Events.{pass_of};
ghost use Rattle.cluster.specs.Steps.{IsAtRest, partitions_of};
ghost use Rattle.pass_sessions.specs.Meetings.{SeesMore};
ghost use Rattle.cell_service.specs.Histories.{HaveMet, passes_beside};
ghost use Rattle.turnstile.specs.Passes.{first_passes};
ghost use Rattle.cell_helpers.specs.Passes.{pass_in};

use crate::meeting::{meet_helpers, meet_sessions};
use crate::serving::Shared;
use crate::session::Session;
use base_types::Seq;
use cell_helpers::{Helper, Hints, make_helpers};
use http_front::Message;
use http_session::{Answer, Service};
use http_workers::Crew;
use std::alloc::{AllocError as NoMemory, Global};
use std::marker::Model;
use std::sync::Wait;
use table_cells::{TableCells, TablePass};

/// Answers the messages of many sessions out of tables in cells, with a feeder and a recovery worker beside them.
#[derive(Drop)]
pub struct CellService {
    cells: TableCells,
    shared: Shared,
}

impl Model for CellService {
    ghost use Rattle.turnstile.specs.Passes.{TurnstileView};

    ghost Value = { TurnstileView };

    ghost view = { λ service. service.cells.cluster };
}

/// A session for each pass.
fn sessions_of(
    alloc: Global,
    passes: Seq<TablePass>,
    hints: &Hints,
) -> Result<Seq<Session>, NoMemory>
    ensures { IfOk result (λ sessions. sessions ≡ passes) }
{
    let mut sessions = Seq::with_capacity(alloc, passes.len())?;
    for pass in Vec::from(passes) {
        sessions.push(Session::new(alloc, pass, hints.clone()?))?;
    }
    Ok(sessions)
}

impl CellService {
    /// No table yet, 1 to 64 partitions, and 1 to 62 sessions with the two helpers.
    pub fn make(
        alloc: Global,
        partitions: u32,
        workers: u32,
    ) -> Result<(CellService, Seq<Session>, Seq<Helper>), NoMemory>
        requires partitions { (1 ≤ partitions) × (partitions ≤ 64) }
        requires workers { (1 ≤ workers) × (workers ≤ 62) }
        ensures cells { IfOk result (λ made. partitions_of made.0 ≡ partitions) }
        ensures sessions { IfOk result (λ made. made.1 ≡ first_passes made.0.id (workers + 2) workers) }
        ensures beside { IfOk result (λ made. map pass_in made.2 ≡ passes_beside made.0 workers) }
        ensures rest { IfOk result (λ made. All (IsAtRest made.0) made.1) }
        ensures helpers { IfOk result (λ made. All (λ h. IsAtRest made.0 (pass_in h)) made.2) }
    {
        let (cells, mut passes) = TableCells::make(alloc, partitions, workers + 2)?;
        let Some(recovery) = passes.pop() else {
            unreachable!()
        };
        let Some(feeder) = passes.pop() else {
            unreachable!()
        };
        let (hints, helpers) = make_helpers(alloc, feeder, recovery)?;
        let sessions = sessions_of(alloc, passes, &hints)?;
        let service = CellService {
            cells,
            shared: Shared::new(),
        };
        Ok((service, sessions, helpers))
    }

    /// Lets the first session meet the others and then the helpers: in the end it has seen all that any of them had seen, which is
    /// one legal history.
    pub fn meet_all(&self, sessions: &mut [Session], helpers: &mut [Helper])
        requires sessions { All (IsAtRest self.now) sessions.old }
        requires helpers { All (λ h. IsAtRest self.now (pass_in h)) helpers.old }
        ensures sessions { AllZip (SeesMore pass_of) sessions.old sessions.new }
        ensures helpers { AllZip (SeesMore pass_of) (map pass_in helpers.old) (map pass_in helpers.new) }
        ensures met { HaveMet (partitions_of self.now) sessions.new (map pass_in helpers.new) }
    {
        let Some((first, others)) = sessions.split_first_mut() else {
            return;
        };
        meet_sessions(&self.cells, first, others);
        meet_helpers(&self.cells, first, helpers);
        first.facts(&self.cells);
    }
}

impl<R: Wait> Service<R> for CellService {
    ghost use Rattle.cluster.specs.Events.{pass_of};
    ghost use Rattle.cluster.specs.Steps.{IsAtRest};
    ghost use Rattle.pass_sessions.specs.PassWays.{pass_ways};
    ghost use Rattle.cell_service.specs.Right.{Right};

    type State = Session;

    ghost fits = { IsAtRest };

    ghost ways = { pass_ways pass_of Right };

    fn begin(&self, session: &mut Session) -> bool {
        session.begin()
    }

    fn answer(
        &self,
        rt: &R,
        alloc: Global,
        session: &mut Session,
        message: &Message,
        moment: u64,
    ) -> Answer {
        session.answer(rt, alloc, &self.cells, &self.shared, message, moment)
    }
}

impl<R: Wait> Crew<R> for CellService {
    ghost use Rattle.cluster.specs.Steps.{IsAtRest};
    ghost use Rattle.cell_helpers.specs.Passes.{pass_in};
    ghost use Rattle.cell_helpers.specs.Upkeep.{Upkeep};

    type Helper = Helper;

    ghost suits = { λ service helper. IsAtRest service (pass_in helper) };

    ghost helps = { λ service old new. Upkeep (pass_in old) (pass_in new) };

    fn help(&self, rt: &R, alloc: Global, helper: &mut Helper) {
        helper.help(rt, alloc, &self.cells);
    }

    fn rest(&self, session: &mut Session) {
        session.rest();
    }
}
