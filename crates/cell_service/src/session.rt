//! What a session goes on with from message to message.

ghost use Rattle.std.specs.Prelude.{◌≡◌, IsTrue, IsFalse};
ghost use Rattle.http_front.specs.Replies.{IsReplyStatus};
ghost use Rattle.http_session.specs.Answers.{text_of};
ghost use Rattle.cluster.specs.Events.{pass_of};
ghost use Rattle.cluster.specs.Steps.{IsAtRest, partitions_of};
ghost use Rattle.cluster.specs.World.{IsLegalLog};
ghost use Rattle.cell_model.specs.Service.{service};
ghost use Rattle.cell_helpers.specs.Passes.{pass_in};
ghost use Rattle.pass_sessions.specs.PassWays.{IsStep, UsesUnit};
ghost use Rattle.pass_sessions.specs.Meetings.{SeesMore};
ghost use Rattle.turnstile.specs.Histories.{IsBeginning};
ghost use Rattle.turnstile.specs.Passes.{most_units};
ghost use Rattle.cell_service.specs.Right.{Right};

use crate::answering::answer;
use crate::serving::Shared;
use cell_asks::Looks;
use cell_helpers::{Helper, Hints};
use http_front::Message;
use http_session::Answer;
use std::alloc::Global;
use std::marker::Model;
use std::sync::Wait;
use table_cells::{TableCells, TablePass};

/// After so many messages of a session expired items are looked for.
const EXPIRY: u32 = 64;

/// A session: its pass, what it was told by Looks, and where it tells helpers. Contracts see its pass.
#[derive(Drop)]
pub struct Session {
    pass: TablePass,
    looks: Looks,
    hints: Option<Hints>,
    /// How many messages are left until expired items are looked for.
    until_expiry: u32,
}

impl Model for Session {
    ghost use Rattle.std.specs.Prelude.{reverse};
    ghost use Rattle.turnstile.specs.Passes.{PassView};
    ghost use Rattle.table_history.specs.Entries.{TableEvent};
    ghost use Rattle.cell_asks.specs.Told.{AreTold};
    ghost use Rattle.std.specs.Coded.{codes};
    ghost use Rattle.attr_value.specs.Codes.{attributes_code};
    ghost use Rattle.cell_model.specs.ActionCodes.{action_code};

    ghost Value = { PassView TableEvent };

    ghost coded = { Prim.hlevel (codes, attributes_code, action_code) };

    ghost view = { λ session. session.pass };

    ghost invariant = { λ session. AreTold (reverse session.pass.front) session.looks };
}

impl Session {
    /// A session that was told nothing yet.
    pub(crate) fn new(alloc: Global, pass: TablePass, hints: Hints) -> Session
        ensures { result ≡ pass }
    {
        Session {
            pass,
            looks: Looks::new(alloc),
            hints: Some(hints),
            until_expiry: EXPIRY,
        }
    }

    /// Takes a unit for a message, where one is left.
    pub(crate) fn begin(&mut self) -> bool
        ensures begun { IsTrue result → UsesUnit self.old self.new }
        ensures stopped { IsFalse result → self.old.used ≡ most_units }
        ensures same { IsFalse result → self.new ≡ self.old }
    {
        self.pass.spend().is_ok()
    }

    /// Asks for a look at expired items, after each 64th message.
    fn count<R: Wait>(&mut self, rt: &R)
        ensures { self.new ≡ self.old }
    {
        if self.until_expiry > 1 {
            self.until_expiry -= 1;
            return;
        }
        self.until_expiry = EXPIRY;
        if let Some(hints) = &self.hints {
            hints.expire(rt, self.pass.moment());
        }
    }

    /// Answers a message at a moment.
    pub(crate) fn answer<R: Wait>(
        &mut self,
        rt: &R,
        alloc: Global,
        cells: &TableCells,
        shared: &Shared,
        message: &Message,
        moment: u64,
    ) -> Answer
        requires fits { IsAtRest cells.now.cluster self.old }
        ensures status { IsReplyStatus result.status }
        ensures step { IsStep pass_of Right self.old message.now moment result.status (text_of result.body) self.new }
        ensures fits { IsAtRest cells.now.cluster self.new }
    {
        self.pass.tick(moment);
        let caller = cells.caller(rt, alloc);
        let answer = answer(
            rt,
            shared,
            &caller,
            &mut self.pass,
            &mut self.looks,
            &self.hints,
            message,
        );
        self.count(rt);
        answer
    }

    /// Tells helpers nothing any more.
    pub(crate) fn rest(&mut self)
        ensures { self.new ≡ self.old }
    {
        self.hints = None;
    }

    /// Lets two sessions see what the other had seen.
    pub(crate) fn meet(&mut self, cells: &TableCells, other: &mut Session)
        requires rest { IsAtRest cells.now.cluster self.old × IsAtRest cells.now.cluster other.old }
        ensures one { SeesMore pass_of self.old self.new }
        ensures other { SeesMore pass_of other.old other.new }
        ensures seen { IsBeginning other.new.front self.new.front }
    {
        cells.meet(&mut self.pass, &mut other.pass);
    }

    /// Lets a session and a helper see what the other had seen.
    pub(crate) fn meet_helper(&mut self, cells: &TableCells, helper: &mut Helper)
        requires rest { IsAtRest cells.now.cluster self.old × IsAtRest cells.now.cluster (pass_in helper.old) }
        ensures one { SeesMore pass_of self.old self.new }
        ensures helper { SeesMore pass_of (pass_in helper.old) (pass_in helper.new) }
        ensures seen { IsBeginning (pass_in helper.new).front self.new.front }
    {
        helper.meet(cells, &mut self.pass);
    }

    /// Does nothing. It is told to a caller's proof that what the session has seen is legal.
    pub(crate) fn facts(&self, cells: &TableCells)
        requires rest { IsAtRest cells.now.cluster self.now }
        ensures legal { IsLegalLog (service (partitions_of cells.now.cluster)) self.now.front }
    {
        cells.facts(&self.pass);
    }
}
