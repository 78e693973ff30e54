//! The answer to a message, by as many tries as it takes.

ghost use Rattle.std.specs.Prelude.{List, reverse};
ghost use Rattle.table_history.specs.Entries.{TableEvent};
ghost use Rattle.http_front.specs.Replies.{IsReplyStatus};
ghost use Rattle.cell_asks.specs.Told.{AreTold};
ghost use Rattle.table_service.specs.Telling.{told};
ghost use Rattle.cell_service.specs.Right.{Answers};

use crate::hinting::follow;
use crate::patience::Patience;
use crate::serving::{Served, Shared, serve_message};
use cell_asks::Looks;
use cell_helpers::Hints;
use http_front::Message;
use http_session::Answer;
use std::sync::Wait;
use transact_asks::Transacts;

/// Answers a message at the moment of the pass. It is tried again as long as a table was gone that was known; each try looks at
/// what the one before it let go of. A single write that finds its item held is tried again while there is patience, since the
/// transaction that holds it is likely to end within microseconds.
pub(crate) fn answer<R: Wait, C: Transacts>(
    rt: &R,
    shared: &Shared,
    cells: &C,
    pass: &mut C::Pass,
    looks: &mut Looks,
    hints: &Option<Hints>,
    message: &Message,
) -> Answer
    requires fits { C.fits cells.now pass.old }
    requires told { AreTold (reverse (C.seen pass.old).front) looks.old }
    ensures status { IsReplyStatus result.status }
    ensures answered { (own : List TableEvent) × Answers (C.count cells.now) (C.seen pass.old) own message.now (told result) (C.seen pass.new) }
    ensures told { AreTold (reverse (C.seen pass.new).front) looks.new }
    ensures fits { C.fits cells.now pass.new }
{
    let mut patience = Patience::new();
    for _ in rt.forever() {
        let more = patience.is_left();
        let Served { answer, hint } = serve_message(rt, shared, cells, pass, looks, message, more);
        follow(rt, hints, hint, cells.moment(pass));
        match answer {
            Some(answer) => return answer,
            None => patience.wait(rt),
        }
    }
    unreachable!()
}
