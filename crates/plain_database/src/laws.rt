//! Why each row of every table stands at its item's key. The law is the contract of a function that does nothing.

ghost use Rattle.std.specs.Prelude.{ℕ};
ghost use Rattle.table_request.specs.declared.request.Request.{Request};
ghost use Rattle.table_model.specs.declared.reply.Reply.{Reply};
ghost use Rattle.table_model.specs.Database.{Database};
ghost use Rattle.table_model.specs.Effect.{IsEffect};
ghost use Rattle.plain_database.specs.Keyed.{HasRowsAtKeys};

/// Where every row stands at its item's key, so it is after every request.
#[tactic(auto, using(crate::proofs::Requests::stays_keyed))]
pub fn rows_stay_at_their_keys()
    ensures { (db : Database) (request : Request) (moment : ℕ) (new : Database) (reply : Reply)
        → HasRowsAtKeys db → IsEffect db request moment new reply → HasRowsAtKeys new }
{}
