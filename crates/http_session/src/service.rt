//! What answers messages.

ghost use Rattle.std.specs.Prelude.{◌≡◌, IsTrue, IsFalse};
ghost use Rattle.http_front.specs.Replies.{IsReplyStatus};
ghost use Rattle.http_session.specs.Answers.{text_of};
ghost use Rattle.http_session.specs.Exchanges.{Ways};

use crate::answer::Answer;
use http_front::Message;
use std::alloc::Global;

/// What answers messages, each in one step of a state. The state is kept beside the service, so that many sessions, each with
/// a state of its own, may share one service. `R` is what a service needs of the runtime.
pub trait Service<R> {
    /// What a session goes on with from message to message: a database, or a place in a history.
    type State;

    // The states that the service can go on with.
    ghost fits: { Self → Self.State → Type 0 };

    // What the service may do to a state.
    ghost ways: { Ways Self.State };

    /// Asks for leave to take a message. Where the answer is false the state stays, and no message is taken any more.
    fn begin(&self, state: &mut Self::State) -> bool
        requires { fits self.now state.old }
        ensures begun { IsTrue result → ways.begins state.old state.new }
        ensures stopped { IsFalse result → ways.stops state.old }
        ensures same { IsFalse result → state.new ≡ state.old }
        ensures fits { fits self.now state.new };

    /// Answers a message at a moment in microseconds. Where memory is refused it says so by an answer.
    fn answer(
        &self,
        rt: &R,
        alloc: Global,
        state: &mut Self::State,
        message: &Message,
        moment: u64,
    ) -> Answer
        requires { fits self.now state.old }
        ensures status { IsReplyStatus result.status }
        ensures step { ways.steps state.old message.now moment result.status (text_of result.body) state.new }
        ensures fits { fits self.now state.new };
}
