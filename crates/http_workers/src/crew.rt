//! What a service says of the threads that help it.

ghost use Rattle.std.specs.Prelude.{◌≡◌};

use http_session::Service;
use std::alloc::Global;

/// A service with helpers, which run beside the workers that serve its connections, each in a thread of its own.
///
/// A helper may wait for what the workers' sessions hand to it. Serving ends with its last thread, so a helper has to end once
/// every worker's state was brought to rest and nothing will be handed to it any more. It may not wait for another helper, nor a
/// session for a helper.
pub trait Crew<R>: Service<R> {
    /// What a helper works with and keeps.
    type Helper;

    // The helpers that may help the service.
    ghost suits: { Self → Self.Helper → Type 0 };

    // What a helper has become by helping the service.
    ghost helps: { Self → Self.Helper → Self.Helper → Type 0 };

    /// Does all that a helper does while connections are served.
    fn help(&self, rt: &R, alloc: Global, helper: &mut Self::Helper)
        requires { suits self.now helper.old }
        ensures { helps self.now helper.old helper.new };

    /// Brings a state to rest whose worker serves no connection any more, before that worker's thread ends: what helpers wait
    /// on, as the sending half of a channel, is let go of here.
    fn rest(&self, state: &mut Self::State)
        requires { Self.fits self.now state.old }
        ensures { state.new ≡ state.old };
}
