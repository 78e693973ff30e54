//! A listener that says on standard error where it listens, and what of it fails.

ghost use Rattle.std.specs.Prelude.{◌≡◌, ◌≤◌};
ghost use Rattle.ddb_outside.specs.Listeners.{HangsUp, HasOut};

use ddb_outside::{Failed, Joined, Listener, Sink};
use socket_listener::Interfaces;

/// A listener, and where its calls say what came of them.
#[derive(Drop)]
pub struct Announced<L> {
    rt: HostRuntime,
    listener: L,
    interfaces: Interfaces,
}

impl<L> Announced<L> {
    /// Announces what the listener binds.
    pub fn new(rt: HostRuntime, listener: L, interfaces: Interfaces) -> Announced<L>
        ensures { result.listener ≡ listener }
    {
        Announced {
            rt,
            listener,
            interfaces,
        }
    }

    // A line on what failed. Where standard error fails too, the exit status alone tells.
    fn complain(&self, what: &str) {
        let rt = self.rt;
        drop(eprintln!(rt; "ddb_server: {what}"));
    }

    // One line on what came of binding the port. Where standard error fails, the exit status alone tells.
    fn announce(&self, port: u16, is_bound: bool) {
        let rt = self.rt;
        let where_to = match self.interfaces {
            Interfaces::Loopback => "on this machine alone",
            Interfaces::All => "on all interfaces, to whoever reaches them",
        };
        drop(if is_bound {
            eprintln!(rt;
                "ddb_server: listening at http://localhost:{port}, {where_to}; \
                boto3: endpoint_url='http://localhost:{port}'; aws dynamodb: --endpoint-url http://localhost:{port}"
            )
        } else {
            eprintln!(rt; "ddb_server: port {port} could not be listened at; is it in use?")
        });
    }
}

impl<L: Listener> Listener for Announced<L> {
    type S = L::S;

    type K = L::K;

    ghost connections = { λ a. L.connections a.listener };

    ghost faults = { λ a. L.faults a.listener };

    ghost ends = { λ a. L.ends a.listener };

    fn bind(&mut self, port: u16) -> Result<(), Failed> {
        let bound = self.listener.bind(port);
        self.announce(port, bound.is_ok());
        bound
    }

    fn share(&mut self) -> Result<Announced<L>, Failed> {
        match self.listener.share() {
            Ok(listener) => Ok(Announced::new(self.rt, listener, self.interfaces)),
            Err(Failed) => {
                self.complain(
                    "the port could not be shared with a worker; are too many files open?",
                );
                Err(Failed)
            }
        }
    }

    fn accept(&mut self) -> Result<Option<Joined<L::S, L::K>>, Failed> {
        let accepted = self.listener.accept();
        if accepted.is_err() {
            self.complain("a connection could not be accepted; are too many files open?");
        }
        accepted
    }

    fn hang_up(&mut self, joined: Joined<L::S, L::K>)
        requires out { HasOut (L.connections self.old.listener) }
        ensures hung { HangsUp (L.connections self.old.listener) (L.connections self.new.listener) (L.K.written joined.sink) }
        ensures faults { L.faults self.old.listener ≤ L.faults self.new.listener }
        ensures ends { L.ends self.old.listener ≤ L.ends self.new.listener }
    {
        self.listener.hang_up(joined);
    }

    fn absorb(&mut self, share: Announced<L>) {
        self.listener.absorb(share.listener);
    }
}
