// The listener and its shares.
ghost use Rattle.std.specs.Prelude.{◌≡◌, ◌≤◌, None};
ghost use Rattle.ddb_outside.specs.Causes.{Rose};
ghost use Rattle.ddb_outside.specs.Listeners.{HangsUp};

use crate::interfaces::{Interfaces, listen, port_of};
use crate::load::Load;
use crate::sink::SocketSink;
use crate::source::SocketSource;
use crate::waiting_room::{WaitingRoom, wait_a_moment};
use ddb_outside::{Failed, Joined, Listener, Sink};
use std::alloc::Global;
use std::io;
use std::net::{Net, TcpListener};
use std::rt::Clock;
use std::sync::Arc;

/// Connections of the system's TCP sockets, which wait without a thread each. It tells nothing of them, and `accept` never
/// says that none will come any more.
///
/// `bind` fails where another socket listens at the port, or where the machine has none of the addresses; port 0 is any free
/// one. `accept` is for shares, as the listener itself has no waiting room; it fails only where the system no longer
/// tells what happens. Where there are no descriptors for a newcomer it goes on with those that wait, and tries again.
#[derive(Drop)]
pub struct SocketListener<R> {
    alloc: Global,
    net: R,
    interfaces: Interfaces,
    listening: Vec<TcpListener>,
    // A share's waiting room, but while a connection is served, which has it meanwhile.
    room: Option<WaitingRoom>,
    // What is counted of all shares, once it is bound.
    load: Option<Arc<Load>>,
    faults: u64,
}

impl<R> SocketListener<R> {
    /// A listener that is not bound yet.
    pub fn new(alloc: Global, net: R, interfaces: Interfaces) -> SocketListener<R> {
        SocketListener {
            alloc,
            net,
            interfaces,
            listening: Vec::new(alloc),
            room: None,
            load: None,
            faults: 0,
        }
    }

    /// The port at which it listens, or None where it does not.
    pub fn port(&self) -> Option<u16> {
        port_of(self.listening.first())
    }

    // Counts a fault.
    fn fault(&mut self) -> Failed
        ensures rises { Rose self.old.faults self.new.faults }
        ensures later { self.old.faults ≤ self.new.faults }
    {
        self.faults = self.faults.saturating_add(1);
        Failed
    }
}

impl<R: Net + Copy> SocketListener<R> {
    // Counts a fault of `accept`, after a pause.
    fn fault_of_accept(&mut self) -> Failed
        ensures rises { Rose self.old.faults self.new.faults }
        ensures later { self.old.faults ≤ self.new.faults }
    {
        let _ = wait_a_moment(self.alloc, &self.net);
        self.fault()
    }

    // Listens at a port.
    fn listen(&mut self, port: u16) -> io::Result<()>
        ensures { self.new.faults ≡ self.old.faults }
    {
        let load = Arc::new(self.alloc, Load::new())?;
        self.listening = listen(self.alloc, &self.net, self.interfaces, port)?;
        self.load = Some(load);
        Ok(())
    }

    // The waiting room of a further share.
    fn open_room(&self) -> io::Result<WaitingRoom> {
        let load = match &self.load {
            Some(load) => load.clone()?,
            None => Arc::new(self.alloc, Load::new())?,
        };
        WaitingRoom::open(self.alloc, &self.net, &self.listening, load)
    }
}

impl<R: Net + Clock + Copy + Drop + Send> Listener for SocketListener<R> {
    type S = SocketSource<R>;

    type K = SocketSink<R>;

    ghost connections = { λ l. None };

    ghost faults = { λ l. l.faults };

    // No call says that no connection will come any more.
    ghost ends = { λ l. 0 };

    fn bind(&mut self, port: u16) -> Result<(), Failed> {
        match self.listen(port) {
            Ok(()) => Ok(()),
            Err(_) => Err(self.fault()),
        }
    }

    fn share(&mut self) -> Result<SocketListener<R>, Failed> {
        match self.open_room() {
            Ok(room) => Ok(SocketListener {
                alloc: self.alloc,
                net: self.net,
                interfaces: self.interfaces,
                listening: Vec::new(self.alloc),
                room: Some(room),
                load: None,
                faults: 0,
            }),
            Err(_) => Err(self.fault()),
        }
    }

    fn accept(&mut self) -> Result<Option<Joined<SocketSource<R>, SocketSink<R>>>, Failed> {
        let Some(mut room) = self.room.take() else {
            return Err(self.fault_of_accept());
        };
        match room.next() {
            Ok(caller) => Ok(Some(SocketSource::join(room, caller, self.net))),
            Err(_) => {
                self.room = Some(room);
                Err(self.fault_of_accept())
            }
        }
    }

    fn hang_up(&mut self, joined: Joined<SocketSource<R>, SocketSink<R>>)
        ensures hung { HangsUp None None (⟦<SocketSink<R> as Sink>⟧.written joined.sink) }
        ensures faults { self.old.faults ≤ self.new.faults }
        ensures ends { 0 ≤ 0 }
    {
        let Joined { source, sink } = joined;
        drop(sink);
        self.room = Some(source.leave());
    }

    fn absorb(&mut self, share: SocketListener<R>) {
        if let Some(room) = &share.room {
            room.close();
        }
        if 0 < share.faults {
            let _ = self.fault();
        }
    }
}
