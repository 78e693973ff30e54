// Where the connections of a share wait, and where newcomers are let in.

use crate::connection::{Socket, prepare};
use crate::load::Load;
use crate::places::{Caller, Places};
use crate::turn::{Pause, how_long};
use mio::unix::SourceFd;
use mio::{Events, Interest, Poll, Token};
use std::alloc::Global;
use std::io;
use std::io::ErrorKind;
use std::net::{Net, TcpListener, TcpStream};
use std::os::fd::AsRawFd;
use std::sync::Arc;
use std::time::Duration;

// What a knock at a door is called; an event of a connection is called by its place.
const KNOCK: usize = usize::MAX;

// How many events are taken in at once.
const EVENTS: usize = 64;

// How many newcomers are let in at once at a door, so that they hold nobody up.
const NEWCOMERS: u32 = 4;

// How many looks a share that has more connections than its part leaves a newcomer to the others. It lets one in at the
// latest then, since the others may be busy with something that takes long.
const COURTESY: u32 = 64;

// How long, in milliseconds, a share with nothing else to do leaves a newcomer to the others.
const LEFT: u64 = 1;

// How long to wait, in milliseconds, where a newcomer was refused.
const REFUSED: u64 = 200;

// What was seen of the connection that is served.
#[derive(Clone, Copy, Debug)]
pub(crate) struct Seen {
    pub(crate) readable: bool,
    // Whether its client will send no more than has come.
    pub(crate) closing: bool,
}

// The waiting room of a share.
#[derive(Drop)]
pub(crate) struct WaitingRoom {
    alloc: Global,
    poll: Poll,
    events: Events,
    doors: Vec<TcpListener>,
    // Whether somebody may stand at a door.
    knocked: bool,
    // For how many looks more that one is left to shares with fewer connections.
    courtesy: u32,
    // How many connections are served before it is seen again what has happened.
    round: usize,
    places: Places,
}

impl WaitingRoom {
    // A room with doors of its own to the same ports.
    pub(crate) fn open(
        alloc: Global,
        net: &impl Net,
        listening: &[TcpListener],
        load: Arc<Load>,
    ) -> io::Result<WaitingRoom> {
        let poll = Poll::new(net)?;
        let mut doors = Vec::with_capacity(alloc, listening.len())?;
        for listener in listening {
            let door = listener.try_clone()?;
            watch(&poll, &door, KNOCK)?;
            doors.push(door)?;
        }
        Ok(WaitingRoom {
            alloc,
            poll,
            events: Events::with_capacity(alloc, EVENTS)?,
            doors,
            knocked: true,
            courtesy: COURTESY,
            round: 0,
            places: Places::new(alloc, load),
        })
    }

    // Whether a connection waits that has something to read.
    pub(crate) fn has_others(&self) -> bool {
        self.places.has_called()
    }

    // The share is gone.
    pub(crate) fn close(&self) {
        self.places.close();
    }

    // Whether nobody waits, nor stands at a door.
    pub(crate) fn is_quiet(&self) -> bool {
        !self.knocked && !self.places.has_called()
    }

    // Takes in what has happened, after a wait for it where that is asked for and nobody waits. Those that have knocked are
    // let in, and may have something to say already. What was seen of the connection at `served`.
    pub(crate) fn look(&mut self, served: Option<usize>, wait: bool) -> io::Result<Seen> {
        let seen = self.take_in(served, wait)?;
        if !self.knocked || self.leaves_newcomers() {
            return Ok(seen);
        }
        let more = self.take_in(served, false)?;
        Ok(Seen {
            readable: seen.readable || more.readable,
            closing: seen.closing || more.closing,
        })
    }

    // Lets newcomers in, and takes in what has happened.
    fn take_in(&mut self, served: Option<usize>, wait: bool) -> io::Result<Seen> {
        let refused = self.let_in();
        let left = self.leaves_newcomers();
        let pause = how_long(!wait || self.has_others(), refused, left);
        self.poll.poll(&mut self.events, duration(pause))?;
        if left {
            self.spend_courtesy(pause);
        }
        let mut seen = Seen {
            readable: false,
            closing: false,
        };
        for event in self.events.iter() {
            let Token(place) = event.token();
            let closing = event.is_read_closed() || event.is_error();
            if place == KNOCK {
                self.knocked = true;
            } else if served == Some(place) {
                seen.readable = true;
                seen.closing = seen.closing || closing;
            } else {
                self.places.call(place, closing)?;
            }
        }
        Ok(seen)
    }

    // Waits for the next connection that has something to read. Those that had at the last look come first, each once.
    pub(crate) fn next(&mut self) -> io::Result<Caller> {
        for _ in 0..u64::MAX {
            if self.round == 0 {
                self.look(None, true)?;
                self.round = self.places.count_called();
            }
            self.round = self.round.saturating_sub(1);
            if let Some(caller) = self.places.next_caller() {
                return Ok(caller);
            }
        }
        Err(io::Error::from(ErrorKind::TimedOut))
    }

    // Whether somebody may stand at a door who is left to shares with fewer connections.
    fn leaves_newcomers(&self) -> bool {
        self.knocked && 0 < self.courtesy && self.places.are_above_part()
    }

    // Takes a look off for which a newcomer was left to others, and all where a pause for them went by without an event.
    fn spend_courtesy(&mut self, pause: Pause) {
        self.courtesy = if pause == Pause::Brief && self.events.is_empty() {
            0
        } else {
            self.courtesy.saturating_sub(1)
        };
    }

    // Lets those in who stand at the doors. Whether one was refused for want of something that may come back.
    fn let_in(&mut self) -> bool {
        if !self.knocked || self.leaves_newcomers() {
            return false;
        }
        self.knocked = false;
        self.courtesy = COURTESY;
        let mut refused = false;
        for door in 0..self.doors.len() {
            match self.let_in_at(door) {
                AtDoor::Nobody => {}
                AtDoor::Others => self.knocked = true,
                AtDoor::Refused => {
                    self.knocked = true;
                    refused = true;
                }
            }
        }
        refused
    }

    // Lets those in who stand at one door, until the share has more connections than its part.
    fn let_in_at(&mut self, door: usize) -> AtDoor {
        let Some(listener) = self.doors.get(door) else {
            return AtDoor::Nobody;
        };
        for _ in 0..NEWCOMERS {
            match listener.accept() {
                Ok((stream, _)) => {
                    // One for whom there is no memory is turned away.
                    let _ = admit(self.alloc, &self.poll, &mut self.places, stream);
                    if self.places.are_above_part() {
                        break;
                    }
                }
                Err(error) => match error.kind() {
                    ErrorKind::WouldBlock => return AtDoor::Nobody,
                    ErrorKind::Interrupted | ErrorKind::ConnectionAborted => {}
                    _ => return AtDoor::Refused,
                },
            }
        }
        AtDoor::Others
    }

    // Lets a connection that gave way wait at its place. One that has something to read is called again at once.
    pub(crate) fn take_back(&mut self, place: usize, socket: Socket, seen: Seen) -> io::Result<()> {
        self.places.park(place, socket);
        if seen.readable || seen.closing {
            self.places.call(place, seen.closing)?;
        }
        Ok(())
    }

    // Gives up the place of a connection that is closed.
    pub(crate) fn remove(&mut self, place: usize) {
        self.places.remove(place);
    }
}

// Who stands at a door.
enum AtDoor {
    Nobody,
    // Perhaps somebody.
    Others,
    // Somebody whom the system refused.
    Refused,
}

// Lets a newcomer wait until it has something to read.
fn admit(alloc: Global, poll: &Poll, places: &mut Places, stream: TcpStream) -> io::Result<()> {
    let socket = prepare(alloc, stream)?;
    let place = places.add()?;
    match watch(poll, &socket, place) {
        Ok(()) => {
            places.park(place, socket);
            Ok(())
        }
        Err(error) => {
            places.remove(place);
            Err(error)
        }
    }
}

// Has a socket reported, under this name, where there is something to read or to accept.
fn watch(poll: &Poll, socket: &impl AsRawFd, name: usize) -> io::Result<()> {
    let descriptor = socket.as_raw_fd();
    poll.registry().register(&mut SourceFd(&descriptor), Token(name), Interest::READABLE)
}

// Waits a moment, so that a failure that lasts is not met again at once.
pub(crate) fn wait_a_moment(alloc: Global, net: &impl Net) -> io::Result<()> {
    let mut events = Events::with_capacity(alloc, 1)?;
    Poll::new(net)?.poll(&mut events, duration(Pause::Short))
}

fn duration(pause: Pause) -> Option<Duration> {
    match pause {
        Pause::Skip => Some(Duration::ZERO),
        Pause::Short => Some(Duration::from_millis(REFUSED)),
        Pause::Brief => Some(Duration::from_millis(LEFT)),
        Pause::Long => None,
    }
}
