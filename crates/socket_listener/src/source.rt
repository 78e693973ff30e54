// Where the bytes of a connection come from.
ghost use Rattle.std.specs.Prelude.{◌≡◌, None};
ghost use Rattle.std.specs.Io.{ReadsAtMost};

use crate::connection::{Socket, finish, read, read_within};
use crate::patience::Patience;
use crate::places::Caller;
use crate::sink::SocketSink;
use crate::turn::{Known, Step, TURN, next_step};
use crate::waiting_room::{Seen, WaitingRoom};
use ddb_outside::{Failed, Joined, Source};
use std::io;
use std::io::ErrorKind;
use std::rt::Clock;

// How long, in seconds, a client may keep others waiting inside one message.
const STALL: u64 = 10;

/// What the client of a connection sends. Where the connection rests and others wait it tells its end: when it has nothing
/// more to read, and after eight messages. The listener then goes on with it later. Inside a message it waits for its client, but
/// a client that has kept others waiting for 10 seconds in all inside one message is a fault, as is each error of the system but
/// a signal.
///
/// It holds its share's waiting room while it is served, so nothing is shared with others and nothing locked.
#[derive(Drop)]
pub struct SocketSource<R> {
    room: WaitingRoom,
    place: usize,
    socket: Socket,
    // Whether there may be something to read, and whether the client will send no more.
    seen: Seen,
    // Whether the connection is between two messages, and how many it has sent since it was accepted.
    resting: bool,
    messages: u32,
    // What is left of a client's time for the message that it is sending.
    patience: Patience<R>,
    // Whether it has told its end so that others are served.
    gave_way: bool,
    faults: u64,
}

impl<R: Copy> SocketSource<R> {
    // What the client sends who is to be served, and where its replies go.
    pub(crate) fn join(
        room: WaitingRoom,
        caller: Caller,
        clock: R,
    ) -> Joined<SocketSource<R>, SocketSink<R>> {
        let Caller {
            place,
            source,
            sink,
            closing,
        } = caller;
        Joined {
            source: SocketSource {
                room,
                place,
                socket: source,
                seen: Seen {
                    readable: true,
                    closing,
                },
                resting: true,
                messages: 0,
                patience: Patience::new(clock, STALL),
                gave_way: false,
                faults: 0,
            },
            sink: SocketSink::new(sink, clock),
        }
    }
}

impl<R: Drop> SocketSource<R> {
    // The waiting room, in which the connection waits again where it gave way, and from which it is gone else.
    pub(crate) fn leave(self) -> WaitingRoom {
        let SocketSource {
            mut room,
            place,
            socket,
            seen,
            gave_way,
            resting: _,
            messages: _,
            patience: _,
            faults: _,
        } = self;
        if !gave_way {
            finish(&socket);
            room.remove(place);
        } else if room.take_back(place, socket, seen).is_err() {
            room.remove(place);
        }
        room
    }
}

impl<R> SocketSource<R> {
    // Takes in what has happened, after a wait for it where that is asked for.
    fn look(&mut self, wait: bool) -> io::Result<()>
        ensures { self.new.faults ≡ self.old.faults }
    {
        let seen = self.room.look(Some(self.place), wait)?;
        self.seen.readable = self.seen.readable || seen.readable;
        self.seen.closing = self.seen.closing || seen.closing;
        Ok(())
    }

    // What to do next. After a turn it is seen whether others wait, and where nobody does a new turn begins.
    fn step(&mut self) -> io::Result<Step>
        ensures { self.new.faults ≡ self.old.faults }
    {
        if self.resting && TURN <= self.messages && !self.room.has_others() {
            self.look(false)?;
            if self.room.is_quiet() {
                self.messages = 0;
            }
        }
        Ok(next_step(Known {
            resting: self.resting,
            readable: self.seen.readable,
            others: self.room.has_others(),
            messages: self.messages,
        }))
    }

    // Notes what a read into a buffer of this length gave. A read that filled it may have left something, and the end of
    // what a client sends is told once, so it is read on to the end.
    fn note_read(&mut self, count: usize, room: usize)
        ensures { self.new.faults ≡ self.old.faults }
    {
        self.resting = false;
        self.seen.readable = self.seen.closing || count == room || count == 0;
    }
}

impl<R: Clock> SocketSource<R> {
    // Reads what comes of a message for which others wait, for as long as the client has time for it.
    fn hurry(&mut self, buf: &mut [u8]) -> io::Result<usize>
        ensures bound { ReadsAtMost result buf.new }
        ensures faults { self.new.faults ≡ self.old.faults }
    {
        let left = self.patience.left()?;
        let begun = self.patience.begin()?;
        let got = read_within(&self.socket, buf, left);
        self.patience.end(begun)?;
        got
    }

    // Reads what comes next, or answers 0 at the end and where others go first.
    fn take(&mut self, buf: &mut [u8]) -> io::Result<usize>
        ensures bound { ReadsAtMost result buf.new }
        ensures faults { self.new.faults ≡ self.old.faults }
    {
        for _ in 0..u64::MAX {
            let step = self.step()?;
            let got = match step {
                Step::GiveWay => {
                    self.gave_way = true;
                    return Ok(0);
                }
                Step::Read => read(&self.socket, buf),
                Step::Hurry => self.hurry(buf),
                Step::Wait => {
                    self.look(true)?;
                    continue;
                }
            };
            match got {
                Ok(count) => {
                    self.note_read(count, buf.len());
                    return Ok(count);
                }
                Err(error) if error.kind() == ErrorKind::Interrupted => {}
                Err(error) if error.kind() == ErrorKind::WouldBlock && step == Step::Read => {
                    self.seen.readable = false;
                }
                Err(error) => return Err(error),
            }
        }
        Err(io::Error::from(ErrorKind::TimedOut))
    }
}

impl<R: Clock> Source for SocketSource<R> {
    ghost left = { λ s. None };

    ghost faults = { λ s. s.faults };

    fn read(&mut self, buf: &mut [u8]) -> Result<usize, Failed> {
        if self.gave_way || buf.is_empty() {
            return Ok(0);
        }
        match self.take(buf) {
            Ok(count) => Ok(count),
            Err(_) => {
                self.faults = self.faults.saturating_add(1);
                Err(Failed)
            }
        }
    }

    fn at_rest(&mut self) {
        if !self.resting {
            self.resting = true;
            self.patience.renew();
            self.messages = self.messages.saturating_add(1);
        }
    }
}
