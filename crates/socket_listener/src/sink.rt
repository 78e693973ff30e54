// Where the replies of a connection go.
ghost use Rattle.std.specs.Prelude.{◌≡◌, None};
ghost use Rattle.std.specs.Io.{WritesAtMost};

use crate::connection::{Socket, write, write_within};
use crate::patience::Patience;
use ddb_outside::{Failed, Sink};
use std::io;
use std::io::ErrorKind;
use std::rt::Clock;

// How long, in seconds, a client may take over one piece of its replies.
const UNREAD: u64 = 30;

// How often a write that a signal interrupted is tried again.
const TRIES: u32 = 1_000;

/// Where the replies of a connection go. A client that has not taken a piece of them, a head or a body, after 30 seconds is a
/// fault, and so is each error of the system but a signal. It tells nothing of what was written.
#[derive(Drop)]
pub struct SocketSink<R> {
    socket: Socket,
    // What is left of a client's time for the piece that it is sent.
    patience: Patience<R>,
    faults: u64,
}

impl<R> SocketSink<R> {
    // The sink of a socket that has not failed yet.
    pub(crate) fn new(socket: Socket, clock: R) -> SocketSink<R> {
        SocketSink {
            socket,
            patience: Patience::new(clock, UNREAD),
            faults: 0,
        }
    }
}

impl<R: Clock> SocketSink<R> {
    // Notes how much of a piece of this length the client took. Its time begins again with the next piece.
    fn note_taken(&mut self, count: usize, length: usize)
        ensures { self.new.faults ≡ self.old.faults }
    {
        if count == length {
            self.patience.renew();
        }
    }

    // Writes what the client takes at once, or else what it takes in time.
    fn put(&mut self, piece: &[u8]) -> io::Result<usize>
        ensures bound { WritesAtMost result piece.now }
        ensures faults { self.new.faults ≡ self.old.faults }
    {
        match write(&self.socket, piece) {
            Err(error) if error.kind() == ErrorKind::WouldBlock => {}
            done => return done,
        }
        let left = self.patience.left()?;
        let begun = self.patience.begin()?;
        let taken = write_within(&self.socket, piece, left);
        self.patience.end(begun)?;
        taken
    }
}

impl<R: Clock> Sink for SocketSink<R> {
    ghost written = { λ s. None };

    ghost faults = { λ s. s.faults };

    fn write(&mut self, piece: &[u8]) -> Result<usize, Failed> {
        if piece.is_empty() {
            return Ok(0);
        }
        for _ in 0..TRIES {
            match self.put(piece) {
                Ok(count) if 0 < count => {
                    self.note_taken(count, piece.len());
                    return Ok(count);
                }
                Err(error) if error.kind() == ErrorKind::Interrupted => {}
                _ => break,
            }
        }
        self.faults = self.faults.saturating_add(1);
        Err(Failed)
    }
}
