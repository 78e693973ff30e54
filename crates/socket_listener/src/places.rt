// The connections of a share, each at a place of its own, and which of them have something to read.

use crate::connection::Socket;
use crate::load::Load;
use slab::Slab;
use std::alloc::Global;
use std::collections::VecDeque;
use std::io;
use std::sync::Arc;

// A connection's place.
#[derive(Drop)]
struct Place {
    // The connection, while it waits here.
    parked: Option<Socket>,
    // Whether it stands among those that have called.
    called: bool,
    // Whether its client will send no more than has come.
    closing: bool,
}

// A connection that is to be served.
#[derive(Drop)]
pub(crate) struct Caller {
    pub(crate) place: usize,
    pub(crate) source: Socket,
    pub(crate) sink: Socket,
    pub(crate) closing: bool,
}

// The connections of a share.
#[derive(Drop)]
pub(crate) struct Places {
    places: Slab<Place>,
    // Those that have something to read, in the order in which they called. Each stands here once.
    called: VecDeque<usize>,
    // What is counted of all shares.
    load: Arc<Load>,
}

impl Places {
    // No place, of a share more.
    pub(crate) fn new(alloc: Global, load: Arc<Load>) -> Places {
        load.add_share();
        Places {
            places: Slab::new(alloc),
            called: VecDeque::new(alloc),
            load,
        }
    }

    // Whether the share has more connections than its part of all.
    pub(crate) fn are_above_part(&self) -> bool {
        self.load.is_above_part(self.places.len())
    }

    // The share is gone.
    pub(crate) fn close(&self) {
        self.load.remove_share(self.places.len());
    }

    // A place for one connection more, and room for its call.
    pub(crate) fn add(&mut self) -> io::Result<usize> {
        let all = self.places.len().saturating_add(1);
        self.called.reserve(all.saturating_sub(self.called.len()))?;
        let place = self.places.insert(Place {
            parked: None,
            called: false,
            closing: false,
        })?;
        self.load.add_connection();
        Ok(place)
    }

    // Notes that a connection has something to read, and whether its client will send no more.
    pub(crate) fn call(&mut self, place: usize, closing: bool) -> io::Result<()> {
        let first = match self.places.get_mut(place) {
            Some(spot) => {
                let first = !spot.called;
                spot.called = true;
                spot.closing = spot.closing || closing;
                first
            }
            None => false,
        };
        if first {
            self.called.push_back(place)?;
        }
        Ok(())
    }

    // Whether a connection has something to read.
    pub(crate) fn has_called(&self) -> bool {
        !self.called.is_empty()
    }

    // How many connections have something to read.
    pub(crate) fn count_called(&self) -> usize {
        self.called.len()
    }

    // The next connection that has something to read. Those that were closed in the meantime are let go.
    pub(crate) fn next_caller(&mut self) -> Option<Caller> {
        for _ in 0..self.called.len() {
            let place = self.called.pop_front()?;
            if let Some(caller) = self.caller_at(place) {
                return Some(caller);
            }
        }
        None
    }

    // The connection at a place, where it has something to read.
    fn caller_at(&mut self, place: usize) -> Option<Caller> {
        let spot = self.places.get_mut(place)?;
        spot.called = false;
        let closing = spot.closing;
        let source = spot.parked.take()?;
        let Ok(sink) = source.clone() else {
            self.remove(place);
            return None;
        };
        Some(Caller {
            place,
            source,
            sink,
            closing,
        })
    }

    // Lets a connection wait at its place.
    pub(crate) fn park(&mut self, place: usize, socket: Socket) {
        if let Some(spot) = self.places.get_mut(place) {
            spot.parked = Some(socket);
        }
    }

    // Gives up the place of a connection that is closed.
    pub(crate) fn remove(&mut self, place: usize) {
        if let Some(gone) = self.places.try_remove(place) {
            drop(gone);
            self.load.remove_connection();
        }
    }
}
