// How many connections the shares of a listener have together, so that they divide newcomers among them. No contract speaks
// of it.

use crate::turn::has_more;
use std::sync::atomic::{AtomicU64, Ordering};

// The shares of a listener and their connections.
#[derive(Drop)]
pub(crate) struct Load {
    shares: AtomicU64,
    connections: AtomicU64,
}

impl Load {
    pub(crate) fn new() -> Load {
        Load {
            shares: AtomicU64::new(0),
            connections: AtomicU64::new(0),
        }
    }

    // Counts a share more.
    pub(crate) fn add_share(&self) {
        self.shares.fetch_add(1, Ordering::SeqCst);
    }

    // A share is gone, with the connections that it had.
    pub(crate) fn remove_share(&self, connections: usize) {
        self.shares.fetch_sub(1, Ordering::SeqCst);
        self.connections
            .fetch_sub(connections as u64, Ordering::SeqCst);
    }

    // Counts a connection more.
    pub(crate) fn add_connection(&self) {
        self.connections.fetch_add(1, Ordering::SeqCst);
    }

    // A connection is closed.
    pub(crate) fn remove_connection(&self) {
        self.connections.fetch_sub(1, Ordering::SeqCst);
    }

    // Whether a share that has so many connections has more than its part.
    pub(crate) fn is_above_part(&self, own: usize) -> bool {
        let shares = self.shares.load(Ordering::SeqCst);
        has_more(own as u64, shares, self.connections.load(Ordering::SeqCst))
    }
}
