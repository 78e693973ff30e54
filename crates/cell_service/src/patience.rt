//! How long a message waits for a transaction.

use std::sync::Wait;
use std::sync::atomic::AtomicU64;
use std::thread::yield_now;
use std::time::Duration;

/// So often in all a single write is tried that finds its item held; then the conflict is told.
const TRIES: u32 = 7;

/// How many microseconds the thread sleeps before the third try. Before each further one it sleeps twice as long: some 500 in all.
const FIRST_SLEEP: u64 = 16;

/// What is left of a message's tries.
#[derive(Drop)]
pub(crate) struct Patience {
    /// How many tries are left behind the next one.
    left: u32,
    /// How many microseconds the thread sleeps before the one after the next.
    sleep: u64,
}

impl Patience {
    /// Nothing was tried yet.
    pub(crate) fn new() -> Patience {
        Patience {
            left: TRIES - 1,
            sleep: 0,
        }
    }

    /// Whether a try is left behind the next one.
    pub(crate) fn is_left(&self) -> bool {
        self.left > 0
    }

    /// Waits until the next try, each time for longer. The second try comes at once, since the message is read again for it, which
    /// takes as long as a transaction does as a rule. Later ones leave the processor to a transaction's thread that lost its own.
    /// Where no try is left it returns at once.
    pub(crate) fn wait<R: Wait>(&mut self, rt: &R) {
        if self.left == 0 {
            return;
        }
        self.left -= 1;
        if self.sleep == 0 {
            yield_now();
            self.sleep = FIRST_SLEEP;
            return;
        }
        sleep(rt, self.sleep);
        self.sleep = self.sleep.saturating_mul(2);
    }
}

/// Sleeps so many microseconds.
fn sleep<R: Wait>(rt: &R, microseconds: u64) {
    // Nobody else knows this word, so nobody wakes who sleeps on it.
    AtomicU64::new(0).park_timeout(rt, 0, Duration::from_micros(microseconds));
}
