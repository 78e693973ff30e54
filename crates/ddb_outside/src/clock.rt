ghost use Rattle.std.specs.Prelude.{◌≡◌, ℕ, ◌+◌, ◌-◌, ◌*◌, ◌^◌, ◌≤◌, min, drop, Option, Some, None, IfOk};
ghost use Rattle.ddb_outside.specs.Clocks.{Looks, repeating};

use base_types::Seq;
use std::alloc::AllocError as NoMemory;
use std::rt;
use std::time::{Duration, Instant, SystemTime, UNIX_EPOCH};

/// A clock, which counts microseconds.
pub trait Clock: Sized {
    // The moment that the k-th look from now will give, where the clock tells it.
    ghost coming: { Self → Option (ℕ → ℕ) };

    /// The moment, in microseconds. Moments may go back.
    fn now(&mut self) -> u64
        ensures { Looks (coming self.old) (coming self.new) result };

    /// Another clock, which will give the same moments.
    fn twin(&self) -> Result<Self, NoMemory>
        ensures { IfOk result (λ twin. coming twin ≡ coming self.now) };
}

/// A clock that rises by the same step at each look, up to the last u64.
#[derive(Clone, Copy, Debug)]
pub struct StepClock {
    next: u64,
    step: u64,
}

impl StepClock {
    /// The look at place `k`, from 0, will give `start + k * step`, at most `u64::MAX`.
    pub fn make(start: u64, step: u64) -> StepClock
        ensures { ⟦<StepClock as Clock>⟧.coming result ≡ Some (λ k. min (start + k * step) (2 ^ 64 - 1)) }
    {
        StepClock { next: start, step }
    }
}

impl Clock for StepClock {
    ghost coming = { λ c. Some (λ k. min (c.next + k * c.step) (2 ^ 64 - 1)) };

    fn now(&mut self) -> u64 {
        let moment = self.next;
        self.next = moment.saturating_add(self.step);
        moment
    }

    fn twin(&self) -> Result<StepClock, NoMemory> {
        Ok(*self)
    }
}

/// A clock that gives listed moments in order. The last one repeats; an empty list gives 0.
#[derive(Debug, Drop)]
pub struct ListClock {
    moments: Seq<u64>,
    at: usize,
}

impl ListClock {
    ghost use Rattle.ddb_outside.specs.Memory.{moments_of};

    /// A clock whose looks give `moments` in order.
    pub fn make(moments: Seq<u64>) -> ListClock
        ensures coming { ⟦<ListClock as Clock>⟧.coming result ≡ Some (repeating moments) }
        ensures moments { moments_of result ≡ moments }
    {
        ListClock { moments, at: 0 }
    }

    /// The moments that the clock was made with, whatever looks there were.
    pub fn into_parts(self) -> Seq<u64>
        ensures { result ≡ moments_of self }
    {
        self.moments
    }
}

impl Clock for ListClock {
    ghost coming = { λ c. Some (λ k. repeating c.moments (c.at + k)) };

    fn now(&mut self) -> u64 {
        let moments = self.moments.as_slice();
        let last = moments.len().saturating_sub(1);
        let place = self.at.min(last);
        if place < last {
            self.at = place + 1;
        }
        moments.get(place).copied().unwrap_or(0)
    }

    fn twin(&self) -> Result<ListClock, NoMemory> {
        Ok(ListClock {
            moments: self.moments.try_clone()?,
            at: self.at,
        })
    }
}

/// The system's clock. It does not tell what it will give.
#[derive(Debug, Drop)]
pub struct SystemClock<R> {
    runtime: R,
    origin: Origin,
    latest: u64,
}

// From when a system clock counts.
#[derive(Clone, Copy, Debug)]
enum Origin {
    // Its own first look, which is still to come.
    FirstLook,
    // Its own first look, which was then.
    Since(Instant),
    // The beginning of 1970, in universal time.
    Epoch,
}

impl<R> SystemClock<R> {
    /// A clock that counts from its own first look, which gives 0, and never goes back.
    pub fn from_first_look(runtime: R) -> SystemClock<R> {
        SystemClock {
            runtime,
            origin: Origin::FirstLook,
            latest: 0,
        }
    }

    /// A clock that tells the time of day: microseconds since the beginning of 1970, in universal time.
    pub fn time_of_day(runtime: R) -> SystemClock<R> {
        SystemClock {
            runtime,
            origin: Origin::Epoch,
            latest: 0,
        }
    }
}

impl<R: rt::Clock> SystemClock<R> {
    // How long it is since the origin, or None where the system does not say.
    fn elapsed(&mut self) -> Option<Duration> {
        match self.origin {
            Origin::FirstLook => {
                self.origin = Origin::Since(Instant::now(&self.runtime).ok()?);
                Some(Duration::ZERO)
            }
            Origin::Since(first) => first.elapsed(&self.runtime).ok(),
            Origin::Epoch => {
                let now = SystemTime::now(&self.runtime).ok()?;
                now.duration_since(UNIX_EPOCH).ok()
            }
        }
    }
}

impl<R: rt::Clock + Clone> Clock for SystemClock<R> {
    ghost coming = { λ _. None };

    /// Where the system does not tell the time, the answer is that of the look before.
    fn now(&mut self) -> u64 {
        if let Some(elapsed) = self.elapsed() {
            self.latest = u64::try_from(elapsed.as_micros()).unwrap_or(u64::MAX);
        }
        self.latest
    }

    fn twin(&self) -> Result<SystemClock<R>, NoMemory> {
        Ok(SystemClock {
            runtime: self.runtime.clone()?,
            origin: self.origin,
            latest: self.latest,
        })
    }
}
