// How long a client may keep others waiting.
ghost use Rattle.std.specs.Prelude.{◌≡◌, ◌<◌, ◌↔◌, ◌-◌, IsOk};
ghost use Rattle.std.specs.Duration.{as_nanos};

use std::io;
use std::io::ErrorKind;
use std::rt::Clock;
use std::time::{Duration, Instant};

// The time that a client has for one thing, of which its waits are taken one after the other.
#[derive(Drop)]
pub(crate) struct Patience<R> {
    clock: R,
    whole: Duration,
    left: Duration,
}

impl<R> Patience<R> {
    // This many seconds, all of them left.
    pub(crate) fn new(clock: R, seconds: u64) -> Patience<R>
        ensures { result.left ≡ result.whole }
    {
        let whole = Duration::from_secs(seconds);
        Patience {
            clock,
            whole,
            left: whole,
        }
    }

    // Begins again, for the next thing.
    pub(crate) fn renew(&mut self)
        ensures { self.new ≡ record self.old { left = self.old.whole } }
    {
        self.left = self.whole;
    }

    // What is left, or `TimedOut` where nothing is.
    pub(crate) fn left(&self) -> io::Result<Duration>
        ensures { IsOk result ↔ (0 < as_nanos self.now.left) }
    {
        if self.left.is_zero() {
            return Err(io::Error::from(ErrorKind::TimedOut));
        }
        Ok(self.left)
    }

    // Takes off what a wait took.
    fn spend(&mut self, spent: Duration)
        ensures { as_nanos self.new.left ≡ as_nanos self.old.left - as_nanos spent }
    {
        self.left = self.left.saturating_sub(spent);
    }
}

impl<R: Clock> Patience<R> {
    // When a wait begins.
    pub(crate) fn begin(&self) -> io::Result<Instant> {
        Instant::now(&self.clock)
    }

    // Takes off a wait that began then.
    pub(crate) fn end(&mut self, begun: Instant) -> io::Result<()> {
        let spent = begun.elapsed(&self.clock)?;
        self.spend(spent);
        Ok(())
    }
}
