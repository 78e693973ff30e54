// What a connection does next, by what is known of it.
ghost use Rattle.std.specs.Prelude.{◌≡◌, ◌↔◌, ◌≤◌, ◌<◌, ◌*◌, ◌⊎◌, IsTrue, IsFalse};
ghost use Rattle.socket_listener.specs.Turns.{GivesWay, ReadsAtOnce};

// How many messages a connection may send in a row while others wait.
pub(crate) const TURN: u32 = 8;

// What a connection does next.
#[derive(Clone, Copy, Debug, PartialEq, Eq)]
pub(crate) enum Step {
    // Reads what is there.
    Read,
    // Waits for as long as nothing comes, here or of others.
    Wait,
    // Waits for its own alone, and not for long.
    Hurry,
    // Lets the others go first.
    GiveWay,
}

// What is known of a connection that is served.
#[derive(Clone, Copy, Debug)]
pub(crate) struct Known {
    // Whether it is between two messages.
    pub(crate) resting: bool,
    // Whether there may be something to read.
    pub(crate) readable: bool,
    // Whether others wait to be served.
    pub(crate) others: bool,
    // How many messages it has sent since it was accepted.
    pub(crate) messages: u32,
}

// What a connection does of which this is known.
pub(crate) fn next_step(known: Known) -> Step
    ensures gives_way { result ≡ Step.GiveWay ↔ GivesWay known }
    ensures reads { result ≡ Step.Read ↔ ReadsAtOnce known }
    ensures hurries { result ≡ Step.Hurry ↔ (IsFalse known.readable × IsTrue known.others × IsFalse known.resting) }
    ensures waits { result ≡ Step.Wait ↔ (IsFalse known.readable × IsFalse known.others) }
{
    let had_turn = !known.readable || TURN <= known.messages;
    if known.resting && known.others && had_turn {
        Step::GiveWay
    } else if known.readable {
        Step::Read
    } else if known.others {
        Step::Hurry
    } else {
        Step::Wait
    }
}

// How long a share waits for events.
#[derive(Clone, Copy, Debug, PartialEq, Eq)]
pub(crate) enum Pause {
    // Not at all: somebody is to be served.
    Skip,
    // For a moment: a newcomer was refused and is to be tried again.
    Short,
    // For as long as another share takes to let a newcomer in.
    Brief,
    // Until there is one.
    Long,
}

// How long to wait where somebody has `called`, where a newcomer was `refused` for want of something that may come back, or
// where one is `left` to shares with fewer connections.
pub(crate) fn how_long(called: bool, refused: bool, left: bool) -> Pause
    ensures skips { result ≡ Pause.Skip ↔ IsTrue called }
    ensures short { result ≡ Pause.Short ↔ (IsFalse called × IsTrue refused) }
    ensures brief { result ≡ Pause.Brief ↔ (IsFalse called × IsFalse refused × IsTrue left) }
    ensures long { result ≡ Pause.Long ↔ (IsFalse called × IsFalse refused × IsFalse left) }
{
    if called {
        Pause::Skip
    } else if refused {
        Pause::Short
    } else if left {
        Pause::Brief
    } else {
        Pause::Long
    }
}

// Whether a share with its `own` connections has more than its part of `all`, which `shares` divide.
pub(crate) fn has_more(own: u64, shares: u64, all: u64) -> bool
    ensures { IsTrue result ↔ all < own * shares }
{
    match own.checked_mul(shares) {
        Some(part) => all < part,
        None => true,
    }
}
