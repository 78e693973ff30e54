//! Whether the moments of a pass rise.
ghost use Rattle.std.specs.Prelude.{◌≡◌, ◌↔◌, ◌<◌, IsTrue, reverse};
ghost use Rattle.txn_core.specs.History.{IsTimely};

use txn_core::{Event, Rules};

/// Whether the entry is of the pass, and later.
fn is_later<R: Rules>(entry: &Event<R>, pass: u32, moment: u64) -> bool
    ensures { IsTrue result ↔ ((entry.now.pass ≡ pass) × (moment < entry.now.moment)) }
{
    entry.pass == pass && moment < entry.moment
}

/// Whether no entry of the pass has a later moment.
pub(crate) fn is_timely<R: Rules>(past: &[Event<R>], pass: u32, moment: u64) -> bool
    ensures { IsTrue result ↔ IsTimely (reverse past.now) pass moment }
{
    for entry in past {
        if is_later::<R>(entry, pass, moment) {
            return false;
        }
    }
    true
}
