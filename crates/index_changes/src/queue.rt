//! Changes that go to the outbox.

ghost use Rattle.std.specs.Prelude.{◌≡◌, ◌+◌, ◌++◌, ◌≤◌, length};

use global_index::Outbox;
use index_feed::Change;

/// Lets changes wait behind the others, in places that were set aside. It takes no memory.
pub fn queue_all<K: Drop, V: Drop>(outbox: &mut Outbox<K, V>, changes: Vec<Change<K, V>>)
    requires { length changes.items ≤ outbox.old.set_aside }
    ensures waiting { outbox.new.waiting.items ≡ outbox.old.waiting.items ++ changes.items }
    ensures sent { outbox.new.sent ≡ outbox.old.sent }
    ensures rest { outbox.new.set_aside + length changes.items ≡ outbox.old.set_aside }
{
    for change in changes {
        outbox.queue(change);
    }
}
