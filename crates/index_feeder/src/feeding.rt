//! One feed of a partition.

ghost use Rattle.std.specs.Prelude.{◌≡◌, ◌<◌, IfOk, IfErr, Err};
ghost use Rattle.turnstile.specs.Passes.{most_units};
ghost use Rattle.cluster.specs.Steps.{IsAtRest, partitions_of};
ghost use Rattle.cluster.specs.declared.step.StepError.{StepError};
ghost use Rattle.index_feeder.specs.Feeds.{Feeds, FeedsPartly};

use cluster::{Caller, StepError, TableWorld};
use partition::PageRules;
use std::sync::Wait;
use turnstile::Pass;
use txn_core::{Answer, Message};

/// What became of one feed.
#[derive(Clone, Copy, Debug, PartialEq, Eq)]
pub enum Feed {
    /// The first change of the outbox was applied and acknowledged.
    Fed,
    /// The outbox was empty.
    Empty,
}

/// Feeds the first change in a partition's outbox: it is shown, applied in the cell where its row lives, and acknowledged, for one
/// unit each. Where the outbox is empty one unit is used.
///
/// The errors are those of [`step`](Cluster::step): [`StepError::Spent`] where no unit is left, and [`StepError::NoMemory`] only
/// where one was. A change that was shown and not acknowledged then is fed again by the next feed of the partition, whoever's it is.
pub fn feed_one<R: PageRules, T: Wait>(
    caller: &Caller<'_, R, T>,
    pass: &mut Pass<TableWorld<R>>,
    source: u32,
) -> Result<Feed, StepError>
where
    R::Fault: Copy,
    requires rests { IsAtRest caller.now pass.old }
    requires source { source < partitions_of caller.now }
    ensures ok { IfOk result (λ feed. Feeds (R.protocol (partitions_of caller.now)) pass.old source feed pass.new) }
    ensures err { IfErr result (λ why. FeedsPartly (R.protocol (partitions_of caller.now)) pass.old source why pass.new) }
    ensures spent { pass.old.used ≡ most_units → result ≡ Err StepError.Spent }
{
    let message = Message::PeekOut { source };
    let shown = caller.ask(pass, source, message)?;
    match shown {
        Answer::Out {
            sequence,
            index,
            target,
            row_key,
            after,
        } => {
            let message = Message::ApplyIndex {
                source,
                sequence,
                index,
                row_key,
                after,
            };
            let applied = caller.ask(pass, target, message)?;
            drop(applied);
            let message = Message::Ack { source, sequence };
            let acknowledged = caller.ask(pass, source, message)?;
            drop(acknowledged);
            Ok(Feed::Fed)
        }
        Answer::Empty => Ok(Feed::Empty),
        _ => unreachable!(),
    }
}
