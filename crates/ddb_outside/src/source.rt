ghost use Rattle.std.specs.Prelude.{◌≡◌, ℕ, ◌+◌, ◌≤◌, List, Option, length, take, drop, Some, None};
ghost use Rattle.std.specs.Io.{ReadsAtMost};
ghost use Rattle.std.specs.Io.KnownBytes.{ReadConsumes};
ghost use Rattle.ddb_outside.specs.Causes.{HasCause};

use crate::failed::Failed;
use base_types::{Bytes, Seq};
use std::io::{ErrorKind, Read};

/// Where bytes come from.
pub trait Source {
    // The bytes that are still to come, where the source tells them.
    ghost left: { Self → Option (List ℕ) };
    // How often the source has failed.
    ghost faults: { Self → ℕ };

    /// Fills a front of `buf` and answers its length. The answer is 0 for a `buf` with room only at the
    /// end of what comes. [`Failed`] takes nothing from what is to come, and comes only where the source
    /// counted a fault in this call.
    fn read(&mut self, buf: &mut [u8]) -> Result<usize, Failed>
        ensures bound { ReadsAtMost result buf.new }
        ensures bytes { ReadConsumes (left self.old) (left self.new) result buf.new }
        ensures cause { HasCause (faults self.old) (faults self.new) result };

    /// Tells that the reader holds no byte and is about to read: the source rests between two messages. It changes neither
    /// what is to come nor the count of faults, and a source that need not know does nothing.
    fn at_rest(&mut self)
        ensures same_bytes { left self.new ≡ left self.old }
        ensures same_faults { faults self.new ≡ faults self.old }
    {}
}

/// A source in memory: its content comes in pieces, and the reads that a list names fail.
#[derive(Debug, Drop)]
pub struct MemSource {
    content: Bytes,
    at: usize,
    piece: usize,
    failing: Seq<u64>,
    calls: u64,
    faults: u64,
    ghost in_range: { at ≤ length content },
    ghost moves: { 1 ≤ piece },
}

impl MemSource {
    ghost use Rattle.ddb_outside.specs.Memory.{content_of, failing_reads};

    /// A source whose content is `content`, which comes in pieces of at most `piece` bytes. The calls of
    /// `read` whose numbers, from 0, are in `failing` fail.
    pub fn make(content: Bytes, piece: usize, failing: Seq<u64>) -> MemSource
        requires { 1 ≤ piece }
        ensures left { ⟦<MemSource as Source>⟧.left result ≡ Some content }
        ensures content { content_of result ≡ content }
        ensures failing { failing_reads result ≡ failing }
    {
        MemSource {
            content,
            at: 0,
            piece,
            failing,
            calls: 0,
            faults: 0,
        }
    }

    /// The whole content that the source was made with, whatever was read of it, and the numbers of the
    /// calls that fail.
    pub fn into_parts(self) -> (Bytes, Seq<u64>)
        ensures content { result.0 ≡ content_of self }
        ensures failing { result.1 ≡ failing_reads self }
    {
        (self.content, self.failing)
    }
}

impl Source for MemSource {
    ghost left = { λ s. Some (drop s.at s.content) };

    ghost faults = { λ s. s.faults };

    #[tactic(auto, using(crate::proofs::Pieces::pieces))]
    fn read(&mut self, buf: &mut [u8]) -> Result<usize, Failed> {
        let call = self.calls;
        self.calls = call.saturating_add(1);
        if self.failing.as_slice().contains(&call) {
            self.faults = self.faults.saturating_add(1);
            return Err(Failed);
        }
        let content = self.content.as_slice();
        let rest = &content[self.at..];
        let count = self.piece.min(rest.len()).min(buf.len());
        copy_front(rest, buf, count);
        self.at += count;
        Ok(count)
    }
}

// Copies the first `count` bytes.
fn copy_front(from: &[u8], to: &mut [u8], count: usize)
    requires from { count ≤ length from.now }
    requires room { count ≤ length to.old }
    ensures { take count to.new ≡ take count from.now }
{
    to[..count].copy_from_slice(&from[..count]);
}

/// How often a read that was interrupted is tried again. Signals come seldom, and one that never stops is a fault.
const TRIES: u32 = 1_000;

/// A source over a reader of std, which counts each error. A read that a signal interrupted is tried again, up to 1,000
/// times.
#[derive(Debug, Drop)]
pub struct StdSource<R> {
    reader: R,
    faults: u64,
}

impl<R> StdSource<R> {
    /// A source that has not failed yet.
    pub fn new(reader: R) -> StdSource<R> {
        StdSource { reader, faults: 0 }
    }
}

impl<R: Read> Source for StdSource<R> {
    ghost left = { λ s. R.remaining s.reader };

    ghost faults = { λ s. s.faults };

    fn read(&mut self, buf: &mut [u8]) -> Result<usize, Failed> {
        for _ in 0..TRIES {
            match self.reader.read(buf) {
                Ok(count) => return Ok(count),
                Err(error) => {
                    if error.kind() != ErrorKind::Interrupted {
                        break;
                    }
                }
            }
        }
        self.faults = self.faults.saturating_add(1);
        Err(Failed)
    }
}
