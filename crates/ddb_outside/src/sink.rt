ghost use Rattle.std.specs.Prelude.{◌≡◌, ℕ, ◌<◌, ◌≤◌, List, Option, length, [], Some, IfOk, OnOk, OnErr};
ghost use Rattle.std.specs.Io.{WritesAtMost};
ghost use Rattle.std.specs.Io.KnownBytes.{Appends, WriteAppends};
ghost use Rattle.ddb_outside.specs.Causes.{HasCause};
ghost use Rattle.ddb_outside.specs.Writes.{AppendsFront};

use crate::failed::Failed;
use base_types::{Bytes, Seq};
use std::alloc::Global;
use std::io::Write;

/// Where bytes go.
pub trait Sink {
    // The bytes that were written, where the sink tells them.
    ghost written: { Self → Option (List ℕ) };
    // How often the sink has failed.
    ghost faults: { Self → ℕ };

    /// Appends a front of `piece` to what was written and answers its length, at least 1 where the piece
    /// has a byte. [`Failed`] appends nothing, and comes only where the sink counted a fault in this call.
    fn write(&mut self, piece: &[u8]) -> Result<usize, Failed>
        ensures bound { WritesAtMost result piece.now }
        ensures progress { 0 < length piece.now → IfOk result (λ count. 0 < count) }
        ensures bytes { WriteAppends (written self.old) (written self.new) result piece.now }
        ensures cause { HasCause (faults self.old) (faults self.new) result };
}

/// Writes all of a text, in as few writes as the sink takes it in. Where the sink fails, a front of the
/// text was written.
pub fn write_all<K: Sink>(sink: &mut K, text: &[u8]) -> Result<(), Failed>
    ensures ok { OnOk result (Appends (K.written sink.old) (K.written sink.new) text.now) }
    ensures failed { OnErr result (AppendsFront (K.written sink.old) (K.written sink.new) text.now) }
    ensures cause { HasCause (K.faults sink.old) (K.faults sink.new) result }
{
    let mut at = 0;
    while at < text.len() {
        at += sink.write(&text[at..])?;
    }
    Ok(())
}

/// A sink in memory: it takes pieces of at most a length, and the writes that a list names fail.
/// A write for which memory is refused fails too.
#[derive(Debug, Drop)]
pub struct MemSink {
    written: Vec<u8>,
    piece: usize,
    failing: Seq<u64>,
    calls: u64,
    faults: u64,
    ghost moves: { 1 ≤ piece },
}

impl MemSink {
    ghost use Rattle.ddb_outside.specs.Memory.{failing_writes};

    /// A sink that takes at most `piece` bytes a call. The calls of `write` whose numbers, from 0, are in
    /// `failing` fail.
    pub fn make(alloc: Global, piece: usize, failing: Seq<u64>) -> MemSink
        requires { 1 ≤ piece }
        ensures written { ⟦<MemSink as Sink>⟧.written result ≡ Some [] }
        ensures failing { failing_writes result ≡ failing }
    {
        MemSink {
            written: Vec::new(alloc),
            piece,
            failing,
            calls: 0,
            faults: 0,
        }
    }

    /// What was written, and the numbers of the calls that fail.
    pub fn into_parts(self) -> (Bytes, Seq<u64>)
        ensures written { Some result.0 ≡ ⟦<MemSink as Sink>⟧.written self }
        ensures failing { result.1 ≡ failing_writes self }
    {
        (Bytes::from(self.written), self.failing)
    }
}

impl Sink for MemSink {
    ghost written = { λ s. Some s.written.items };

    ghost faults = { λ s. s.faults };

    fn write(&mut self, piece: &[u8]) -> Result<usize, Failed> {
        let call = self.calls;
        self.calls = call.saturating_add(1);
        let count = self.piece.min(piece.len());
        if !self.failing.as_slice().contains(&call)
            && self.written.extend_from_slice(&piece[..count]).is_ok()
        {
            return Ok(count);
        }
        self.faults = self.faults.saturating_add(1);
        Err(Failed)
    }
}

/// A sink over a writer of std, which counts each error. A writer that takes nothing has failed.
#[derive(Debug, Drop)]
pub struct StdSink<W> {
    writer: W,
    faults: u64,
}

impl<W> StdSink<W> {
    /// A sink that has not failed yet.
    pub fn new(writer: W) -> StdSink<W> {
        StdSink { writer, faults: 0 }
    }
}

impl<W: Write> Sink for StdSink<W> {
    ghost written = { λ s. W.contents s.writer };

    ghost faults = { λ s. s.faults };

    fn write(&mut self, piece: &[u8]) -> Result<usize, Failed> {
        if piece.is_empty() {
            return Ok(0);
        }
        match self.writer.write(piece) {
            Ok(count) if 0 < count => Ok(count),
            _ => {
                self.faults = self.faults.saturating_add(1);
                Err(Failed)
            }
        }
    }
}
