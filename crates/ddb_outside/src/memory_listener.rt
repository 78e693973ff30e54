// A listener in memory, whose connections have listed contents.
ghost use Rattle.std.specs.Prelude.{◌≡◌, ◌+◌, ◌<◌, ◌≤◌, [], ◌++◌, length, map, Some, IfOk, IsTrue, vec_len, vec_capacity};
ghost use Rattle.std.specs.List.{sum_by};
ghost use Rattle.ddb_outside.specs.Causes.{Rose};
ghost use Rattle.ddb_outside.specs.Dealt.{dealt};
ghost use Rattle.ddb_outside.specs.Listeners.{HangsUp, HasOut, all_of, fresh_share};

use crate::failed::Failed;
use crate::listener::{Joined, Listener};
use crate::sink::{MemSink, Sink};
use crate::source::{MemSource, Source};
use base_types::{Bytes, Seq};
use std::alloc::{AllocError as NoMemory, Global};
use std::collections::VecDeque;

// How many bytes a connection in memory gives or takes at once.
const PIECE: usize = 4_096;

// What a share is made of.
#[derive(Drop)]
struct Part {
    coming: VecDeque<Bytes>,
    // Where its outputs will stand: there is room for them all.
    room: Vec<Bytes>,
    failing: Seq<u64>,
    ghost empty: { room.items ≡ [] },
    ghost fits: { length coming.items ≤ vec_capacity room },
}

/// A listener in memory, whose connections have listed contents and are dealt out to its shares. The calls of bind, share
/// and accept that a list names fail, and the accepts of each share by the same list.
#[derive(Drop)]
pub struct MemListener {
    alloc: Global,
    parts: VecDeque<Part>,
    coming: VecDeque<Bytes>,
    hung: Vec<Bytes>,
    // How many connections are out, and how many are lent.
    out: usize,
    lent: usize,
    failing: Seq<u64>,
    calls: u64,
    faults: u64,
    ends: u64,
    // There is room for each output that may still come, so taking one back needs no memory.
    ghost room: { vec_len hung + out + lent + length coming.items + sum_by (λ p. length p.coming.items) parts.items ≤ vec_capacity hung },
}

impl MemListener {
    ghost use Rattle.ddb_outside.specs.Memory.{told_by};

    /// A listener whose k-th share, from 0, will accept in order the connections whose places, from 0, leave k when they are
    /// divided by `shares`. A further share accepts none, nor does the listener itself. Those calls fail whose numbers, from
    /// 0, are in `failing`: the listener counts its calls of bind, share and accept, and each share its own of accept.
    ///
    /// All memory that the dealt shares and their outputs take is taken here. A further share takes what a copy of `failing`
    /// takes; where that is refused, `share` counts a fault.
    pub fn make(
        alloc: Global,
        contents: Seq<Bytes>,
        shares: u32,
        failing: Seq<u64>,
    ) -> Result<MemListener, NoMemory>
        requires { 1 ≤ shares }
        ensures told { IfOk result (λ made. ⟦<MemListener as Listener>⟧.connections made ≡ Some (all_of (dealt contents shares))) }
        ensures faults { IfOk result (λ made. ⟦<MemListener as Listener>⟧.faults made ≡ 0) }
        ensures ends { IfOk result (λ made. ⟦<MemListener as Listener>⟧.ends made ≡ 0) }
    {
        let hung = Vec::with_capacity(alloc, contents.len())?;
        let parts = with_room(alloc, deal(alloc, contents, shares)?, &failing)?;
        Ok(MemListener {
            alloc,
            parts,
            coming: VecDeque::new(alloc),
            hung,
            out: 0,
            lent: 0,
            failing,
            calls: 0,
            faults: 0,
            ends: 0,
        })
    }

    /// What was written on each connection that was hung up.
    pub fn outputs(&self) -> &[Bytes]
        ensures { result.now ≡ (told_by self.now).hung }
    {
        self.hung.as_slice()
    }

    // Counts a call. Whether it is to fail, which is counted too.
    fn fails(&mut self) -> bool
        ensures same { self.new ≡ record self.old { calls = self.new.calls; faults = self.new.faults } }
        ensures fails { IsTrue result → Rose self.old.faults self.new.faults }
        ensures later { self.old.faults ≤ self.new.faults }
    {
        let call = self.calls;
        self.calls = call.saturating_add(1);
        if !self.failing.as_slice().contains(&call) {
            return false;
        }
        let _ = self.fault();
        true
    }

    // Counts a fault.
    fn fault(&mut self) -> Failed
        ensures same { self.new ≡ record self.old { faults = self.new.faults } }
        ensures rises { Rose self.old.faults self.new.faults }
        ensures later { self.old.faults ≤ self.new.faults }
    {
        self.faults = self.faults.saturating_add(1);
        Failed
    }

    // Takes the outputs of a share.
    fn take_outputs(&mut self, mut outputs: Vec<Bytes>)
        requires lent { vec_len outputs ≤ self.old.lent }
        ensures parts { self.new.parts ≡ self.old.parts }
        ensures coming { self.new.coming ≡ self.old.coming }
        ensures hung { self.new.hung.items ≡ self.old.hung.items ++ outputs.items }
        ensures out { self.new.out ≡ self.old.out }
        ensures lent { self.new.lent + vec_len outputs ≡ self.old.lent }
        ensures faults { self.new.faults ≡ self.old.faults }
        ensures ends { self.new.ends ≡ self.old.ends }
    {
        self.lent -= outputs.len();
        let Ok(()) = self.hung.append(&mut outputs) else {
            unreachable!()
        };
    }
}

impl Listener for MemListener {
    ghost use Rattle.ddb_outside.specs.Memory.{told_by};

    type S = MemSource;

    type K = MemSink;

    ghost connections = { λ l. Some (told_by l) };

    ghost faults = { λ l. l.faults };

    ghost ends = { λ l. l.ends };

    fn bind(&mut self, _port: u16) -> Result<(), Failed> {
        if self.fails() { Err(Failed) } else { Ok(()) }
    }

    fn share(&mut self) -> Result<MemListener, Failed> {
        if self.fails() {
            return Err(Failed);
        }
        match self.parts.pop_front() {
            Some(part) => {
                self.lent += part.coming.len();
                Ok(share_of(self.alloc, part))
            }
            None => match self.failing.try_clone() {
                Ok(failing) => Ok(further_share(self.alloc, failing)),
                Err(_) => Err(self.fault()),
            },
        }
    }

    fn accept(&mut self) -> Result<Option<Joined<MemSource, MemSink>>, Failed> {
        if self.fails() {
            return Err(Failed);
        }
        match self.coming.pop_front() {
            Some(content) => {
                self.out += 1;
                Ok(Some(connection(self.alloc, content)))
            }
            None => {
                self.ends = self.ends.saturating_add(1);
                Ok(None)
            }
        }
    }

    fn hang_up(&mut self, joined: Joined<MemSource, MemSink>)
        requires out { HasOut (Some (told_by self.old)) }
        ensures hung { HangsUp (Some (told_by self.old)) (Some (told_by self.new)) (⟦<MemSink as Sink>⟧.written joined.sink) }
        ensures faults { self.old.faults ≤ self.new.faults }
        ensures ends { self.old.ends ≤ self.new.ends }
    {
        let (output, _) = joined.sink.into_parts();
        self.out -= 1;
        let Ok(()) = self.hung.push(output) else {
            unreachable!()
        };
    }

    fn absorb(&mut self, share: MemListener) {
        self.faults = handed_on(self.faults, share.faults);
        self.ends = handed_on(self.ends, share.ends);
        self.take_outputs(share.hung);
    }
}

// A count, with a share's handed on: it rises where the share's is above 0.
fn handed_on(count: u64, of_share: u64) -> u64
    ensures later { count ≤ result }
    ensures rises { 0 < of_share → Rose count result }
{
    if of_share == 0 {
        count
    } else {
        count.saturating_add(1)
    }
}

// A connection whose client sends this.
fn connection(alloc: Global, content: Bytes) -> Joined<MemSource, MemSink>
    ensures left { ⟦<MemSource as Source>⟧.left result.source ≡ Some content }
    ensures written { ⟦<MemSink as Sink>⟧.written result.sink ≡ Some [] }
{
    Joined {
        source: MemSource::make(content, PIECE, Seq::new(alloc)),
        sink: MemSink::make(alloc, PIECE, Seq::new(alloc)),
    }
}

// The share that a part makes.
fn share_of(alloc: Global, part: Part) -> MemListener
    ensures told { ⟦<MemListener as Listener>⟧.connections result ≡ Some (fresh_share part.coming.items) }
    ensures faults { ⟦<MemListener as Listener>⟧.faults result ≡ 0 }
    ensures ends { ⟦<MemListener as Listener>⟧.ends result ≡ 0 }
{
    let Part {
        coming,
        room,
        failing,
    } = part;
    MemListener {
        alloc,
        parts: VecDeque::new(alloc),
        coming,
        hung: room,
        out: 0,
        lent: 0,
        failing,
        calls: 0,
        faults: 0,
        ends: 0,
    }
}

// A share that accepts none.
fn further_share(alloc: Global, failing: Seq<u64>) -> MemListener
    ensures told { ⟦<MemListener as Listener>⟧.connections result ≡ Some (fresh_share []) }
    ensures faults { ⟦<MemListener as Listener>⟧.faults result ≡ 0 }
    ensures ends { ⟦<MemListener as Listener>⟧.ends result ≡ 0 }
{
    share_of(
        alloc,
        Part {
            coming: VecDeque::new(alloc),
            room: Vec::new(alloc),
            failing,
        },
    )
}

// Deals contents out to this many shares, in turn.
fn deal(alloc: Global, contents: Seq<Bytes>, shares: u32) -> Result<Vec<Vec<Bytes>>, NoMemory>
    requires { 1 ≤ shares }
    ensures dealt { IfOk result (λ parts. map (λ part. part.items) parts.items ≡ dealt contents shares) }
    ensures all { IfOk result (λ parts. sum_by (λ part. length part.items) parts.items ≡ length contents) }
{
    let shares = shares as usize;
    let mut parts = empty_parts(alloc, shares)?;
    let mut share = 0;
    for content in Vec::from(contents) {
        parts[share].push(content)?;
        share = (share + 1) % shares;
    }
    Ok(parts)
}

// The parts of this many shares before anything is dealt.
fn empty_parts(alloc: Global, shares: usize) -> Result<Vec<Vec<Bytes>>, NoMemory>
    ensures dealt { IfOk result (λ parts. map (λ part. part.items) parts.items ≡ dealt [] shares) }
    ensures none { IfOk result (λ parts. sum_by (λ part. length part.items) parts.items ≡ 0) }
{
    let mut parts = Vec::with_capacity(alloc, shares)?;
    for _ in 0..shares {
        parts.push(Vec::new(alloc))?;
    }
    Ok(parts)
}

// Each part with room for its outputs.
fn with_room(
    alloc: Global,
    dealt: Vec<Vec<Bytes>>,
    failing: &Seq<u64>,
) -> Result<VecDeque<Part>, NoMemory>
    ensures parts { IfOk result (λ parts. map (λ part. part.coming.items) parts.items ≡ map (λ part. part.items) dealt.items) }
    ensures all { IfOk result (λ parts.
        sum_by (λ part. length part.coming.items) parts.items ≡ sum_by (λ part. length part.items) dealt.items) }
{
    let mut parts = VecDeque::new(alloc);
    for coming in dealt {
        let room = Vec::with_capacity(alloc, coming.len())?;
        parts.push_back(Part {
            coming: VecDeque::from(coming),
            room,
            failing: failing.try_clone()?,
        })?;
    }
    Ok(parts)
}
