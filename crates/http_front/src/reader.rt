//! The messages of a byte stream, one after the other.
ghost use Rattle.std.specs.Prelude.{◌≡◌, ◌≢◌, ◌⊎◌, slice_index, ℕ, List, [], ◌++◌, ◌<◌, ◌≤◌, length, take, drop, option_map, vec_len, Option, Some, None, IfOk, IfErr, OnOk, IfSome, IfNone, IsErrOf, IsTrue, IsFalse};
ghost use Rattle.std.specs.Io.KnownBytes.{prepend_known, Keeps, Consumes, IsAtEnd};
ghost use Rattle.httparse.specs.Spans.{IsWithin, span_bytes};
ghost use Rattle.ddb_outside.specs.Causes.{Rose};
ghost use Rattle.httparse.specs.Ascii.{line_feed};
ghost use Rattle.http_front.specs.Heads.{max_body, max_head};
ghost use Rattle.http_front.specs.Messages.{IsMessage, IsRefusedBy, IsShortHead, IsShortBody, IsPartial, IsCutAt, IsSparing, TakesSparingly, LosesPiece};
ghost use Rattle.http_front.specs.Ends.{IfRefused, IfCut, IsOutside, IsCutOrOutside, IsCutWith, IsRefusalWith};
ghost use Rattle.http_front.specs.Spans.{HasHead, MovesTo};

use crate::fault::NextEnd;
use crate::head::{Head, MAX_HEAD, ROOM, find_head};
use crate::message::Message;
use base_types::Bytes;
use bytes::BytesMut;
use ddb_outside::Source;
use httparse::spans::{EMPTY_HEADER_SPAN, HeaderSpan, Span};
use memchr::memchr;
use std::alloc::{AllocError as NoMemory, Global};
use std::marker::Model;

/// The most bytes of one read.
const PIECE: usize = 4_096;

/// Reads messages from a source, one after the other. A contract sees a reader as the bytes that it
/// holds: those that were read and not yet handed out.
pub struct Reader {
    alloc: Global,
    held: BytesMut,
    spans: Vec<HeaderSpan>,
}

// By hand, so that no crate above proves it again.
impl Drop for Reader {
    fn drop(self) {
        let Reader {
            alloc: _,
            held: _,
            spans: _,
        } = self;
    }
}

impl Model for Reader {
    ghost use Rattle.std.specs.Prelude.{List, ℕ, length, ◌≡◌};

    ghost Value = { List ℕ };

    ghost view = { λ r. r.held.items };

    ghost invariant = { λ r. length r.spans.items ≡ 5462 };
}

impl Reader {
    /// A reader that holds nothing yet.
    pub fn make(alloc: Global) -> Result<Reader, NoMemory>
        ensures { IfOk result (λ reader. reader ≡ []) }
    {
        Ok(Reader {
            alloc,
            held: BytesMut::new(alloc),
            spans: vec![in alloc; EMPTY_HEADER_SPAN; ROOM]?,
        })
    }

    /// Drops what is held, and its room, so that another source can be read.
    pub fn clear(&mut self)
        ensures { self.new ≡ [] }
    {
        self.held = BytesMut::new(self.alloc);
    }

    /// The next message of the bytes that are held and of those that `source` still has, or None
    /// where they end before one begins (RFC 9112, section 2).
    ///
    /// Refused comes where no message can be there, Cut where the input ends inside one, ReadFault
    /// where the source failed, NoMemory where memory was refused. After any of these nothing is said
    /// of what the reader holds. It reads only while what it holds has neither a whole message nor a refusal, pieces of at
    /// most 4,096 bytes, and tells the source where it holds nothing before that.
    pub fn next<S: Source>(&mut self, source: &mut S) -> Result<Option<Message>, NextEnd>
        // What is to come is what is held and then what the source has left: a message is taken from
        // its front, None is its end, and a cut or a refusal is of all of it.
        ensures message { IfOk result (λ o. IfSome o (λ m. (text : List ℕ) × IsMessage text m
            × Consumes (prepend_known self.old (S.left source.old))
            (prepend_known self.new (S.left source.new)) text)) }
        ensures end { IfOk result (λ o. IfNone o
            (IsAtEnd (prepend_known self.old (S.left source.old)))) }
        ensures cut { IfErr result (λ e. IfCut e (λ got.
            IfSome (prepend_known self.old (S.left source.old)) (IsCutAt got))) }
        ensures refused { IfErr result (λ e. IfRefused e (λ fault.
            IfSome (prepend_known self.old (S.left source.old)) (IsRefusedBy fault))) }

        // A failure is the source's own, by its count.
        ensures fault { IsErrOf result NextEnd.ReadFault
            → Rose (S.faults source.old) (S.faults source.new) }
        ensures later { S.faults source.old ≤ S.faults source.new }

        // The source loses bytes at its front alone, no piece of them once those before it decide, and none while what is
        // held decides.
        ensures sparing { TakesSparingly (S.left source.old) (S.left source.new) self.old }
        ensures quiet { ¬ (IsPartial self.old) → source.new ≡ source.old }
        ensures bounded { IfOk result (λ o. IfSome o (λ m. length m.body ≤ max_body)) }
    {
        loop {
            if let Some(head) = self.look()? {
                return Ok(Some(self.take_message(head, source)?));
            }
            if !self.take_lines(source)? {
                return self.end_of_input();
            }
        }
    }

    /// The head at the front of what is held, None where it is still to be completed.
    fn look(&mut self) -> Result<Option<Head>, NextEnd>
        ensures same { self.new ≡ self.old }
        ensures head { IfOk result (λ o. IfSome o (HasHead self.old)) }
        ensures none { IfOk result (λ o. IfNone o (IsShortHead self.old)) }
        ensures refused { IfErr result (λ e. IsRefusalWith e (λ fault. IsRefusedBy fault self.old)) }
    {
        match find_head(self.held.as_slice(), &mut self.spans) {
            Ok(found) => Ok(found),
            Err(fault) => Err(NextEnd::Refused(fault)),
        }
    }

    /// Reads pieces until one brings a line's end or fills the room of a head: before that no head can be whole or dead.
    /// False where the source has come to its end.
    fn take_lines<S: Source>(&mut self, source: &mut S) -> Result<bool, NextEnd>
        requires { IsShortHead self.old }
        ensures more { IfOk result (λ more. IsTrue more → length self.old < length self.new) }
        ensures known { OnOk result (Keeps (prepend_known self.old (S.left source.old))
            (prepend_known self.new (S.left source.new))) }
        ensures end { IfOk result (λ more. IsFalse more
            → IsAtEnd (S.left source.new) × IsShortHead self.new) }
        ensures outside { IfErr result IsOutside }
        ensures fault { IsErrOf result NextEnd.ReadFault
            → Rose (S.faults source.old) (S.faults source.new) }
        ensures later { S.faults source.old ≤ S.faults source.new }
        ensures sparing { (taken : List ℕ) × Consumes (S.left source.old) (S.left source.new) taken
            × IsSparing self.old taken × OnOk result (self.new ≡ self.old ++ taken) }
    {
        loop {
            let before = self.held.len();
            if !self.take_in(source)? {
                return Ok(false);
            }
            if self.has_line_from(before) || MAX_HEAD <= self.held.len() {
                return Ok(true);
            }
        }
    }

    /// Whether a line ends behind so many bytes of what is held.
    fn has_line_from(&self, before: usize) -> bool
        requires { before ≤ length self.now }
        ensures { IsFalse result → (k : ℕ) → before ≤ k → k < length self.now → slice_index self.now k ≢ line_feed }
    {
        match memchr(b'\n', &self.held.as_slice()[before..]) {
            Some(_) => true,
            None => false,
        }
    }

    /// Tells the source that it rests, where nothing is held.
    fn tell_rest<S: Source>(&self, source: &mut S)
        ensures same_bytes { S.left source.new ≡ S.left source.old }
        ensures same_faults { S.faults source.new ≡ S.faults source.old }
    {
        let rests = self.held.is_empty();
        if rests {
            source.at_rest();
        }
    }

    /// Reads one piece. False where the source has come to its end.
    fn take_in<S: Source>(&mut self, source: &mut S) -> Result<bool, NextEnd>
        ensures more { IfOk result (λ more. IsTrue more → length self.old < length self.new) }
        ensures known { OnOk result (Keeps (prepend_known self.old (S.left source.old))
            (prepend_known self.new (S.left source.new))) }
        ensures end { IfOk result (λ more. IsFalse more
            → IsAtEnd (S.left source.new) × (self.new ≡ self.old)) }
        ensures outside { IfErr result IsOutside }
        ensures fault { IsErrOf result NextEnd.ReadFault
            → Rose (S.faults source.old) (S.faults source.new) }
        ensures later { S.faults source.old ≤ S.faults source.new }
        ensures piece { LosesPiece (S.left source.old) (S.left source.new)
            (λ piece. OnOk result (self.new ≡ self.old ++ piece)) }
    {
        self.tell_rest(source);
        let mut piece = [0u8; PIECE];
        let Ok(count) = source.read(&mut piece) else {
            return Err(NextEnd::ReadFault);
        };
        self.held.extend_from_slice(&piece[..count])?;
        Ok(0 < count)
    }

    /// What is answered where the input ends before the next message is whole.
    fn end_of_input(&self) -> Result<Option<Message>, NextEnd>
        ensures none { IfOk result (λ o. (o ≡ None) × (self.now ≡ [])) }
        ensures cut { IfErr result (λ e. IsCutWith e
            (λ got. (0 < length self.now) × (got ≡ length self.now))) }
    {
        if self.held.is_empty() {
            Ok(None)
        } else {
            Err(NextEnd::Cut {
                got: self.held.len() as u64,
            })
        }
    }

    /// Takes the message of an accepted head, and reads on where its body is not whole yet.
    fn take_message<S: Source>(&mut self, head: Head, source: &mut S) -> Result<Message, NextEnd>
        requires { HasHead self.old head }
        ensures message { IfOk result (λ m. (text : List ℕ) × IsMessage text m
            × Consumes (prepend_known self.old (S.left source.old))
            (prepend_known self.new (S.left source.new)) text) }
        ensures cut { IfErr result (λ e. IsCutOrOutside e (λ got.
            IfSome (prepend_known self.old (S.left source.old)) (IsCutAt got))) }
        ensures fault { IsErrOf result NextEnd.ReadFault
            → Rose (S.faults source.old) (S.faults source.new) }
        ensures later { S.faults source.old ≤ S.faults source.new }
        ensures sparing { TakesSparingly (S.left source.old) (S.left source.new) self.old }
        ensures quiet { ¬ (IsShortBody self.old) → source.new ≡ source.old }
        ensures bounded { IfOk result (λ m. length m.body ≤ max_body) }
    {
        let target = self.operation(head.target)?;
        let mut body = self.start_body(head)?;
        while body.len() < head.size {
            if !self.take_body(source, &mut body, head.size)? {
                return Err(NextEnd::Cut {
                    got: (head.len + body.len()) as u64,
                });
            }
        }
        Ok(Message {
            target,
            body: Bytes::from(body),
            last: head.last,
        })
    }

    /// Reads one piece to the end of the body, as much of it as the size asks, and holds what is behind. False where the
    /// source has come to its end.
    fn take_body<S: Source>(
        &mut self,
        source: &mut S,
        body: &mut Vec<u8>,
        size: usize,
    ) -> Result<bool, NextEnd>
        requires nothing_held { self.old ≡ [] }
        requires short { vec_len body.old < size }
        ensures more { IfOk result (λ more. IsTrue more → vec_len body.old < vec_len body.new) }
        ensures piece { LosesPiece (S.left source.old) (S.left source.new)
            (λ piece. OnOk result (MovesTo body.old.items piece size body.new.items self.new)) }
        ensures end { IfOk result (λ more. IsFalse more
            → IsAtEnd (S.left source.new) × (body.new.items ≡ body.old.items) × (self.new ≡ [])) }
        ensures outside { IfErr result IsOutside }
        ensures fault { IsErrOf result NextEnd.ReadFault
            → Rose (S.faults source.old) (S.faults source.new) }
        ensures later { S.faults source.old ≤ S.faults source.new }
    {
        let mut piece = [0u8; PIECE];
        let Ok(count) = source.read(&mut piece) else {
            return Err(NextEnd::ReadFault);
        };
        let part = count.min(size - body.len());
        body.extend_from_slice(&piece[..part])?;
        self.held.extend_from_slice(&piece[part..count])?;
        Ok(0 < count)
    }

    /// A copy of the operation's name.
    fn operation(&self, target: Option<Span>) -> Result<Option<Bytes>, NoMemory>
        requires { IfSome target (IsWithin (length self.now)) }
        ensures { IfOk result (λ name. name ≡ option_map (span_bytes self.now) target) }
    {
        match target {
            Some(span) => Ok(Some(Bytes::copied(self.alloc, span.of(self.held.as_slice()))?)),
            None => Ok(None),
        }
    }

    /// Takes the head off, and as much of the body as is held. All room for the body is made here.
    fn start_body(&mut self, head: Head) -> Result<Vec<u8>, NoMemory>
        requires { head.len ≤ length self.old }
        ensures { IfOk result (λ body. MovesTo [] (drop head.len self.old) head.size body.items self.new) }
    {
        let mut body = Vec::with_capacity(self.alloc, head.size)?;
        self.held.advance(head.len);
        self.move_to(&mut body, head.size)?;
        Ok(body)
    }

    /// Moves the front of what is held to the end of the body, until that has its size.
    fn move_to(&mut self, body: &mut Vec<u8>, size: usize) -> Result<(), NoMemory>
        requires { vec_len body.old ≤ size }
        ensures { OnOk result (MovesTo body.old.items self.old size body.new.items self.new) }
    {
        let count = self.held.len().min(size - body.len());
        body.extend_from_slice(&self.held.as_slice()[..count])?;
        self.held.advance(count);
        Ok(())
    }
}
