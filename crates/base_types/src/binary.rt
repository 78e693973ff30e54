ghost use Rattle.std.specs.Prelude.{◌≡◌, ◌==◌, ◌↔◌, [], length, Some, IfOk, IsTrue, refl};
ghost use Rattle.std.specs.Cmp.{partial_equiv_from_equiv};
ghost use Rattle.std.specs.Cmp.Lexicographic.{pointwise, slice_cmp, nat_list_eq_equiv, nat_list_cmp_total, texts_po, texts_ties};
ghost use Rattle.std.specs.Ordering.{nat_cmp};
ghost use Rattle.std.proofs.Common.{rules};
ghost use Rattle.std.specs.Cmp.Rules.{hashing};
ghost use Rattle.std.specs.Hash as fed;

use std::alloc::{AllocError as NoMemory, Global};
use std::cmp::Ordering;
use std::hash::{Hash, Hasher};
use std::marker::Model;

/// Bytes of any kind, which contracts see as a list.
#[derive(Debug)]
pub struct Bytes {
    bytes: Vec<u8>,
}

// By hand, so that a crate above calls this one function where it would else prove again how a binary is let go.
impl Drop for Bytes {
    fn drop(self) {
        let Bytes { bytes: _ } = self;
    }
}

impl Model for Bytes {
    ghost use Rattle.std.specs.Prelude.{List, ℕ};

    ghost Value = { List ℕ };

    ghost view = { λ b. b.bytes.items };
}

impl Bytes {
    /// A copy of `bytes`.
    pub fn copied(alloc: Global, bytes: &[u8]) -> Result<Bytes, NoMemory>
        ensures { IfOk result (λ copy. copy ≡ bytes.now) }
    {
        Ok(Bytes {
            bytes: Vec::from_slice(alloc, bytes)?,
        })
    }

    /// The bytes, lent.
    pub fn as_slice(&self) -> &[u8]
        ensures { result.now ≡ self.now }
    {
        self.bytes.as_slice()
    }

    /// How many bytes there are.
    pub fn len(&self) -> usize
        ensures { result ≡ length self.now }
    {
        self.bytes.len()
    }

    /// Whether there is no byte.
    pub fn is_empty(&self) -> bool
        ensures { IsTrue result ↔ (self.now ≡ []) }
    {
        self.bytes.is_empty()
    }

    fn into_vec(self) -> Vec<u8>
        ensures { result.items ≡ self }
    {
        let Bytes { bytes } = self;
        bytes
    }

    /// Equal bytes.
    pub fn try_clone(&self) -> Result<Bytes, NoMemory>
        ensures { IfOk result (λ copy. copy ≡ self.now) }
    {
        Bytes::copied(*self.bytes.allocator(), self.bytes.as_slice())
    }
}

impl From<Vec<u8>> for Bytes {
    ghost from_gives = { λ vector bytes. bytes ≡ vector.items };

    fn from(bytes: Vec<u8>) -> Bytes {
        Bytes { bytes }
    }
}

impl From<Bytes> for Vec<u8> {
    ghost from_gives = { λ bytes vector. vector.items ≡ bytes };

    fn from(bytes: Bytes) -> Vec<u8> {
        bytes.into_vec()
    }
}

impl Clone for Bytes {
    ghost is_clone = { λ bytes copy. copy ≡ bytes };

    fn clone(&self) -> Result<Bytes, NoMemory> {
        self.try_clone()
    }
}

impl PartialEq for Bytes {
    ghost eq = { pointwise ◌==◌ };

    ghost laws = { partial_equiv_from_equiv nat_list_eq_equiv };

    fn eq(&self, other: &Bytes) -> bool {
        self.bytes == other.bytes
    }
}

impl Eq for Bytes {
    ghost laws = { nat_list_eq_equiv };
}

/// Bytes are ordered as unsigned numbers, a proper front before what it begins.
impl PartialOrd for Bytes {
    ghost partial_cmp = { λ x y. Some (slice_cmp nat_cmp x y) };

    ghost laws = { texts_po };

    fn partial_cmp(&self, other: &Bytes) -> Option<Ordering> {
        Some(self.cmp(other))
    }
}

impl Ord for Bytes {
    ghost cmp = { slice_cmp nat_cmp };

    ghost total = { nat_list_cmp_total };

    ghost matches_partial_cmp = { λ x y. refl };

    ghost matches_eq = { texts_ties };

    fn cmp(&self, other: &Bytes) -> Ordering {
        self.bytes.cmp(&other.bytes)
    }
}

impl Hash for Bytes {
    ghost hash_input = { fed.slice fed.u8 };

    ghost respects_eq = { Prim.search (hashing, rules) };

    fn hash<H: Hasher>(&self, state: &mut H) {
        self.bytes.hash(state);
    }
}
