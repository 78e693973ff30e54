//! What an entry stands for.

ghost use Rattle.std.specs.Prelude.{◌≡◌, Some};
ghost use Rattle.local_index.specs.Claims.{claim_of, is_committed, is_held, joined, without};

/// What an entry stands for. One that stands for neither is not there.
#[derive(Clone, Copy, PartialEq, Drop)]
pub enum Claim {
    /// The committed item.
    Committed,
    /// The image that a transaction holds.
    Held,
    /// The committed item and the image, which have this entry both.
    Both,
}

impl Claim {
    /// Whether the entry is one of the committed item.
    pub fn is_committed(self) -> bool
        ensures { result ≡ is_committed (Some self) }
    {
        match self {
            Claim::Committed | Claim::Both => true,
            Claim::Held => false,
        }
    }

    /// Whether the entry is one of the image that a transaction holds.
    pub fn is_held(self) -> bool
        ensures { result ≡ is_held (Some self) }
    {
        match self {
            Claim::Held | Claim::Both => true,
            Claim::Committed => false,
        }
    }

    /// The claim of which these are so, where one is.
    fn of(committed: bool, held: bool) -> Option<Claim>
        ensures { result ≡ claim_of committed held }
    {
        match (committed, held) {
            (true, true) => Some(Claim::Both),
            (true, false) => Some(Claim::Committed),
            (false, true) => Some(Claim::Held),
            (false, false) => None,
        }
    }

    /// This claim and another one.
    pub(crate) fn with(self, other: Claim) -> Claim
        ensures { Some result ≡ joined other (Some self) }
    {
        if self == other { self } else { Claim::Both }
    }

    /// What is left of this claim without another one.
    pub(crate) fn without(self, other: Claim) -> Option<Claim>
        ensures { result ≡ without other (Some self) }
    {
        Claim::of(
            self.is_committed() && !other.is_committed(),
            self.is_held() && !other.is_held(),
        )
    }
}
