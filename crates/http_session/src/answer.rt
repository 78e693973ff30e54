//! What a message is answered.

ghost use Rattle.std.specs.Prelude.{◌≡◌};
ghost use Rattle.http_session.specs.Answers.{text_of};

/// The answer to a message.
pub struct Answer {
    /// 200, 400 or 500.
    pub status: u16,
    pub body: Body,
}

// By hand, so that no crate above proves it again.
impl Drop for Answer {
    fn drop(self) {
        let Answer { status: _, body: _ } = self;
    }
}

/// The body of a reply.
pub enum Body {
    /// One that was made for it.
    Made(String),
    /// One that is always the same, and takes no memory.
    Fixed(&'static str),
}

// By hand, so that no crate above proves it again.
impl Drop for Body {
    fn drop(self) {
        match self {
            Body::Made(_) | Body::Fixed(_) => {}
        }
    }
}

impl Body {
    /// The text of the body.
    pub fn as_str(&self) -> &str
        ensures { result.now ≡ text_of self.now }
    {
        match self {
            Body::Made(text) => text.as_str(),
            Body::Fixed(text) => text,
        }
    }
}
