ghost use Rattle.std.specs.Prelude.{◌≡◌, IfOk};

use crate::seq::Seq;
use crate::text::Text;
use std::alloc::AllocError as NoMemory;

/// A step of a document path: to the attribute of a name, or to a place of a list, from 0. Names come before places.
/// Developer Guide: Document paths.
#[derive(Debug, PartialEq, Eq, PartialOrd, Ord)]
pub enum Step {
    Name(Text),
    Index(u32),
}

// By hand, so that a crate above calls this one function where it would else prove again how a step is let go.
impl Drop for Step {
    fn drop(self) {
        match self {
            Step::Name(_) | Step::Index(_) => {}
        }
    }
}

impl Step {
    /// An equal step.
    pub fn try_clone(&self) -> Result<Step, NoMemory>
        ensures { IfOk result (λ copy. copy ≡ self.now) }
    {
        match self {
            Step::Name(name) => Ok(Step::Name(name.try_clone()?)),
            Step::Index(index) => Ok(Step::Index(*index)),
        }
    }
}

impl Clone for Step {
    ghost is_clone = { λ step copy. copy ≡ step };

    fn clone(&self) -> Result<Step, NoMemory> {
        self.try_clone()
    }
}

/// Where a value is within an item: a list of steps from the item on. A path comes before those that go on from it.
#[derive(Debug, PartialEq, Eq, PartialOrd, Ord)]
pub struct DocPath {
    pub steps: Seq<Step>,
}

// By hand, so that a crate above calls this one function where it would else prove again how a path is let go.
impl Drop for DocPath {
    fn drop(self) {
        let DocPath { steps: _ } = self;
    }
}

impl DocPath {
    /// An equal path.
    pub fn try_clone(&self) -> Result<DocPath, NoMemory>
        ensures { IfOk result (λ copy. copy ≡ self.now) }
    {
        Ok(DocPath {
            steps: self.steps.try_clone()?,
        })
    }
}

impl Clone for DocPath {
    ghost is_clone = { λ path copy. copy ≡ path };

    fn clone(&self) -> Result<DocPath, NoMemory> {
        self.try_clone()
    }
}
