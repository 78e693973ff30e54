//! Which changes of other cells were carried out.

ghost use Rattle.std.specs.Prelude.{◌≡◌, ◌<◌, ℕ, nat_eq, length, IfOk, if◌then◌else◌};
ghost use Rattle.global_index.specs.Marks.{mark_in};

use std::alloc::{AllocError as NoMemory, Global};

/// Of each source, the number of the last of its changes that a cell carried out.
#[derive(Drop)]
pub struct Marks {
    last: Vec<u64>,
}

impl Marks {
    /// Nothing was carried out, of so many sources.
    pub fn new(alloc: Global, sources: u32) -> Result<Marks, NoMemory>
        ensures marks { IfOk result (λ marks. (source : ℕ) → mark_in marks.last.items source ≡ 0) }
        ensures sources { IfOk result (λ marks. length marks.last.items ≡ sources) }
    {
        let mut last = Vec::new(alloc);
        last.resize(sources as usize, 0)?;
        Ok(Marks { last })
    }

    /// How many sources there are.
    pub fn sources(&self) -> usize
        ensures { result ≡ length self.now.last.items }
    {
        self.last.len()
    }

    /// The number of the last change of a source that was carried out: 0 where none was, or the source is none of these.
    pub fn last(&self, source: u32) -> u64
        ensures { result ≡ mark_in self.now.last.items source }
    {
        match self.last.get(source as usize) {
            Some(last) => *last,
            None => 0,
        }
    }

    /// Marks a change of a source as the last one. It takes no memory.
    pub fn mark(&mut self, source: u32, sequence: u64)
        requires { source < length self.old.last.items }
        ensures marks { (other : ℕ) → mark_in self.new.last.items other
            ≡ (if nat_eq source other then sequence else mark_in self.old.last.items other) }
        ensures sources { length self.new.last.items ≡ length self.old.last.items }
    {
        self.last[source as usize] = sequence;
    }
}
