//! Elements that are worked on by a thread each.

ghost use Rattle.std.specs.Prelude.{ℕ, ◌<◌, All, length, slice_index_or};

use std::alloc::Global;
use std::sync::Wait;
use std::thread;
use std::thread::Threads;

/// What threads share that work on elements.
pub(crate) trait Works<X> {
    /// What all of them go by.
    type Task;

    // What an element has to be for a task, before and afterwards.
    ghost suits: { Self → Self.Task → X → Type 0 };

    // What a task does with it.
    ghost does: { Self → Self.Task → X → X → Type 0 };

    /// Works on an element.
    fn work<T: Wait>(&self, rt: &T, alloc: Global, task: Self::Task, element: &mut X)
        requires suits { suits self.now task element.old }
        ensures does { does self.now task element.old element.new }
        ensures suits { suits self.now task element.new };
}

/// Works on all elements at the same time, each in a thread of its own.
pub(crate) fn work_each<R, C, X>(
    rt: &R,
    alloc: Global,
    shared: &C,
    task: C::Task,
    elements: &mut [X],
)
where
    R: Threads + Wait + Sync,
    C: Works<X> + Sync,
    C::Task: Copy + Sync,
    X: Send,
    requires suits { All (λ x. C.suits shared.now task x) elements.old }
    ensures does { (i : ℕ) (d : _) → i < length elements.old
        → C.does shared.now task (slice_index_or elements.old i d) (slice_index_or elements.new i d) }
    ensures suits { All (λ x. C.suits shared.now task x) elements.new }
{
    if elements.is_empty() {
        return;
    }
    let threads = elements.len();
    thread::for_each_mut(
        rt,
        elements,
        threads,
        &|_, element: &mut X|
            requires suits { C.suits shared.now task element.now }
            ensures does { C.does shared.entry.now task element.entry.now element.exit.now }
            ensures suits { C.suits shared.entry.now task element.exit.now }
        { shared.work(rt, alloc, task, element) },
    );
}
