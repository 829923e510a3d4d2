use std::sync::Wait;

/// One worker's job. It moves to the worker's thread.
pub trait Duty: Send + Drop {
    type Done: Send + Drop;

    // what the Done of this duty may be
    ghost done: { Self → Self.Done → Type 0 };

    /// Does the job, which may wait.
    fn work<R: Wait + Sync>(self, rt: &R) -> Self::Done
        ensures { done self result };
}
