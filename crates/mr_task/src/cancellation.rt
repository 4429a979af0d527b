//! Whether a task's result is still wanted.
//!
//! Where two workers do one task and one is done, the other need not end it. Source: OSDI 2004,
//! section 3.6.

/// Says whether work is still wanted. Answers never change what a result is.
pub trait Cancellation {
    /// Whether the work is still wanted. Callers ask often, so the answer should cost little.
    fn is_wanted(&self) -> bool;
}

/// Never cancels.
pub struct NeverCancelled;

impl Cancellation for NeverCancelled {
    fn is_wanted(&self) -> bool {
        true
    }
}
