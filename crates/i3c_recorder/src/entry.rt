use i3c_step::{Event, Reply};

/// An event of a run, and its reply.
#[derive(Debug, PartialEq, Eq, Drop)]
pub struct Entry {
    /// What happened.
    pub event: Event,
    /// What it led to.
    pub reply: Reply,
}
