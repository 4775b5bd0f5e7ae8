/// What came of a line that was run.
#[derive(Clone, Copy, Debug, PartialEq, Eq)]
pub enum Ran {
    /// All that is expected holds.
    Held,
    /// All that is expected holds, and the line is noted.
    Noted,
    /// An expectation is broken.
    Broken,
}
