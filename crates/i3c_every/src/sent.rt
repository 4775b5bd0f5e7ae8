use crate::mark::Mark;

/// What a program sends.
#[derive(Drop)]
pub enum Sent<L> {
    /// A line before which lines of the tracks may run.
    Meets(L),
    /// A line before which none runs.
    Alone(L),
    /// It waits: a line of the tracks runs at least, if one is left.
    Waits,
    /// It says what it does next: no line runs, and the run stays where it is.
    Marks(Mark),
}
