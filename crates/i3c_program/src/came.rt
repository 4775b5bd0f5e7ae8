use crate::reason::Reason;

/// What a line of a program came to in its session.
#[derive(Clone, Copy, Debug, PartialEq, Eq)]
pub enum Came {
    /// Nothing: it is empty, or a comment.
    Nothing,
    /// It isn't done, for this reason.
    Refused(Reason),
    /// A run that began as this one sent another line here, or went on.
    Differs,
    /// The program is told something; the devices that ask have changed, or not.
    Told(bool),
    /// Its mark was taken before, where the run is now: so the run is left.
    Known,
    /// Lines that the tracks or the scene run break an expectation.
    Breaks,
    /// The run is over, and another order begins.
    Begins,
    /// The run is over, and was the last one.
    All,
    /// The run is over, and no other one of those that are tried is left, which aren't all.
    Tried,
    /// The program is told the lines of its run.
    Script,
    /// It is told the numbers of the answers that these took.
    Choices,
    /// It is told how many of its next lines are answered as in the run before.
    Same,
}
