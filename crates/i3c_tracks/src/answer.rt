/// The result of an exploration of a file.
#[derive(Clone, Copy)]
pub enum Answer {
    /// Every order of the part was tried, and none breaks an expectation.
    Holds,
    /// The file is refused, or a limit was reached: nothing is said of orders that weren't tried.
    Refused,
    /// An order of the part breaks an expectation.
    Breaks,
}
