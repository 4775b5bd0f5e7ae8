/// The counts of a script that was run to its end.
#[derive(Clone, Copy, Debug, PartialEq, Eq)]
pub struct Tally {
    /// How many lines were refused.
    pub refused: u64,
    /// How many expectations weren't met.
    pub unmet: u64,
}
