use thiserror::Error;

/// Why words are no list (I3C Basic 5.1.9.3.7). Words and entries are counted from 1.
#[derive(Clone, Copy, Debug, PartialEq, Eq, Drop, Error)]
pub enum ListFault {
    /// This word has a wrong T bit, the first one that has.
    #[error("word {0} has a wrong T bit")]
    Parity(usize),
    /// There is no count or no entry, or the last entry has fewer than four words.
    #[error("the list is cut short")]
    Truncated,
    /// The count is neither the number of entries nor one less.
    #[error("the count is not that of the entries")]
    Count,
    /// This entry has no address, or is the first and has no dynamic one.
    #[error("entry {0} lacks its address")]
    Address(usize),
    /// Two entries have one address.
    #[error("two entries have one address")]
    Twice,
}
