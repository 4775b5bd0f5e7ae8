use crate::portion::Portion;

/// Which runs of a program are tried.
#[derive(Drop)]
pub enum Which {
    /// All of them.
    All,
    /// Those of a part.
    Part(Portion),
    /// One of them: its lines take the answers of these numbers, counted from 0.
    One(Vec<usize>),
    /// So many of them, of which each line's answer is drawn, from this seed on.
    Drawn(u64, u64),
}
