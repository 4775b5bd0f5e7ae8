/// What a program is told.
#[derive(Drop)]
pub enum Told<A> {
    /// What its line is answered.
    Answered(A),
    /// Lines of the tracks ran while it waited.
    Happened(A),
    /// No line of the tracks is left.
    NothingLeft(A),
    /// Its mark is taken.
    Marked(A),
}
