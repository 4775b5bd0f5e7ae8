/// What is printed where all holds.
#[derive(Clone, Copy)]
pub enum Showing {
    /// The numbers of orders, of lines that were run, of ends, and of lines that were refused with nothing expected of them; up
    /// to five of these lines; then each end.
    Ends,
    /// These numbers alone.
    Numbers,
}
