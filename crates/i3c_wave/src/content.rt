/// What a dump has.
#[derive(Clone, Copy, Debug)]
pub enum Content {
    /// SCL and SDA; the texts of the symbols and the numbers of the frames; of a script also its lines, and what they print.
    Full,
    /// SCL and SDA alone.
    Wires,
}
