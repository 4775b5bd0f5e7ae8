use i3c_base::Addr7;

/// Which rule a symbol of a trace breaks.
#[derive(Clone, Copy)]
pub enum Breach {
    /// Its header is to an address that nobody was given (I3C Basic 5.1.4).
    Nobody(Addr7),
    /// Its header's address answers or asks, though it didn't answer at this earlier symbol, and wasn't given again.
    Silent(Addr7, usize),
    /// It gives an address that another identity was given before (I3C Basic 5.1.4.2).
    Twice(Addr7),
    /// It follows a header that nobody acknowledged (I3C Basic 5.1.2.2).
    Unanswered,
    /// It belongs to no header: there is no repeated START before it (I3C Basic 5.1.2).
    Stray,
    /// It is a word behind all that its command takes (I3C Basic 5.1.9.1).
    Surplus,
    /// It is a word behind one whose T said that it was the last (I3C Basic 5.1.2.3).
    Ended,
    /// It is an address byte with a wrong parity bit (I3C Basic 5.1.4.2).
    Parity,
}

/// A fault that a linter finds: in which frame, counted from 1; at which symbol, counted from 1 over the whole trace; and
/// which rule the symbol breaks.
#[derive(Clone, Copy)]
pub struct LintFault {
    pub frame: usize,
    pub symbol: usize,
    pub breach: Breach,
}
