ghost use Rattle.std.specs.Prelude.{⊤, ◌≡◌, [], ◌∷◌, codes};

use bitflags::{Flag, Flags, bitflag_items};

/// What a command does to the kinds of events that are enabled: ENEC enables, DISEC disables (I3C Basic 5.1.9.3.1).
#[derive(Clone, Copy, Debug, PartialEq, Eq)]
pub enum Change {
    /// ENEC: the kinds are enabled.
    Enable,
    /// DISEC: they are disabled.
    Disable,
}

/// A set of event kinds, as ENEC and DISEC carry it (I3C Basic 5.1.9.3.1).
#[derive(Clone, Copy, PartialEq, Eq, Debug)]
pub struct Kinds(u8);

bitflag_items! {
    impl Kinds: u8 {
        const INTERRUPT = 1;
        const ROLE = 2;
        const JOIN = 8;
    }
}

impl Flags for Kinds {
    type Bits = u8;

    ghost exact = { ⊤ };

    ghost table = { (codes "INTERRUPT", 1) ∷ (codes "ROLE", 2) ∷ (codes "JOIN", 8) ∷ [] };

    ghost set_of = { λ k. k.0 };

    fn flags<'a>() -> &'a [Flag<Kinds>] {
        Kinds::FLAGS
    }

    fn bits(&self) -> u8 {
        self.0
    }

    fn from_bits_retain(bits: u8) -> Kinds {
        Kinds(bits)
    }
}
