use std::marker::Model;

/// A part of all runs. The parts share out the runs: each takes its share of the answers to the first line, and where a line
/// has fewer answers than there are parts, those that share an answer share out the runs behind it.
#[derive(Clone, Copy)]
pub struct Portion {
    // counted from 0
    pub(crate) index: usize,
    pub(crate) of: usize,
}

impl Model for Portion {
    ghost use Rattle.std.specs.Prelude.{◌<◌};
    ghost use Rattle.i3c_orders.specs.Portions.{Portion as PortionValue};

    ghost Value = { PortionValue };

    ghost view = { λ p. record { index = p.index; of = p.of } };

    ghost invariant = { λ p. p.index < p.of };

    ghost inverse = { λ portion. record { index = portion.index; of = portion.of } };
}

impl Portion {
    ghost use Rattle.std.specs.Prelude.{◌≡◌, ◌≤◌, ◌↔◌, ◌+◌, IfSome, IsSome, IsTrue};
    ghost use Rattle.i3c_orders.specs.Portions.{whole};

    /// Part `number`, counted from 1, of `of` parts.
    pub fn new(number: usize, of: usize) -> Option<Portion>
        ensures some { IsSome result ↔ ((1 ≤ number) × (number ≤ of)) }
        ensures portion { IfSome result (λ portion. (portion.index + 1 ≡ number) × (portion.of ≡ of)) }
    {
        let index = number.checked_sub(1)?;
        if index < of {
            Some(Portion { index, of })
        } else {
            None
        }
    }

    /// The one part that has every run.
    pub fn whole() -> Portion
        ensures { result ≡ whole }
    {
        Portion { index: 0, of: 1 }
    }

    /// Whether every run is in it.
    pub fn is_whole(self) -> bool
        ensures { IsTrue result ↔ (self ≡ whole) }
    {
        self.of == 1
    }
}
