ghost use Rattle.std.specs.Prelude.{◌≡◌};

use crate::range::Addr7;

/// The addresses that devices may be given, one bit for each.
const USABLE: u128 = 0x00BF_BFFF_BFFF_FFFF_BFFF_FFFF_FFFF_FF00;

/// A set of addresses (I3C Basic 5.1.2.2.5), one bit for each.
#[derive(Clone, Copy, Debug, PartialEq, Eq)]
pub struct Addresses(u128);

impl Addresses {
    ghost use Rattle.std.specs.Prelude.{◌≡◌, ◌≢◌, ◌↔◌, ◌&&◌, ◌<◌, ◌≤◌, ℕ, IsTrue, MatchOption, false, not, true};
    ghost use Rattle.i3c_base.specs.Sets.{is_in, IsLowest};
    ghost use Rattle.i3c_base.specs.State.{IsUsable};

    /// The empty set.
    pub fn new() -> Addresses
        ensures { (a : ℕ) → is_in result.0 a ≡ false }
    {
        Addresses(0)
    }

    /// The addresses that devices may be given: `08` to `77` without `3E`, `5E`, `6E` and `76`.
    pub fn usable() -> Addresses
        ensures { (a : ℕ) → (is_in result.0 a ≡ true) ↔ IsUsable a }
    {
        Addresses(USABLE)
    }

    /// Whether an address is in the set.
    pub fn has(self, address: Addr7) -> bool
        ensures { result ≡ is_in self.0 address }
    {
        self.0 >> address.get() & 1 == 1
    }

    /// The set with an address.
    pub fn with(self, address: Addr7) -> Addresses
        ensures in_it { is_in result.0 address ≡ true }
        ensures others { (a : ℕ) → a ≢ address → is_in result.0 a ≡ is_in self.0 a }
    {
        Addresses(self.0 | 1 << address.get())
    }

    /// The set without an address.
    pub fn without(self, address: Addr7) -> Addresses
        ensures not_in_it { is_in result.0 address ≡ false }
        ensures others { (a : ℕ) → a ≢ address → is_in result.0 a ≡ is_in self.0 a }
        ensures less { is_in self.0 address ≡ true → result.0 < self.0 }
    {
        Addresses(self.0 & !(1 << address.get()))
    }

    /// The set without the addresses of another.
    pub fn without_all(self, others: Addresses) -> Addresses
        ensures { (a : ℕ) → is_in result.0 a ≡ (is_in self.0 a && not (is_in others.0 a)) }
    {
        Addresses(self.0 & !others.0)
    }

    /// The set of this address, or the empty set where the set doesn't have it.
    pub fn only(self, address: Addr7) -> Addresses
        ensures same { is_in result.0 address ≡ is_in self.0 address }
        ensures others { (a : ℕ) → a ≢ address → is_in result.0 a ≡ false }
    {
        Addresses(self.0 & 1 << address.get())
    }

    /// The least address of the set.
    pub fn lowest(self) -> Option<Addr7>
        ensures { MatchOption result ((a : ℕ) → is_in self.0 a ≡ false) (IsLowest self.0) }
    {
        if self.0 == 0 {
            return None;
        }
        Some(Addr7::new(self.0.trailing_zeros() as u8).unwrap())
    }
}
