use i3c_base::Addr7;
use std::marker::Model;

// stands for no address
const NONE: u8 = 128;

/// A static address or none, in two bytes that are compared together with those beside them.
///
/// Clauses see an address or none.
#[derive(Clone, Copy)]
pub(crate) struct StaticAddress {
    value: u8,
    // always 0; it makes the registers of an address four bytes long
    rest: u8,
}

impl Model for StaticAddress {
    ghost use Rattle.std.specs.Prelude.{◌≡◌, ◌≤◌, ℕ, Option};
    ghost use Rattle.std.proofs.Common.{sym};
    ghost use Rattle.i3c_base.specs.AddressBytes.{address_of, byte_back, byte_of};

    ghost Value = { Option ℕ };

    ghost view = { λ a. address_of a.value };

    ghost invariant = { λ a. (a.value ≤ 128) × (a.rest ≡ 0) };

    ghost inverse = { λ o. record { value = byte_of o; rest = 0 } };

    ghost inverse_ok = { λ a h i. record { value = byte_back a.value i; rest = sym h.1 i } };
}

impl StaticAddress {
    ghost use Rattle.std.specs.Prelude.{◌≡◌};
    ghost use Rattle.i3c_base.specs.AddressBytes.{HasSevenBits, byte_of};

    /// This address or none.
    pub fn of(address: Option<Addr7>) -> StaticAddress
        ensures { result ≡ address }
    {
        match address {
            Some(address) => StaticAddress {
                value: address.get(),
                rest: 0,
            },
            None => StaticAddress {
                value: NONE,
                rest: 0,
            },
        }
    }

    /// The address, if there is one.
    pub fn address(&self) -> Option<Addr7>
        ensures { result ≡ self.now }
    {
        match Addr7::new(self.value) {
            Ok(address) => Some(address),
            Err(_) => None,
        }
    }

    /// The byte that stands for it.
    pub fn byte(&self) -> u8
        ensures same { result ≡ byte_of self.now }
        ensures small { HasSevenBits self.now }
    {
        self.value
    }

    /// The second byte, which is always 0.
    pub fn rest(&self) -> u8
        ensures { result ≡ 0 }
    {
        self.rest
    }
}
