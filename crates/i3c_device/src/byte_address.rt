use i3c_base::Addr7;
use std::marker::Model;

// stands for no address
const NONE: u8 = 128;

/// An address or none in one byte, which compares with the bytes beside it.
///
/// Clauses see an address or none.
#[derive(Drop)]
pub(crate) struct ByteAddress {
    value: u8,
}

impl Model for ByteAddress {
    ghost use Rattle.std.specs.Prelude.{◌≤◌, ℕ, Option};
    ghost use Rattle.i3c_base.specs.AddressBytes.{address_of};

    ghost Value = { Option ℕ };

    ghost view = { λ a. address_of a.value };

    ghost invariant = { λ a. a.value ≤ 128 };
}

impl ByteAddress {
    ghost use Rattle.std.specs.Prelude.{◌≡◌, None, is_none};
    ghost use Rattle.i3c_base.specs.State.{is_the};
    ghost use Rattle.i3c_base.specs.AddressBytes.{HasSevenBits, byte_of};

    /// No address.
    pub fn none() -> ByteAddress
        ensures { result ≡ None }
    {
        ByteAddress { value: NONE }
    }

    /// This address or none.
    pub fn of(address: Option<Addr7>) -> ByteAddress
        ensures { result ≡ address }
    {
        match address {
            // the remainder is the number itself, and tells the compiler that it is an address
            Some(address) => ByteAddress {
                value: address.get() % NONE,
            },
            None => ByteAddress::none(),
        }
    }

    /// The same once more.
    pub fn copied(&self) -> ByteAddress
        ensures { result ≡ self.now }
    {
        ByteAddress { value: self.value }
    }

    /// The address, if there is one.
    pub fn get(&self) -> Option<Addr7>
        ensures { result ≡ self.now }
    {
        match Addr7::new(self.value) {
            Ok(address) => Some(address),
            Err(_) => None,
        }
    }

    /// Whether there is no address.
    pub fn is_none(&self) -> bool
        ensures { result ≡ is_none self.now }
    {
        self.value == NONE
    }

    /// Whether it is this address.
    pub fn is(&self, address: Addr7) -> bool
        ensures { result ≡ is_the address self.now }
    {
        self.value == address.get()
    }

    /// Its byte.
    pub fn byte(&self) -> u8
        ensures same { result ≡ byte_of self.now }
        ensures small { HasSevenBits self.now }
    {
        self.value
    }
}
