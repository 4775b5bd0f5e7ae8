ghost use Rattle.std.specs.Prelude.{◌≡◌, ℕ, ◌^◌, ◌<◌, ◌↔◌, IfOk, IsOk};

use std::marker::Model;
use thiserror::Error;

/// How many slots a bus has (this project's choice).
pub const SLOTS: usize = 64;

/// How many 7-bit addresses there are.
pub const ADDRESSES: usize = 128;

/// A number is past the limit of its type.
#[derive(Clone, Copy, Debug, PartialEq, Eq, Drop, Error)]
#[error("the number is out of range")]
pub struct OutOfRange;

/// A 7-bit address, `00` to `7F` (I3C Basic 5.1.2.2).
#[derive(Clone, Copy, Debug, PartialEq, Eq, PartialOrd, Ord, Default)]
pub struct Addr7 {
    value: u8,
}

impl Model for Addr7 {
    ghost Value = { ℕ };

    ghost view = { λ a. a.value };

    ghost invariant = { λ a. a.value < 128 };

    ghost inverse = { λ n. record { value = n } };
}

impl Addr7 {
    /// The address of this number, which is at most `7F`.
    pub fn new(value: u8) -> Result<Addr7, OutOfRange>
        ensures ok { IsOk result ↔ (value < 128) }
        ensures same { IfOk result (λ a. a ≡ value) }
    {
        if value < 128 {
            Ok(Addr7 { value })
        } else {
            Err(OutOfRange)
        }
    }

    /// The address as a number.
    pub fn get(self) -> u8
        ensures same { result ≡ self }
        ensures in_range { self < 128 }
    {
        self.value
    }
}

/// A place on the bus, 0 to 63. The main controller sits in slot 0 (this project's choice).
#[derive(Clone, Copy, Debug, PartialEq, Eq, PartialOrd, Ord, Default)]
pub struct Slot {
    value: u8,
}

impl Model for Slot {
    ghost use Rattle.std.specs.Prelude.{ℕ, ◌<◌};
    ghost use Rattle.i3c_base.specs.declared.range.TheConstants.{SLOTS};

    ghost Value = { ℕ };

    ghost view = { λ a. a.value };

    ghost invariant = { λ a. a.value < SLOTS };

    ghost inverse = { λ n. record { value = n } };
}

impl Slot {
    ghost use Rattle.std.specs.Prelude.{◌≡◌, ◌<◌, ◌↔◌, IfOk, IsOk};
    ghost use Rattle.i3c_base.specs.declared.range.TheConstants.{SLOTS};

    /// The slot of this number, which is below `SLOTS`.
    pub fn new(value: u8) -> Result<Slot, OutOfRange>
        ensures ok { IsOk result ↔ (value < SLOTS) }
        ensures same { IfOk result (λ a. a ≡ value) }
    {
        if (value as usize) < SLOTS {
            Ok(Slot { value })
        } else {
            Err(OutOfRange)
        }
    }

    /// The slot of an index.
    pub fn from_index(index: usize) -> Slot
        requires { index < SLOTS }
        ensures { result ≡ index }
    {
        Slot { value: index as u8 }
    }

    /// The slot as an index.
    pub fn index(self) -> usize
        ensures same { result ≡ self }
        ensures in_range { self < SLOTS }
    {
        self.value as usize
    }
}

/// A provisioned ID of 48 bits, taken as one number (I3C Basic 5.1.4.1.1).
#[derive(Clone, Copy, Debug, PartialEq, Eq, PartialOrd, Ord, Default)]
pub struct Pid {
    value: u64,
}

impl Model for Pid {
    ghost Value = { ℕ };

    ghost view = { λ a. a.value };

    ghost invariant = { λ a. a.value < 2 ^ 48 };

    ghost inverse = { λ n. record { value = n } };
}

impl Pid {
    /// The provisioned ID of this number, which is below 2^48.
    pub fn new(value: u64) -> Result<Pid, OutOfRange>
        ensures ok { IsOk result ↔ (value < 2 ^ 48) }
        ensures same { IfOk result (λ a. a ≡ value) }
    {
        if value < 1 << 48 {
            Ok(Pid { value })
        } else {
            Err(OutOfRange)
        }
    }

    /// The provisioned ID as a number.
    pub fn get(self) -> u64
        ensures same { result ≡ self }
        ensures in_range { self < 2 ^ 48 }
    {
        self.value
    }
}
