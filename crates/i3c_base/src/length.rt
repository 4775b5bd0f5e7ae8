use crate::device::REGISTERS;
use crate::range::OutOfRange;
use std::marker::Model;

/// How many bytes a transfer may have, 1 to 16 (this project's choice).
#[derive(Clone, Copy, Debug, PartialEq, Eq, PartialOrd, Ord)]
pub struct Length {
    value: u8,
}

impl Model for Length {
    ghost use Rattle.std.specs.Prelude.{ℕ, ◌<◌, ◌≤◌};
    ghost use Rattle.i3c_base.specs.declared.device.TheConstants.{REGISTERS};

    ghost Value = { ℕ };

    ghost view = { λ a. a.value };

    ghost invariant = { λ a. (0 < a.value) × (a.value ≤ REGISTERS) };

    ghost inverse = { λ n. record { value = n } };
}

impl Length {
    ghost use Rattle.std.specs.Prelude.{◌≡◌, ◌<◌, ◌≤◌, ◌↔◌, IfOk, IsOk};
    ghost use Rattle.i3c_base.specs.declared.device.TheConstants.{REGISTERS as MOST};

    /// The length of this number, which is 1 to 16.
    pub fn new(value: u8) -> Result<Length, OutOfRange>
        ensures ok { IsOk result ↔ ((0 < value) × (value ≤ MOST)) }
        ensures same { IfOk result (λ a. a ≡ value) }
    {
        if 0 < value && value as usize <= REGISTERS {
            Ok(Length { value })
        } else {
            Err(OutOfRange)
        }
    }

    /// As many bytes as a device has registers.
    pub fn most() -> Length
        ensures { result ≡ MOST }
    {
        Length {
            value: REGISTERS as u8,
        }
    }

    /// The length as a number.
    pub fn get(self) -> u8
        ensures same { result ≡ self }
        ensures some { 0 < self }
        ensures few { self ≤ MOST }
    {
        self.value
    }
}
