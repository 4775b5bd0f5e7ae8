ghost use Rattle.std.specs.Prelude.{◌≡◌, ◌<◌};

use crate::static_address::StaticAddress;
use i3c_base::{Bcr, Dcr};

/// The stored values of an address: the registers and the static address of its device.
#[derive(Clone, Copy)]
pub(crate) struct Registers {
    pub bcr: Bcr,
    pub dcr: Dcr,
    pub fixed: StaticAddress,
}

impl Registers {
    ghost use Rattle.std.specs.Prelude.{◌≡◌, ◌↔◌, IsTrue};
    ghost use Rattle.std.specs.Int.{from_le_bytes, w32};
    ghost use Rattle.i3c_table.specs.RegisterBytes.{register_bytes, FitBytes};

    /// Whether both are the same registers, with the same static address.
    pub fn is_same(&self, other: &Registers) -> bool
        ensures { IsTrue result ↔ (self.now ≡ other.now) }
    {
        self.number() == other.number()
    }

    // The four bytes as one number, which is read from memory at once.
    fn number(&self) -> u32
        ensures same { result ≡ from_le_bytes w32 (register_bytes self.now) }
        ensures ranged { FitBytes self.now }
    {
        u32::from_le_bytes([
            byte(self.bcr.0),
            byte(self.dcr.0),
            self.fixed.byte(),
            self.fixed.rest(),
        ])
    }
}

// The same byte. The contract tells the caller its range, which the proof has no other way to read from a reference.
fn byte(value: u8) -> u8
    ensures same { result ≡ value }
    ensures small { result < 256 }
{
    value
}
