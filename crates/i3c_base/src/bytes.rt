use crate::device::REGISTERS;
use std::fmt;
use std::marker::Model;

/// The bytes that one frame read: at most as many as a device has registers.
#[derive(Clone, Copy)]
pub struct Bytes {
    // the first of these were read; the others are 00
    bytes: [u8; REGISTERS],
    count: u8,
}

impl Model for Bytes {
    ghost use Rattle.std.specs.Prelude.{ℕ, ◌≡◌, ◌≤◌, List, length, take};
    ghost use Rattle.i3c_base.specs.Filling.{bytes_back, filled_up};
    ghost use Rattle.i3c_base.specs.declared.device.TheConstants.{REGISTERS};

    ghost Value = { List ℕ };

    ghost view = { λ b. take b.count b.bytes };

    ghost invariant = { λ b. (length b.bytes ≡ REGISTERS) × (b.count ≤ REGISTERS) × (b.bytes ≡ filled_up REGISTERS (take b.count b.bytes)) };

    ghost inverse = { λ bytes. record { bytes = filled_up REGISTERS bytes; count = length bytes } };

    ghost inverse_ok = { bytes_back };
}

impl Bytes {
    ghost use Rattle.std.specs.Prelude.{◌≡◌, ◌≤◌, length};
    ghost use Rattle.i3c_base.specs.declared.device.TheConstants.{REGISTERS as MOST};

    /// These bytes; there are at most sixteen.
    pub fn new(bytes: &[u8]) -> Bytes
        requires { length bytes.now ≤ MOST }
        ensures { result ≡ bytes.now }
    {
        let mut kept = [0; REGISTERS];
        kept[..bytes.len()].copy_from_slice(bytes);
        Bytes {
            bytes: kept,
            count: bytes.len() as u8,
        }
    }

    /// The bytes, in the order in which they were read.
    pub fn as_slice(&self) -> &[u8]
        ensures same { result.now ≡ self.now }
        ensures few { length self.now ≤ MOST }
    {
        &self.bytes[..self.count as usize]
    }
}

/// A list of the bytes.
impl fmt::Debug for Bytes {
    fn fmt<W: fmt::Write>(&self, f: &mut fmt::Formatter<W>) -> fmt::Result {
        f.debug_list().entries(self.as_slice()).finish()
    }
}

/// Equal where the same bytes were read.
impl PartialEq for Bytes {
    ghost use Rattle.std.specs.Prelude.{nat_eq};
    ghost use Rattle.std.specs.Cmp.{partial_equiv_from_equiv};
    ghost use Rattle.std.specs.Cmp.Lexicographic.{lists_per, pointwise};
    ghost use Rattle.std.proofs.lemmas.Cmp.{nat_eq_equiv};

    ghost eq = { pointwise nat_eq };

    ghost laws = { lists_per (partial_equiv_from_equiv nat_eq_equiv) };

    fn eq(&self, other: &Bytes) -> bool {
        self.as_slice() == other.as_slice()
    }
}

impl Eq for Bytes {
    ghost use Rattle.std.specs.Cmp.Lexicographic.{lists_equiv};
    ghost use Rattle.std.proofs.lemmas.Cmp.{nat_eq_equiv};

    ghost laws = { lists_equiv nat_eq_equiv };
}
