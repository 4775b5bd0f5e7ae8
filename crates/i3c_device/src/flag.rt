use std::marker::Model;

/// Yes or no in one byte, which compares with the bytes beside it.
///
/// Clauses see a truth value.
#[derive(Drop)]
pub(crate) struct Flag {
    value: u8,
}

impl Model for Flag {
    ghost use Rattle.std.specs.Prelude.{◌≤◌, Bool};
    ghost use Rattle.i3c_device.specs.ByteFields.{is_one};

    ghost Value = { Bool };

    ghost view = { λ f. is_one f.value };

    ghost invariant = { λ f. f.value ≤ 1 };
}

impl Flag {
    ghost use Rattle.std.specs.Prelude.{◌≡◌};
    ghost use Rattle.i3c_device.specs.ByteFields.{bit_of};

    /// The flag of a truth value.
    pub fn of(is_so: bool) -> Flag
        ensures { result ≡ is_so }
    {
        Flag {
            value: u8::from(is_so),
        }
    }

    /// The same once more.
    pub fn copied(&self) -> Flag
        ensures { result ≡ self.now }
    {
        Flag { value: self.value }
    }

    /// Whether it is yes.
    pub fn get(&self) -> bool
        ensures { result ≡ self.now }
    {
        self.value == 1
    }

    /// Its byte.
    pub fn byte(&self) -> u8
        ensures { result ≡ bit_of self.now }
    {
        self.value
    }
}
