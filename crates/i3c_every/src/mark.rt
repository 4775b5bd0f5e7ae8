use std::alloc::{AllocError, Global};
use std::marker::Model;

/// What a program says of what it does next, in bytes. Clauses see these.
#[derive(Drop)]
pub struct Mark {
    bytes: Vec<u8>,
}

impl Model for Mark {
    ghost use Rattle.std.specs.Prelude.{ℕ, List};

    ghost Value = { List ℕ };

    ghost view = { λ mark. mark.bytes.items };
}

impl Mark {
    ghost use Rattle.std.specs.Prelude.{◌≡◌, ◌↔◌, IfOk, IsTrue};

    /// A mark of these bytes.
    pub fn new(bytes: Vec<u8>) -> Mark
        ensures { result ≡ bytes.items }
    {
        Mark { bytes }
    }

    /// The same mark once more.
    pub fn copied(&self, alloc: Global) -> Result<Mark, AllocError>
        ensures { IfOk result (λ mark. mark ≡ self.now) }
    {
        let mut bytes = Vec::new(alloc);
        bytes.extend_from_slice(self.as_bytes())?;
        Ok(Mark { bytes })
    }

    /// Its bytes.
    pub fn as_bytes(&self) -> &[u8]
        ensures { result.now ≡ self.now }
    {
        self.bytes.as_slice()
    }

    /// Whether another mark has the same bytes.
    pub fn is_same(&self, other: &Mark) -> bool
        ensures { IsTrue result ↔ (self.now ≡ other.now) }
    {
        self.as_bytes() == other.as_bytes()
    }
}

/// Equal where the bytes are the same.
impl PartialEq for Mark {
    ghost use Rattle.std.specs.Prelude.{nat_eq};
    ghost use Rattle.std.specs.Cmp.{partial_equiv_from_equiv};
    ghost use Rattle.std.specs.Cmp.Lexicographic.{lists_per, pointwise};
    ghost use Rattle.std.proofs.lemmas.Cmp.{nat_eq_equiv};

    ghost eq = { pointwise nat_eq };

    ghost laws = { lists_per (partial_equiv_from_equiv nat_eq_equiv) };

    fn eq(&self, other: &Mark) -> bool {
        self.as_bytes() == other.as_bytes()
    }
}

impl Eq for Mark {
    ghost use Rattle.std.specs.Cmp.Lexicographic.{lists_equiv};
    ghost use Rattle.std.proofs.lemmas.Cmp.{nat_eq_equiv};

    ghost laws = { lists_equiv nat_eq_equiv };
}
