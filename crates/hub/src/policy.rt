use i3c_bus::{Policy, Request, Verdict};

/// Accepts this many interrupts, and no other request: no device may join by itself, or take the role over.
#[derive(Clone, Copy, Debug)]
pub struct Quota {
    /// How many interrupts it still accepts.
    pub left: u32,
    /// How many requests it refused.
    pub refused: u64,
}

impl Quota {
    /// Accepts this many.
    pub fn new(left: u32) -> Quota {
        Quota { left, refused: 0 }
    }
}

// The trait asks for one `ghost` line: which verdict the policy may give to a request, and what it is afterwards. The bus's
// contracts speak of a policy by this line alone. `⊤` says nothing of it, which is enough for most programs: the bus is
// proved to be right whatever its policy decides. To prove something of the policy itself, say it here, as in `λ old request
// verdict new. new.left ≤ old.left`; the check then asks for a proof of it in `verdict`.
impl Policy for Quota {
    ghost use Rattle.std.specs.Prelude.{⊤};

    ghost verdict_gives = { λ old request verdict new. ⊤ };

    fn verdict(&mut self, request: Request) -> Verdict {
        match request {
            Request::Interrupt(_) if self.left > 0 => {
                self.left -= 1;
                Verdict::Accept
            }
            Request::Interrupt(_) | Request::Join | Request::Role(_) => {
                self.refused = self.refused.saturating_add(1);
                Verdict::Refuse
            }
        }
    }
}
