use crate::books::Shares;
use i3c_base::Slot;
use std::marker::Model;
use std::sync::ledger::Ledger;

/// The role of active controller, held outside the lock. It is the only one of its bus, and must be spent. It is seen as
/// the slot that holds it, and as the number of frame events in its bus's run.
pub struct HeldRole<L: Ledger, M: Ledger, N: Ledger> {
    pub(crate) shares: Shares<L, M, N>,
}

impl<L: Ledger, M: Ledger, N: Ledger> Model for HeldRole<L, M, N> {
    ghost use Rattle.std.specs.Prelude.{◌≡◌};
    ghost use Rattle.i3c_shared.specs.Values.{HeldValue};

    ghost Value = { HeldValue };

    ghost view = { λ r. record { holder = r.shares.active; frames = r.shares.frames } };

    ghost invariant = { λ r. r.shares.session ≡ 0 };
}

impl<L: Ledger, M: Ledger, N: Ledger> HeldRole<L, M, N> {
    ghost use Rattle.std.specs.Prelude.{◌≡◌};

    /// The slot that holds it: the active controller's.
    pub fn holder(&self) -> Slot
        ensures { result ≡ self.now.holder }
    {
        self.shares.holder
    }

    /// How many frame events its bus's run has, rounds, ends and refused frames among them: no lock, no memory.
    pub fn frames(&self) -> u64
        ensures { result ≡ self.now.frames }
    {
        self.shares.count
    }

    /// Spends it: no event, no lock, no memory.
    pub fn let_go(self) {
        let HeldRole { shares } = self;
        shares.let_go();
    }
}

/// The role while a session is open, held outside the lock. It is the only one of its bus, and must be spent. It is seen
/// as a role is.
pub struct HeldSession<L: Ledger, M: Ledger, N: Ledger> {
    pub(crate) shares: Shares<L, M, N>,
}

impl<L: Ledger, M: Ledger, N: Ledger> Model for HeldSession<L, M, N> {
    ghost use Rattle.std.specs.Prelude.{◌≡◌};
    ghost use Rattle.i3c_shared.specs.Values.{HeldValue};

    ghost Value = { HeldValue };

    ghost view = { λ s. record { holder = s.shares.active; frames = s.shares.frames } };

    ghost invariant = { λ s. s.shares.session ≡ 1 };
}

impl<L: Ledger, M: Ledger, N: Ledger> HeldSession<L, M, N> {
    ghost use Rattle.std.specs.Prelude.{◌≡◌};

    /// The slot that holds it: the active controller's.
    pub fn holder(&self) -> Slot
        ensures { result ≡ self.now.holder }
    {
        self.shares.holder
    }

    /// How many frame events its bus's run has, rounds, ends and refused frames among them: no lock, no memory.
    pub fn frames(&self) -> u64
        ensures { result ≡ self.now.frames }
    {
        self.shares.count
    }

    /// Spends it: no event, no lock, no memory.
    pub fn let_go(self) {
        let HeldSession { shares } = self;
        shares.let_go();
    }
}

/// Spends the role, if there is one.
pub(crate) fn spend_role<L: Ledger, M: Ledger, N: Ledger>(role: Option<HeldRole<L, M, N>>) {
    if let Some(role) = role {
        role.let_go();
    }
}
