ghost use Rattle.std.specs.Prelude.{◌≡◌};

use i3c_base::Slot;
use std::marker::Model;

/// The role of active controller. It is seen as the slot that holds it, has no clone, and must be handed on or retired.
pub struct Role {
    holder: Slot,
}

impl Model for Role {
    ghost use Rattle.std.specs.Prelude.{ℕ};

    ghost Value = { ℕ };

    ghost view = { λ r. r.holder };
}

/// The slot of the active controller, as a bus keeps it. It must be retired with the role.
pub struct Active {
    slot: Slot,
}

impl Model for Active {
    ghost use Rattle.std.specs.Prelude.{ℕ};

    ghost Value = { ℕ };

    ghost view = { λ a. a.slot };
}

impl Role {
    /// The slot that holds it.
    pub fn holder(&self) -> Slot
        ensures { result ≡ self.now }
    {
        self.holder
    }
}

impl Active {
    /// The first active controller, in this slot, and its role.
    pub fn new(slot: Slot) -> (Active, Role)
        ensures kept { result.0 ≡ slot }
        ensures held { result.1 ≡ slot }
    {
        (Active { slot }, Role { holder: slot })
    }

    /// The active controller's slot.
    pub fn slot(&self) -> Slot
        ensures { result ≡ self.now }
    {
        self.slot
    }
}

/// The role passes to this slot (GETACCCR, I3C Basic 5.1.9.3.16).
pub fn give(active: &mut Active, role: Role, to: Slot) -> Role
    requires own { role ≡ active.old }
    ensures kept { active.new ≡ to }
    ensures held { result ≡ to }
{
    let Role { holder: _ } = role;
    active.slot = to;
    Role { holder: to }
}

/// The role ends, with the bus that it is of.
pub fn retire(active: Active, role: Role)
    requires own { role ≡ active }
{
    let Active { slot: _ } = active;
    let Role { holder: _ } = role;
}
