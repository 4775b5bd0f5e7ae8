ghost use Rattle.std.specs.Prelude.{◌≡◌, ◌↔◌, ℕ, ◌<◌, ◌==◌, false, if◌then◌else◌};
ghost use Rattle.i3c_base.specs.declared.range.TheConstants.{SLOTS as SLOT_COUNT};
ghost use Rattle.i3c_base.specs.Frames.{with_kinds, without_kinds};
ghost use Rattle.i3c_base.specs.Numbers.{kind_set};
ghost use Rattle.i3c_device.specs.Enabling.{kinds_in, kinds_of};
ghost use Rattle.i3c_device.specs.Sets.{has};

use crate::kinds::{may_ask_role, may_interrupt, may_join};
use crate::own_kinds::OwnKinds;
use crate::slot_set::SlotSet;
use i3c_base::Kinds;

/// In which slots each kind of event is enabled.
#[derive(Clone, Copy)]
pub(crate) struct Enabled {
    pub interrupts: SlotSet,
    pub roles: SlotSet,
    pub joins: SlotSet,
}

impl Enabled {
    /// None in any slot.
    pub fn new() -> Enabled {
        Enabled {
            interrupts: SlotSet::none(),
            roles: SlotSet::none(),
            joins: SlotSet::none(),
        }
    }

    /// The kinds in this slot.
    pub fn at(self, index: usize) -> OwnKinds
        requires { index < SLOT_COUNT }
        ensures { kinds_of result ≡ kinds_in self index }
    {
        OwnKinds {
            interrupt: self.interrupts.has(index),
            role: self.roles.has(index),
            join: self.joins.has(index),
        }
    }

    /// The slots for which others have other kinds.
    pub fn differing(self, others: Enabled) -> SlotSet
        ensures { (s : ℕ) → s < SLOT_COUNT → (has result s ≡ false) ↔ (kinds_in self s ≡ kinds_in others s) }
    {
        let interrupts = self.interrupts.apart(others.interrupts);
        let roles = self.roles.apart(others.roles);
        let joins = self.joins.apart(others.joins);
        interrupts.or(roles).or(joins)
    }

    /// These kinds in this slot, and in the others as they are.
    pub fn renewed(self, index: usize, kinds: OwnKinds) -> Enabled
        requires { index < SLOT_COUNT }
        ensures { (s : ℕ) → s < SLOT_COUNT → kinds_in result s ≡ (if s == index then kinds_of kinds else kinds_in self s) }
    {
        Enabled {
            interrupts: self.interrupts.with(index, kinds.interrupt),
            roles: self.roles.with(index, kinds.role),
            joins: self.joins.with(index, kinds.join),
        }
    }

    /// These kinds more in these slots.
    pub fn with(self, kinds: Kinds, among: SlotSet) -> Enabled
        ensures { (s : ℕ) → s < SLOT_COUNT → kinds_in result s ≡ (if has among s then with_kinds (kinds_in self s) (kind_set kinds) else kinds_in self s) }
    {
        Enabled {
            interrupts: self.interrupts.or(among.only_if(may_interrupt(kinds))),
            roles: self.roles.or(among.only_if(may_ask_role(kinds))),
            joins: self.joins.or(among.only_if(may_join(kinds))),
        }
    }

    /// Without these kinds in these slots.
    pub fn without(self, kinds: Kinds, among: SlotSet) -> Enabled
        ensures { (s : ℕ) → s < SLOT_COUNT → kinds_in result s ≡ (if has among s then without_kinds (kinds_in self s) (kind_set kinds) else kinds_in self s) }
    {
        Enabled {
            interrupts: self.interrupts.without(among.only_if(may_interrupt(kinds))),
            roles: self.roles.without(among.only_if(may_ask_role(kinds))),
            joins: self.joins.without(among.only_if(may_join(kinds))),
        }
    }
}
