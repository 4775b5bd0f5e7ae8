ghost use Rattle.std.specs.Prelude.{◌≡◌, ◌⊎◌, true, false, slice_set, Some};
ghost use Rattle.i3c_base.specs.State.{kept_entry_of, known_in, IsKeptIn, IsPickableIn, is_the};
ghost use Rattle.i3c_base.specs.Frames.{settled};
ghost use Rattle.i3c_bus.specs.Statics.{IsFixedAt};

use crate::bus::Bus;
use i3c_base::{Addr7, Answer, Cuts, Identity};
use i3c_events::{NoAnswer, Setting, answer_of, hear_new, hear_static, kinds_bits, tell_setting};
use i3c_frame::Tap;
use i3c_handoff::Role;
use i3c_ibi::Policy;
use i3c_step::{Framed, SetFault};
use i3c_table::{Row, Table};

impl Bus {
    ghost use Rattle.std.specs.Prelude.{ℕ, ◌+◌, ◌≤◌, ◌||◌, true, false, Some, IsOk, IsTrue, MatchResult, ◌↔◌};
    ghost use Rattle.i3c_base.specs.Cutting.{lost_by};
    ghost use Rattle.i3c_base.specs.Frames.{AllLostAt, AllUnaddressedLostAt, AnyAt, AnyUnaddressedAt, SetsNew, SetsStatic, SomeLeftAt, SomeUnaddressedLeftAt, active_has, kinds_bits, with_new, with_static};
    ghost use Rattle.i3c_base.specs.State.{declared_at};
    ghost use Rattle.i3c_frame.specs.Taps.{Tells};
    ghost use Rattle.i3c_step.specs.Giving.{given_by};
    ghost use Rattle.i3c_step.specs.Replies.{set_reply};
    ghost use Rattle.i3c_step.specs.Step.{cuts_active, is_kept_for, is_no_target, is_pickable};
    ghost use Rattle.i3c_step.specs.declared.events.Event.{Event};
    ghost use Rattle.i3c_bus.specs.Asking.{Asks};
    ghost use Rattle.i3c_bus.specs.Beginning.{LeavesBy};
    ghost use Rattle.i3c_bus.specs.Calls.{Carries};
    ghost use Rattle.i3c_bus.specs.Hands.{HandFits};
    ghost use Rattle.i3c_bus.specs.Wire.{IsNewPart, IsStaticPart};
    ghost use Rattle.i3c_bus.specs.declared.hand.Hand.{Hand};

    /// Gives the device at a static address, while it has no dynamic one, this dynamic address (SETDASA, I3C Basic
    /// 5.1.9.3.10). Before its own part it serves the first request. It sends no frame and answers `NoAnswer` if no
    /// identity is declared at the static address, and `BadAddress` if the new one may not be picked and isn't kept for
    /// that identity.
    #[inline(always)]
    pub fn set_static<P: Policy, T: Tap>(
        &mut self,
        role: &Role,
        fixed: Addr7,
        new: Addr7,
        policy: &mut P,
        tap: &mut T,
        cuts: &Cuts,
    ) -> Result<Framed, SetFault>
        requires fits { HandFits (Hand.Role role.now) self.old.state }
        ensures asks { Asks P.verdict_gives policy.old policy.new self.old.state (set_reply result) }
        ensures carried { Carries self.old self.new (Event.SetStatic fixed new (given_by (set_reply result)) cuts.now) (set_reply result) (Hand.Role role.now) (Tells T.note_gives tap.old tap.new) }
    {
        if self.cuts_active(cuts) {
            return Err(SetFault::ActiveStays);
        }
        let Some(identity) = self.table.legacies().declared_at(fixed) else {
            return Err(SetFault::NoAnswer(fixed));
        };
        if !self.may_give(&identity, new) {
            return Err(SetFault::BadAddress(new));
        }
        let Ok(start) = self.begin_frame(policy, tap, cuts) else {
            return Err(SetFault::OutOfMemory);
        };
        let answer = self.static_part(fixed, &identity, new, tap, cuts, start.bits);
        Ok(Framed {
            served: start.served,
            answer,
        })
    }

    /// Gives the device at a dynamic address another one in its place (SETNEWDA, I3C Basic 5.1.9.3.11). It serves the
    /// first request first. It sends no frame and answers `NoAnswer` if the table has no row at the old address or it is
    /// the active controller's own, and `BadAddress` if the new one may not be picked.
    #[inline(always)]
    pub fn set_new<P: Policy, T: Tap>(
        &mut self,
        role: &Role,
        old: Addr7,
        new: Addr7,
        policy: &mut P,
        tap: &mut T,
        cuts: &Cuts,
    ) -> Result<Framed, SetFault>
        requires fits { HandFits (Hand.Role role.now) self.old.state }
        ensures asks { Asks P.verdict_gives policy.old policy.new self.old.state (set_reply result) }
        ensures carried { Carries self.old self.new (Event.SetNew old new (given_by (set_reply result)) cuts.now) (set_reply result) (Hand.Role role.now) (Tells T.note_gives tap.old tap.new) }
    {
        if self.cuts_active(cuts) {
            return Err(SetFault::ActiveStays);
        }
        if self.is_no_target(old) {
            return Err(SetFault::NoAnswer(old));
        }
        if !self.is_pickable(new) {
            return Err(SetFault::BadAddress(new));
        }
        let Ok(start) = self.begin_frame(policy, tap, cuts) else {
            return Err(SetFault::OutOfMemory);
        };
        let answer = self.new_part(old, new, tap, cuts, start.bits);
        Ok(Framed {
            served: start.served,
            answer,
        })
    }

    /// The own part of SETDASA, with `bits_before` bits of the frame before it: the devices that take it have the new
    /// address, and devices cut by its last bit are gone.
    #[inline(always)]
    fn static_part<T: Tap>(
        &mut self,
        fixed: Addr7,
        identity: &Identity,
        new: Addr7,
        tap: &mut T,
        cuts: &Cuts,
        bits_before: u16,
    ) -> Answer
        requires few { bits_before ≤ 18 }
        requires left { cuts_active self.old.state cuts.now ≡ false }
        requires declared { declared_at self.old.state fixed ≡ Some identity.now }
        requires fixed { IsFixedAt self.old.state.declared identity.now fixed }
        requires given { (is_pickable self.old.state new || is_kept_for self.old.state (Some identity.now) new) ≡ true }
        requires dynamic { 8 ≤ new }
        ensures sets { LeavesBy cuts.now (bits_before + kinds_bits (Some fixed) result) (SetsStatic fixed new result) self.old.state self.new.state }
        ensures told { Tells T.note_gives tap.old tap.new (IsStaticPart self.old.state cuts.now fixed new result bits_before) }
        ensures room { self.new.room ≡ self.old.room }
    {
        let heard = self.give_static(fixed, identity, new, cuts, bits_before);
        tell_setting(tap, Setting::Static, fixed, new, &heard);
        let answer = answer_of(&heard);
        self.drop_lost(cuts, bits_before + kinds_bits(&Some(fixed), &answer));
        answer
    }

    /// If the static address is acknowledged, the devices that take SETDASA there have the new address, and so has the
    /// table.
    #[inline(always)]
    fn give_static(
        &mut self,
        fixed: Addr7,
        identity: &Identity,
        new: Addr7,
        cuts: &Cuts,
        bits_before: u16,
    ) -> Result<(), NoAnswer>
        requires few { bits_before ≤ 18 }
        requires declared { declared_at self.old.state fixed ≡ Some identity.now }
        requires fixed { IsFixedAt self.old.state.declared identity.now fixed }
        requires given { (is_pickable self.old.state new || is_kept_for self.old.state (Some identity.now) new) ≡ true }
        requires dynamic { 8 ≤ new }
        ensures given { MatchResult result (λ _. AnyUnaddressedAt self.old.state fixed × (self.new.state ≡ with_static fixed identity.now new self.old.state))
            (λ none. (none.0 ≡ fixed) × AllUnaddressedLostAt self.old.state fixed (lost_by cuts.now (bits_before + 18)) × (self.new.state ≡ self.old.state)) }
        ensures answered { IsOk result ↔ SomeUnaddressedLeftAt self.old.state fixed (lost_by cuts.now (bits_before + 18)) }
        ensures room { self.new.room ≡ self.old.room }
    {
        let active = self.active();
        let heard = hear_static(&mut self.devices, active, fixed, new, cuts, bits_before);
        match heard {
            Ok(()) => {
                settle(&mut self.table, identity, fixed, new);
                return Ok(());
            }
            Err(none) => return Err(none),
        }
    }

    /// The own part of SETNEWDA, with `bits_before` bits of the frame before it: the devices that acknowledge have the
    /// new address, and devices cut by its last bit are gone.
    fn new_part<T: Tap>(
        &mut self,
        old: Addr7,
        new: Addr7,
        tap: &mut T,
        cuts: &Cuts,
        bits_before: u16,
    ) -> Answer
        requires few { bits_before ≤ 18 }
        requires left { cuts_active self.old.state cuts.now ≡ false }
        requires there { is_no_target self.old.state old ≡ false }
        requires given { is_pickable self.old.state new ≡ true }
        requires dynamic { 8 ≤ new }
        ensures sets { LeavesBy cuts.now (bits_before + kinds_bits (Some old) result) (SetsNew old new result) self.old.state self.new.state }
        ensures told { Tells T.note_gives tap.old tap.new (IsNewPart self.old.state cuts.now old new result bits_before) }
        ensures room { self.new.room ≡ self.old.room }
    {
        let heard = self.give_new(old, new, cuts, bits_before);
        tell_setting(tap, Setting::New, old, new, &heard);
        let answer = answer_of(&heard);
        self.drop_lost(cuts, bits_before + kinds_bits(&Some(old), &answer));
        answer
    }

    /// If the old address is acknowledged, its devices have the new one, and the table's row moves there.
    fn give_new(
        &mut self,
        old: Addr7,
        new: Addr7,
        cuts: &Cuts,
        bits_before: u16,
    ) -> Result<(), NoAnswer>
        requires few { bits_before ≤ 18 }
        requires there { is_no_target self.old.state old ≡ false }
        requires given { is_pickable self.old.state new ≡ true }
        requires dynamic { 8 ≤ new }
        ensures given { MatchResult result (λ _. AnyAt self.old.state old × (self.new.state ≡ with_new old new self.old.state))
            (λ none. (none.0 ≡ old) × AllLostAt self.old.state old (lost_by cuts.now (bits_before + 18)) × (self.new.state ≡ self.old.state)) }
        ensures answered { IsOk result ↔ SomeLeftAt self.old.state old (lost_by cuts.now (bits_before + 18)) }
        ensures room { self.new.room ≡ self.old.room }
    {
        let active = self.active();
        let heard = hear_new(&mut self.devices, active, old, new, cuts, bits_before);
        match heard {
            Ok(()) => {
                self.table.renumber(old, new);
                return Ok(());
            }
            Err(none) => return Err(none),
        }
    }

    /// Whether the address may be picked.
    fn is_pickable(&self, address: Addr7) -> bool
        ensures same { result ≡ is_pickable self.now.state address }
        ensures dynamic { IsTrue result → 8 ≤ address }
    {
        self.table.open_addresses().has(address)
    }

    /// Whether a declared identity may be given the address: one that may be picked, or that is kept for it.
    fn may_give(&self, identity: &Identity, address: Addr7) -> bool
        ensures same { result ≡ (is_pickable self.now.state address || is_kept_for self.now.state (Some identity.now) address) }
        ensures dynamic { IsTrue result → 8 ≤ address }
    {
        if self.is_pickable(address) {
            return true;
        }
        match self.table.address_known(identity) {
            Some(known) => known == address,
            None => false,
        }
    }
}

/// The table gives the identity that is declared at this static address a dynamic one: that which it kept for it is
/// released.
#[inline(always)]
fn settle(table: &mut Table, identity: &Identity, fixed: Addr7, new: Addr7)
    requires fixed { IsFixedAt table.old.declared identity.now fixed }
    requires given { IsPickableIn table.old.given table.old.legacy table.old.declared new ⊎ (is_the new (known_in table.old.given identity.now) ≡ true) }
    ensures { table.new ≡ record table.old { given = settled table.old.declared identity.now new table.old.given; listed = false } }
{
    let Some(known) = table.address_known(identity) else {
        enter(table, identity, fixed, new);
        return;
    };
    if known == new {
        enter(table, identity, fixed, new);
        return;
    }
    table.release(known);
    enter(table, identity, fixed, new);
}

/// The row of the identity that is declared at this static address is put.
#[inline(always)]
fn enter(table: &mut Table, identity: &Identity, fixed: Addr7, address: Addr7)
    requires fixed { IsFixedAt table.old.declared identity.now fixed }
    requires given { IsPickableIn table.old.given table.old.legacy table.old.declared address ⊎ IsKeptIn table.old.given identity.now address }
    ensures { table.new ≡ record table.old { given = slice_set table.old.given address (Some (kept_entry_of table.old.declared identity.now)); listed = false } }
{
    let Identity { bcr, dcr, .. } = *identity;
    table.put(Row {
        address,
        bcr,
        dcr,
        identity: Some(*identity),
        fixed: Some(fixed),
    });
}
