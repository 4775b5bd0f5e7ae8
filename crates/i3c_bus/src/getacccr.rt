use crate::bus::Bus;
use crate::frames::FrameStart;
use i3c_base::{Addr7, Cuts, Served, Slot};
use i3c_frame::Tap;
use i3c_handoff::{HandFault, Offer, Role, give, offer, offer_bits, tell_offer};

impl Bus {
    ghost use Rattle.std.specs.Prelude.{◌≡◌, ◌≢◌, ◌∷◌, true, None, Some, IfErr, MatchResult};
    ghost use Rattle.i3c_base.specs.Frames.{IsWillingAt, handed};
    ghost use Rattle.i3c_base.specs.declared.requests.Served.{Served as ServedValue};
    ghost use Rattle.i3c_frame.specs.Taps.{Tells};
    ghost use Rattle.i3c_handoff.specs.declared.faults.HandFault.{HandFault as Fault};
    ghost use Rattle.i3c_step.specs.Step.{cuts_active, first_refusal, hand_checks};
    ghost use Rattle.i3c_step.specs.declared.events.Event.{Event};
    ghost use Rattle.i3c_step.specs.declared.replies.Refusal.{Refusal};
    ghost use Rattle.i3c_bus.specs.Calls.{Carries};
    ghost use Rattle.i3c_bus.specs.Hands.{HandFits, hand_refusal, handed_hand, handed_reply};
    ghost use Rattle.i3c_bus.specs.declared.hand.Hand.{Hand};

    /// Offers the role to the device at an address (GETACCCR, I3C Basic 5.1.9.3.16), and turns requests down. Where a
    /// willing device there acknowledges and its byte is read whole, it is the active controller, with its copy of the
    /// list as its table, and the role comes back as its own. If the offer is refused, or nobody takes it, the role comes
    /// back with the same holder. A frame that nobody answered has still served a request and lost the devices cut in it.
    pub fn hand_over<T: Tap>(
        &mut self,
        role: Role,
        to: Addr7,
        tap: &mut T,
        cuts: &Cuts,
    ) -> Result<(Role, Served), (Role, Served, HandFault)>
        requires fits { HandFits (Hand.Role role) self.old.state }
        ensures carried { Carries self.old self.new (Event.HandOver to cuts.now) (handed_reply result) (handed_hand result) (Tells T.note_gives tap.old tap.new) }
        ensures kept { IfErr result (λ refused. refused.0 ≡ role) }
        ensures unsent { IfErr result (λ refused. refused.2 ≢ Fault.NoAnswer to → refused.1 ≡ ServedValue.Quiet) }
    {
        if let Err(fault) = self.may_offer(to, cuts) {
            return Err((role, Served::Quiet, fault));
        }
        let start = self.begin_refusing(tap, cuts);
        let FrameStart { served, bits } = self.go_on(start, tap, cuts);
        let active = self.active();
        let offer = offer(&self.devices, active, to, cuts, bits);
        tell_offer(tap, to, &offer);
        let last = bits + offer_bits(&offer);
        match offer {
            Offer::Taken(slot) => {
                let role = self.hand(role, slot, to);
                self.drop_lost(cuts, last);
                Ok((role, served))
            }
            Offer::Nobody | Offer::Torn(_) => {
                self.drop_lost(cuts, last);
                Err((role, served, HandFault::NoAnswer(to)))
            }
        }
    }

    /// Whether the role may be offered to an address: the first fault that holds.
    fn may_offer(&self, to: Addr7, cuts: &Cuts) -> Result<(), HandFault>
        ensures { MatchResult result (λ _. first_refusal ((cuts_active self.now.state cuts.now, Refusal.ActiveStays) ∷ hand_checks self.now.state to) ≡ None)
            (λ fault. (first_refusal ((cuts_active self.now.state cuts.now, Refusal.ActiveStays) ∷ hand_checks self.now.state to) ≡ Some (hand_refusal fault)) × (fault ≢ Fault.NoAnswer to)) }
    {
        if self.cuts_active(cuts) {
            return Err(HandFault::ActiveStays);
        }
        if self.address(self.active()) == Some(to) {
            return Err(HandFault::IsActive);
        }
        let capable = match self.table.row_of(to) {
            Some(row) => row.bcr.capable(),
            None => false,
        };
        if !capable {
            return Err(HandFault::NotCapable);
        }
        if !self.listed() {
            return Err(HandFault::ListStale);
        }
        Ok(())
    }

    /// The role passes to a slot, whose device has this address. What its device's copy of the list gives is the table
    /// then: the one that there is, in which addresses are kept for declared identities alone.
    fn hand(&mut self, role: Role, slot: Slot, address: Addr7) -> Role
        requires own { role ≡ self.old.state.active }
        requires willing { IsWillingAt self.old.state address slot }
        ensures state { self.new.state ≡ handed slot address self.old.state }
        ensures held { result ≡ slot }
        ensures room { self.new.room ≡ self.old.room }
    {
        self.table.take_over(address);
        self.devices.lose_role_wish(slot);
        give(&mut self.active, role, slot)
    }
}
