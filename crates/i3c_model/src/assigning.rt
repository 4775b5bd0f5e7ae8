use crate::faults::OutOfMemory;
use crate::plain::{Choice, Plain};
use crate::plain_entry::PlainEntry;
use i3c_base::{Addr7, Cuts, Identity, RoundReply, Served};

impl Plain {
    ghost use Rattle.std.specs.Prelude.{◌≡◌, ◌+◌, ◌↔◌, ◌<◌, ◌⊎◌, ℕ, IfOk, OnOk, OnErr, IsTrue, MatchBool, MatchOption};
    ghost use Rattle.i3c_base.specs.declared.range.TheConstants.{ADDRESSES};
    ghost use Rattle.i3c_base.specs.Cutting.{lost_by};
    ghost use Rattle.i3c_base.specs.Round.{AllHearersLost, AnyHears, IsBeatenByLost, IsWinner, Rounds, assigned, ended, opened};
    ghost use Rattle.i3c_base.specs.Serve.{Frame, header_bits, refuse_all};
    ghost use Rattle.i3c_base.specs.State.{IsPick, IsPickable};
    ghost use Rattle.i3c_step.specs.Step.{Acts, Becomes, is_pickable};
    ghost use Rattle.i3c_step.specs.declared.events.Event.{Event};
    ghost use Rattle.i3c_step.specs.declared.replies.Reply.{Reply};
    ghost use Rattle.i3c_model.specs.declared.plain.Choice.{Choice as ChoiceValue};
    ghost use Rattle.i3c_model.specs.Choosing.{Follows};
    ghost use Rattle.i3c_model.specs.Meaning.{IsLeastHearer, NoHearer};
    ghost use Rattle.i3c_model.specs.Storing.{MayAssign};

    // Opens a session, which each device without an address hears. The first request is refused.
    pub(crate) fn open_daa(&mut self, cuts: &Cuts) -> Served
        ensures { Frame self.old refuse_all cuts.now result (header_bits result + 9) (Becomes opened) self.new }
    {
        let served = self.refuse_first();
        let last = self.header_bits() + 9;
        self.in_session = true;
        // every device stays
        self.devices.retain(|_, device| {
            device.hear();
            true
        });
        self.empty(cuts, last);
        served
    }

    // One round of the session: the least identity of the hearers gets its address.
    pub(crate) fn round(&mut self, cuts: &Cuts, choice: Choice) -> Result<RoundReply, OutOfMemory>
        ensures rounds { IfOk result (λ answer. Rounds self.old cuts.now answer self.new) }
        ensures unchanged { OnErr result (self.new ≡ self.old) }
        ensures memory { OnErr result (MayAssign self.old cuts.now) }
        ensures chosen { IfOk result (λ answer. Follows (Acts self.old (Event.Round cuts.now)) choice (Reply.Round answer)) }
    {
        let Some(pick) = self.pick() else {
            return Ok(RoundReply::NoAddress);
        };
        if self.is_over(cuts, choice) {
            self.empty(cuts, 0);
            return Ok(RoundReply::Done);
        }
        let Some(identity) = self.winner(cuts, choice) else {
            self.empty(cuts, ROUND_END);
            return Ok(RoundReply::Nobody);
        };
        let address = self.address_kept(&identity).unwrap_or(pick);
        self.assign(address, &identity, cuts)?;
        self.empty(cuts, ROUND_END);
        Ok(RoundReply::Assigned(address, identity))
    }

    // Ends the session. Nobody hears any more.
    pub(crate) fn end_daa(&mut self)
        ensures { self.new ≡ ended self.old }
    {
        self.in_session = false;
        // every device stays
        self.devices.retain(|_, device| {
            device.fall_silent();
            true
        });
    }

    // The least address that may be given.
    pub(crate) fn pick(&self) -> Option<Addr7>
        ensures { MatchOption result ((a : ℕ) → ¬ IsPickable self.now a) (IsPick self.now) }
    {
        for value in 0x08..0x78 {
            let Ok(address) = Addr7::new(value) else {
                continue;
            };
            if self.is_pickable(address) {
                return Some(address);
            }
        }
        None
    }

    // Whether an address is usable, has no entry, and is no static one.
    pub(crate) fn is_pickable(&self, address: Addr7) -> bool
        ensures may { IsTrue result ↔ IsPickable self.now address }
        ensures test { result ≡ is_pickable self.now address }
    {
        if self.is_given(address) {
            return false;
        }
        if self.legacy.contains_key(&address) {
            return false;
        }
        if self.declared.contains_key(&address) {
            return false;
        }
        is_usable(address)
    }

    // Whether nobody acknowledges the header: there are no hearers, or that is chosen and all hearers are lost by then.
    fn is_over(&self, cuts: &Cuts, choice: Choice) -> bool
        ensures lawful { MatchBool result (AllHearersLost self.now (lost_by cuts.now 0)) (AnyHears self.now) }
        ensures chosen { MatchBool result (¬ (choice ≡ ChoiceValue.Silent) → ¬ AnyHears self.now) (choice ≡ ChoiceValue.Silent → ¬ AllHearersLost self.now (lost_by cuts.now 0)) }
    {
        let may_be_silent = choice == Choice::Silent;
        !self.devices.iter().any(|(slot, device)| {
            device.is_hearing() && !(may_be_silent && cuts.is_lost(*slot, 0))
        })
    }

    // The least identity of the hearers that the round loses, or of those that it doesn't lose.
    fn least_hearer(&self, cuts: &Cuts, lost: bool) -> Option<Identity>
        ensures { MatchOption result (NoHearer self.now (lost_by cuts.now 73) lost) (IsLeastHearer self.now (lost_by cuts.now 73) lost) }
    {
        self.devices
            .iter()
            .filter(|(slot, device)| {
                device.is_hearing() && cuts.is_lost(**slot, ROUND_END) == lost
            })
            .map(|(_, device)| device.identity())
            .min()
    }

    // The winner of a round, if it has one: the least identity of the hearers that aren't lost, unless the choice is that
    // a lost one has beaten it.
    fn winner(&self, cuts: &Cuts, choice: Choice) -> Option<Identity>
        ensures lawful { MatchOption result (AllHearersLost self.now (lost_by cuts.now 73) ⊎ IsBeatenByLost self.now (lost_by cuts.now 73)) (IsWinner self.now (lost_by cuts.now 73)) }
        ensures chosen { MatchOption result (¬ (choice ≡ ChoiceValue.Lost) → AllHearersLost self.now (lost_by cuts.now 73)) (λ _. choice ≡ ChoiceValue.Lost → ¬ (AllHearersLost self.now (lost_by cuts.now 73) ⊎ IsBeatenByLost self.now (lost_by cuts.now 73))) }
    {
        let left = self.least_hearer(cuts, false)?;
        match self.least_hearer(cuts, true) {
            Some(lost) if choice == Choice::Lost && lost.cmp(&left).is_lt() => None,
            _ => Some(left),
        }
    }

    // The hearers of an identity that the round doesn't lose take an address, which is kept for it from now on.
    fn assign(
        &mut self,
        address: Addr7,
        identity: &Identity,
        cuts: &Cuts,
    ) -> Result<(), OutOfMemory>
        requires { address < ADDRESSES }
        ensures done { OnOk result (self.new ≡ assigned (lost_by cuts.now 73) identity.now address self.old) }
        ensures unchanged { OnErr result (self.new ≡ self.old) }
    {
        let entry = PlainEntry::kept(identity, self.fixed_of(identity));
        self.given.insert(address, entry)?;
        self.listed = false;
        // every device stays
        self.devices.retain(|slot, device| {
            let is_left = !cuts.is_lost(*slot, ROUND_END);
            if device.is_hearing() && is_left && device.identity() == *identity {
                device.take_address(address);
            }
            true
        });
        Ok(())
    }
}

// The last bit of a round, its address byte's ACK.
const ROUND_END: u16 = 73;

ghost use Rattle.std.specs.Prelude.{◌↔◌, IsTrue};
ghost use Rattle.i3c_base.specs.State.{IsUsable};

// Whether devices may have an address: `08` to `77`, but none that a single wrong bit makes of the broadcast address
// `7E` (I3C Basic 5.1.2.2.5).
fn is_usable(address: Addr7) -> bool
    ensures { IsTrue result ↔ IsUsable address }
{
    matches!(address.get(), 0x08..=0x77) && !matches!(address.get(), 0x3E | 0x5E | 0x6E | 0x76)
}
