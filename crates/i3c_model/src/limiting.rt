ghost use Rattle.std.specs.Prelude.{◌≡◌};
ghost use Rattle.i3c_base.specs.Frames.{length_bits};

use crate::faults::OutOfMemory;
use crate::plain::{Choice, Plain};
use i3c_base::{Addr7, Answer, Cuts, Direction, Fixed, Length, REGISTERS, Slot};
use i3c_step::{Framed, Reply};

impl Plain {
    ghost use Rattle.std.specs.Prelude.{◌≡◌, ◌≤◌, IfOk, OnErr};
    ghost use Rattle.i3c_base.specs.Frames.{SetsLength, least_length_from, length_bits, transfer_length, with_length};
    ghost use Rattle.i3c_step.specs.Step.{Transfers};
    ghost use Rattle.i3c_model.specs.Choosing.{Follows};
    ghost use Rattle.i3c_model.specs.Meaning.{length_in_slot};
    ghost use Rattle.i3c_model.specs.Storing.{IsRecordDue};

    // Sets the maximum length of writes or of reads: of the devices at an address, or without one of all but the active
    // controller.
    pub(crate) fn set_length(
        &mut self,
        way: Direction,
        most: Length,
        to: &Option<Addr7>,
        policy: &Fixed,
        cuts: &Cuts,
        choice: Choice,
    ) -> Result<Reply, OutOfMemory>
        ensures sets { IfOk result (λ reply. Transfers self.old (length_bits to.now) (SetsLength to.now way most) policy.now cuts.now reply self.new) }
        ensures unchanged { OnErr result (self.new ≡ self.old) }
        ensures memory { OnErr result (IsRecordDue self.old policy.now) }
        ensures chosen { IfOk result (Follows (Transfers self.old (length_bits to.now) (SetsLength to.now way most) policy.now cuts.now) choice) }
    {
        let begin = self.word_bits(policy) + self.header_bits();
        let answer = self.answer_of(to, cuts, begin + 18, choice);
        let last = begin + length_bits(to, &answer);
        let served = self.serve_first(policy, cuts, last, choice)?;
        if let Answer::Done = answer {
            self.limit(to, way, most);
        }
        self.empty(cuts, last);
        Ok(Reply::Framed(Framed { served, answer }))
    }

    // Each device that a command reaches has this maximum length.
    fn limit(&mut self, to: &Option<Addr7>, way: Direction, most: Length)
        ensures { self.new ≡ with_length to.now way most self.old }
    {
        let active = self.active;
        // every device stays
        self.devices.retain(|slot, device| {
            if *slot != active && device.is_meant(to) {
                device.limit(way, most);
            }
            true
        });
    }

    // The number of bytes that a write to an address may have, or that a read of it gives: the registers of a legacy target
    // there, or otherwise the least maximum length of the devices there.
    pub(crate) fn transfer_length(&self, way: Direction, at: Addr7) -> u8
        ensures same { result ≡ transfer_length self.now way at }
        ensures few { result ≤ 16 }
    {
        if self.target(at).is_some() {
            return REGISTERS as u8;
        }
        self.least_length(way, at)
    }

    // The least maximum length of the devices at an address but the active controller.
    fn least_length(&self, way: Direction, at: Addr7) -> u8
        ensures same { result ≡ least_length_from self.now.active way at 0 self.now.devices }
        ensures few { result ≤ 16 }
    {
        let mut least = REGISTERS as u8;
        for index in 0..self.slots() {
            let length = self.length_in_slot(Slot::from_index(index), way, at);
            if length < least {
                least = length;
            }
        }
        least
    }

    // The maximum length of a slot's device, if it isn't the active controller and has this address; otherwise the greatest
    // one.
    fn length_in_slot(&self, slot: Slot, way: Direction, at: Addr7) -> u8
        ensures { result ≡ length_in_slot self.now way at slot }
    {
        if slot == self.active {
            return REGISTERS as u8;
        }
        match self.device(slot) {
            Some(device) if device.has(at) => device.length(way).get(),
            _ => REGISTERS as u8,
        }
    }
}

// The bits of a command with this answer: three words, or a word, a header and after its ACK two words.
fn length_bits(to: &Option<Addr7>, answer: &Answer) -> u16
    ensures { result ≡ length_bits to.now answer.now }
{
    match (to, answer) {
        (None, _) => 27,
        (Some(_), Answer::NoAnswer(_)) => 18,
        _ => 36,
    }
}
