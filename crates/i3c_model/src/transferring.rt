ghost use Rattle.std.specs.Prelude.{◌≡◌, ℕ, ◌<◌, ◌≤◌, length, slice_index};
ghost use Rattle.std.specs.Int.Bits.{bit_and};
ghost use Rattle.i3c_base.specs.Frames.{overwritten, write_bits};

use crate::faults::OutOfMemory;
use crate::plain::{Choice, Plain};
use i3c_base::{Addr7, Answer, Bytes, Cuts, Direction, Fixed, REGISTERS, Slot};
use i3c_step::{Framed, Reply};

impl Plain {
    ghost use Rattle.std.specs.Prelude.{◌≡◌, ℕ, ◌+◌, ◌<◌, ◌≤◌, length, slice_index, slice_set, IfOk, OnErr, MatchOption};
    ghost use Rattle.i3c_base.specs.declared.datum.Direction.{Direction};
    ghost use Rattle.i3c_base.specs.Cutting.{lost_by};
    ghost use Rattle.i3c_base.specs.Frames.{Reads, Writes, legacy_written, read_bits, transfer_length, write_bits};
    ghost use Rattle.i3c_base.specs.Serve.{IsAnd};
    ghost use Rattle.i3c_base.specs.State.{each, legacy_target_at};
    ghost use Rattle.i3c_step.specs.Step.{Transfers};
    ghost use Rattle.i3c_model.specs.Choosing.{Follows, ReadsAsChosen, WritesAsChosen};
    ghost use Rattle.i3c_model.specs.Meaning.{DrivesLeft, IsGivenBy, MayRead, MayWrite, NoneGives, overwriting};
    ghost use Rattle.i3c_model.specs.Storing.{IsRecordDue};

    // Reads the first registers at an address, as many as its reads may give.
    pub(crate) fn read(
        &mut self,
        at: Addr7,
        policy: &Fixed,
        cuts: &Cuts,
        choice: Choice,
    ) -> Result<Reply, OutOfMemory>
        ensures reads { IfOk result (λ reply. Transfers self.old (read_bits (transfer_length self.old Direction.Read at)) (Reads at) policy.now cuts.now reply self.new) }
        ensures unchanged { OnErr result (self.new ≡ self.old) }
        ensures memory { OnErr result (IsRecordDue self.old policy.now) }
        ensures chosen { IfOk result (Follows (Transfers self.old (read_bits (transfer_length self.old Direction.Read at)) (Reads at) policy.now cuts.now) choice) }
    {
        let begin = self.word_bits(policy) + self.header_bits();
        let answer = self.read_answer(at, cuts, begin, choice);
        let last = begin + self.read_bits(at, &answer);
        let served = self.serve_first(policy, cuts, last, choice)?;
        self.empty(cuts, last);
        Ok(Reply::Framed(Framed { served, answer }))
    }

    // Writes these bytes to the first registers at an address.
    pub(crate) fn write(
        &mut self,
        at: Addr7,
        bytes: &[u8],
        policy: &Fixed,
        cuts: &Cuts,
        choice: Choice,
    ) -> Result<Reply, OutOfMemory>
        requires short { length bytes.now ≤ 16 }
        ensures writes { IfOk result (λ reply. Transfers self.old (write_bits bytes.now) (Writes at bytes.now) policy.now cuts.now reply self.new) }
        ensures unchanged { OnErr result (self.new ≡ self.old) }
        ensures memory { OnErr result (IsRecordDue self.old policy.now) }
        ensures chosen { IfOk result (Follows (Transfers self.old (write_bits bytes.now) (Writes at bytes.now) policy.now cuts.now) choice) }
    {
        let begin = self.word_bits(policy) + self.header_bits();
        let answer = self.write_answer(at, cuts, begin + 9, choice);
        let last = begin + write_bits(bytes, &answer);
        let served = self.serve_first(policy, cuts, last, choice)?;
        if let Answer::Done = answer {
            self.overwrite_devices(at, bytes);
            self.overwrite_target(at, bytes);
        }
        self.empty(cuts, last);
        Ok(Reply::Framed(Framed { served, answer }))
    }

    // The bits of a read with this answer: a header, and after its ACK a word for each byte.
    fn read_bits(&self, at: Addr7, answer: &Answer) -> u16
        ensures same { result ≡ read_bits (transfer_length self.now Direction.Read at) answer.now }
        ensures few { result ≤ 153 }
    {
        match answer {
            Answer::NoAnswer(_) => 9,
            _ => 9 + 9 * self.transfer_length(Direction::Read, at) as u16,
        }
    }

    // The answer of a read whose own part begins behind this bit: a legacy target's registers, or the AND of those that
    // aren't lost by its last bit; where none is left, what an answer without data would be.
    fn read_answer(&self, at: Addr7, cuts: &Cuts, begin: u16, choice: Choice) -> Answer
        requires early { begin ≤ 18 }
        ensures lawful { MayRead self.now at cuts.now begin result }
        ensures chosen { ReadsAsChosen self.now at cuts.now begin choice result }
    {
        if let Some(target) = self.target(at) {
            return Answer::Bytes(Bytes::new(&target.registers));
        }
        let last = begin + self.read_bits(at, &Answer::NoEnd);
        if self.is_any_left_at(at, cuts, last) {
            let registers = self.registers_together(at, cuts, last);
            let count = self.transfer_length(Direction::Read, at) as usize;
            return Answer::Bytes(Bytes::new(&registers[..count]));
        }
        match self.answer_of(&Some(at), cuts, begin + 9, choice) {
            Answer::Done => Answer::NoEnd,
            none => none,
        }
    }

    // The answer of a write whose header ends with this bit.
    fn write_answer(&self, at: Addr7, cuts: &Cuts, header_end: u16, choice: Choice) -> Answer
        ensures lawful { MayWrite self.now at (lost_by cuts.now header_end) result }
        ensures chosen { WritesAsChosen self.now at (lost_by cuts.now header_end) choice result }
    {
        if self.target(at).is_some() {
            return Answer::Done;
        }
        self.answer_of(&Some(at), cuts, header_end, choice)
    }

    // The registers of a slot's device, if it isn't the active controller, has this address, and isn't lost by this bit.
    fn registers_given(
        &self,
        slot: Slot,
        at: Addr7,
        cuts: &Cuts,
        last: u16,
    ) -> Option<[u8; REGISTERS]>
        ensures { MatchOption result (NoneGives self.now at (lost_by cuts.now last) slot) (IsGivenBy self.now at (lost_by cuts.now last) slot) }
    {
        if slot == self.active || cuts.is_lost(slot, last) {
            return None;
        }
        match self.device(slot) {
            Some(device) if device.has(at) => Some(device.registers()),
            _ => None,
        }
    }

    // The AND of the registers of the devices at an address that aren't lost by this bit.
    fn registers_together(&self, at: Addr7, cuts: &Cuts, last: u16) -> [u8; REGISTERS]
        ensures all { length result ≡ 16 }
        ensures together { (k : ℕ) → k < 16 → IsAnd (slice_index result k) (DrivesLeft self.now at (lost_by cuts.now last) k) }
    {
        let mut both = [u8::MAX; REGISTERS];
        for index in 0..self.slots() {
            let given = self.registers_given(Slot::from_index(index), at, cuts, last);
            if let Some(registers) = given {
                both = bitwise_and(&both, &registers);
            }
        }
        both
    }

    // The first registers of the devices at an address are replaced by these bytes.
    fn overwrite_devices(&mut self, at: Addr7, bytes: &[u8])
        requires short { length bytes.now ≤ 16 }
        ensures { self.new ≡ each (overwriting self.old at bytes.now) self.old }
    {
        let active = self.active;
        // every device stays
        self.devices.retain(|slot, device| {
            if *slot != active && device.has(at) {
                device.overwrite(bytes);
            }
            true
        });
    }

    // The first registers of the legacy target at an address, if there is one, are replaced by these bytes.
    fn overwrite_target(&mut self, at: Addr7, bytes: &[u8])
        requires short { length bytes.now ≤ 16 }
        ensures { self.new ≡ record self.old { legacy = slice_set self.old.legacy at (legacy_written bytes.now (legacy_target_at self.old at)) } }
    {
        if let Some(target) = self.legacy.get_mut(&at) {
            overwrite(&mut target.registers, bytes);
        }
    }
}

// The bits of a write with this answer: a header, and after its ACK the words.
fn write_bits(bytes: &[u8], answer: &Answer) -> u16
    requires short { length bytes.now ≤ 16 }
    ensures { result ≡ write_bits bytes.now answer.now }
{
    match answer {
        Answer::NoAnswer(_) => 9,
        _ => 9 + 9 * bytes.len() as u16,
    }
}

// The AND of registers, each with the other's of its number.
fn bitwise_and(some: &[u8; REGISTERS], others: &[u8; REGISTERS]) -> [u8; REGISTERS]
    ensures all { length result ≡ 16 }
    ensures each { (k : ℕ) → k < 16 → slice_index result k ≡ bit_and (slice_index some.now k) (slice_index others.now k) }
{
    std::array::from_fn(|k| some[k] & others[k])
}

// The first registers are replaced by these bytes.
pub(crate) fn overwrite(registers: &mut [u8; REGISTERS], bytes: &[u8])
    requires short { length bytes.now ≤ 16 }
    ensures { registers.new ≡ overwritten bytes.now registers.old }
{
    registers[..bytes.len()].copy_from_slice(bytes);
}
