ghost use Rattle.std.specs.Prelude.{◌≡◌, slice_index};
ghost use Rattle.i3c_base.specs.Frames.{pending, pid_bytes, told_bytes};

use crate::device::PlainDevice;
use crate::faults::OutOfMemory;
use crate::plain::{Choice, Plain};
use i3c_base::{Addr7, Answer, Bytes, Cuts, Datum, Direction, Fixed, Pid, REGISTERS, Slot};
use i3c_step::{Framed, Reply};

impl Plain {
    ghost use Rattle.std.specs.Prelude.{◌≡◌, ◌≤◌, ◌<◌, ℕ, length, slice_index, IfOk, OnErr, MatchOption};
    ghost use Rattle.i3c_base.specs.Cutting.{lost_by};
    ghost use Rattle.i3c_base.specs.Frames.{Gets, get_bits, told_length};
    ghost use Rattle.i3c_base.specs.Serve.{IsAnd};
    ghost use Rattle.i3c_base.specs.State.{entry_at};
    ghost use Rattle.i3c_step.specs.Step.{Transfers};
    ghost use Rattle.i3c_model.specs.Choosing.{Follows};
    ghost use Rattle.i3c_model.specs.Meaning.{DrivesToldLeft, IsToldBy, NoneGives, Tells};
    ghost use Rattle.i3c_model.specs.Storing.{IsRecordDue};

    // Asks the devices at an address for a datum. They tell it after the first request was served, which may be the interrupt
    // that a status counts.
    pub(crate) fn get_datum(
        &mut self,
        what: Datum,
        at: Addr7,
        policy: &Fixed,
        cuts: &Cuts,
        choice: Choice,
    ) -> Result<Reply, OutOfMemory>
        ensures gets { IfOk result (λ reply. Transfers self.old (get_bits what (entry_at self.old at)) (Gets what at) policy.now cuts.now reply self.new) }
        ensures unchanged { OnErr result (self.new ≡ self.old) }
        ensures memory { OnErr result (IsRecordDue self.old policy.now) }
        ensures chosen { IfOk result (Follows (Transfers self.old (get_bits what (entry_at self.old at)) (Gets what at) policy.now cuts.now) choice) }
    {
        let begin = self.word_bits(policy) + self.header_bits();
        let header = self.answer_of(&Some(at), cuts, begin + 18, choice);
        let last = begin + self.get_bits(what, at, &header);
        let served = self.serve_first(policy, cuts, last, choice)?;
        let answer = self.told_answer(what, at, &header, cuts, last);
        self.empty(cuts, last);
        Ok(Reply::Framed(Framed { served, answer }))
    }

    // How many bytes are read of a datum at an address: of the length of a read, three where interrupts have a byte.
    fn told_length(&self, what: Datum, at: Addr7) -> u8
        ensures same { result ≡ told_length what (entry_at self.now at) }
        ensures few { result ≤ 6 }
    {
        match what {
            Datum::Pid => 6,
            Datum::Bcr | Datum::Dcr => 1,
            Datum::ReadLength => { if self.is_byte_due(at) { 3 } else { 2 } }
            Datum::Status | Datum::WriteLength | Datum::Speed | Datum::Capabilities => 2,
        }
    }

    // The bits of the code and of its header, answered so, and after an ACK of the words.
    fn get_bits(&self, what: Datum, at: Addr7, header: &Answer) -> u16
        ensures same { result ≡ get_bits what (entry_at self.now at) header.now }
        ensures few { result ≤ 72 }
    {
        match header {
            Answer::NoAnswer(_) => 18,
            _ => 18 + 9 * self.told_length(what, at) as u16,
        }
    }

    // The answer to a read of a datum, after this answer to its header; its last bit is this one.
    fn told_answer(&self, what: Datum, at: Addr7, header: &Answer, cuts: &Cuts, last: u16) -> Answer
        ensures { Tells self.now what at (lost_by cuts.now last) header.now result }
    {
        let Answer::Done = header else {
            return *header;
        };
        if self.is_any_left_at(at, cuts, last) {
            return Answer::Bytes(self.told_together(what, at, cuts, last));
        }
        Answer::NoEnd
    }

    // The AND of a datum's bytes as the devices at an address tell them that aren't lost by this bit.
    fn told_together(&self, what: Datum, at: Addr7, cuts: &Cuts, last: u16) -> Bytes
        ensures all { length result ≡ told_length what (entry_at self.now at) }
        ensures together { (k : ℕ) → k < length result → IsAnd (slice_index result k) (DrivesToldLeft self.now what at (lost_by cuts.now last) k) }
    {
        let count = self.told_length(what, at) as usize;
        let mut bytes = [0; REGISTERS];
        for k in 0..count {
            bytes[k] = self.byte_together(what, at, k, cuts, last);
        }
        Bytes::new(&bytes[..count])
    }

    // Byte k of that.
    fn byte_together(&self, what: Datum, at: Addr7, k: usize, cuts: &Cuts, last: u16) -> u8
        ensures { IsAnd result (DrivesToldLeft self.now what at (lost_by cuts.now last) k) }
    {
        let mut both = u8::MAX;
        for index in 0..self.slots() {
            let told = self.told(Slot::from_index(index), what, at, cuts, last);
            if let Some(bytes) = told {
                both &= byte_of(&bytes, k);
            }
        }
        both
    }

    // What a slot's device tells of a datum, if it isn't the active controller, has this address, and isn't lost by this
    // bit.
    fn told(&self, slot: Slot, what: Datum, at: Addr7, cuts: &Cuts, last: u16) -> Option<Bytes>
        ensures { MatchOption result (NoneGives self.now at (lost_by cuts.now last) slot) (IsToldBy self.now what at (lost_by cuts.now last) slot) }
    {
        if slot == self.active || cuts.is_lost(slot, last) {
            return None;
        }
        match self.device(slot) {
            Some(device) if device.has(at) => Some(told_bytes(what, device)),
            _ => None,
        }
    }
}

// Byte k of these, 00 past the last.
fn byte_of(bytes: &Bytes, k: usize) -> u8
    ensures { result ≡ slice_index bytes.now k }
{
    bytes.as_slice().get(k).copied().unwrap_or(0)
}

// What a device tells of a datum.
fn told_bytes(what: Datum, device: &PlainDevice) -> Bytes
    ensures { result ≡ told_bytes what device.now }
{
    let identity = device.identity();
    match what {
        Datum::Pid => Bytes::new(&pid_bytes(identity.pid)),
        Datum::Bcr => Bytes::new(&[identity.bcr.0]),
        Datum::Dcr => Bytes::new(&[identity.dcr.0]),
        Datum::Status => Bytes::new(&[0, pending(device)]),
        Datum::WriteLength => Bytes::new(&[0, device.length(Direction::Write).get()]),
        Datum::ReadLength => Bytes::new(&[0, device.length(Direction::Read).get(), 1]),
        Datum::Speed => Bytes::new(&[0, 0]),
        Datum::Capabilities => Bytes::new(&[0, 1]),
    }
}

// A provisioned ID in six bytes, the most significant first.
fn pid_bytes(pid: Pid) -> [u8; 6]
    ensures { result ≡ pid_bytes pid }
{
    let number = pid.get();
    [
        (number / (1 << 40) % 256) as u8,
        (number / (1 << 32) % 256) as u8,
        (number / (1 << 24) % 256) as u8,
        (number / (1 << 16) % 256) as u8,
        (number / (1 << 8) % 256) as u8,
        (number % 256) as u8,
    ]
}

// The second byte of a status: whether an interrupt waits.
fn pending(device: &PlainDevice) -> u8
    ensures { result ≡ pending device.now }
{
    if device.waiting() == 0 { 0 } else { 1 }
}
