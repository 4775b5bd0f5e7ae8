ghost use Rattle.std.specs.Prelude.{◌≡◌};
ghost use Rattle.i3c_base.specs.Frames.{kinds_bits};

use crate::faults::OutOfMemory;
use crate::plain::{Choice, Plain};
use i3c_base::{Addr7, Answer, Change, Cuts, Fixed, Kinds};
use i3c_step::{Framed, Reply};

impl Plain {
    ghost use Rattle.std.specs.Prelude.{◌≡◌, ◌+◌, ◌↔◌, IsTrue, IfOk, OnErr};
    ghost use Rattle.i3c_base.specs.Cutting.{lost_by};
    ghost use Rattle.i3c_base.specs.Frames.{AnyAt, SomeLeftAt, changed_kinds, kinds_bits, rekinded};
    ghost use Rattle.i3c_step.specs.Step.{RekindsBy};
    ghost use Rattle.i3c_model.specs.Choosing.{AnswersAsChosen, Follows};
    ghost use Rattle.i3c_model.specs.Meaning.{MayAnswer};
    ghost use Rattle.i3c_model.specs.Storing.{IsRecordDue};

    // Whether some device other than the active controller has this address.
    fn is_any_at(&self, address: Addr7) -> bool
        ensures { IsTrue result ↔ AnyAt self.now address }
    {
        let uncut = Cuts::new();
        self.is_any_left_at(address, &uncut, 0)
    }

    // Whether a device at the address isn't lost by this bit.
    pub(crate) fn is_any_left_at(&self, address: Addr7, cuts: &Cuts, last: u16) -> bool
        ensures { IsTrue result ↔ SomeLeftAt self.now address (lost_by cuts.now last) }
    {
        let active = self.active;
        self.devices.iter().any(|(slot, device)| {
            *slot != active && device.has(address) && !cuts.is_lost(*slot, last)
        })
    }

    // The answer to a command for these devices; a header to one address ends with this bit. That header isn't acknowledged
    // if nobody is there, or if that is chosen and nobody is left.
    pub(crate) fn answer_of(
        &self,
        to: &Option<Addr7>,
        cuts: &Cuts,
        header_end: u16,
        choice: Choice,
    ) -> Answer
        ensures lawful { MayAnswer self.now to.now (lost_by cuts.now header_end) result }
        ensures chosen { AnswersAsChosen self.now to.now (lost_by cuts.now header_end) choice result }
    {
        let Some(address) = to else {
            return Answer::Done;
        };
        let is_silent = choice == Choice::Silent
            && !self.is_any_left_at(*address, cuts, header_end);
        if is_silent || !self.is_any_at(*address) {
            return Answer::NoAnswer(*address);
        }
        Answer::Done
    }

    // The enabled kinds of each device that a command reaches are changed.
    fn change_kinds(&mut self, to: &Option<Addr7>, change: Change, kinds: Kinds)
        ensures { self.new ≡ rekinded to.now (changed_kinds change kinds) self.old }
    {
        let active = self.active;
        // every device stays
        self.devices.retain(|slot, device| {
            if *slot != active && device.is_meant(to) {
                device.change_kinds(change, kinds);
            }
            true
        });
    }

    // Enables or disables kinds of events: of the devices at an address, or without one of all but the active
    // controller.
    pub(crate) fn rekind(
        &mut self,
        to: &Option<Addr7>,
        change: Change,
        kinds: Kinds,
        policy: &Fixed,
        cuts: &Cuts,
        choice: Choice,
    ) -> Result<Reply, OutOfMemory>
        ensures rekinds { IfOk result (λ reply. RekindsBy self.old to.now (changed_kinds change kinds) policy.now cuts.now reply self.new) }
        ensures unchanged { OnErr result (self.new ≡ self.old) }
        ensures memory { OnErr result (IsRecordDue self.old policy.now) }
        ensures chosen { IfOk result (Follows (RekindsBy self.old to.now (changed_kinds change kinds) policy.now cuts.now) choice) }
    {
        let begin = self.word_bits(policy) + self.header_bits();
        let answer = self.answer_of(to, cuts, begin + 18, choice);
        let last = begin + kinds_bits(to, &answer);
        let served = self.serve_first(policy, cuts, last, choice)?;
        if let Answer::Done = answer {
            self.change_kinds(to, change, kinds);
        }
        self.empty(cuts, last);
        Ok(Reply::Framed(Framed { served, answer }))
    }
}

// The bits of a command with this answer: two words, or a word, a header and after its ACK a word.
pub(crate) fn kinds_bits(to: &Option<Addr7>, answer: &Answer) -> u16
    ensures { result ≡ kinds_bits to.now answer.now }
{
    match (to, answer) {
        (None, _) => 18,
        (Some(_), Answer::NoAnswer(_)) => 18,
        _ => 27,
    }
}
