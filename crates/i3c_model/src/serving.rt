use crate::faults::OutOfMemory;
use crate::plain::{Choice, Plain};
use i3c_base::{Addr7, Cuts, Fixed, Record, Request, Served, Verdict};

impl Plain {
    ghost use Rattle.std.specs.Prelude.{◌≡◌, ◌≤◌, IfOk, OnErr, OnOk};
    ghost use Rattle.i3c_base.specs.declared.requests.Fixed.{Fixed as FixedValue};
    ghost use Rattle.i3c_base.specs.declared.requests.Request.{Request as RequestValue};
    ghost use Rattle.i3c_base.specs.declared.requests.Served.{Served as ServedValue};
    ghost use Rattle.i3c_base.specs.declared.requests.Verdict.{Verdict as VerdictValue};
    ghost use Rattle.i3c_base.specs.Cutting.{Lost, lost_by};
    ghost use Rattle.i3c_base.specs.Serve.{Frame, IsFirst, IsWordBits, Serves, byte_due, each_driver, emptied, header_bits, recorded, refuse_all, verdict, without};
    ghost use Rattle.i3c_base.specs.State.{State, entry_at};
    ghost use Rattle.i3c_step.specs.Step.{Acts, Nothing};
    ghost use Rattle.i3c_step.specs.declared.events.Event.{Event};
    ghost use Rattle.i3c_step.specs.declared.replies.Reply.{Reply};
    ghost use Rattle.i3c_model.specs.Choosing.{Follows, ServesAsChosen};
    ghost use Rattle.i3c_model.specs.Storing.{IsRecordDue};

    // Whether the interrupts at an address have a mandatory byte, by the BCR in the table.
    pub(crate) fn is_byte_due(&self, at: Addr7) -> bool
        ensures { result ≡ byte_due (entry_at self.now at) }
    {
        match self.entry(at) {
            Some(entry) => entry.has_byte(),
            None => false,
        }
    }

    // The bits of the mandatory word that a frame with this policy reads.
    pub(crate) fn word_bits(&self, policy: &Fixed) -> u16
        ensures sent { (lost : Lost) (served : ServedValue) (new : State) → Serves self.now policy.now lost served new → IsWordBits self.now served result }
        ensures few { result ≤ 9 }
    {
        let Some(request) = self.first_request() else {
            return 0;
        };
        if self.verdict(policy, &request) == Verdict::Refuse {
            return 0;
        }
        match request {
            Request::Interrupt(at) => { if self.is_byte_due(at) { 9 } else { 0 } }
            Request::Join | Request::Role(_) => 0,
        }
    }

    // The bits of the header that goes on with a frame after a request.
    pub(crate) fn header_bits(&self) -> u16
        ensures sent { (policy : FixedValue) (lost : Lost) (served : ServedValue) (new : State) → Serves self.now policy lost served new → result ≡ header_bits served }
        ensures few { result ≤ 9 }
    {
        match self.first_request() {
            Some(_) => 9,
            None => 0,
        }
    }

    // The request was accepted: its drivers lose the wish or the oldest interrupt.
    fn answer(&mut self, request: &Request)
        ensures { self.new ≡ each_driver request.now (without request.now) self.old }
    {
        let active = self.active;
        // every device stays
        self.devices.retain(|slot, device| {
            if *slot != active && device.asks(request) {
                device.lose(request);
            }
            true
        });
    }

    // One record more.
    fn keep(&mut self, taken: Record) -> Result<(), OutOfMemory>
        ensures kept { OnOk result (self.new ≡ recorded taken self.old) }
        ensures unchanged { OnErr result (self.new ≡ self.old) }
    {
        self.records.push(taken)?;
        Ok(())
    }

    // The interrupt at this address, which comes first, was accepted: the lowest slot's raise is recorded. The record's
    // place is answered, from 1.
    fn record(&mut self, at: Addr7) -> Result<usize, OutOfMemory>
        requires first { IsFirst self.old (RequestValue.Interrupt at) }
        ensures serves { (policy : FixedValue) (lost : Lost) → verdict self.old policy (RequestValue.Interrupt at) ≡ VerdictValue.Accept → IfOk result (λ place. Serves self.old policy lost (ServedValue.Recorded place) self.new) }
        ensures unchanged { OnErr result (self.new ≡ self.old) }
    {
        let Some((slot, front)) = self.lowest_front(at) else {
            unreachable!()
        };
        let number = front.number;
        let byte = self.byte_read(slot, at);
        self.keep(Record {
            slot,
            number,
            at,
            byte,
        })?;
        self.answer(&Request::Interrupt(at));
        Ok(self.records.len())
    }

    // Carries out the first request, an interrupt at this address that was accepted: it is recorded, or torn where that
    // is chosen and nobody is left to end its mandatory byte.
    fn take(
        &mut self,
        at: Addr7,
        cuts: &Cuts,
        last: u16,
        choice: Choice,
    ) -> Result<Served, OutOfMemory>
        requires first { IsFirst self.old (RequestValue.Interrupt at) }
        ensures serves { (policy : FixedValue) → verdict self.old policy (RequestValue.Interrupt at) ≡ VerdictValue.Accept → IfOk result (λ served. Serves self.old policy (lost_by cuts.now last) served self.new) }
        ensures unchanged { OnErr result (self.new ≡ self.old) }
        ensures chosen { (policy : FixedValue) → IfOk result (ServesAsChosen self.old policy (lost_by cuts.now last) choice) }
    {
        let request = Request::Interrupt(at);
        let may_tear = self.is_byte_due(at) && !self.is_driver_left(&request, cuts, last);
        if choice == Choice::Lost && may_tear {
            self.answer(&request);
            return Ok(Served::Torn);
        }
        Ok(Served::Recorded(self.record(at)?))
    }

    // Carries out the first request, which the policy accepted, and answers what it came to. `last` is the frame's last
    // bit.
    fn accept(
        &mut self,
        request: &Request,
        cuts: &Cuts,
        last: u16,
        choice: Choice,
    ) -> Result<Served, OutOfMemory>
        requires first { IsFirst self.old request.now }
        ensures serves { (policy : FixedValue) → verdict self.old policy request.now ≡ VerdictValue.Accept → IfOk result (λ served. Serves self.old policy (lost_by cuts.now last) served self.new) }
        ensures unchanged { OnErr result (self.new ≡ self.old) }
        ensures memory { (policy : FixedValue) → verdict self.old policy request.now ≡ VerdictValue.Accept → OnErr result (IsRecordDue self.old policy) }
        ensures chosen { (policy : FixedValue) → IfOk result (ServesAsChosen self.old policy (lost_by cuts.now last) choice) }
    {
        match request {
            Request::Join => {
                self.answer(request);
                Ok(Served::Joining)
            }
            Request::Role(at) => {
                self.answer(request);
                Ok(Served::WantsRole(*at))
            }
            Request::Interrupt(at) => self.take(*at, cuts, last, choice),
        }
    }

    // Serves the first request of a frame whose last bit is this one.
    pub(crate) fn serve_first(
        &mut self,
        policy: &Fixed,
        cuts: &Cuts,
        last: u16,
        choice: Choice,
    ) -> Result<Served, OutOfMemory>
        ensures serves { IfOk result (λ served. Serves self.old policy.now (lost_by cuts.now last) served self.new) }
        ensures unchanged { OnErr result (self.new ≡ self.old) }
        ensures memory { OnErr result (IsRecordDue self.old policy.now) }
        ensures chosen { IfOk result (ServesAsChosen self.old policy.now (lost_by cuts.now last) choice) }
    {
        let Some(request) = self.first_request() else {
            return Ok(Served::Quiet);
        };
        match self.verdict(policy, &request) {
            Verdict::Accept => self.accept(&request, cuts, last, choice),
            Verdict::Refuse => Ok(Served::Refused),
        }
    }

    // The result of the first request of a frame that refuses each.
    pub(crate) fn refuse_first(&self) -> Served
        ensures serves { (lost : Lost) → Serves self.now refuse_all lost result self.now }
        ensures sent { IsWordBits self.now result 0 }
    {
        match self.first_request() {
            Some(_) => Served::Refused,
            None => Served::Quiet,
        }
    }

    // The devices that are cut by this bit, a frame's last, are gone.
    pub(crate) fn empty(&mut self, cuts: &Cuts, last: u16)
        ensures { self.new ≡ emptied (lost_by cuts.now last) self.old }
    {
        self.devices.retain(|slot, _| !cuts.is_lost(*slot, last));
    }

    // Serves the first request, and does no more.
    pub(crate) fn serve(
        &mut self,
        policy: &Fixed,
        cuts: &Cuts,
        choice: Choice,
    ) -> Result<Served, OutOfMemory>
        ensures frame { IfOk result (λ served. Frame self.old policy.now cuts.now served 0 Nothing self.new) }
        ensures unchanged { OnErr result (self.new ≡ self.old) }
        ensures memory { OnErr result (IsRecordDue self.old policy.now) }
        ensures chosen { IfOk result (λ served. Follows (Acts self.old (Event.Serve policy.now cuts.now)) choice (Reply.Served served)) }
    {
        let last = self.word_bits(policy);
        let served = self.serve_first(policy, cuts, last, choice)?;
        self.empty(cuts, last);
        Ok(served)
    }
}
