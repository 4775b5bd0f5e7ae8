use crate::enabling::kinds_bits;
use crate::faults::OutOfMemory;
use crate::plain::{Choice, Plain};
use crate::plain_entry::PlainEntry;
use i3c_base::{Addr7, Answer, Cuts, Fixed, Identity};
use i3c_step::{Framed, Reply};
use std::alloc::Global;
use std::collections::BTreeMap;

// A table of addresses.
type Entries = BTreeMap<Addr7, PlainEntry>;

impl Plain {
    ghost use Rattle.std.specs.Prelude.{◌≡◌, ◌⊎◌, ◌↔◌, IfOk, IsSome, IsTrue, OnErr, Some, false, is_none};
    ghost use Rattle.i3c_base.specs.declared.answers.Answer.{Answer as AnswerValue};
    ghost use Rattle.i3c_base.specs.declared.identity.Identity.{Identity as IdentityValue};
    ghost use Rattle.i3c_base.specs.declared.range.TheConstants.{ADDRESSES};
    ghost use Rattle.i3c_base.specs.Cutting.{lost_by};
    ghost use Rattle.i3c_base.specs.Frames.{AnyAt, AnyUnaddressedAt, SetsNew, SetsStatic, SomeUnaddressedLeftAt, kinds_bits, moved, released_at, settled};
    ghost use Rattle.i3c_base.specs.State.{declared_at, each, entry_at};
    ghost use Rattle.i3c_step.specs.Step.{Transfers};
    ghost use Rattle.i3c_model.specs.Choosing.{Follows, TakesAsChosen};
    ghost use Rattle.i3c_model.specs.Meaning.{MayTake, moving, settling};
    ghost use Rattle.i3c_model.specs.Storing.{IsRecordDue};
    ghost use Rattle.i3c_model.specs.Views.{IsKeyedBelow, IsTableIf, IsTableOf, places_of};

    // The devices at a static address that have no dynamic one are given one, which is kept for the identity there.
    pub(crate) fn set_static(
        &mut self,
        fixed: Addr7,
        new: Addr7,
        policy: &Fixed,
        cuts: &Cuts,
        choice: Choice,
    ) -> Result<Reply, OutOfMemory>
        requires declared { IsSome (declared_at self.old fixed) }
        ensures sets { IfOk result (λ reply. Transfers self.old (kinds_bits (Some fixed)) (SetsStatic fixed new) policy.now cuts.now reply self.new) }
        ensures unchanged { OnErr result (self.new ≡ self.old) }
        ensures memory { OnErr result (IsRecordDue self.old policy.now ⊎ AnyUnaddressedAt self.old fixed) }
        ensures chosen { IfOk result (Follows (Transfers self.old (kinds_bits (Some fixed)) (SetsStatic fixed new) policy.now cuts.now) choice) }
    {
        let begin = self.word_bits(policy) + self.header_bits();
        let answer = self.static_answer(fixed, cuts, begin + 18, choice);
        let last = begin + kinds_bits(&Some(fixed), &answer);
        let table = self.static_table(&answer, fixed, new)?;
        let served = self.serve_first(policy, cuts, last, choice)?;
        if let Some(table) = table {
            self.give_static(fixed, new);
            self.replace_table(table);
        }
        self.empty(cuts, last);
        Ok(Reply::Framed(Framed { served, answer }))
    }

    // The devices at a dynamic address are given another one in its place.
    pub(crate) fn set_new(
        &mut self,
        old: Addr7,
        new: Addr7,
        policy: &Fixed,
        cuts: &Cuts,
        choice: Choice,
    ) -> Result<Reply, OutOfMemory>
        requires given { IsSome (entry_at self.old old) }
        ensures sets { IfOk result (λ reply. Transfers self.old (kinds_bits (Some old)) (SetsNew old new) policy.now cuts.now reply self.new) }
        ensures unchanged { OnErr result (self.new ≡ self.old) }
        ensures memory { OnErr result (IsRecordDue self.old policy.now ⊎ AnyAt self.old old) }
        ensures chosen { IfOk result (Follows (Transfers self.old (kinds_bits (Some old)) (SetsNew old new) policy.now cuts.now) choice) }
    {
        let begin = self.word_bits(policy) + self.header_bits();
        let answer = self.answer_of(&Some(old), cuts, begin + 18, choice);
        let last = begin + kinds_bits(&Some(old), &answer);
        let table = self.new_table(&answer, old, new)?;
        let served = self.serve_first(policy, cuts, last, choice)?;
        if let Some(table) = table {
            self.give_new(old, new);
            self.replace_table(table);
        }
        self.empty(cuts, last);
        Ok(Reply::Framed(Framed { served, answer }))
    }

    // The answer to SETDASA, whose header to the static address ends with this bit. That header isn't acknowledged if
    // nobody is there, or if that is chosen and nobody is left.
    fn static_answer(&self, fixed: Addr7, cuts: &Cuts, header_end: u16, choice: Choice) -> Answer
        ensures lawful { MayTake self.now fixed (lost_by cuts.now header_end) result }
        ensures chosen { TakesAsChosen self.now fixed (lost_by cuts.now header_end) choice result }
    {
        let is_silent = choice == Choice::Silent
            && !self.is_any_unaddressed_left(fixed, cuts, header_end);
        if is_silent || !self.is_any_unaddressed(fixed) {
            return Answer::NoAnswer(fixed);
        }
        Answer::Done
    }

    // Whether some device other than the active controller has this static address and no dynamic one.
    fn is_any_unaddressed(&self, fixed: Addr7) -> bool
        ensures { IsTrue result ↔ AnyUnaddressedAt self.now fixed }
    {
        let uncut = Cuts::new();
        self.is_any_unaddressed_left(fixed, &uncut, 0)
    }

    // Whether a device at the static address without a dynamic one isn't lost by this bit.
    fn is_any_unaddressed_left(&self, fixed: Addr7, cuts: &Cuts, last: u16) -> bool
        ensures { IsTrue result ↔ SomeUnaddressedLeftAt self.now fixed (lost_by cuts.now last) }
    {
        let active = self.active;
        self.devices.iter().any(|(slot, device)| {
            *slot != active && device.answers_only_at_static(fixed) && !cuts.is_lost(*slot, last)
        })
    }

    // The devices at a static address that have no dynamic one take one.
    fn give_static(&mut self, fixed: Addr7, new: Addr7)
        ensures { self.new ≡ each (settling self.old.active fixed new) self.old }
    {
        let active = self.active;
        // every device stays
        self.devices.retain(|slot, device| {
            if *slot != active && device.answers_only_at_static(fixed) {
                device.take_address(new);
            }
            true
        });
    }

    // The devices at a dynamic address take another one in its place.
    fn give_new(&mut self, old: Addr7, new: Addr7)
        ensures { self.new ≡ each (moving self.old old new) self.old }
    {
        let active = self.active;
        // every device stays
        self.devices.retain(|slot, device| {
            if *slot != active && device.has(old) {
                device.change_address(new);
            }
            true
        });
    }

    // The table is replaced, and the list of DEFTGTS is out of date.
    fn replace_table(&mut self, table: Entries)
        requires { IsKeyedBelow ADDRESSES table }
        ensures { self.new ≡ record self.old { given = places_of ADDRESSES table; listed = false } }
    {
        self.given = table;
        self.listed = false;
    }

    // The table after SETDASA with this answer, if it is another one.
    fn static_table(
        &self,
        answer: &Answer,
        fixed: Addr7,
        new: Addr7,
    ) -> Result<Option<Entries>, OutOfMemory>
        requires declared { IsSome (declared_at self.now fixed) }
        ensures table { IfOk result (λ table. (i : IdentityValue) × (declared_at self.now fixed ≡ Some i) × IsTableIf answer.now (settled self.now.declared i new self.now.given) table) }
        ensures memory { OnErr result (answer.now ≡ AnswerValue.Done) }
    {
        let Some(identity) = self.declared_at(fixed) else {
            unreachable!();
        };
        if let Answer::Done = answer {
            return Ok(Some(self.settled(&identity, new)?));
        }
        Ok(None)
    }

    // The table after SETNEWDA with this answer, if it is another one.
    fn new_table(
        &self,
        answer: &Answer,
        old: Addr7,
        new: Addr7,
    ) -> Result<Option<Entries>, OutOfMemory>
        requires given { IsSome (entry_at self.now old) }
        ensures table { IfOk result (IsTableIf answer.now (moved old new self.now.given)) }
        ensures memory { OnErr result (answer.now ≡ AnswerValue.Done) }
    {
        if let Answer::Done = answer {
            return Ok(Some(self.moved(old, new)?));
        }
        Ok(None)
    }

    // The table in which this address is kept for an identity, and the one before is released.
    fn settled(&self, identity: &Identity, new: Addr7) -> Result<Entries, OutOfMemory>
        ensures { IfOk result (IsTableOf (settled self.now.declared identity.now new self.now.given)) }
    {
        prove!(new.get() < 128);
        let mut table = self.released(&self.address_kept(identity))?;
        let entry = PlainEntry::kept(identity, self.fixed_of(identity));
        table.insert(new, entry)?;
        Ok(table)
    }

    // The table in which an address, if one is named, is released.
    fn released(&self, address: &Option<Addr7>) -> Result<Entries, OutOfMemory>
        ensures { IfOk result (IsTableOf (released_at address.now self.now.given)) }
    {
        let mut table = self.given.clone()?;
        let Some(address) = *address else {
            return Ok(table);
        };
        let Some(entry) = self.entry(address) else {
            return Ok(table);
        };
        table.insert(address, entry.released())?;
        Ok(table)
    }

    // The table in which an entry has moved to a new address.
    fn moved(&self, old: Addr7, new: Addr7) -> Result<Entries, OutOfMemory>
        requires given { IsSome (entry_at self.now old) }
        ensures { IfOk result (IsTableOf (moved old new self.now.given)) }
    {
        prove!(new.get() < 128);
        let mut table = self.given.clone()?;
        let Some(entry) = table.remove(&old) else {
            unreachable!();
        };
        table.insert(new, entry)?;
        Ok(table)
    }
}
