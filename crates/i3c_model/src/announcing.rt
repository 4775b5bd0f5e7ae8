use crate::faults::OutOfMemory;
use crate::plain::{Choice, Plain};
use i3c_base::{Answer, Cuts, Fixed};
use i3c_step::{Framed, Reply};

impl Plain {
    ghost use Rattle.std.specs.Prelude.{◌≡◌, ◌+◌, ◌≤◌, count_by, is_some, IfOk, OnErr};
    ghost use Rattle.i3c_base.specs.Frames.{list, list_bits, reset};
    ghost use Rattle.i3c_step.specs.Step.{Announces};
    ghost use Rattle.i3c_model.specs.Choosing.{Follows};
    ghost use Rattle.i3c_model.specs.Storing.{IsRecordDue};

    // All addresses but the active controller's are cleared.
    pub(crate) fn reset(
        &mut self,
        policy: &Fixed,
        cuts: &Cuts,
        choice: Choice,
    ) -> Result<Reply, OutOfMemory>
        ensures announces { IfOk result (λ reply. Announces self.old 9 reset policy.now cuts.now reply self.new) }
        ensures unchanged { OnErr result (self.new ≡ self.old) }
        ensures memory { OnErr result (IsRecordDue self.old policy.now) }
        ensures chosen { IfOk result (Follows (Announces self.old 9 reset policy.now cuts.now) choice) }
    {
        let last = self.word_bits(policy) + self.header_bits() + 9;
        let served = self.serve_first(policy, cuts, last, choice)?;
        self.clear();
        self.empty(cuts, last);
        let answer = Answer::Done;
        Ok(Reply::Framed(Framed { served, answer }))
    }

    // The devices are told of all others: the list is current.
    pub(crate) fn send_list(
        &mut self,
        policy: &Fixed,
        cuts: &Cuts,
        choice: Choice,
    ) -> Result<Reply, OutOfMemory>
        ensures announces { IfOk result (λ reply. Announces self.old (list_bits self.old) list policy.now cuts.now reply self.new) }
        ensures unchanged { OnErr result (self.new ≡ self.old) }
        ensures memory { OnErr result (IsRecordDue self.old policy.now) }
        ensures chosen { IfOk result (Follows (Announces self.old (list_bits self.old) list policy.now cuts.now) choice) }
    {
        let last = self.word_bits(policy) + self.header_bits() + self.list_bits();
        let served = self.serve_first(policy, cuts, last, choice)?;
        self.listed = true;
        self.empty(cuts, last);
        let answer = Answer::Done;
        Ok(Reply::Framed(Framed { served, answer }))
    }

    // The bits of the list: its code, its count, and four words for each address in it.
    fn list_bits(&self) -> u16
        ensures same { result ≡ list_bits self.now }
        ensures few { result ≤ 9234 }
    {
        9 * (2 + 4 * self.list_entries())
    }

    // How many addresses the list tells.
    fn list_entries(&self) -> u16
        ensures same { result ≡ count_by is_some self.now.given + count_by is_some self.now.legacy }
        ensures few { result ≤ 256 }
    {
        let entries = self.given.len() + self.legacy.len();
        entries as u16
    }

    // The active controller alone keeps its address, which is kept for nobody. All wishes for the role are gone.
    fn clear(&mut self)
        ensures { self.new ≡ reset self.old }
    {
        let active = self.active;
        let own = self.address(active);
        // every device stays
        self.devices.retain(|slot, device| {
            if *slot == active {
                device.lose_role_wish();
            } else {
                device.lose_address();
            }
            true
        });
        self.given.retain(|address, _| own == Some(*address));
        self.listed = false;
        self.forget();
    }
}
