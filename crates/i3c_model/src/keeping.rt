use crate::plain::Plain;
use i3c_base::{ADDRESSES, Addr7, Identity};

impl Plain {
    ghost use Rattle.std.specs.Prelude.{◌≡◌, ℕ, ◌<◌, MatchOption, None, option_and_then, slice_index_or};
    ghost use Rattle.i3c_base.specs.declared.range.TheConstants.{ADDRESSES as ADDRESS_COUNT};
    ghost use Rattle.i3c_base.specs.State.{IsKept, IsUnknown, entry_at, home_in, kept_again, known_in, taken_over};
    ghost use Rattle.i3c_model.specs.Meaning.{forgotten};

    // The least address that is kept for an identity.
    pub(crate) fn address_kept(&self, identity: &Identity) -> Option<Addr7>
        ensures kept { MatchOption result (IsUnknown self.now identity.now) (IsKept self.now identity.now) }
        ensures known { result ≡ known_in self.now.given identity.now }
    {
        self.given
            .iter()
            .find(|(_, entry)| entry.is_kept_for(identity))
            .map(|(address, _)| *address)
    }

    // No address is kept for an identity any more.
    pub(crate) fn forget(&mut self)
        ensures { self.new ≡ forgotten self.old }
    {
        // every entry stays
        self.given.retain(|_, entry| {
            entry.forget();
            true
        });
    }

    // The new controller at `own` keeps addresses for declared identities alone.
    pub(crate) fn take_over(&mut self, own: Addr7)
        ensures { self.new ≡ record self.old { given = taken_over self.old.declared own self.old.given } }
    {
        let kept = self.all_kept_again(own);
        // every entry stays
        self.given.retain(|address, entry| {
            entry.keep(place(&kept, *address));
            true
        });
    }

    // For each address the identity, if there is one, that a new controller at the address `own` keeps it for.
    fn all_kept_again(&self, own: Addr7) -> [Option<Identity>; ADDRESSES]
        ensures { (a : ℕ) → a < ADDRESS_COUNT → slice_index_or result a None ≡ option_and_then (kept_again self.now.declared self.now.given own a) (entry_at self.now a) }
    {
        let mut kept = [None; ADDRESSES];
        for index in 0..ADDRESSES {
            kept[index] = self.kept_again(own, index);
        }
        kept
    }

    // The identity that a new controller at the address `own` keeps the address of this index for: the one declared at the
    // static address of its entry, if the address is that static address's home.
    fn kept_again(&self, own: Addr7, index: usize) -> Option<Identity>
        requires { index < ADDRESS_COUNT }
        ensures { result ≡ option_and_then (kept_again self.now.declared self.now.given own index) (entry_at self.now index) }
    {
        let Ok(address) = Addr7::new(index as u8) else {
            unreachable!();
        };
        let Some(entry) = self.entry(address) else {
            return None;
        };
        let Some(fixed) = entry.fixed else {
            return None;
        };
        if self.home(own, fixed) == Some(address) {
            self.declared_at(fixed)
        } else {
            None
        }
    }

    // The home of a static address: the least address in the table, except the controller's own, whose device has it.
    fn home(&self, own: Addr7, fixed: Addr7) -> Option<Addr7>
        ensures { result ≡ home_in self.now.given own fixed }
    {
        self.given
            .iter()
            .find(|(address, entry)| **address != own && entry.has_fixed(fixed))
            .map(|(address, _)| *address)
    }
}

ghost use Rattle.std.specs.Prelude.{◌≡◌, None, slice_index_or};

// The identity at an address's place.
fn place(kept: &[Option<Identity>; ADDRESSES], address: Addr7) -> Option<Identity>
    ensures { result ≡ slice_index_or kept.now address None }
{
    kept[address.get() as usize]
}
