ghost use Rattle.std.specs.Prelude.{◌≡◌, ◌↔◌, IsTrue, None, Some, ⊤};

use i3c_base::{Addr7, Bcr, Dcr, Identity};
use std::alloc::AllocError;
use std::marker::Model;

// The stored values of an address that was given.
#[derive(Drop)]
pub(crate) struct PlainEntry {
    pub(crate) bcr: Bcr,
    pub(crate) dcr: Dcr,
    // the identity that the address is kept for
    pub(crate) kept: Option<Identity>,
    // the static address of its holder
    pub(crate) fixed: Option<Addr7>,
}

impl Model for PlainEntry {
    ghost use Rattle.i3c_base.specs.State.{Entry};

    ghost Value = { Entry };

    ghost view = { λ e. record {
      bcr = e.bcr;
      dcr = e.dcr;
      kept = e.kept;
      fixed = e.fixed;
    } };
}

impl Clone for PlainEntry {
    ghost is_clone = { λ entry copy. copy ≡ entry };

    ghost is_infallible = { λ _. ⊤ };

    fn clone(&self) -> Result<PlainEntry, AllocError> {
        Ok(PlainEntry {
            bcr: self.bcr,
            dcr: self.dcr,
            kept: self.kept,
            fixed: self.fixed,
        })
    }
}

impl PlainEntry {
    ghost use Rattle.i3c_base.specs.Numbers.{has_byte, is_capable};
    ghost use Rattle.i3c_base.specs.State.{has_fixed, is_identity, released, unkept};

    // The entry of an identity with this static address. Its dynamic address isn't kept for it.
    pub(crate) fn new(identity: &Identity, fixed: Option<Addr7>) -> PlainEntry
        ensures { result ≡ record { bcr = identity.now.bcr; dcr = identity.now.dcr; kept = None; fixed = fixed } }
    {
        PlainEntry {
            bcr: identity.bcr,
            dcr: identity.dcr,
            kept: None,
            fixed,
        }
    }

    // The entry of an identity with this static address. Its dynamic address is kept for it.
    pub(crate) fn kept(identity: &Identity, fixed: Option<Addr7>) -> PlainEntry
        ensures { result ≡ record { bcr = identity.now.bcr; dcr = identity.now.dcr; kept = Some identity.now; fixed = fixed } }
    {
        PlainEntry {
            bcr: identity.bcr,
            dcr: identity.dcr,
            kept: Some(*identity),
            fixed,
        }
    }

    // Whether the address is kept for an identity.
    pub(crate) fn is_kept_for(&self, identity: &Identity) -> bool
        ensures kept { IsTrue result ↔ (self.now.kept ≡ Some identity.now) }
        ensures test { result ≡ is_identity identity.now self.now.kept }
    {
        match &self.kept {
            Some(kept) => *kept == *identity,
            None => false,
        }
    }

    // Whether the holder of the address has this static address.
    pub(crate) fn has_fixed(&self, fixed: Addr7) -> bool
        ensures { result ≡ has_fixed fixed (Some self.now) }
    {
        self.fixed == Some(fixed)
    }

    // The same entry without a static address, and kept for no identity.
    pub(crate) fn released(&self) -> PlainEntry
        ensures { result ≡ released self.now }
    {
        PlainEntry {
            bcr: self.bcr,
            dcr: self.dcr,
            kept: None,
            fixed: None,
        }
    }

    // The address is kept for this identity from now on, or for nobody.
    pub(crate) fn keep(&mut self, kept: Option<Identity>)
        ensures { self.new ≡ record self.old { kept = kept } }
    {
        self.kept = kept;
    }

    // The address is kept for nobody any more.
    pub(crate) fn forget(&mut self)
        ensures { self.new ≡ unkept self.old }
    {
        self.kept = None;
    }

    // Whether the holder of the address can be a controller.
    pub(crate) fn is_capable(&self) -> bool
        ensures { result ≡ is_capable self.now.bcr }
    {
        self.bcr.capable()
    }

    // Whether interrupts at the address have a mandatory byte.
    pub(crate) fn has_byte(&self) -> bool
        ensures { result ≡ has_byte self.now.bcr }
    {
        self.bcr.has_byte()
    }
}
