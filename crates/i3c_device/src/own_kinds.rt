ghost use Rattle.std.specs.Prelude.{◌≡◌};
ghost use Rattle.i3c_base.specs.Frames.{with_kinds, without_kinds};
ghost use Rattle.i3c_base.specs.Numbers.{kind_set};
ghost use Rattle.i3c_base.specs.State.{all_kinds};
ghost use Rattle.i3c_device.specs.Enabling.{kinds_of};
ghost use Rattle.i3c_device.specs.Wishing.{has_kind};

use crate::kinds::{may_ask_role, may_interrupt, may_join};
use i3c_base::{Kinds, Request};

/// The kinds of events that are enabled for one device.
#[derive(Clone, Copy)]
pub(crate) struct OwnKinds {
    pub interrupt: bool,
    pub role: bool,
    pub join: bool,
}

impl OwnKinds {
    /// All kinds.
    pub fn all() -> OwnKinds
        ensures { kinds_of result ≡ all_kinds }
    {
        OwnKinds {
            interrupt: true,
            role: true,
            join: true,
        }
    }

    /// These kinds more.
    pub fn with(self, kinds: Kinds) -> OwnKinds
        ensures { kinds_of result ≡ with_kinds (kinds_of self) (kind_set kinds) }
    {
        OwnKinds {
            interrupt: self.interrupt | may_interrupt(kinds),
            role: self.role | may_ask_role(kinds),
            join: self.join | may_join(kinds),
        }
    }

    /// Without these kinds.
    pub fn without(self, kinds: Kinds) -> OwnKinds
        ensures { kinds_of result ≡ without_kinds (kinds_of self) (kind_set kinds) }
    {
        OwnKinds {
            interrupt: self.interrupt & !may_interrupt(kinds),
            role: self.role & !may_ask_role(kinds),
            join: self.join & !may_join(kinds),
        }
    }

    /// Whether the kind of this request is enabled.
    pub fn allow(self, request: &Request) -> bool
        ensures { result ≡ has_kind (kinds_of self) request.now }
    {
        match request {
            Request::Join => self.join,
            Request::Role(_) => self.role,
            Request::Interrupt(_) => self.interrupt,
        }
    }
}
