ghost use Rattle.std.specs.Prelude.{◌≡◌};
ghost use Rattle.i3c_base.specs.Frames.{changed_kinds};
ghost use Rattle.i3c_base.specs.Numbers.{kind_set};
ghost use Rattle.i3c_base.specs.State.{all_kinds};

use bitflags::Flags;
use i3c_base::{Change, Kinds};
use std::marker::Model;

// The kinds of events that a device has enabled.
#[derive(Drop)]
pub(crate) struct PlainKinds {
    pub(crate) interrupt: bool,
    pub(crate) role: bool,
    pub(crate) join: bool,
}

impl Model for PlainKinds {
    ghost use Rattle.i3c_base.specs.Numbers.{KindSet};

    ghost Value = { KindSet };

    ghost view = { λ k. record {
      interrupt = k.interrupt;
      role = k.role;
      join = k.join;
    } };
}

impl PlainKinds {
    // All three kinds.
    pub(crate) fn all() -> PlainKinds
        ensures { result ≡ all_kinds }
    {
        PlainKinds {
            interrupt: true,
            role: true,
            join: true,
        }
    }

    // More kinds are enabled, or some are disabled.
    pub(crate) fn change(&mut self, change: Change, kinds: Kinds)
        ensures { self.new ≡ changed_kinds change kinds self.old }
    {
        match change {
            Change::Enable => {
                self.interrupt = self.interrupt || names_interrupts(kinds);
                self.role = self.role || names_roles(kinds);
                self.join = self.join || names_joins(kinds);
            }
            Change::Disable => {
                self.interrupt = self.interrupt && !names_interrupts(kinds);
                self.role = self.role && !names_roles(kinds);
                self.join = self.join && !names_joins(kinds);
            }
        }
    }
}

// Whether a command names interrupts.
fn names_interrupts(kinds: Kinds) -> bool
    ensures { result ≡ (kind_set kinds).interrupt }
{
    kinds.contains(Kinds::INTERRUPT)
}

// Whether it names role requests.
fn names_roles(kinds: Kinds) -> bool
    ensures { result ≡ (kind_set kinds).role }
{
    kinds.contains(Kinds::ROLE)
}

// Whether it names joins.
fn names_joins(kinds: Kinds) -> bool
    ensures { result ≡ (kind_set kinds).join }
{
    kinds.contains(Kinds::JOIN)
}
