use crate::bus::Bus;
use i3c_base::{Addr7, Change, Cuts, Datum, Direction, Kinds, Length};
use i3c_frame::Tap;
use i3c_handoff::Role;
use i3c_ibi::Policy;
use i3c_step::Reply;

// Each command makes its reply in a function of its own. Rattle clears a function's locals where it begins, so those of
// all commands in one function would be cleared for each of them. A reply has 48 bytes, and is written where its reader
// keeps it.

impl Bus {
    ghost use Rattle.i3c_frame.specs.Taps.{Tells};
    ghost use Rattle.i3c_step.specs.Commands.{kinds_event};
    ghost use Rattle.i3c_step.specs.Giving.{given_by};
    ghost use Rattle.i3c_step.specs.declared.events.Event.{Event};
    ghost use Rattle.i3c_bus.specs.Asking.{Asks};
    ghost use Rattle.i3c_bus.specs.Calls.{Carries};
    ghost use Rattle.i3c_bus.specs.Hands.{HandFits};
    ghost use Rattle.i3c_bus.specs.declared.hand.Hand.{Hand};

    /// A frame that serves the first request and does no more, and its reply.
    #[inline(never)]
    pub(crate) fn serve_reply<P: Policy, T: Tap>(
        &mut self,
        role: &Role,
        policy: &mut P,
        tap: &mut T,
        cuts: &Cuts,
        reply: &mut Reply,
    )
        requires fits { HandFits (Hand.Role role.now) self.old.state }
        ensures asks { Asks P.verdict_gives policy.old policy.new self.old.state reply.new }
        ensures carried { Carries self.old self.new (Event.Serve (given_by reply.new) cuts.now) reply.new (Hand.Role role.now) (Tells T.note_gives tap.old tap.new) }
    {
        *reply = Reply::from(self.serve(role, policy, tap, cuts));
    }

    /// ENEC or DISEC, and its reply.
    #[inline(never)]
    pub(crate) fn kinds_reply<P: Policy, T: Tap>(
        &mut self,
        role: &Role,
        change: Change,
        to: Option<Addr7>,
        kinds: Kinds,
        policy: &mut P,
        tap: &mut T,
        cuts: &Cuts,
        reply: &mut Reply,
    )
        requires fits { HandFits (Hand.Role role.now) self.old.state }
        ensures asks { Asks P.verdict_gives policy.old policy.new self.old.state reply.new }
        ensures carried { Carries self.old self.new (kinds_event change to kinds (given_by reply.new) cuts.now) reply.new (Hand.Role role.now) (Tells T.note_gives tap.old tap.new) }
    {
        *reply = Reply::from(self.change_kinds(role, change, to, kinds, policy, tap, cuts));
    }

    /// RSTDAA, and its reply.
    #[inline(never)]
    pub(crate) fn reset_reply<P: Policy, T: Tap>(
        &mut self,
        role: &Role,
        policy: &mut P,
        tap: &mut T,
        cuts: &Cuts,
        reply: &mut Reply,
    )
        requires fits { HandFits (Hand.Role role.now) self.old.state }
        ensures asks { Asks P.verdict_gives policy.old policy.new self.old.state reply.new }
        ensures carried { Carries self.old self.new (Event.Reset (given_by reply.new) cuts.now) reply.new (Hand.Role role.now) (Tells T.note_gives tap.old tap.new) }
    {
        *reply = Reply::from(self.reset(role, policy, tap, cuts));
    }

    /// DEFTGTS, and its reply.
    #[inline(never)]
    pub(crate) fn list_reply<P: Policy, T: Tap>(
        &mut self,
        role: &Role,
        policy: &mut P,
        tap: &mut T,
        cuts: &Cuts,
        reply: &mut Reply,
    )
        requires fits { HandFits (Hand.Role role.now) self.old.state }
        ensures asks { Asks P.verdict_gives policy.old policy.new self.old.state reply.new }
        ensures carried { Carries self.old self.new (Event.SendList (given_by reply.new) cuts.now) reply.new (Hand.Role role.now) (Tells T.note_gives tap.old tap.new) }
    {
        *reply = Reply::from(self.list(role, policy, tap, cuts));
    }

    /// A private read, and its reply.
    #[inline(never)]
    pub(crate) fn read_reply<P: Policy, T: Tap>(
        &mut self,
        role: &Role,
        from: Addr7,
        policy: &mut P,
        tap: &mut T,
        cuts: &Cuts,
        reply: &mut Reply,
    )
        requires fits { HandFits (Hand.Role role.now) self.old.state }
        ensures asks { Asks P.verdict_gives policy.old policy.new self.old.state reply.new }
        ensures carried { Carries self.old self.new (Event.ReadFrom from (given_by reply.new) cuts.now) reply.new (Hand.Role role.now) (Tells T.note_gives tap.old tap.new) }
    {
        *reply = Reply::from(self.read(role, from, policy, tap, cuts));
    }

    /// SETDASA, and its reply.
    #[inline(never)]
    pub(crate) fn static_reply<P: Policy, T: Tap>(
        &mut self,
        role: &Role,
        fixed: Addr7,
        new: Addr7,
        policy: &mut P,
        tap: &mut T,
        cuts: &Cuts,
        reply: &mut Reply,
    )
        requires fits { HandFits (Hand.Role role.now) self.old.state }
        ensures asks { Asks P.verdict_gives policy.old policy.new self.old.state reply.new }
        ensures carried { Carries self.old self.new (Event.SetStatic fixed new (given_by reply.new) cuts.now) reply.new (Hand.Role role.now) (Tells T.note_gives tap.old tap.new) }
    {
        *reply = Reply::from(self.set_static(role, fixed, new, policy, tap, cuts));
    }

    /// SETNEWDA, and its reply.
    #[inline(never)]
    pub(crate) fn new_reply<P: Policy, T: Tap>(
        &mut self,
        role: &Role,
        old: Addr7,
        new: Addr7,
        policy: &mut P,
        tap: &mut T,
        cuts: &Cuts,
        reply: &mut Reply,
    )
        requires fits { HandFits (Hand.Role role.now) self.old.state }
        ensures asks { Asks P.verdict_gives policy.old policy.new self.old.state reply.new }
        ensures carried { Carries self.old self.new (Event.SetNew old new (given_by reply.new) cuts.now) reply.new (Hand.Role role.now) (Tells T.note_gives tap.old tap.new) }
    {
        *reply = Reply::from(self.set_new(role, old, new, policy, tap, cuts));
    }

    /// GETPID or its like, and its reply.
    #[inline(never)]
    pub(crate) fn get_reply<P: Policy, T: Tap>(
        &mut self,
        role: &Role,
        what: Datum,
        from: Addr7,
        policy: &mut P,
        tap: &mut T,
        cuts: &Cuts,
        reply: &mut Reply,
    )
        requires fits { HandFits (Hand.Role role.now) self.old.state }
        ensures asks { Asks P.verdict_gives policy.old policy.new self.old.state reply.new }
        ensures carried { Carries self.old self.new (Event.Get what from (given_by reply.new) cuts.now) reply.new (Hand.Role role.now) (Tells T.note_gives tap.old tap.new) }
    {
        *reply = Reply::from(self.get(role, what, from, policy, tap, cuts));
    }

    /// SETMWL or SETMRL, and its reply.
    #[inline(never)]
    pub(crate) fn length_reply<P: Policy, T: Tap>(
        &mut self,
        role: &Role,
        way: Direction,
        most: Length,
        to: Option<Addr7>,
        policy: &mut P,
        tap: &mut T,
        cuts: &Cuts,
        reply: &mut Reply,
    )
        requires fits { HandFits (Hand.Role role.now) self.old.state }
        ensures asks { Asks P.verdict_gives policy.old policy.new self.old.state reply.new }
        ensures carried { Carries self.old self.new (Event.SetLength way most to (given_by reply.new) cuts.now) reply.new (Hand.Role role.now) (Tells T.note_gives tap.old tap.new) }
    {
        *reply = Reply::from(self.set_length(role, way, most, to, policy, tap, cuts));
    }
}
