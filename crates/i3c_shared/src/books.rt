use crate::held::HeldRole;
use crate::intake::Intake;
use i3c_base::Slot;
use std::marker::Model;
use std::sync::ledger::{Blank, Book, Ledger, Share};

/// The books of a bus's three ledgers. They are seen as their amounts: the active controller's slot, 1 while a session is
/// open, and the number of frame events in the run.
#[derive(Drop)]
pub struct Books<L: Ledger, M: Ledger, N: Ledger> {
    active: Book<L>,
    session: Book<M>,
    frames: Book<N>,
}

impl<L: Ledger, M: Ledger, N: Ledger> Model for Books<L, M, N> {
    ghost use Rattle.i3c_shared.specs.Values.{BooksValue};

    ghost Value = { BooksValue };

    ghost view = { λ b. record { active = b.active.total; session = b.session.total; frames = b.frames.total } };
}

/// All shares of the three ledgers, for a role or session, with the slot and the count that they hold. They are seen as their
/// amounts.
pub struct Shares<L: Ledger, M: Ledger, N: Ledger> {
    pub(crate) holder: Slot,
    pub(crate) count: u64,
    pub(crate) active: Share<L>,
    pub(crate) session: Share<M>,
    pub(crate) frames: Share<N>,
}

impl<L: Ledger, M: Ledger, N: Ledger> Model for Shares<L, M, N> {
    ghost use Rattle.std.specs.Prelude.{◌≡◌, ◌<◌};
    ghost use Rattle.i3c_shared.specs.Values.{BooksValue};

    ghost Value = { BooksValue };

    ghost view = { λ s. record { active = s.holder; session = s.session.amount; frames = s.count } };

    ghost invariant = { λ s. record {
      holder : s.active.amount ≡ s.holder;
      counts : s.frames.amount ≡ s.count;
      whole : (s.active.parts ≡ L.parts) × (s.session.parts ≡ M.parts) × (s.frames.parts ≡ N.parts);
      some : (0 < L.parts) × (0 < M.parts) × (0 < N.parts);
    } };
}

impl<L: Ledger, M: Ledger, N: Ledger> Shares<L, M, N> {
    /// Spends them: no lock, no memory.
    pub(crate) fn let_go(self) {
        let Shares {
            holder: _,
            count: _,
            active: _,
            session: _,
            frames: _,
        } = self;
    }
}

impl<L: Ledger, M: Ledger, N: Ledger> Books<L, M, N> {
    ghost use Rattle.std.specs.Prelude.{◌≡◌, ◌+◌, MatchOption, ⊤};
    ghost use Rattle.i3c_shared.specs.Books.{book_frame, frames_in, no_books, shares_of};

    /// Opens three ledgers of one part each: nothing is booked, and all shares are in one hand.
    pub(crate) fn open(
        active: Blank,
        session: Blank,
        frames: Blank,
    ) -> (Books<L, M, N>, Shares<L, M, N>)
        requires active { (active.name ≡ L.name) × (active.parts ≡ L.parts) × (active.parts ≡ 1) }
        requires session { (session.name ≡ M.name) × (session.parts ≡ M.parts) × (session.parts ≡ 1) }
        requires frames { (frames.name ≡ N.name) × (frames.parts ≡ N.parts) × (frames.parts ≡ 1) }
        ensures books { result.0 ≡ no_books }
        ensures shares { result.1 ≡ no_books }
    {
        let (active, first) = active.open::<L>();
        let (session, second) = session.open::<M>();
        let (frames, third) = frames.open::<N>();
        let books = Books {
            active,
            session,
            frames,
        };
        let shares = Shares {
            holder: Slot::default(),
            count: 0,
            active: first,
            session: second,
            frames: third,
        };
        (books, shares)
    }

    /// Changes nothing, and tells that the shares are all that is booked.
    pub(crate) fn audit(&mut self, shares: &mut Shares<L, M, N>)
        ensures same { (self.new ≡ self.old) × (shares.new ≡ shares.old) }
        ensures whole { shares.old ≡ self.old }
    {
        self.active.audit(&mut shares.active);
        self.session.audit(&mut shares.session);
        self.frames.audit(&mut shares.frames);
    }

    /// Audits the shares of a role, if there is one.
    pub(crate) fn audit_role(&mut self, role: &mut Option<HeldRole<L, M, N>>)
        ensures same { (self.new ≡ self.old) × (role.new ≡ role.old) }
        ensures whole { MatchOption role.old ⊤ (λ held. shares_of 0 held ≡ self.old) }
    {
        if let Some(role) = role {
            self.audit(&mut role.shares);
        }
    }

    /// Books one frame event more, which this run has.
    pub(crate) fn count(&mut self, intake: &Intake, shares: &mut Shares<L, M, N>)
        requires { frames_in intake.now.log.run ≡ shares.old.frames + 1 }
        ensures books { self.new ≡ book_frame self.old }
        ensures shares { shares.new ≡ book_frame shares.old }
    {
        // a run's events are fewer than 2^64
        let _events = intake.events();
        self.frames.add(&mut shares.frames, 1);
        shares.count += 1;
    }

    /// Books that a session is open.
    pub(crate) fn open_session(&mut self, shares: &mut Shares<L, M, N>)
        requires { (self.old.session ≡ 0) × (shares.old.session ≡ 0) }
        ensures books { self.new ≡ record self.old { session = 1 } }
        ensures shares { shares.new ≡ record shares.old { session = 1 } }
    {
        self.session.add(&mut shares.session, 1);
    }

    /// Books that no session is open.
    pub(crate) fn end_session(&mut self, shares: &mut Shares<L, M, N>)
        requires { (self.old.session ≡ 1) × (shares.old.session ≡ 1) }
        ensures books { self.new ≡ record self.old { session = 0 } }
        ensures shares { shares.new ≡ record shares.old { session = 0 } }
    {
        self.session.sub(&mut shares.session, 1);
    }

    /// Books another active controller.
    pub(crate) fn move_to(&mut self, shares: &mut Shares<L, M, N>, slot: Slot)
        requires { self.old.active ≡ shares.old.active }
        ensures books { self.new ≡ record self.old { active = slot } }
        ensures shares { shares.new ≡ record shares.old { active = slot } }
    {
        self.active
            .sub(&mut shares.active, shares.holder.index() as u64);
        self.active.add(&mut shares.active, slot.index() as u64);
        shares.holder = slot;
    }
}
