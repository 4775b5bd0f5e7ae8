use i3c_base::Slot;
use i3c_handoff::Role;
use std::marker::Model;

/// The role while a session is open. It is seen as the slot that holds it, and must be ended or retired.
pub struct Session {
    pub(crate) role: Role,
}

impl Model for Session {
    ghost use Rattle.std.specs.Prelude.{ℕ};

    ghost Value = { ℕ };

    ghost view = { λ s. s.role };
}

/// The role, or the session that took its place.
pub enum Hand {
    /// No session is open.
    Role(Role),
    /// One is.
    Session(Session),
}

impl Session {
    ghost use Rattle.std.specs.Prelude.{◌≡◌};

    /// The slot that holds it.
    pub fn holder(&self) -> Slot
        ensures { result ≡ self.now }
    {
        self.role.holder()
    }

    /// The role that the session holds.
    pub(crate) fn into_role(self) -> Role
        ensures { result ≡ self }
    {
        let Session { role } = self;
        role
    }
}

impl Hand {
    ghost use Rattle.std.specs.Prelude.{◌≡◌};
    ghost use Rattle.i3c_bus.specs.Hands.{holder_of, is_session};

    /// The slot that holds it.
    pub fn holder(&self) -> Slot
        ensures { result ≡ holder_of self.now }
    {
        match self {
            Hand::Role(role) => role.holder(),
            Hand::Session(session) => session.holder(),
        }
    }

    /// The role, or while a session is open the session that takes its place.
    pub(crate) fn new(role: Role, in_session: bool) -> Hand
        ensures holder { holder_of result ≡ role }
        ensures session { is_session result ≡ in_session }
    {
        if in_session {
            Hand::Session(Session { role })
        } else {
            Hand::Role(role)
        }
    }

    /// The role that it is or holds.
    pub(crate) fn into_role(self) -> Role
        ensures { result ≡ holder_of self }
    {
        match self {
            Hand::Role(role) => role,
            Hand::Session(session) => session.into_role(),
        }
    }
}
