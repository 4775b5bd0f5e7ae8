use i3c_base::{Addr7, Identity, RoundReply};

/// What a round came to on the lines (I3C Basic 5.1.4.2).
#[derive(Clone, Copy, Debug, PartialEq, Eq)]
pub enum Round {
    /// No address was left to give, and nothing was sent.
    NoAddress,
    /// Nobody acknowledged `7E`/R.
    Done,
    /// These 64 bits were read, the first one the most significant, and nobody acknowledged this address after them.
    Nobody {
        bits: u64,
        address: Addr7,
    },
    /// These bits were read, those of this identity, and the device that sent them took this address.
    Assigned {
        bits: u64,
        address: Addr7,
        identity: Identity,
    },
}

impl Round {
    ghost use Rattle.std.specs.Prelude.{◌≡◌};
    ghost use Rattle.i3c_entdaa.specs.Rounds.{reply_of};

    /// The round's answer.
    pub fn reply(&self) -> RoundReply
        ensures { result ≡ reply_of self.now }
    {
        match self {
            Round::NoAddress => RoundReply::NoAddress,
            Round::Done => RoundReply::Done,
            Round::Nobody { .. } => RoundReply::Nobody,
            Round::Assigned {
                address,
                identity,
                ..
            } => RoundReply::Assigned(*address, *identity),
        }
    }
}
