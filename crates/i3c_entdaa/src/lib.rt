//! One round of dynamic address assignment: the devices that hear the session contend with their identities, and the
//! winner takes the address that is sent; and how a round is told.
#![tactic(auto)]

mod hearers;
mod identities;
mod outcome;
mod rounds;
mod wire;

pub use i3c_base::RoundReply;
pub use outcome::Round;
pub use rounds::round;
pub use wire::tell_round;
