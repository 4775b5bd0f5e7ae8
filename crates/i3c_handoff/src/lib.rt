//! The role of active controller: its holder, wishes for it, and its offer to an address.
//!
//! One holder has the role at a time. It comes only from `Active::new`, moves only by `give` and ends only by `retire`.
#![tactic(auto)]

mod faults;
mod offers;
mod outcome;
mod roles;
mod wire;
mod wishes;

pub use faults::HandFault;
pub use i3c_base::RoleRefusal;
pub use offers::{offer, offer_bits};
pub use outcome::Offer;
pub use roles::{Active, Role, give, retire};
pub use wire::tell_offer;
pub use wishes::ask;
