//! The arbitrable header: what requests drive into it, and which of them wins.
#![tactic(auto)]

mod arbitration;
mod keys;

pub use arbitration::arbitrate;
pub use i3c_base::Request;
pub use keys::{header, key};
