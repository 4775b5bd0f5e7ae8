//! Hot-Join (I3C Basic 5.1.5): the devices that may wish to join a running bus, and their wishes.
//!
//! The wish's request goes into the next arbitrable header, as `i3c_device` drives each request, and stays until a frame
//! accepts it or a session gives the device its address.
#![tactic(auto)]

mod wishes;

pub use i3c_base::JoinRefusal;
pub use wishes::ask;
