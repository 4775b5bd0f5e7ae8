//! The bus that threads share: one lock, and under it the bus with the run that led to it.
#![tactic(auto)]

mod books;
mod closed;
mod compare;
mod faults;
mod held;
mod intake;
mod kept;
mod laws;
mod port;
mod replying;
mod shared_bus;

pub use closed::Closed;
pub use faults::{AttachFault, CallFault, CloseFault, DropFault, HandOverFault, Left, StartFault};
pub use held::{HeldRole, HeldSession};
pub use i3c_recorder::{Entry, Recorder, Run};
pub use kept::{Kept, Unclosed};
pub use laws::posts_are_accounted_for;
pub use port::{Full, POSTS, Port, spend_ports};
pub use shared_bus::SharedBus;
