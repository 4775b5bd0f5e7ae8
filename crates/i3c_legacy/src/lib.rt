//! The legacy I2C targets and the devices that are declared before a bus starts, by their static addresses.
#![tactic(auto)]

mod comparing;
mod copying;
mod faults;
mod legacies;
mod legacy_targets;
mod resting;
mod resting_targets;

pub use faults::{DeclareFault, LegacyFault};
pub use i3c_base::LegacyTarget;
pub use legacies::{DECLARED, LEGACIES, Legacies, is_static};
pub use legacy_targets::LegacyTargets;
pub use resting::RestingLegacies;
pub use resting_targets::RestingTargets;
