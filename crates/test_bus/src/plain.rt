use crate::checks::{holds, same};
use i3c_base::{Identity, Setup};
use i3c_legacy::Legacies;
use i3c_model::{Plain, PlainFault};

// No bit of its BCR says that it can be a controller.
#[test]
fn a_main_device_must_be_a_controller(rt: HostRuntime) {
    let main = Setup {
        identity: Identity::from_number(0x0204_0000_0010_0644),
        willing: true,
    };
    match Plain::new(rt.alloc(), main, Legacies::new()) {
        Ok(_plain) => holds(&rt, false, "it can't be a controller"),
        Err(fault) => same(&rt, fault, PlainFault::NotCapable),
    }
}
