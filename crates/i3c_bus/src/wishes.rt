ghost use Rattle.std.specs.Prelude.{◌≡◌, slice_index_or, None};
ghost use Rattle.i3c_bus.specs.Wishing.{wish_of};

use i3c_base::{Request, Slot};
use i3c_ccc::Code;
use i3c_device::Devices;
use i3c_word::write_word;

/// Interrupts, role requests and Hot-Join, as bits of the byte of ENEC (I3C Basic 5.1.9.3.1).
const EACH_KIND: u8 = 0x0B;

/// The request that a slot's device would drive if each kind of its events was enabled, if it would drive one: a join
/// without an address, otherwise the role request before the interrupt (I3C Basic 5.1.6).
pub(crate) fn wish(devices: &Devices, slot: Slot) -> Option<Request>
    ensures { result ≡ wish_of (slice_index_or devices.now slot None) }
{
    let mut device = devices.get(slot)?;
    device.hear(Code::Enec, &[write_word(EACH_KIND)]);
    device.wants()
}
