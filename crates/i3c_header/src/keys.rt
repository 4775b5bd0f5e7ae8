ghost use Rattle.std.specs.Prelude.{◌≡◌, ◌+◌, ◌*◌, ◌<◌};
ghost use Rattle.i3c_header.specs.Keys.{address_of, is_read, rnw_of};

use i3c_base::{Addr7, Request};

/// The address of a Hot-Join request (I3C Basic 5.1.5).
const JOIN_ADDRESS: u8 = 0x02;

/// The address and RnW bit that a request drives, as a header's first eight bits: the address in bits 7:1, RnW in bit 0
/// (I3C Basic 5.1.2.2.1).
pub fn key(request: Request) -> u8
    ensures { result ≡ 2 * address_of request + rnw_of request }
{
    match request {
        Request::Join => 2 * JOIN_ADDRESS,
        Request::Role(address) => 2 * address.get(),
        Request::Interrupt(address) => 2 * address.get() + 1,
    }
}

/// The address of a request's header, and whether it reads: what its key says.
pub fn header(request: Request) -> (Addr7, bool)
    ensures address { result.0 ≡ address_of request }
    ensures read { result.1 ≡ is_read request }
{
    let key = key(request);
    (Addr7::new(key / 2).unwrap(), key % 2 == 1)
}
