ghost use Rattle.i3c_base.specs.State.{HasDevices, State};
ghost use Rattle.i3c_base.specs.Serve.{IsFirstRequest};

use i3c_base::{Request, Slot};
use i3c_device::Devices;

/// The first request of a bus with these devices: their keys contend in the header (I3C Basic 5.1.6.2).
pub fn first_request(devices: &Devices, active: Slot) -> Option<Request>
    ensures { (st : State) → HasDevices st devices.now active → IsFirstRequest st result }
{
    let (request, _) = devices.first_request(active)?;
    Some(request)
}
