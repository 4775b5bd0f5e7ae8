use crate::plain::Plain;
use i3c_base::{Cuts, Fixed, Request, Slot, Verdict};

impl Plain {
    ghost use Rattle.std.specs.Prelude.{◌≡◌, ◌↔◌, ℕ, false, true, IfSome, IsTrue, MatchOption};
    ghost use Rattle.i3c_base.specs.declared.requests.Request.{Request as RequestValue};
    ghost use Rattle.i3c_base.specs.Cutting.{lost_by};
    ghost use Rattle.i3c_base.specs.Serve.{IsFirstRequest, drives, verdict};

    // The request that a slot's device drives. The active controller drives none.
    fn driven(&self, slot: Slot) -> Option<Request>
        ensures asked { MatchOption result ((q : RequestValue) → drives self.now q slot ≡ false) (λ r. drives self.now r slot ≡ true) }
        ensures alone { IfSome result (λ r. (q : RequestValue) → drives self.now q slot ≡ true → q ≡ r) }
    {
        if slot == self.active {
            return None;
        }
        match self.device(slot) {
            Some(device) => device.wants(),
            None => None,
        }
    }

    // Whether a slot's device drives this request.
    pub(crate) fn drives(&self, slot: Slot, request: &Request) -> bool
        ensures { result ≡ drives self.now request.now slot }
    {
        match self.driven(slot) {
            Some(driven) => driven == *request,
            None => false,
        }
    }

    // The first request of those that the slots drive.
    pub(crate) fn first_request(&self) -> Option<Request>
        ensures { IsFirstRequest self.now result }
    {
        let mut first: Option<Request> = None;
        for index in 0..self.slots() {
            if let Some(request) = self.driven(Slot::from_index(index)) {
                first = Some(earlier(&first, &request));
            }
        }
        first
    }

    // Whether a driver of this request isn't lost by this bit.
    pub(crate) fn is_driver_left(&self, request: &Request, cuts: &Cuts, last: u16) -> bool
        ensures { IsTrue result ↔ ((s : ℕ) × (drives self.now request.now s ≡ true) × (lost_by cuts.now last s ≡ false)) }
    {
        let active = self.active;
        self.devices.iter().any(|(slot, device)| {
            *slot != active && device.asks(request) && !cuts.is_lost(*slot, last)
        })
    }

    // The policy's verdict on a request. One at an address without an entry is refused unasked.
    pub(crate) fn verdict(&self, policy: &Fixed, request: &Request) -> Verdict
        ensures { result ≡ verdict self.now policy.now request.now }
    {
        match request {
            Request::Join => policy.join,
            Request::Role(at) => {
                if self.is_given(*at) {
                    policy.role
                } else {
                    Verdict::Refuse
                }
            }
            Request::Interrupt(at) => {
                if self.is_given(*at) {
                    policy.interrupt
                } else {
                    Verdict::Refuse
                }
            }
        }
    }
}

ghost use Rattle.std.specs.Prelude.{◌≡◌, ◌≤◌, ◌⊎◌, ⊤, Some, MatchOption};
ghost use Rattle.i3c_base.specs.Serve.{rank};

// The place of a request in the order: joins, then by address, then the role request before the interrupt.
fn rank(request: &Request) -> u16
    ensures { result ≡ rank request.now }
{
    match request {
        Request::Join => 0,
        Request::Role(address) => 1 + 2 * address.get() as u16,
        Request::Interrupt(address) => 2 + 2 * address.get() as u16,
    }
}

// The one of two requests that comes first.
fn earlier(first: &Option<Request>, request: &Request) -> Request
    ensures one { (result ≡ request.now) ⊎ (first.now ≡ Some result) }
    ensures least { rank result ≤ rank request.now }
    ensures still { MatchOption first.now ⊤ (λ r. rank result ≤ rank r) }
{
    match first {
        Some(other) => {
            if rank(other) <= rank(request) {
                *other
            } else {
                *request
            }
        }
        None => *request,
    }
}
