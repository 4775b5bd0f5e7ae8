ghost use Rattle.std.specs.Prelude.{◌≡◌, ◌^◌, ◌<◌, ◌≤◌, [], length, All, MatchOption};
ghost use Rattle.i3c_base.specs.declared.range.TheConstants.{SLOTS as SLOT_COUNT};
ghost use Rattle.i3c_header.specs.Keys.{IsFirstOf, IsLawful};
ghost use Rattle.i3c_header.specs.Keyed.{keyed};

use crate::keys::key;
use arrayvec::ArrayVec;
use i3c_base::{Request, SLOTS, Slot};
use i3c_wires::contest_uncut;

/// The bits of a header that are contested: seven of the address, and RnW.
const KEY_BITS: u32 = 8;

/// The number of requests for which a short list of contenders is enough.
const FEW: usize = 4;

/// The request that wins the header which all of these drive at once (I3C Basic 5.1.2.2.1): a join if there is
/// one, otherwise the smallest address, and at one address the role request. Their keys contend on the lines, bit by bit. `None` only
/// where there is none.
pub fn arbitrate(requests: &[Request]) -> Option<Request>
    requires few { length requests.now ≤ SLOT_COUNT }
    requires lawful { All IsLawful requests.now }
    ensures { MatchOption result (requests.now ≡ []) (IsFirstOf requests.now) }
{
    if requests.len() <= FEW {
        first_of::<FEW>(requests)
    } else {
        first_of::<SLOTS>(requests)
    }
}

/// The request that wins, from a list with room for `N` contenders.
#[inline(always)]
fn first_of<const N: usize>(requests: &[Request]) -> Option<Request>
    requires room { length requests.now ≤ N }
    requires few { N ≤ SLOT_COUNT }
    requires lawful { All IsLawful requests.now }
    ensures { MatchOption result (requests.now ≡ []) (IsFirstOf requests.now) }
{
    if requests.is_empty() {
        return None;
    }
    let mut keys: ArrayVec<(Slot, u64), N> = ArrayVec::new();
    contend(&mut keys, requests);
    let outcome = contest_uncut(&keys, KEY_BITS);
    let winner = outcome.winners[0];
    Some(requests[winner.index()])
}

/// Enters the key of each request into an empty list: it contends under the request's place.
// the list is the caller's, since it is large to hand back
fn contend<const N: usize>(keys: &mut ArrayVec<(Slot, u64), N>, requests: &[Request])
    requires room { length requests.now ≤ N }
    requires few { N ≤ SLOT_COUNT }
    requires none { keys.old.items ≡ [] }
    ensures keys { keys.new.items ≡ keyed 0 requests.now }
    ensures fit { All (λ e. e.1 < 2 ^ 8) keys.new.items }
{
    for (index, request) in requests.iter().enumerate() {
        let place = Slot::new(index as u8).unwrap();
        keys.push((place, u64::from(key(*request))));
    }
}
