ghost use Rattle.std.specs.Prelude.{◌≡◌, true, false};
ghost use Rattle.i3c_base.specs.declared.requests.Request.{Request as RequestValue};
ghost use Rattle.i3c_base.specs.declared.requests.Verdict.{Verdict as VerdictValue};
ghost use Rattle.i3c_ibi.specs.Policies.{is_known, verdict_in};

use i3c_base::{Fixed, Request, Verdict};
use i3c_table::Table;

/// Decides on requests: ACK or NACK (I3C Basic 5.1.6.2).
pub trait Policy {
    /// Which verdict a policy may give to a request, and what it is afterwards.
    ghost verdict_gives: { Self → RequestValue → VerdictValue → Self → Type 0 };

    /// The verdict on a request.
    fn verdict(&mut self, request: Request) -> Verdict
        ensures { verdict_gives self.old request result self.new };
}

impl Policy for Fixed {
    ghost verdict_gives = { λ old request verdict new. (new ≡ old) × (verdict ≡ verdict_in old request) };

    fn verdict(&mut self, request: Request) -> Verdict {
        match request {
            Request::Join => self.join,
            Request::Role(_) => self.role,
            Request::Interrupt(_) => self.interrupt,
        }
    }
}

/// Whether a request's address has a row in the table. A join has no address.
fn is_known(table: &Table, request: &Request) -> bool
    ensures { result ≡ is_known table.now.given request.now }
{
    match request {
        Request::Join => true,
        Request::Role(address) => table.row_of(*address).is_some(),
        Request::Interrupt(address) => table.row_of(*address).is_some(),
    }
}

/// The verdict on a request: the policy's. One whose address has no row in the table is refused unasked.
pub fn decide<P: Policy>(table: &Table, policy: &mut P, request: &Request) -> Verdict
    ensures asked { is_known table.now.given request.now ≡ true → P.verdict_gives policy.old request.now result policy.new }
    ensures unasked { is_known table.now.given request.now ≡ false → (result ≡ VerdictValue.Refuse) × (policy.new ≡ policy.old) }
{
    if is_known(table, request) {
        policy.verdict(*request)
    } else {
        Verdict::Refuse
    }
}
