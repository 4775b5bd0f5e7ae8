ghost use Rattle.std.specs.Prelude.{⊤};

use crate::faults::Fault;
use crate::setting::Setting;
use crate::told::{Answer, told, told_hex};
use crate::words::Words;
use i3c_ibi::{Fixed, Policy, Request, Verdict, decide, first_request, serve};

/// A policy that counts how often it is asked.
#[derive(Drop)]
pub(crate) struct Counting {
    fixed: Fixed,
    asked: u8,
}

impl Counting {
    /// A policy with a verdict for each kind, which wasn't asked.
    pub fn new(fixed: Fixed) -> Counting {
        Counting { fixed, asked: 0 }
    }
}

impl Policy for Counting {
    ghost verdict_gives = { λ old request verdict new. ⊤ };

    fn verdict(&mut self, request: Request) -> Verdict {
        self.asked = self.asked.wrapping_add(1);
        self.fixed.verdict(request)
    }
}

/// Accepts all.
pub(crate) const ACCEPTING: Fixed = Fixed {
    join: Verdict::Accept,
    role: Verdict::Accept,
    interrupt: Verdict::Accept,
};

/// The calls on a frame's first request.
pub(crate) fn call(setting: &mut Setting, call: &str, words: &mut Words<'_>) -> Answer {
    let alloc = setting.alloc;
    match call {
        "serve" => served(setting),
        "first-request" => told_hex(alloc, &first_request(&setting.devices, setting.active)),
        "decide" => decided(setting, words),
        "asked" => told(alloc, &setting.policy.asked),
        _ => Err(Fault::Unknown),
    }
}

/// The verdicts.
const VERDICTS: [(&str, Verdict); 2] = [("accept", Verdict::Accept), ("refuse", Verdict::Refuse)];

/// The verdicts on joins, role requests and interrupts.
pub(crate) fn verdicts(words: &mut Words<'_>) -> Result<Fixed, Fault> {
    Ok(Fixed {
        join: words.named(&VERDICTS)?,
        role: words.named(&VERDICTS)?,
        interrupt: words.named(&VERDICTS)?,
    })
}

/// Serves the first request.
fn served(setting: &mut Setting) -> Answer {
    let reading = serve(
        &mut setting.devices,
        setting.active,
        &setting.table,
        &mut setting.policy,
        &setting.cuts,
    );
    told_hex(setting.alloc, &reading)
}

/// The verdict on a request, of the policy itself.
fn decided(setting: &Setting, words: &mut Words<'_>) -> Answer {
    let request = words.request()?;
    let mut policy = setting.policy.fixed;
    told(
        setting.alloc,
        &decide(&setting.table, &mut policy, &request),
    )
}
