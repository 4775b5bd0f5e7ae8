ghost use Rattle.std.specs.Prelude.{◌≡◌, ◌++◌, ◌∷◌, [], IfOk, OnOk};
ghost use Rattle.i3c_runner.specs.Expecting.{is_met, lasting_line, lasting_text, still_lasting, unmet_if, unmet_with};

use crate::expecting::push_unmet;
use i3c_bus::Bus;
use i3c_facts::{Before, Facts};
use i3c_lines::Names;
use i3c_text::Text;
use std::alloc::{AllocError, Global};

/// An expectation that lasts to the next `close`.
#[derive(Drop)]
pub(crate) struct Lasting {
    /// The number of its line.
    pub number: u64,
    /// What has to hold.
    pub facts: Facts,
}

/// Tests one that lasts. It is told where it doesn't hold, and counted among those that weren't met.
pub(crate) fn test_one(
    bus: &Bus,
    names: &Names,
    before: &Before,
    one: &Lasting,
    unmet: &mut u64,
    text: &mut Text,
) -> Result<bool, AllocError>
    ensures holds { IfOk result (λ holds. holds ≡ is_met bus.now.state names.now before.now one.now.facts) }
    ensures told { IfOk result (λ holds. text.new ≡ text.old ++ lasting_line bus.now.state names.now before.now one.now holds) }
    ensures counted { IfOk result (λ holds. unmet.new ≡ unmet_if holds unmet.old) }
{
    if one.facts.hold(bus, names, before) {
        return Ok(true);
    }
    *unmet = unmet.saturating_add(1);
    push_unmet(bus, names, before, one.number, &one.facts, text)?;
    Ok(false)
}

/// One more lasts, behind the others.
pub(crate) fn keep(lasting: &mut Vec<Lasting>, one: Lasting) -> Result<(), AllocError>
    ensures { OnOk result (lasting.new.items ≡ lasting.old.items ++ one ∷ []) }
{
    lasting.push(one)?;
    Ok(())
}

/// Tests those that last, in their order. Those that hold last on.
pub(crate) fn test_all(
    alloc: Global,
    bus: &Bus,
    names: &Names,
    before: &Before,
    lasting: Vec<Lasting>,
    unmet: &mut u64,
    text: &mut Text,
) -> Result<Vec<Lasting>, AllocError>
    ensures still { IfOk result (λ still. still.items ≡ still_lasting bus.now.state names.now before.now lasting.items) }
    ensures told { OnOk result (text.new ≡ text.old ++ lasting_text bus.now.state names.now before.now lasting.items) }
    ensures counted { OnOk result (unmet.new ≡ unmet_with bus.now.state names.now before.now lasting.items unmet.old) }
{
    let mut still = Vec::new(alloc);
    for one in lasting {
        if test_one(bus, names, before, &one, unmet, text)? {
            keep(&mut still, one)?;
        }
    }
    Ok(still)
}
