ghost use Rattle.std.specs.Prelude.{◌≡◌, ◌↔◌, false, IfOk, IsErrOf};
ghost use Rattle.i3c_base.specs.Numbers.{is_capable};
ghost use Rattle.i3c_base.specs.State.{HasDistinctIdentities, HasUniqueAnswers, IsPresent, legacy_targets_of};
ghost use Rattle.i3c_step.specs.Runs.{IsLegalRun};
ghost use Rattle.i3c_bus.specs.Hands.{HandFits};

use crate::bus::Bus;
use crate::hand::Hand;
use i3c_base::Setup;
use i3c_frame::Silent;
use i3c_legacy::Legacies;
use i3c_step::{Event, Reply, RunFault};
use std::alloc::Global;

/// What a run of events led to: the bus, the role or session in hand, and a reply for each event.
pub struct Outcome {
    /// The bus as the run left it.
    pub bus: Bus,
    /// The role, or the session that is still open.
    pub hand: Hand,
    /// The reply of each event, in order.
    pub replies: Vec<Reply>,
}

/// A whole run from a start. It answers `NotCapable` where the main device's BCR isn't a controller's, and
/// `OutOfMemory` where the replies can't grow.
pub fn run_events(
    alloc: Global,
    main: Setup,
    legacies: Legacies,
    events: &[Event],
) -> Result<Outcome, RunFault>
    ensures run { IfOk result (λ o. IsLegalRun main legacies events.now o.replies.items o.bus.state) }
    ensures fits { IfOk result (λ o. HandFits o.hand o.bus.state) }
    ensures unique { IfOk result (λ o. HasDistinctIdentities o.bus.state → HasUniqueAnswers o.bus.state) }
    ensures active { IfOk result (λ o. IsPresent o.bus.state o.bus.state.active) }
    ensures capable { IsErrOf result RunFault.NotCapable ↔ (is_capable main.identity.bcr ≡ false) }
{
    let (mut bus, role) = match Bus::new(alloc, main, legacies) {
        Ok(made) => made,
        Err(_) => return Err(RunFault::NotCapable),
    };
    let mut hand = Hand::Role(role);
    let mut replies = Vec::new(alloc);
    for event in events {
        let (next, reply) = bus.step(hand, event, &mut Silent);
        hand = next;
        let Ok(()) = replies.push(reply) else {
            let _records = bus.retire(hand);
            return Err(RunFault::OutOfMemory);
        };
    }
    Ok(Outcome { bus, hand, replies })
}
