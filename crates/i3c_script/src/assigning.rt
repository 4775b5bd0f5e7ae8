ghost use Rattle.i3c_base.specs.Cutting.{no_cuts};
ghost use Rattle.i3c_bus.specs.Hands.{HandFits};
ghost use Rattle.i3c_script.specs.declared.settings.Settings.{Settings as SettingsValue};
ghost use Rattle.i3c_script.specs.Assigning.{Assigns, IsSessionTold};
ghost use Rattle.i3c_script.specs.Hearing.{Hears};
ghost use Rattle.i3c_script.specs.Situations.{situation};

use crate::outcomes::outcome_of_session;
use crate::past::Past;
use crate::piece::Listener;
use crate::replies::hear_session;
use i3c_base::Cuts;
use i3c_bus::{ActiveStays, Assignment, Bus, Hand, Refusal as BusRefusal};
use i3c_lines::Refusal;
use i3c_text::LineError;

/// `daa`: plays a whole session, in whose opening these are cut. A request at its opening is turned down. It answers the role
/// or session in hand afterwards, and the line's result.
pub(crate) fn assign<P: Past, L: Listener>(
    hand: Hand,
    bus: &mut Bus,
    past: &mut P,
    cuts: &Cuts,
    listener: &mut L,
) -> (Hand, Result<(), LineError<Refusal>>)
    requires fits { HandFits hand bus.old.state }
    ensures assigns { (settings : SettingsValue) → Hears L.heard (λ pieces refused. Assigns P.kept (situation bus.old.state settings cuts.now past.old) pieces refused (situation bus.new.state settings no_cuts past.new)) listener.old listener.new result.1 }
    ensures fits { HandFits result.0 bus.new.state }
{
    let role = match hand {
        Hand::Role(role) => role,
        Hand::Session(session) => {
            return (
                Hand::Session(session),
                Err(LineError::Refused(Refusal::Bus(BusRefusal::SessionOpen))),
            );
        }
    };
    let mut all = Assignment::new();
    let (role, assigned) = bus.assign_into(role, past, cuts, &mut all);
    let outcome = answer_session(assigned, &all, listener);
    (Hand::Role(role), outcome)
}

/// Lets a listener hear what a whole session came to.
fn answer_session<L: Listener>(
    assigned: Result<(), ActiveStays>,
    all: &Assignment,
    listener: &mut L,
) -> Result<(), LineError<Refusal>>
    ensures { Hears L.heard (IsSessionTold assigned all.now.served all.now.given.items all.now.complete) listener.old listener.new result }
{
    match assigned {
        Ok(()) => match hear_session(all, listener) {
            Ok(()) => outcome_of_session(all.complete),
            Err(_) => Err(LineError::Memory),
        },
        Err(ActiveStays) => Err(LineError::Refused(Refusal::Bus(BusRefusal::ActiveStays))),
    }
}
