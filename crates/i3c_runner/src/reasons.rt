ghost use Rattle.std.specs.Prelude.{◌≡◌, ◌++◌, ◌↔◌, IfOk, IsTrue, OnOk, is_some};
ghost use Rattle.i3c_base.specs.Cutting.{no_cuts};
ghost use Rattle.i3c_base.specs.State.{device_at};
ghost use Rattle.i3c_lines.specs.Forms.{IsSkipped};
ghost use Rattle.i3c_script.specs.Obeying.{script as state_of};
ghost use Rattle.i3c_runner.specs.Expecting.{name_in_slot};
ghost use Rattle.i3c_runner.specs.Reasons.{Adds, AreCutNotes, IsDoneAs, IsDoneNote, IsEntryNote, IsFirstTwin, IsFormNote, IsFormTold, IsJudged, IsOutcomeTold, IsReadOf, IsRefusalNote, IsRefusedAs, IsTwin, IsTwinNote, active_stays_reason, bus_reason, cut_note, cuts_on, declare_reason, is_active_reason, legacy_reason, line_start, no_address_reason, no_answer_reason, not_capable_reason, reason_text, refusal_note, slot_note, slots_told, twin_note};

use crate::expecting::told_fault;
use crate::script::Script;
use i3c_base::{Cuts, Identity, SLOTS, Slot};
use i3c_bus::{Bus, Command as Frame, Refusal as BusRefusal};
use i3c_legacy::{DeclareFault, LegacyFault};
use i3c_lines::{Command, Name, Names, Refusal, Sent, form_fault, is_skipped, slot_meant};
use i3c_script::Stage;
use i3c_text::{LineError, Text};
use std::alloc::{AllocError, Global};

/// Where a refusal is explained.
const REFUSALS: &[u8] = b" (docs/FORMATS.md, Refusals of lines)\n";

/// What is told last of a cut, and names the document about cuts.
const USED: &[u8] = b" is used up (docs/FORMATS.md, Cuts)\n";

/// What is told last of a twin, and names the document about promises.
const THERE: &[u8] = b", which is there; the promises leave such devices out (docs/PROMISES.md)\n";

/// The state of a script before a line, for its explanation: the cuts that wait.
#[derive(Drop)]
pub(crate) struct Explainer {
    pub(crate) cuts: Cuts,
}

impl Explainer {
    /// Before the first line.
    pub(crate) fn new() -> Explainer
        ensures { result.cuts ≡ no_cuts }
    {
        Explainer { cuts: Cuts::new() }
    }

    /// Explains the result of a line that was just obeyed: why it was refused, which of the waiting cuts its frame never
    /// reached, and whether it attached a second device of an identity. Then it is ready for the next line.
    pub(crate) fn explain(
        &mut self,
        script: &Script,
        number: u64,
        line: &[u8],
        outcome: &Result<(), LineError<Refusal>>,
        text: &mut Text,
    ) -> Result<(), AllocError>
        requires { IsReadOf line.now outcome.now script.now.command }
        ensures told { OnOk result (Adds (IsOutcomeTold number line.now outcome.now self.old.cuts (state_of script.now.stage script.now.names)) text.old text.new) }
        ensures knows { OnOk result (self.new.cuts ≡ cuts_on script.now.stage) }
    {
        match outcome {
            Ok(()) => {
                self.explain_bus(script, number, text)?;
                explain_done(script, number, line, text)
            }
            Err(LineError::Refused(why)) => {
                explain_refused(script, number, line, why, text)?;
                self.explain_bus(script, number, text)
            }
            Err(LineError::Memory) => Err(AllocError),
        }
    }

    /// Tells the cuts that waited before a line, and knows those that wait after it.
    fn explain_bus(
        &mut self,
        script: &Script,
        number: u64,
        text: &mut Text,
    ) -> Result<(), AllocError>
        ensures told { OnOk result (Adds (AreCutNotes number self.old.cuts script.now.stage script.now.names) text.old text.new) }
        ensures knows { OnOk result (self.new.cuts ≡ cuts_on script.now.stage) }
    {
        explain_waited(script, number, &self.cuts, text)?;
        self.cuts = waiting(&script.stage)?;
        Ok(())
    }
}

/// The cuts that wait for the next frame.
fn waiting(stage: &Stage) -> Result<Cuts, AllocError>
    ensures { IfOk result (λ cuts. cuts ≡ cuts_on stage.now) }
{
    match stage {
        Stage::Before(_) => Ok(Cuts::new()),
        Stage::Running(running) => running.cuts().clone(),
    }
}

/// Begins what is told of a line.
fn begin(number: u64, text: &mut Text) -> Result<(), AllocError>
    ensures { OnOk result (text.new ≡ text.old ++ line_start number) }
{
    text.push(b"line ")?;
    text.push_decimal(number)?;
    text.push(b": ")
}

/// Tells why a line was refused: as one without a form, or by its command.
fn explain_refused(
    script: &Script,
    number: u64,
    line: &[u8],
    why: &Refusal,
    text: &mut Text,
) -> Result<(), AllocError>
    requires { IsRefusedAs line.now script.now.command }
    ensures { OnOk result (Adds (IsRefusalNote number line.now why.now) text.old text.new) }
{
    match why {
        Refusal::BadLine => explain_form(script.alloc, number, line, text),
        _ => explain_refusal(&script.command, number, why, text),
    }
}

/// Tells why a line that was just obeyed has no form, if it has none.
pub(crate) fn judge(
    alloc: Global,
    number: u64,
    line: &[u8],
    outcome: &Result<(), LineError<Refusal>>,
    text: &mut Text,
) -> Result<(), AllocError>
    ensures { OnOk result (Adds (IsJudged number line.now outcome.now) text.old text.new) }
{
    match outcome {
        Ok(()) => Ok(()),
        Err(LineError::Refused(why)) => judge_refused(alloc, number, line, why, text),
        Err(LineError::Memory) => Err(AllocError),
    }
}

/// The same of a line that was refused.
fn judge_refused(
    alloc: Global,
    number: u64,
    line: &[u8],
    why: &Refusal,
    text: &mut Text,
) -> Result<(), AllocError>
    ensures { OnOk result (Adds (IsFormTold number line.now why.now) text.old text.new) }
{
    match why {
        Refusal::BadLine => explain_form(alloc, number, line, text),
        _ => Ok(()),
    }
}

/// Tells why a line has no form.
fn explain_form(alloc: Global, number: u64, line: &[u8], text: &mut Text) -> Result<(), AllocError>
    ensures { OnOk result (Adds (IsFormNote number line.now) text.old text.new) }
{
    match form_fault(line) {
        Some(fault) => {
            let fault = told_fault(line, fault);
            begin(number, text)?;
            fault.push(alloc, text)?;
            text.end()
        }
        None => Ok(()),
    }
}

/// Tells why a line of this command was refused.
fn explain_refusal(
    command: &Command,
    number: u64,
    why: &Refusal,
    text: &mut Text,
) -> Result<(), AllocError>
    ensures { OnOk result (text.new ≡ text.old ++ refusal_note number why.now (reason_text command.now why.now)) }
{
    begin(number, text)?;
    text.push(b"refused ")?;
    why.push(text)?;
    text.push(b": ")?;
    text.push(reason(command, why).as_bytes())?;
    text.push(REFUSALS)
}

/// Why a line of this command is refused so.
fn reason(command: &Command, why: &Refusal) -> &'static str
    ensures { result.now ≡ reason_text command.now why.now }
{
    match why {
        Refusal::BadLine => "the line has no form",
        Refusal::NoBus =>
            "there is no bus before 'main', and only 'legacy' and 'declare' come before it",
        Refusal::BusMade =>
            "the bus is made; 'main' comes once, and each 'legacy' and 'declare' before it",
        Refusal::NameTaken => "a device that is there or a legacy target has this name",
        Refusal::NoName => "no line gave this name",
        Refusal::Legacy(fault) => legacy_reason(fault),
        Refusal::Declare(fault) => declare_reason(fault),
        Refusal::Bus(why) => bus_reason(command, why),
        Refusal::NoEnd => "the last T said that more bytes would come",
        Refusal::NotActive => "the device isn't the active controller, which alone sends frames",
    }
}

/// Why a legacy target isn't declared.
fn legacy_reason(fault: &LegacyFault) -> &'static str
    ensures { result.now ≡ legacy_reason fault.now }
{
    match fault {
        LegacyFault::LegacyAddress => "the address of a legacy target is from 08 to 77",
        LegacyFault::LegacyTwice => "a legacy target or a declared identity has this address",
        LegacyFault::TooManyLegacy => "16 legacy targets are there",
    }
}

/// Why an identity isn't declared.
fn declare_reason(fault: &DeclareFault) -> &'static str
    ensures { result.now ≡ declare_reason fault.now }
{
    match fault {
        DeclareFault::LegacyAddress => "a static address is from 08 to 77",
        DeclareFault::LegacyTwice => "a legacy target or a declared identity has this address",
        DeclareFault::IdentityTwice => "the identity is declared at another address",
        DeclareFault::TooManyDeclared => "16 identities are declared",
    }
}

/// Why the bus refuses a line of this command.
fn bus_reason(command: &Command, why: &BusRefusal) -> &'static str
    ensures { result.now ≡ bus_reason command.now why.now }
{
    match why {
        BusRefusal::SessionOpen => "an assignment is open; send 'end' first",
        BusRefusal::NoSession => "no assignment is open; send 'open' first",
        BusRefusal::ActiveStays => active_stays_reason(command),
        BusRefusal::SlotTaken => "all 64 slots are full",
        BusRefusal::NoDevice => "the device is gone, or is a legacy target",
        BusRefusal::IsActive => is_active_reason(command),
        BusRefusal::NoAddress => no_address_reason(command),
        BusRefusal::HasAddress => "the device has joined already",
        BusRefusal::NotCapable => not_capable_reason(command),
        BusRefusal::ByteMismatch => {
            "the BCR wants a byte and none is given, or wants none and one is"
        }
        BusRefusal::Masked => "such requests are switched off for the device; send 'enec' first",
        BusRefusal::Full => "eight interrupts wait, or the slot's count is used up",
        BusRefusal::ListStale => "the list of DEFTGTS isn't current; send 'list' first",
        BusRefusal::NoAnswer(_) => no_answer_reason(command),
        BusRefusal::TooLong =>
            "a write has at most as many bytes as the target takes: 16, or what setmwl has set",
        BusRefusal::BadAddress(_) =>
            "no device may be given this address, or the table has it already",
    }
}

/// Why the active controller has to stay.
fn active_stays_reason(command: &Command) -> &'static str
    ensures { result.now ≡ active_stays_reason command.now }
{
    match command {
        Command::DropOff { .. } => "the active controller doesn't drop off",
        _ => "the active controller is cut, and doesn't lose power in a frame of its own",
    }
}

/// Why the active controller isn't meant.
fn is_active_reason(command: &Command) -> &'static str
    ensures { result.now ≡ is_active_reason command.now }
{
    match command {
        Command::HandOver { .. }
        | Command::As {
            sent: Sent::HandOver { .. },
            ..
        } => "the address is the active controller's",
        _ => "the device is the active controller, and asks nobody",
    }
}

/// Why an address is missing.
fn no_address_reason(command: &Command) -> &'static str
    ensures { result.now ≡ no_address_reason command.now }
{
    match command {
        Command::Round | Command::Daa | Command::As { .. } => {
            "there is no address left to hand out"
        }
        _ => "the device has no dynamic address; send 'daa' first",
    }
}

/// Why a device isn't capable.
fn not_capable_reason(command: &Command) -> &'static str
    ensures { result.now ≡ not_capable_reason command.now }
{
    match command {
        Command::Raise { .. } => "by its BCR the device never interrupts",
        Command::HandOver { .. } | Command::As { .. } => {
            "the table has nobody there that can be controller"
        }
        _ => "by its BCR the device can't be controller",
    }
}

/// Why nobody answers.
fn no_answer_reason(command: &Command) -> &'static str
    ensures { result.now ≡ no_answer_reason command.now }
{
    match command {
        Command::HandOver { .. }
        | Command::As {
            sent: Sent::HandOver { .. },
            ..
        } => "the offer was sent, and nobody took the role",
        Command::Frame(Frame::SetStatic(..))
        | Command::As {
            sent: Sent::Frame(Frame::SetStatic(..)),
            ..
        } => {
            "no identity is declared there, or no device without a dynamic address acknowledged"
        }
        _ => "the table has no target there, or it didn't acknowledge",
    }
}

/// Tells the cuts that waited before a line, if none waits after it: its frame took them.
fn explain_waited(
    script: &Script,
    number: u64,
    waited: &Cuts,
    text: &mut Text,
) -> Result<(), AllocError>
    ensures { OnOk result (Adds (AreCutNotes number waited.now script.now.stage script.now.names) text.old text.new) }
{
    match &script.stage {
        Stage::Before(_) => Ok(()),
        Stage::Running(running) => {
            if !running.cuts().is_empty() {
                return Ok(());
            }
            explain_cuts(&script.names, running.bus(), number, waited, text)
        }
    }
}

/// Tells the cut of each slot.
fn explain_cuts(
    names: &Names,
    bus: &Bus,
    number: u64,
    cuts: &Cuts,
    text: &mut Text,
) -> Result<(), AllocError>
    ensures { OnOk result (text.new ≡ text.old ++ slots_told number bus.now.state names.now cuts.now SLOTS) }
{
    for index in 0..SLOTS {
        let slot = Slot::from_index(index);
        explain_slot(names, bus, number, slot, cuts.at(slot), text)?;
    }
    Ok(())
}

/// Tells the cut of a slot, if there is one and the device is still there: its frame never reached it.
fn explain_slot(
    names: &Names,
    bus: &Bus,
    number: u64,
    slot: Slot,
    cut: Option<u16>,
    text: &mut Text,
) -> Result<(), AllocError>
    ensures { OnOk result (text.new ≡ text.old ++ slot_note number (is_some (device_at bus.now.state slot)) (name_in_slot names.now slot) cut) }
{
    let Some(bit) = cut else {
        return Ok(());
    };
    if !bus.present(slot) {
        return Ok(());
    }
    match names.in_slot(slot) {
        Some(name) => explain_cut(number, name, bit, text),
        None => Ok(()),
    }
}

/// Tells a cut that its frame never reached.
fn explain_cut(number: u64, name: &Name, bit: u16, text: &mut Text) -> Result<(), AllocError>
    ensures { OnOk result (text.new ≡ text.old ++ cut_note number name.now bit) }
{
    begin(number, text)?;
    text.push(b"no frame reached bit ")?;
    text.push_decimal(u64::from(bit))?;
    text.push(b", and the cut of ")?;
    text.push(name.as_bytes())?;
    text.push(USED)
}

/// Tells the twin of the device that a line brought, if it brought one.
fn explain_done(
    script: &Script,
    number: u64,
    line: &[u8],
    text: &mut Text,
) -> Result<(), AllocError>
    requires { IsDoneAs line.now script.now.command }
    ensures { OnOk result (Adds (IsDoneNote number line.now (state_of script.now.stage script.now.names)) text.old text.new) }
{
    match form_fault(line) {
        // a mark
        Some(_) => return Ok(()),
        None => {}
    }
    if is_passed_over(line) {
        return Ok(());
    }
    explain_entry(script, number, text)
}

/// Whether a line is passed over.
fn is_passed_over(line: &[u8]) -> bool
    ensures { IsTrue result ↔ IsSkipped line.now }
{
    match is_skipped(line) {
        Ok(is_skipped) => is_skipped,
        Err(_) => false,
    }
}

/// Tells the twin of the device that the last command brought, if it brought one.
fn explain_entry(script: &Script, number: u64, text: &mut Text) -> Result<(), AllocError>
    ensures { OnOk result (Adds (IsEntryNote number script.now.command (state_of script.now.stage script.now.names)) text.old text.new) }
{
    match &script.command {
        Command::Main { name, setup } => explain_device(script, number, name, setup.identity, text),
        Command::Attach { name, setup } => {
            explain_device(script, number, name, setup.identity, text)
        }
        _ => Ok(()),
    }
}

/// Tells the first device in another slot that has the identity of a new one.
fn explain_device(
    script: &Script,
    number: u64,
    name: &Name,
    identity: Identity,
    text: &mut Text,
) -> Result<(), AllocError>
    ensures { OnOk result (Adds (IsTwinNote number name.now identity (state_of script.now.stage script.now.names)) text.old text.new) }
{
    let Ok(slot) = slot_meant(&script.names, name) else {
        return Ok(());
    };
    let Some(twin) = twin_of(&script.stage, slot, &identity) else {
        return Ok(());
    };
    match script.names.in_slot(twin) {
        Some(other) => explain_twin(number, name, other, text),
        None => Ok(()),
    }
}

/// The first other slot whose device has this identity.
fn twin_of(stage: &Stage, slot: Slot, identity: &Identity) -> Option<Slot>
    ensures { IsFirstTwin stage.now slot identity.now result }
{
    for index in 0..SLOTS {
        let other = Slot::from_index(index);
        if is_twin(stage, slot, identity, other) {
            return Some(other);
        }
    }
    None
}

/// Whether another slot has a device of this identity.
fn is_twin(stage: &Stage, slot: Slot, identity: &Identity, other: Slot) -> bool
    ensures { IsTrue result ↔ IsTwin stage.now slot identity.now other }
{
    match stage {
        Stage::Before(_) => false,
        Stage::Running(running) => {
            other != slot && running.bus().identity(other) == Some(*identity)
        }
    }
}

/// Tells that a device came with the identity of a present one.
fn explain_twin(number: u64, name: &Name, other: &Name, text: &mut Text) -> Result<(), AllocError>
    ensures { OnOk result (text.new ≡ text.old ++ twin_note number name.now other.now) }
{
    begin(number, text)?;
    text.push(name.as_bytes())?;
    text.push(b" has the identity of ")?;
    text.push(other.as_bytes())?;
    text.push(THERE)
}
