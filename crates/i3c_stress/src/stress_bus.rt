ghost use Rattle.std.specs.Prelude.{◌≡◌, ◌+◌, ◌<◌, ◌≤◌, IfOk, OnOk};
ghost use Rattle.i3c_base.specs.declared.range.TheConstants.{SLOTS};
ghost use Rattle.i3c_stress.specs.Reporting.{IsOneSession, WasOfBus};
ghost use Rattle.i3c_stress.specs.declared.stressing.TheConstants.{MOST_DEVICES};

use crate::devices::{DEVICE_BCR, DEVICE_DCR, FIRST_PID};
use crate::report::StressFault;
use i3c_base::{Bcr, Cuts, Dcr, Identity, Pid, RoundReply, SLOTS, Setup, Slot};
use i3c_frame::Silent;
use i3c_legacy::Legacies;
use i3c_shared::{
    AttachFault, CallFault, Closed, HeldRole, HeldSession, Port, SharedBus, StartFault, spend_ports,
};
use std::alloc::Global;
use std::sync::Wait;
use std::sync::ledger::{Blank, Ledger};
use std::thread::Threads;

/// A bus with its role and its ports.
pub(crate) struct StressBus<L: Ledger, M: Ledger, N: Ledger> {
    pub bus: SharedBus<L, M, N>,
    pub role: HeldRole<L, M, N>,
    pub ports: Vec<Port>,
}

/// The setup of a controller-capable main device, and of the device of a slot.
fn setup_of(pid: u64, bcr: u8, dcr: u8) -> Option<Setup> {
    let Ok(pid) = Pid::new(pid) else {
        return None;
    };
    let identity = Identity {
        pid,
        bcr: Bcr(bcr),
        dcr: Dcr(dcr),
    };
    Some(Setup {
        identity,
        willing: true,
    })
}

/// A bus whose devices are attached and have addresses, with ledgers opened from these blanks. Its role counts the frames
/// of one session.
pub(crate) fn begin<L: Ledger, M: Ledger, N: Ledger, R: Threads + Wait + Sync>(
    rt: &R,
    alloc: Global,
    active: Blank,
    session: Blank,
    frames: Blank,
    devices: u8,
) -> Result<StressBus<L, M, N>, StressFault>
    requires active { (active.name ≡ L.name) × (active.parts ≡ L.parts) × (active.parts ≡ 1) }
    requires session { (session.name ≡ M.name) × (session.parts ≡ M.parts) × (session.parts ≡ 1) }
    requires frames { (frames.name ≡ N.name) × (frames.parts ≡ N.parts) × (frames.parts ≡ 1) }
    requires devices { devices ≤ MOST_DEVICES }
    ensures { IfOk result (λ made. IsOneSession made.role.frames) }
{
    let Some(main) = setup_of(0x0204_0000_0001, 0x46, 0xC0) else {
        return Err(StressFault::NotBalanced);
    };
    let (bus, role, port) = match SharedBus::new(
        alloc,
        main,
        Legacies::new(),
        active,
        session,
        frames,
    ) {
        Ok(made) => made,
        Err(StartFault::NotCapable) => return Err(StressFault::NotBalanced),
        Err(StartFault::OutOfMemory) => return Err(StressFault::Memory),
    };
    let mut ports = Vec::new(alloc);
    let mut attached = keep(&mut ports, port);
    for index in 1..=devices {
        if attached.is_ok() {
            attached = attach(rt, &bus, index, &mut ports);
        }
    }
    if let Err(why) = attached {
        bus.let_go();
        role.let_go();
        spend_ports(ports);
        return Err(why);
    }
    match assign(rt, &bus, role) {
        Ok(role) => Ok(StressBus { bus, role, ports }),
        Err(why) => {
            bus.let_go();
            spend_ports(ports);
            Err(why)
        }
    }
}

/// Adds a port, or lets it go where there is no memory.
fn keep(ports: &mut Vec<Port>, port: Port) -> Result<(), StressFault> {
    match ports.push(port) {
        Ok(()) => Ok(()),
        Err(refused) => {
            refused.value.let_go();
            Err(StressFault::Memory)
        }
    }
}

/// Attaches the device of a slot.
fn attach<L: Ledger, M: Ledger, N: Ledger, R: Threads + Wait + Sync>(
    rt: &R,
    bus: &SharedBus<L, M, N>,
    index: u8,
    ports: &mut Vec<Port>,
) -> Result<(), StressFault> {
    let Ok(slot) = Slot::new(index) else {
        return Err(StressFault::NotBalanced);
    };
    let Some(setup) = setup_of(FIRST_PID + u64::from(index), DEVICE_BCR, DEVICE_DCR) else {
        return Err(StressFault::NotBalanced);
    };
    match bus.attach(rt, slot, setup) {
        Ok(port) => keep(ports, port),
        Err(AttachFault::OutOfMemory) => Err(StressFault::Memory),
        Err(_) => Err(StressFault::NotBalanced),
    }
}

/// Gives each device an address in one session. Where that is refused, the role is spent.
fn assign<L: Ledger, M: Ledger, N: Ledger, R: Threads + Wait + Sync>(
    rt: &R,
    bus: &SharedBus<L, M, N>,
    role: HeldRole<L, M, N>,
) -> Result<HeldRole<L, M, N>, StressFault>
    requires { role.frames ≡ 0 }
    ensures { IfOk result (λ back. IsOneSession back.frames) }
{
    let session = match bus.open_daa(rt, role, &mut Silent, Cuts::new()) {
        Ok((session, _)) => session,
        Err((role, why)) => {
            role.let_go();
            return Err(opening(why));
        }
    };
    let mut session = session;
    let rounds = all_rounds(rt, bus, &mut session);
    match bus.end(rt, session, &mut Silent) {
        Ok(role) => match rounds {
            Ok(()) => Ok(role),
            Err(why) => {
                role.let_go();
                Err(why)
            }
        },
        Err((session, why)) => {
            session.let_go();
            Err(ending(why))
        }
    }
}

/// As many rounds as there may be, to the one that nobody hears.
fn all_rounds<L: Ledger, M: Ledger, N: Ledger, R: Threads + Wait + Sync>(
    rt: &R,
    bus: &SharedBus<L, M, N>,
    session: &mut HeldSession<L, M, N>,
) -> Result<(), StressFault>
    ensures { OnOk result ((session.old.frames < session.new.frames) × (session.new.frames ≤ session.old.frames + SLOTS)) }
{
    for _ in 0..SLOTS {
        match bus.round(rt, session, &mut Silent, Cuts::new()) {
            Ok(RoundReply::Assigned(_, _)) => {}
            Ok(RoundReply::Done) => return Ok(()),
            Ok(_) => return Err(StressFault::NotBalanced),
            Err(why) => return Err(ending(why)),
        }
    }
    Err(StressFault::NotBalanced)
}

/// What a refused opening means here.
fn opening(why: CallFault) -> StressFault {
    match why {
        CallFault::OutOfMemory => StressFault::Memory,
        _ => StressFault::NotBalanced,
    }
}

/// What a refused round or end means here.
fn ending(why: CallFault) -> StressFault {
    match why {
        CallFault::OutOfMemory => StressFault::Memory,
        CallFault::Refused(_) => StressFault::NotBalanced,
    }
}

/// Closes the bus, or spends all where that is refused.
pub(crate) fn end<L: Ledger, M: Ledger, N: Ledger>(
    closing: StressBus<L, M, N>,
) -> Result<Closed, StressFault>
    ensures { IfOk result (λ c. WasOfBus closing.role.frames c.run.entries c.records c.waiting) }
{
    let StressBus { bus, role, ports } = closing;
    match bus.close(Some(role), ports) {
        Ok(closed) => Ok(closed),
        Err(refused) => {
            refused.let_go();
            Err(StressFault::Memory)
        }
    }
}
