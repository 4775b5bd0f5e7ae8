ghost use Rattle.std.specs.Prelude.{◌≡◌, OnOk};
ghost use Rattle.i3c_step.specs.Slots.{is_handed};
ghost use Rattle.i3c_script.specs.Hearing.{all_heard};
ghost use Rattle.i3c_script.specs.Pieces.{tenure_pieces, tenures_pieces};

use crate::piece::{Listener, Piece};
use i3c_base::Slot;
use i3c_bus::Reply;
use std::alloc::AllocError;

/// A controller's time as the active one, which ended: its slot, and how many records there were then.
#[derive(Clone, Copy)]
pub struct Tenure {
    /// The slot of the active controller.
    pub slot: Slot,
    /// How many interrupts were recorded when it handed the role over.
    pub records: usize,
}

/// Whether the role was handed over.
pub(crate) fn is_handed(reply: &Reply) -> bool
    ensures { result ≡ is_handed reply.now }
{
    matches!(reply, Reply::Handed(_))
}

/// The active controllers, with the numbers of the records of each: the tenures that ended, and the present one.
pub(crate) fn hear_tenures<L: Listener>(
    ended: &[Tenure],
    active: Slot,
    records: usize,
    listener: &mut L,
) -> Result<(), AllocError>
    ensures { OnOk result (listener.new ≡ all_heard L.heard listener.old (tenures_pieces ended.now active records)) }
{
    let mut from = 0;
    for index in 0..ended.len() {
        let tenure = ended[index];
        hear_tenure(tenure.slot, from, tenure.records, listener)?;
        from = tenure.records;
    }
    hear_tenure(active, from, records, listener)
}

/// Which slot was active while the records behind the first `from` were made, up to record `to`, unless there are none.
fn hear_tenure<L: Listener>(
    slot: Slot,
    from: usize,
    to: usize,
    listener: &mut L,
) -> Result<(), AllocError>
    ensures { OnOk result (listener.new ≡ all_heard L.heard listener.old (tenure_pieces slot from to)) }
{
    if to <= from {
        return Ok(());
    }
    listener.hear(Piece::Tenure {
        slot,
        from: from + 1,
        to,
    })
}
