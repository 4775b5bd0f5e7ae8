use crate::requests::{ACCEPTING, Counting};
use arrayvec::ArrayVec;
use i3c_base::{Addr7, Cuts, Lvr, SLOTS, Slot};
use i3c_device::{Device, Devices};
use i3c_entdaa::Round;
use i3c_frame::Symbol;
use i3c_legacy::{Legacies, LegacyTargets};
use i3c_table::Table;
use i3c_word::Word;
use std::alloc::Global;

/// What calls take and change, from one line to the next.
#[derive(Drop)]
pub(crate) struct Setting {
    pub alloc: Global,
    pub devices: Devices,
    /// A device that is in no slot.
    pub hand: Option<Device>,
    pub active: Slot,
    /// What is cut in each frame.
    pub cuts: Cuts,
    /// With which the cuts are compared.
    pub others: Cuts,
    /// The number of bits of a frame before a command.
    pub begun: u16,
    pub policy: Counting,
    /// The legacy targets, as lines of their own declared them.
    pub declared: Vec<(Addr7, Lvr)>,
    /// Those that the next table takes.
    pub legacies: Legacies,
    pub table: Table,
    pub targets: LegacyTargets,
    /// The last round of an assignment.
    pub round: Option<Round>,
    /// The words of a list of devices.
    pub list: Vec<Word>,
    pub contenders: ArrayVec<(Slot, u64), SLOTS>,
    /// The trace that was read last.
    pub trace: Vec<Symbol>,
}

impl Setting {
    /// Nothing is there and nothing is cut, the active controller is in slot 0, and its policy accepts all.
    pub fn new(alloc: Global) -> Setting {
        Setting {
            alloc,
            devices: Devices::new(),
            hand: None,
            active: Slot::default(),
            cuts: Cuts::new(),
            others: Cuts::new(),
            begun: 0,
            policy: Counting::new(ACCEPTING),
            declared: Vec::new(alloc),
            legacies: Legacies::new(),
            table: Table::new(Legacies::new()),
            targets: LegacyTargets::new(&Legacies::new()),
            round: None,
            list: Vec::new(alloc),
            contenders: ArrayVec::new(),
            trace: Vec::new(alloc),
        }
    }
}
