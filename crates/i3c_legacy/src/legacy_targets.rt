ghost use Rattle.std.specs.Prelude.{◌≡◌, ◌≢◌, ◌<◌, ◌≤◌, All, HoldsAt, MatchOption, length};
ghost use Rattle.i3c_base.specs.declared.device.TheConstants.{REGISTERS as REGISTER_COUNT};
ghost use Rattle.i3c_base.specs.Frames.{overwritten};

use crate::legacies::{LEGACIES, Legacies};
use crate::resting_targets::RestingTargets;
use arrayvec::ArrayVec;
use i3c_base::{Addr7, LegacyTarget, REGISTERS};
use std::marker::Model;

// a legacy target at its address
#[derive(Clone, Copy, PartialEq, Eq, Default)]
pub(crate) struct Placed {
    pub address: Addr7,
    pub target: LegacyTarget,
}

/// The legacy I2C targets of a bus with their registers, by their static addresses.
///
/// Clauses see a place for each of the 128 addresses.
#[derive(Drop)]
pub struct LegacyTargets {
    pub(crate) placed: ArrayVec<Placed, LEGACIES>,
}

impl Model for LegacyTargets {
    ghost use Rattle.std.specs.Prelude.{List, Option};
    ghost use Rattle.i3c_base.specs.declared.device.LegacyTarget.{LegacyTarget as LegacyTargetValue};
    ghost use Rattle.i3c_legacy.specs.Rows.{places, HasOwnAddresses};

    ghost Value = { List (Option LegacyTargetValue) };

    ghost view = { λ t. places (λ p. p.address) (λ p. p.target) t.placed.items };

    ghost invariant = { λ t. HasOwnAddresses (λ p. p.address) t.placed.items };
}

impl LegacyTargets {
    ghost use Rattle.std.specs.Prelude.{◌≡◌, ◌≤◌, length, None, slice_index_or, slice_set};
    ghost use Rattle.i3c_base.specs.declared.device.TheConstants.{REGISTERS as REGISTER_COUNT};
    ghost use Rattle.i3c_base.specs.Frames.{legacy_written};
    ghost use Rattle.i3c_base.specs.State.{legacy_targets_of};

    /// The declared targets as they are at the start: all registers are `00`.
    pub fn new(legacies: &Legacies) -> LegacyTargets
        ensures { result ≡ legacy_targets_of legacies.now.legacy }
    {
        let mut placed = ArrayVec::new();
        for declared in legacies.targets.iter() {
            placed.push(Placed {
                address: declared.address,
                target: LegacyTarget {
                    lvr: declared.lvr,
                    registers: [0; REGISTERS],
                },
            });
        }
        LegacyTargets { placed }
    }

    /// They become the targets that were at rest.
    pub fn wake(&mut self, resting: &RestingTargets)
        ensures { self.new ≡ resting.now }
    {
        if !resting.is_of(self) {
            *self = LegacyTargets::woken(resting);
        }
    }

    /// The targets that were at rest.
    pub fn woken(resting: &RestingTargets) -> LegacyTargets
        ensures { result ≡ resting.now }
    {
        let mut placed = ArrayVec::new();
        let Ok(()) = placed.try_extend_from_slice(resting.placed.as_slice()) else {
            unreachable!()
        };
        LegacyTargets { placed }
    }

    /// The target at a static address, if there is one.
    pub fn get(&self, address: Addr7) -> Option<LegacyTarget>
        ensures { result ≡ slice_index_or self.now address None }
    {
        let placed = self.placed.as_slice();
        match index_of(placed, address) {
            Some(index) => Some(placed[index].target),
            None => None,
        }
    }

    /// A private write to a static address: these bytes go into the first registers of the target there, if there is
    /// one.
    pub fn write(&mut self, address: Addr7, bytes: &[u8])
        requires { length bytes.now ≤ REGISTER_COUNT }
        ensures { self.new ≡ slice_set self.old address (legacy_written bytes.now (slice_index_or self.old address None)) }
    {
        if let Some(index) = index_of(self.placed.as_slice(), address) {
            write(&mut self.placed[index].target, bytes);
        }
    }
}

// The index of the target at an address.
fn index_of(placed: &[Placed], address: Addr7) -> Option<usize>
    ensures { MatchOption result (All (λ p. p.address ≢ address) placed.now)
        (λ i. (i < length placed.now) × HoldsAt (λ p. p.address ≡ address) placed.now i) }
{
    placed.iter().position(|placed| placed.address == address)
}

// These bytes go into a target's first registers.
fn write(target: &mut LegacyTarget, bytes: &[u8])
    requires { length bytes.now ≤ REGISTER_COUNT }
    ensures { target.new ≡ record target.old { registers = overwritten bytes.now target.old.registers } }
{
    target.registers[..bytes.len()].copy_from_slice(bytes);
}
