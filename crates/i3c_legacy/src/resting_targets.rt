ghost use Rattle.std.specs.Prelude.{◌≡◌, ◌↔◌, All, Contains, IfOk, IsTrue};
ghost use Rattle.i3c_legacy.specs.Rows.{places, HasOwnAddresses};

use crate::legacy_targets::{LegacyTargets, Placed};
use std::alloc::{AllocError, Global};
use std::marker::Model;

/// A copy of the legacy I2C targets of a bus, without room for others.
///
/// Clauses see a place for each of the 128 addresses.
#[derive(Drop)]
pub struct RestingTargets {
    pub(crate) placed: Vec<Placed>,
}

impl Model for RestingTargets {
    ghost use Rattle.std.specs.Prelude.{◌≤◌, List, Option, length};
    ghost use Rattle.i3c_base.specs.declared.device.LegacyTarget.{LegacyTarget as LegacyTargetValue};
    ghost use Rattle.i3c_legacy.specs.declared.legacies.TheConstants.{LEGACIES as LEGACY_COUNT};
    ghost use Rattle.i3c_legacy.specs.Rows.{places, HasOwnAddresses};

    ghost Value = { List (Option LegacyTargetValue) };

    ghost view = { λ t. places (λ p. p.address) (λ p. p.target) t.placed.items };

    ghost invariant = { λ t. HasOwnAddresses (λ p. p.address) t.placed.items × (length t.placed.items ≤ LEGACY_COUNT) };
}

impl RestingTargets {
    ghost use Rattle.std.specs.Prelude.{◌≡◌, ◌↔◌, IfOk, IsTrue};

    /// The targets as they are now.
    ///
    /// # Errors
    ///
    /// There is no memory for them.
    pub fn of(alloc: Global, targets: &LegacyTargets) -> Result<RestingTargets, AllocError>
        ensures { IfOk result (λ resting. resting ≡ targets.now) }
    {
        Ok(RestingTargets {
            placed: placed_at_rest(alloc, targets.placed.as_slice())?,
        })
    }

    /// Whether the targets are the same now, with the same registers, in any order.
    pub fn is_of(&self, targets: &LegacyTargets) -> bool
        ensures { IsTrue result ↔ (self.now ≡ targets.now) }
    {
        are_same(self.placed.as_slice(), targets.placed.as_slice())
    }

    /// Whether both have the same targets with the same registers, in any order.
    pub fn is_same(&self, other: &RestingTargets) -> bool
        ensures { IsTrue result ↔ (self.now ≡ other.now) }
    {
        are_same(self.placed.as_slice(), other.placed.as_slice())
    }
}

// The same targets, in room of their own.
fn placed_at_rest(alloc: Global, placed: &[Placed]) -> Result<Vec<Placed>, AllocError>
    ensures { IfOk result (λ copy. copy.items ≡ placed.now) }
{
    let mut copy = Vec::with_capacity(alloc, placed.len())?;
    copy.extend_from_slice(placed)?;
    Ok(copy)
}

// Whether these are the same targets as others, each at its address. In line, since mostly there are none.
#[inline(always)]
fn are_same(placed: &[Placed], others: &[Placed]) -> bool
    requires placed { HasOwnAddresses (λ p. p.address) placed.now }
    requires others { HasOwnAddresses (λ p. p.address) others.now }
    ensures { IsTrue result ↔ (places (λ p. p.address) (λ p. p.target) placed.now ≡ places (λ p. p.address) (λ p. p.target) others.now) }
{
    if are_equal(placed, others) {
        return true;
    }
    are_among(placed, others) && are_among(others, placed)
}

// Whether these are the same targets as others, in the same order.
#[inline(always)]
fn are_equal(placed: &[Placed], others: &[Placed]) -> bool
    ensures { IsTrue result ↔ (placed.now ≡ others.now) }
{
    if placed.is_empty() && others.is_empty() {
        return true;
    }
    equal_in_turn(placed, others)
}

// Whether each target is the same as the other in its place.
#[inline(never)]
fn equal_in_turn(placed: &[Placed], others: &[Placed]) -> bool
    ensures { IsTrue result ↔ (placed.now ≡ others.now) }
{
    placed == others
}

// Whether each of these targets is one of the others.
#[inline(never)]
fn are_among(placed: &[Placed], others: &[Placed]) -> bool
    ensures { IsTrue result ↔ All (Contains others.now) placed.now }
{
    for target in placed {
        if !is_among(target, others) {
            return false;
        }
    }
    true
}

// Whether a target is one of the others.
fn is_among(placed: &Placed, others: &[Placed]) -> bool
    ensures { IsTrue result ↔ Contains others.now placed.now }
{
    others.contains(placed)
}
