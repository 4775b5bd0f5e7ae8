ghost use Rattle.std.specs.Prelude.{◌≡◌, ◌↔◌, All, Contains, IsTrue};
ghost use Rattle.i3c_legacy.specs.Boards.{board_of};
ghost use Rattle.i3c_legacy.specs.Rows.{places, HasOwnAddresses};

use crate::legacies::{Declared, DeclaredIdentity};

/// Whether these legacy targets and identities declare the same at each static address as others, in any order.
// in line, since mostly nothing is declared
#[inline(always)]
pub(crate) fn are_same_boards(
    targets: &[Declared],
    identities: &[DeclaredIdentity],
    others: &[Declared],
    more: &[DeclaredIdentity],
) -> bool
    requires targets { HasOwnAddresses (λ d. d.address) targets.now }
    requires identities { HasOwnAddresses (λ d. d.address) identities.now }
    requires others { HasOwnAddresses (λ d. d.address) others.now }
    requires more { HasOwnAddresses (λ d. d.address) more.now }
    ensures { IsTrue result ↔ (board_of targets.now identities.now ≡ board_of others.now more.now) }
{
    are_same_targets(targets, others) && are_same_identities(identities, more)
}

/// Whether these legacy targets have the LVRs of others, each at its static address.
#[inline(always)]
fn are_same_targets(targets: &[Declared], others: &[Declared]) -> bool
    requires targets { HasOwnAddresses (λ d. d.address) targets.now }
    requires others { HasOwnAddresses (λ d. d.address) others.now }
    ensures { IsTrue result ↔ (places (λ d. d.address) (λ d. d.lvr) targets.now ≡ places (λ d. d.address) (λ d. d.lvr) others.now) }
{
    if are_equal_targets(targets, others) {
        return true;
    }
    targets_among(targets, others) && targets_among(others, targets)
}

/// Whether these identities are declared at the same static addresses as others.
#[inline(always)]
fn are_same_identities(identities: &[DeclaredIdentity], others: &[DeclaredIdentity]) -> bool
    requires identities { HasOwnAddresses (λ d. d.address) identities.now }
    requires others { HasOwnAddresses (λ d. d.address) others.now }
    ensures { IsTrue result ↔ (places (λ d. d.address) (λ d. d.identity) identities.now ≡ places (λ d. d.address) (λ d. d.identity) others.now) }
{
    if are_equal_identities(identities, others) {
        return true;
    }
    identities_among(identities, others) && identities_among(others, identities)
}

/// Whether these are the same legacy targets as others, in the same order.
#[inline(always)]
fn are_equal_targets(targets: &[Declared], others: &[Declared]) -> bool
    ensures { IsTrue result ↔ (targets.now ≡ others.now) }
{
    if targets.is_empty() && others.is_empty() {
        return true;
    }
    targets_equal_in_turn(targets, others)
}

/// Whether these are the same identities as others, in the same order.
#[inline(always)]
fn are_equal_identities(identities: &[DeclaredIdentity], others: &[DeclaredIdentity]) -> bool
    ensures { IsTrue result ↔ (identities.now ≡ others.now) }
{
    if identities.is_empty() && others.is_empty() {
        return true;
    }
    identities_equal_in_turn(identities, others)
}

/// Whether each legacy target is the same as the other in its place.
#[inline(never)]
fn targets_equal_in_turn(targets: &[Declared], others: &[Declared]) -> bool
    ensures { IsTrue result ↔ (targets.now ≡ others.now) }
{
    targets == others
}

/// Whether each declared identity is the same as the other in its place.
#[inline(never)]
fn identities_equal_in_turn(identities: &[DeclaredIdentity], others: &[DeclaredIdentity]) -> bool
    ensures { IsTrue result ↔ (identities.now ≡ others.now) }
{
    identities == others
}

/// Whether each of these legacy targets is one of the others.
#[inline(never)]
fn targets_among(targets: &[Declared], others: &[Declared]) -> bool
    ensures { IsTrue result ↔ All (Contains others.now) targets.now }
{
    for target in targets {
        if !is_target_among(target, others) {
            return false;
        }
    }
    true
}

/// Whether each of these declared identities is one of the others.
#[inline(never)]
fn identities_among(identities: &[DeclaredIdentity], others: &[DeclaredIdentity]) -> bool
    ensures { IsTrue result ↔ All (Contains others.now) identities.now }
{
    for declared in identities {
        if !is_identity_among(declared, others) {
            return false;
        }
    }
    true
}

// Whether a legacy target is one of the others.
fn is_target_among(target: &Declared, others: &[Declared]) -> bool
    ensures { IsTrue result ↔ Contains others.now target.now }
{
    others.contains(target)
}

// Whether a declared identity is one of the others.
fn is_identity_among(declared: &DeclaredIdentity, others: &[DeclaredIdentity]) -> bool
    ensures { IsTrue result ↔ Contains others.now declared.now }
{
    others.contains(declared)
}
