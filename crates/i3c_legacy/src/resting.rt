ghost use Rattle.std.specs.Prelude.{◌≡◌, IfOk};

use crate::comparing::are_same_boards;
use crate::legacies::{Declared, DeclaredIdentity, Legacies};
use i3c_base::Addresses;
use std::alloc::{AllocError, Global};
use std::marker::Model;

/// What has a static address, at rest: it takes room only for what is declared.
///
/// Clauses see a place for each of the 128 addresses, of each kind.
#[derive(Drop)]
pub struct RestingLegacies {
    pub(crate) targets: Vec<Declared>,
    pub(crate) identities: Vec<DeclaredIdentity>,
    // the addresses of all these
    pub(crate) addresses: Addresses,
}

impl Model for RestingLegacies {
    ghost use Rattle.i3c_base.specs.State.{Board};

    ghost Value = { Board };

    ghost use Rattle.i3c_legacy.specs.Boards.{board_of, AreDeclared};

    ghost view = { λ l. board_of l.targets.items l.identities.items };

    ghost invariant = { λ l. AreDeclared l.targets.items l.identities.items l.addresses.0 };
}

impl RestingLegacies {
    ghost use Rattle.std.specs.Prelude.{◌≡◌, ◌↔◌, ◌≤◌, count_by, is_some, IfOk, IsTrue};
    ghost use Rattle.i3c_legacy.specs.declared.legacies.TheConstants.{LEGACIES};

    /// What is declared now.
    ///
    /// # Errors
    ///
    /// There is no memory for it.
    pub fn of(alloc: Global, legacies: &Legacies) -> Result<RestingLegacies, AllocError>
        ensures { IfOk result (λ resting. resting ≡ legacies.now) }
    {
        Ok(RestingLegacies {
            targets: targets_at_rest(alloc, legacies.targets.as_slice())?,
            identities: identities_at_rest(alloc, legacies.identities.as_slice())?,
            addresses: legacies.addresses,
        })
    }

    /// How many legacy targets are declared.
    pub fn target_count(&self) -> usize
        ensures count { result ≡ count_by is_some self.now.legacy }
        ensures few { result ≤ LEGACIES }
    {
        self.targets.as_slice().len()
    }

    /// Whether the same is declared now at each static address, in any order.
    pub fn is_of(&self, legacies: &Legacies) -> bool
        ensures { IsTrue result ↔ (self.now ≡ legacies.now) }
    {
        are_same_boards(
            self.targets.as_slice(),
            self.identities.as_slice(),
            legacies.targets.as_slice(),
            legacies.identities.as_slice(),
        )
    }

    /// Whether both declare the same at each static address, in any order.
    pub fn is_same(&self, other: &RestingLegacies) -> bool
        ensures { IsTrue result ↔ (self.now ≡ other.now) }
    {
        are_same_boards(
            self.targets.as_slice(),
            self.identities.as_slice(),
            other.targets.as_slice(),
            other.identities.as_slice(),
        )
    }
}

// The same legacy targets, in room of their own.
fn targets_at_rest(alloc: Global, targets: &[Declared]) -> Result<Vec<Declared>, AllocError>
    ensures { IfOk result (λ copy. copy.items ≡ targets.now) }
{
    let mut copy = Vec::with_capacity(alloc, targets.len())?;
    copy.extend_from_slice(targets)?;
    Ok(copy)
}

// The same declared identities, in room of their own.
fn identities_at_rest(
    alloc: Global,
    identities: &[DeclaredIdentity],
) -> Result<Vec<DeclaredIdentity>, AllocError>
    ensures { IfOk result (λ copy. copy.items ≡ identities.now) }
{
    let mut copy = Vec::with_capacity(alloc, identities.len())?;
    copy.extend_from_slice(identities)?;
    Ok(copy)
}
