ghost use Rattle.std.specs.Prelude.{◌≡◌, ◌≤◌, length};
ghost use Rattle.i3c_legacy.specs.declared.legacies.TheConstants.{DECLARED as DECLARED_COUNT, LEGACIES as LEGACY_COUNT};

use crate::legacies::{DECLARED, Declared, DeclaredIdentity, LEGACIES};
use arrayvec::ArrayVec;

/// The same legacy targets once more, in their order.
pub(crate) fn targets_again(targets: &[Declared]) -> ArrayVec<Declared, LEGACIES>
    requires { length targets.now ≤ LEGACY_COUNT }
    ensures { result.items ≡ targets.now }
{
    let mut copy = ArrayVec::new();
    let Ok(()) = copy.try_extend_from_slice(targets) else {
        unreachable!()
    };
    copy
}

/// The same declared identities once more, in their order.
pub(crate) fn identities_again(
    identities: &[DeclaredIdentity],
) -> ArrayVec<DeclaredIdentity, DECLARED>
    requires { length identities.now ≤ DECLARED_COUNT }
    ensures { result.items ≡ identities.now }
{
    let mut copy = ArrayVec::new();
    let Ok(()) = copy.try_extend_from_slice(identities) else {
        unreachable!()
    };
    copy
}
