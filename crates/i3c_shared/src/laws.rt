ghost use Rattle.i3c_shared.specs.Balance.{PostsAreAccountedFor};

use i3c_step::{raises_stay_in_order, stays_begin_by_attachments};

/// If devices that are present together have distinct identities, then on every closed bus each post of a port whose device
/// is there at the end was refused, was recorded, or waits.
pub fn posts_are_accounted_for()
    ensures { PostsAreAccountedFor }
{
    raises_stay_in_order();
    stays_begin_by_attachments();
}
