ghost use Rattle.std.specs.Prelude.{◌≡◌, OnOk};
ghost use Rattle.serde_json.specs.View.{members_view};
ghost use Rattle.i3c_json.specs.Objects.{put_aside};

use crate::values::{Fields, put_flag, put_number, put_text};
use std::alloc::{AllocError, Global};

/// What an answer says besides.
#[derive(Clone, Copy)]
pub enum Aside<'a> {
    /// It says nothing besides.
    Nothing,
    /// Whether something happened while the program waited. If not, nothing is left.
    Happened(bool),
    /// The line that a run which began as this one sent here.
    Due(&'a [u8]),
    /// The order with this number begins.
    Order(u64),
    /// All orders were tried, and this is their number.
    All(u64),
    /// So many orders were tried, and no other one is, though there may be more.
    Tried(u64),
    /// The lines of the order so far.
    Script(&'a [u8]),
    /// The numbers of the answers that they took.
    Choices(&'a [u8]),
    /// So many of the next lines are answered as in the order before.
    Same(u64),
    /// The mark was taken before, where the run is now.
    Known,
}

/// Puts what the answer says besides.
pub(crate) fn put_aside(
    alloc: Global,
    aside: &Aside<'_>,
    fields: &mut Fields,
) -> Result<(), AllocError>
    ensures { OnOk result (members_view fields.new.entries ≡ put_aside aside.now (members_view fields.old.entries)) }
{
    match aside {
        Aside::Nothing => Ok(()),
        Aside::Happened(is_so) => put_flag(alloc, "happened", *is_so, fields),
        Aside::Due(line) => put_text(alloc, "due", line, fields),
        Aside::Order(number) => put_number(alloc, "order", *number, fields),
        Aside::All(count) => put_number(alloc, "all", *count, fields),
        Aside::Tried(count) => put_number(alloc, "tried", *count, fields),
        Aside::Script(lines) => put_text(alloc, "script", lines, fields),
        Aside::Choices(numbers) => put_text(alloc, "choices", numbers, fields),
        Aside::Same(count) => put_number(alloc, "same", *count, fields),
        Aside::Known => put_flag(alloc, "known", true, fields),
    }
}
