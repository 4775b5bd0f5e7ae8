//! Which address is given next.
#![tactic(auto)]

ghost use Rattle.std.specs.Prelude.{ℕ, MatchOption};
ghost use Rattle.i3c_base.specs.State.{IsPickIn, IsPickableIn};

use i3c_base::Addr7;
use i3c_table::Table;

/// The least address that may be given: a usable one without a row, and that is nobody's static one (I3C
/// Basic 5.1.4). `None` only where there is none.
pub fn pick(table: &Table) -> Option<Addr7>
    ensures { MatchOption result ((a : ℕ) → ¬ IsPickableIn table.now.given table.now.legacy table.now.declared a)
        (λ a. IsPickIn table.now.given table.now.legacy table.now.declared a) }
{
    table.open_addresses().lowest()
}
