ghost use Rattle.std.specs.Prelude.{◌<◌, ℕ, List, length};
ghost use Rattle.std.specs.Global.{Vec as VecValue};
ghost use Rattle.i3c_explore.specs.declared.turn.Turn.{Turn as TurnValue};
ghost use Rattle.i3c_explore.specs.Blocks.{IsWhole};
ghost use Rattle.i3c_explore.specs.Parts.{IsOfPart, whole};
ghost use Rattle.i3c_explore.specs.Splits.{IsInOnePart, OrdersSplit, RunsSplit};
ghost use Rattle.i3c_explore.specs.Sums.{IsOfOnePart, PartsAddUp};

use crate::machine::Machine;

/// Laws of a block's orders by their first turns: those that begin with a track's first line are the orders of a block of
/// that line, before a block of the lines that are left.
pub fn first_turns_split<M: Machine>()
    // the orders that begin with a track's first line are that line and the orders of the lines that are left
    ensures orders { (tracks : List (VecValue M.Line)) → OrdersSplit tracks }
    // they lead where the line leads, and then the order of the lines that are left
    ensures runs { (tracks : List (VecValue M.Line)) → RunsSplit M.steps tracks }
    // each order belongs to exactly one part
    ensures parts { (parts : ℕ) (order : List TurnValue) → 0 < parts → 0 < length order → IsInOnePart parts order }
{}

/// Laws of the parts of all orders ([`crate::Part`]): the whole is every order, and the parts have each order once.
pub fn parts_share_all<M: Machine>()
    // each course, and each beginning of one, is of the whole
    ensures whole { (blocks : List (VecValue (VecValue M.Line))) (course : List (List TurnValue)) → IsOfPart whole blocks course }
    // each whole course is of exactly one part
    ensures one { (parts : ℕ) (blocks : List (VecValue (VecValue M.Line))) (course : List (List TurnValue)) → 0 < parts → IsWhole blocks course → IsOfOnePart parts blocks course }
    // the parts' numbers of orders are together the number of all
    ensures sum { (blocks : List (VecValue (VecValue M.Line))) (start : M) → PartsAddUp M.steps blocks start }
{}
