ghost use Rattle.std.specs.Prelude.{◌≡◌, ◌⊎◌, ◌<◌, ◌+◌, ◌*◌, ◌%◌, ◌^◌, [], ◌∷◌, ℕ, All, List, None, Some, Ok, Err, false, Option, Contains, ◌↔◌};
ghost use Rattle.i3c_orders.specs.declared.choice.Choice.{Choice as ChoiceValue};
ghost use Rattle.i3c_orders.specs.declared.choice.Step.{Step as StepValue};
ghost use Rattle.i3c_orders.specs.declared.orders.SendFault.{SendFault as FaultValue};
ghost use Rattle.i3c_orders.specs.declared.orders.Unfinished.{Unfinished as UnfinishedValue};
ghost use Rattle.i3c_orders.specs.Marks.{AreCovered, AreFollowed, AreMarked, IsKnown, IsMatched, IsPreorder, Turn};
ghost use Rattle.i3c_orders.specs.Numbers.{NamesNumbers, numbers_text};
ghost use Rattle.i3c_orders.specs.Runs.{AreTried, CanLead, IsRun, IsSettled, told_by};
ghost use Rattle.i3c_orders.specs.Paths.{Answers, BeginAlike, Ends, IsOver, Retreats, Tree, steps_of, told_on};
ghost use Rattle.i3c_orders.specs.Portions.{Portion};
ghost use Rattle.i3c_orders.specs.Sessions.{Call, IsSession, IsTried, Move, told_now};
ghost use Rattle.i3c_orders.specs.Shares.{begin_of, behind_of};

use crate::responder::Responder;

/// For a program that is determined by its answers: where a run is over and no choice on its path has anything left, all was
/// tried. Each line of the program was given answers, and whatever goes on with one of these was tried. Nothing else was.
pub fn all_runs_are_tried<M: Responder>()
    ensures all { (machine : M) (program : List M.Answer → Option M.Line) (start : M.State) (moves : List Move) (tried : List (List (StepValue M.State M.Answer))) (path : List (ChoiceValue M.Line M.State M.Answer))
        → IsTried (M.gives machine) program start moves tried path → program (told_on path) ≡ None → IsOver path → AreTried (M.gives machine) program start (steps_of path ∷ tried) [] }
    ensures only { (machine : M) (program : List M.Answer → Option M.Line) (start : M.State) (moves : List Move) (tried : List (List (StepValue M.State M.Answer))) (path : List (ChoiceValue M.Line M.State M.Answer))
        → IsTried (M.gives machine) program start moves tried path → program (told_on path) ≡ None → (run : List (StepValue M.State M.Answer)) → Contains (steps_of path ∷ tried) run → IsRun (CanLead (M.gives machine)) program start run }
{}

/// The same of the calls that the program makes: where `again` says that no run is left, all was tried, and nothing else.
pub fn calls_try_all_runs<M: Responder>()
    ensures all { (machine : M) (program : List M.Answer → Option M.Line) (start : M.State) (calls : List Call) (tried : List (List (StepValue M.State M.Answer))) (old new : Tree M.Line M.State M.Answer)
        → IsSession (M.gives machine) program start calls tried old → program (told_now old) ≡ None → Ends old (Ok false) new → AreTried (M.gives machine) program start (steps_of old.path ∷ tried) [] }
    ensures only { (machine : M) (program : List M.Answer → Option M.Line) (start : M.State) (calls : List Call) (tried : List (List (StepValue M.State M.Answer))) (old new : Tree M.Line M.State M.Answer)
        → IsSession (M.gives machine) program start calls tried old → program (told_now old) ≡ None → Ends old (Ok false) new → (run : List (StepValue M.State M.Answer)) → Contains (steps_of old.path ∷ tried) run → IsRun (CanLead (M.gives machine)) program start run }
{}

/// Where the next run begins, its path begins as that of the run before: up to its last line, which gets another answer.
pub fn next_runs_begin_alike<M: Responder>()
    ensures { (old new : List (ChoiceValue M.Line M.State M.Answer)) → Retreats old new → BeginAlike old new }
{}

/// A machine may always give a line the same answers in a state, each with the same state behind it. Where `again` says that
/// no run is left, those that were tried are then all runs of the program, and nothing else was tried.
pub fn settled_machines_try_all_runs<M: Responder>()
    ensures { (machine : M) → IsSettled (M.gives machine)
        → (program : List M.Answer → Option M.Line) (start : M.State) (calls : List Call) (tried : List (List (StepValue M.State M.Answer))) (old new : Tree M.Line M.State M.Answer)
        → IsSession (M.gives machine) program start calls tried old → program (told_now old) ≡ None → Ends old (Ok false) new
        → (run : List (StepValue M.State M.Answer)) → IsRun (CanLead (M.gives machine)) program start run ↔ Contains (steps_of old.path ∷ tried) run }
{}

/// A program that is determined by its answers is never told that it isn't: none of its lines differs from the one that was
/// sent there, and none of its runs ends where another one went on.
pub fn determined_programs_are_served<M: Responder>()
    ensures lines { (machine : M) (program : List M.Answer → Option M.Line) (start : M.State) (calls : List Call) (tried : List (List (StepValue M.State M.Answer))) (old new : Tree M.Line M.State M.Answer) (line : M.Line)
        → IsSession (M.gives machine) program start calls tried old → program (told_now old) ≡ Some line → Answers (M.gives machine) (M.fails machine) old line (Err FaultValue.Differs) new → ⊥ }
    ensures ends { (machine : M) (program : List M.Answer → Option M.Line) (start : M.State) (calls : List Call) (tried : List (List (StepValue M.State M.Answer))) (old new : Tree M.Line M.State M.Answer) (unfinished : UnfinishedValue)
        → IsSession (M.gives machine) program start calls tried old → program (told_now old) ≡ None → Ends old (Err unfinished) new → ⊥ }
{}

/// For a program that leaves a run where its next line is one that it sent before, in a state alike. Let the newest run be over or
/// left, and no choice on its path have anything left. Then behind the beginning of each run that was tried the program's run is
/// over, or each answer that its line is given was tried, there or where it was sent before.
pub fn marked_runs_are_covered<M: Responder>()
    ensures { (machine : M) (program : List M.Answer → Option M.Line) (start : M.State) (turns : List Turn) (tried : List (List (StepValue M.State M.Answer))) (path : List (ChoiceValue M.Line M.State M.Answer))
        → AreMarked (M.gives machine) M.alike program start turns tried path → IsOver path
        → (program (told_by (steps_of path)) ≡ None) ⊎ IsKnown M.alike program start (steps_of path ∷ tried) (steps_of path) → AreCovered (M.gives machine) M.alike program start (steps_of path ∷ tried) }
{}

/// For the same program, where what a line may be answered in a state it may be answered in each state alike: each run that the
/// program may have is matched by those that were tried. One of them is over, in a state alike; and each answer of the run was told
/// in one of them.
pub fn marked_programs_meet_all_runs<M: Responder>()
    ensures { (machine : M) → IsPreorder M.alike → AreFollowed (M.gives machine) M.alike (CanLead (M.gives machine))
        → (program : List M.Answer → Option M.Line) (start : M.State) (turns : List Turn) (tried : List (List (StepValue M.State M.Answer))) (path : List (ChoiceValue M.Line M.State M.Answer))
        → AreMarked (M.gives machine) M.alike program start turns tried path → IsOver path
        → (program (told_by (steps_of path)) ≡ None) ⊎ IsKnown M.alike program start (steps_of path ∷ tried) (steps_of path)
        → (run : List (StepValue M.State M.Answer)) → IsRun (CanLead (M.gives machine)) program start run → IsMatched M.alike program start (steps_of path ∷ tried) run }
{}

/// Numbers of 64 bits that are written are read as these.
pub fn written_numbers_are_read()
    ensures { (numbers : List ℕ) → All (λ n. n < 2 ^ 64) numbers → NamesNumbers (numbers_text numbers) numbers }
{}

/// The parts share out the answers to a line. Where there are no more parts than answers, a share ends where the next part's
/// begins: the first one begins with the first answer, and the last one ends with the last. Where there are more, each part is
/// known by its answer and by the part of what is behind; so those that take one answer are all parts of what is behind it.
pub fn parts_share_out_answers()
    ensures first { (of answers : ℕ) → begin_of 0 of answers ≡ 0 }
    ensures last { (of answers : ℕ) → 0 < of → begin_of of of answers ≡ answers }
    ensures behind { (part : Portion) (answers : ℕ) → 0 < answers → part.index ≡ (behind_of part answers).index * answers + part.index % answers }
    ensures all { (part : Portion) (answers index : ℕ) → 0 < answers → part.index < part.of
        → (index < (behind_of part answers).of) ↔ (index * answers + part.index % answers < part.of) }
{}
