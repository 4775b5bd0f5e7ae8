ghost use Rattle.test_every.specs.declared.counter.Rules.{Rules as RulesValue};
ghost use Rattle.test_every.specs.Counters.{Counts, Replies, Shows};
ghost use Rattle.i3c_every.specs.Every.{IsDetermined};

/// The counter is determined, as `programs_meet_every_order` asks of a machine in its last clause.
pub fn counters_are_determined()
    ensures { (rules : RulesValue) → IsDetermined Counts (Replies rules) Shows }
{}
