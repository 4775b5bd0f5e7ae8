ghost use Rattle.i3c_runner.specs.Legal.{CommandsAreLegalRuns, LinesAreLegalRuns};
ghost use Rattle.i3c_runner.specs.Watched.{WatchedLinesPrintTheSame};

/// The steps of lines that are commands alone are a legal run, whatever these lines are.
pub fn commands_are_legal_runs()
    ensures { CommandsAreLegalRuns }
{}

/// The steps of a script's lines are a legal run, whatever these lines are. Expectations and other marks are no steps.
pub fn lines_are_legal_runs()
    ensures { LinesAreLegalRuns }
{}

/// A watched run that neither numbers lines nor has them go out themselves prints what any run of these lines prints.
pub fn watched_lines_print_the_same()
    ensures { WatchedLinesPrintTheSame }
{}
