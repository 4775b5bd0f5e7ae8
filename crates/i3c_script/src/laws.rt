ghost use Rattle.i3c_script.specs.Leading.{ScriptsAreLegalRuns};

/// The steps of a script's commands are a legal run, whatever these commands are.
pub fn scripts_are_legal_runs()
    ensures { ScriptsAreLegalRuns }
{}
