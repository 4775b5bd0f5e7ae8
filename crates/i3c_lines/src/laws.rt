ghost use Rattle.i3c_lines.specs.Laws.{LinesAreOfOneCommand, PrintedCommandsAreRead, SkippedLinesAreNoCommands};

/// A line asks for one command at most.
pub fn lines_are_of_one_command()
    ensures { LinesAreOfOneCommand }
{}

/// A line that is passed over asks for no command.
pub fn skipped_lines_are_no_commands()
    ensures { SkippedLinesAreNoCommands }
{}

/// A command that a line can ask for is asked for by the line that it is printed as.
pub fn printed_commands_are_read()
    ensures { PrintedCommandsAreRead }
{}
