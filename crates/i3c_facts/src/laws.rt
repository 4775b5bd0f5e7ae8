ghost use Rattle.i3c_facts.specs.Laws.{AskersDriveTheFirst, LinesAreOfOneMark, MarksAreNoCommands, PrintedMarksAreRead};

/// A line that is a mark asks for no command, and isn't passed over.
pub fn marks_are_no_commands()
    ensures { MarksAreNoCommands }
{}

/// A line is one mark at most.
pub fn lines_are_of_one_mark()
    ensures { LinesAreOfOneMark }
{}

/// A mark that a line can say is read from its printed line, unless that is too long.
pub fn printed_marks_are_read()
    ensures { PrintedMarksAreRead }
{}

/// The devices that ask are those that drive the first request of the next frame (I3C Basic 5.1.6.2).
pub fn askers_drive_the_first()
    ensures { AskersDriveTheFirst }
{}
