ghost use Rattle.i3c_drive.specs.Answers.{AnsweredLinesLead};

/// Lines that are answered do to the bus what they do in a script. So what is proved of a script's lines holds for them: they
/// make a legal run.
pub fn answered_lines_lead()
    ensures { AnsweredLinesLead }
{}
