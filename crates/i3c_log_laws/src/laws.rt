ghost use Rattle.i3c_log_laws.specs.Behind.{GoneRecordsAddUp, RunsGoOnAlike, StepsGoOnAlike};

/// A step of a bus is a step with any records in front of the log, too. The reply counts them in the number of a new record,
/// and is the same otherwise.
pub fn steps_go_on_alike()
    ensures { StepsGoOnAlike }
{}

/// A run of a bus is a run with any records in front of the log, too. Each reply counts them so.
pub fn runs_go_on_alike()
    ensures { RunsGoOnAlike }
{}

/// With no record in front, a reply stays as it is. Records in front of others are in front together with them.
pub fn gone_records_add_up()
    ensures { GoneRecordsAddUp }
{}
