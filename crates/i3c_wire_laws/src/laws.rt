ghost use Rattle.i3c_wire_laws.specs.Laws.{AssignmentsAreSent, EventsFit, EventsSendWires, RunsAreReadBack, RunsAreWires, RunsGoOn, RunsSendWires};

/// Each symbol that an event of a sound bus sends is allowed at its place, whatever is cut: the event's symbols lead from the
/// place of the wire before the event to the one after it. The frame of an assignment goes on over several events. Legacy
/// targets keep their addresses.
pub fn events_send_wires()
    ensures { EventsSendWires }
{}

/// The numbers in what an event sends fit their types, where those of the bus and of the event do. Those of the bus do after
/// the event, too.
pub fn events_fit()
    ensures { EventsFit }
{}

/// What the events of a legal run send, one after another, leads from outside a frame to the place of the wire in the last
/// state.
pub fn runs_send_wires()
    ensures { RunsSendWires }
{}

/// What the events of a legal run send is a wire if no session is open at the end: whole frames in which each symbol is
/// allowed at its place.
pub fn runs_are_wires()
    ensures { RunsAreWires }
{}

/// A reader gets the symbols of a legal run back from its levels, given the addresses of the bus's legacy targets, if no
/// session is open at the end.
pub fn runs_are_read_back()
    ensures { RunsAreReadBack }
{}

/// What `assign_all` of the bus sends is what its events send: the opening, each round and the end.
pub fn assignments_are_sent()
    ensures { AssignmentsAreSent }
{}

/// What a run sends, followed by what its continuation sends, is what the whole run sends.
pub fn runs_go_on()
    ensures { RunsGoOn }
{}
