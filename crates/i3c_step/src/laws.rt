ghost use Rattle.i3c_step.specs.Laws.{AcceptedInterruptsAreRecorded, AddressesAreUnique, DataAreOfTheTable, InterruptsAreRecordedOnce, LateCutsAreAlike, LateCutsDoNothing, OneIsActive, PidsAreTold, RaisesStayInOrder, RunsAreHistories, SessionsEnd, SlotsAreKept, StaysBeginByAttachments, StepsAreGiven, UncutStepsAreDetermined};

/// Over every legal run: where devices that are present together have distinct identities, no two devices answer to
/// one address, legacy targets included.
pub fn addresses_are_unique()
    ensures { AddressesAreUnique }
{}

/// Over every legal run a device is in the active slot.
pub fn one_is_active()
    ensures { OneIsActive }
{}

/// Each legal run is a legal history, the subject of the laws on records and raises.
pub fn runs_are_histories()
    ensures { RunsAreHistories }
{}

/// Over every legal history: an interrupt that was accepted is in the log once, at the address of its device, which raised
/// it with interrupts enabled.
pub fn interrupts_are_recorded_once()
    ensures { InterruptsAreRecordedOnce }
{}

/// A frame whose first request is an interrupt that it accepts records it at its address, for the lowest driver's slot, with
/// the number of its front. Or it was torn, if it has a mandatory byte and each driver was lost in the frame.
pub fn accepted_interrupts_are_recorded()
    ensures { AcceptedInterruptsAreRecorded }
{}

/// Over every legal history: of a present device's stay, the accepted raises are the recorded ones and then those that
/// wait, in order.
pub fn raises_stay_in_order()
    ensures { RaisesStayInOrder }
{}

/// Where nothing is cut and there is memory, the state and the event determine the reply and the next state.
pub fn uncut_steps_are_determined()
    ensures { UncutStepsAreDetermined }
{}

/// A cut behind the last bit of an event's frame, of any slot but the active controller's, does nothing: the same steps
/// are legal with it and without it.
pub fn late_cuts_do_nothing()
    ensures { LateCutsDoNothing }
{}

/// Two cuts of one slot behind that bit allow the same steps, also if the slot is the active controller's.
pub fn late_cuts_are_alike()
    ensures { LateCutsAreAlike }
{}

/// Only a granted handover moves the active controller, and only to a willing device. Only their own answers open and end a
/// session. Only an accepted attachment puts a device into a slot.
pub fn slots_are_kept()
    ensures { SlotsAreKept }
{}

/// A step is one under the policy that its reply gives, too.
pub fn steps_are_given()
    ensures { StepsAreGiven }
{}

/// A slot that is taken again is another stay: what was accepted in a present device's stay is what was accepted of its
/// slot since the last accepted attachment there.
pub fn stays_begin_by_attachments()
    ensures { StaysBeginByAttachments }
{}

/// Without cuts, one of 64 rounds of a session answers that nobody hears any more, or that no address is left, whatever
/// happens between them (I3C Basic 5.1.4.2).
pub fn sessions_end()
    ensures { SessionsEnd }
{}

/// Over every legal run without cuts: GETPID, GETBCR and GETDCR read at an address what the active controller's table has
/// there.
pub fn data_are_of_the_table()
    ensures { DataAreOfTheTable }
{}

/// The six bytes that GETPID asks a device for, read as one number with the most significant byte first, are its
/// provisioned ID (I3C Basic 5.1.9.3.12).
pub fn pids_are_told()
    ensures { PidsAreTold }
{}
