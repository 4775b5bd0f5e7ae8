ghost use Rattle.i3c_wire_laws.specs.Answering.{TargetsAnswerAtTheirBits};
ghost use Rattle.i3c_wire_laws.specs.Numbers.{EventsSendTheBitsByNumber, EventsSendTheBitsInOrder, RunsSendTheBitsInOrder};

/// At the rising edges of SCL that clock a bit, SDA has the bits of what an event of a sound bus sends, one after another,
/// whatever is cut. The first edge has the first bit of its symbols, the next edge the next, and there are no other edges.
pub fn events_send_the_bits_in_order()
    ensures { EventsSendTheBitsInOrder }
{}

/// The bits have the numbers by which cuts name them: bit 0, at the ninth of these edges, is the answer to the first header.
/// A frame's own part comes behind as many bits as its definition takes the part to come after.
pub fn events_send_the_bits_by_number()
    ensures { EventsSendTheBitsByNumber }
{}

/// The same of all that the events of a legal run send, one behind the other.
pub fn runs_send_the_bits_in_order()
    ensures { RunsSendTheBitsInOrder }
{}

/// The answer to the header of a command's or a transfer's target is at the bit that cuts count for it: SDA is low at that
/// rising edge exactly if a device that would answer isn't lost by that bit.
pub fn targets_answer_at_their_bits()
    ensures { TargetsAnswerAtTheirBits }
{}
