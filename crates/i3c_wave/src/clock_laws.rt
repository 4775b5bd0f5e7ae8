ghost use Rattle.i3c_wave.specs.Clocks.{BitsHaveTheirNumbers, FramesHaveTheBitsInOrder, RisingEdgesAreInOrder};

/// In the levels of any symbols, with SCL high before them, SDA is at the rising edges of SCL what the symbols have there, one
/// after another. That is their bits, 1 for a repeated START and 0 for a STOP. These two have a rising edge of their own, and
/// a START has none.
pub fn rising_edges_are_in_order()
    ensures { RisingEdgesAreInOrder }
{}

/// In the levels of frames, or of a part of them, the bits that are clocked are those of the symbols, one after another. A
/// bit is clocked where SCL rises, and falls again before SDA changes: so a repeated START and a STOP clock none.
pub fn frames_have_the_bits_in_order()
    ensures { FramesHaveTheBitsInOrder }
{}

/// Bit 0 of a frame, as cuts are numbered, is the answer to its first header: of the rising edges that clock a bit, the ninth
/// clocks it. The next edges clock the next bits, from 1 on. In a round the count begins anew.
pub fn bits_have_their_numbers()
    ensures { BitsHaveTheirNumbers }
{}
