ghost use Rattle.i3c_wave.specs.Laws.{EdgesGiveTheMarks, RisingEdgesHaveTheBits, SymbolsAreReadBack};

/// Inside a symbol, SDA has its first bit where SCL rises for the first time, its second where SCL rises next, and so on;
/// and SCL rises once for each bit.
pub fn rising_edges_have_the_bits()
    ensures { RisingEdgesHaveTheBits }
{}

/// A watcher of the levels of whole frames hears their STARTs and STOPs and the bits of their other symbols, in order, and no
/// more.
pub fn edges_give_the_marks()
    ensures { EdgesGiveTheMarks }
{}

/// A reader that watches the levels of a wire gets its symbols back, given the addresses of its legacy targets: a wire is
/// whole frames in which each symbol is allowed at its place.
pub fn symbols_are_read_back()
    ensures { SymbolsAreReadBack }
{}
