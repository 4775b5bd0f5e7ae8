ghost use Rattle.i3c_frame.specs.Laws.{PrintedIsParted, TextsDiffer};

/// The parts of symbols that are printed with a space between each two are their texts, one by one. So `read_trace` gives
/// back the symbols of each trace that is printed so.
pub fn printed_is_read_back()
    ensures { PrintedIsParted }
{}

/// No two symbols have one text.
pub fn texts_differ()
    ensures { TextsDiffer }
{}
