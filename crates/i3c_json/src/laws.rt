ghost use Rattle.i3c_json.specs.Laws.{ObjectsTellOutcomes, ObjectsTellPieces, ToldObjectsTellAsides, ToldObjectsTellPieces, ToldObjectsTellVerdicts};

/// A reader of an answer's object finds the line's number and its result.
pub fn objects_tell_outcomes()
    ensures { ObjectsTellOutcomes }
{}

/// A reader of an answer's object finds in each field that a piece may fill what the line's first such piece says, and nothing
/// where the line came to no such piece.
pub fn objects_tell_pieces()
    ensures { ObjectsTellPieces }
{}

/// A reader of the object of an answer to a program that meets every order finds the line's number and how the line ended: `ok`,
/// or the name of the reason, with the address that it is about or the expectation that doesn't hold.
pub fn told_objects_tell_verdicts()
    ensures { ToldObjectsTellVerdicts }
{}

/// A reader of such an object finds each of `happened`, `due`, `order`, `all` and `script` exactly where the answer says it.
pub fn told_objects_tell_asides()
    ensures { ToldObjectsTellAsides }
{}

/// A reader of such an object finds in each field that a piece may fill what the line's first such piece says, and nothing where
/// the line came to no such piece.
pub fn told_objects_tell_pieces()
    ensures { ToldObjectsTellPieces }
{}
