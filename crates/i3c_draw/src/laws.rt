ghost use Rattle.i3c_draw.specs.Laws.{EscapedIsPlain};

/// The bytes of a script, as XML has them, are printed ASCII without `<` and `>`, whatever they are.
pub fn escaped_is_plain()
    ensures { EscapedIsPlain }
{}
