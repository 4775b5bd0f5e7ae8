/// What is shown of a script's lines beside what they print.
#[derive(Clone, Copy, Debug, PartialEq, Eq)]
pub struct Watching {
    /// Each printed line begins with the number of the script's line.
    pub numbers: bool,
    /// Each line that isn't empty goes out before what it prints.
    pub echo: bool,
    /// A witness is told why lines are refused.
    pub explain: bool,
    /// The run ends at the first line that has no form.
    pub strict: bool,
    /// A witness is told each line that has no form, which then counts as an expectation that isn't met. No refusal counts.
    pub test: bool,
}

impl Watching {
    ghost use Rattle.std.specs.Prelude.{◌≡◌};
    ghost use Rattle.i3c_streams.specs.Watching.{is_plain, is_telling};

    /// Whether nothing more is shown.
    pub fn is_plain(self) -> bool
        ensures { result ≡ is_plain self }
    {
        !(self.numbers || self.echo || self.explain || self.strict || self.test)
    }

    /// Whether a witness is told something.
    pub fn is_telling(self) -> bool
        ensures { result ≡ is_telling self }
    {
        self.explain || self.test
    }
}
