ghost use Rattle.std.specs.Prelude.{◌≡◌};
ghost use Rattle.std.specs.List.{list_all};

/// The open-drain lines of a bus, which read high unless someone drives them low (I3C Basic 5.1.2.2.1).
pub struct Lines;

impl Lines {
    /// One clock: everyone reads the AND of what is driven, and 1 (`true`) if nobody drives.
    pub fn clock(driven: &[bool]) -> bool
        ensures { result ≡ list_all (λ b. b) driven.now }
    {
        driven.iter().all(|level| *level)
    }
}
