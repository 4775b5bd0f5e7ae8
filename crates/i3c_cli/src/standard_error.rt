use i3c_runner::Witness;
use std::str;

/// Standard error, on which the program explains the lines of a watched run.
#[derive(Drop)]
pub(crate) struct StandardError<'a, R> {
    runtime: &'a R,
}

impl<'a, R> StandardError<'a, R> {
    /// The standard error of a runtime.
    pub(crate) fn new(runtime: &'a R) -> StandardError<'a, R> {
        StandardError { runtime }
    }
}

// Nothing is known of what it shows.
impl<R: Eprint> Witness for StandardError<'_, R> {
    ghost use Rattle.std.specs.Prelude.{⊤};

    ghost hears = { λ old told new. ⊤ };

    fn tell(&mut self, told: &[u8]) {
        if let Ok(text) = str::from_utf8(told) {
            // what can't be told isn't missed
            let _ = self.runtime.eprint(text);
        }
    }
}
