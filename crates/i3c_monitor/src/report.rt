use crate::decoded::Decoded;
use crate::lint_fault::LintFault;

/// What a linter has next.
#[derive(Drop)]
pub enum Report {
    /// This is decoded.
    Decoded(Decoded),
    /// A frame ends, with these faults.
    Faults(Vec<LintFault>),
}

impl Report {
    ghost use Rattle.std.specs.Prelude.{◌≡◌, map, option_to_list};
    ghost use Rattle.i3c_monitor.specs.Lint.LintLine.{Shown};
    ghost use Rattle.i3c_monitor.specs.Linting.{reported};

    /// The report of a decoded header, if it tells anything.
    pub(crate) fn of(decoded: &Option<Decoded>) -> Option<Report>
        ensures { reported result ≡ map Shown (option_to_list decoded.now) }
    {
        match decoded {
            Some(decoded) => Some(Report::Decoded(*decoded)),
            None => None,
        }
    }
}
