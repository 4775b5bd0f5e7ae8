use i3c_streams::ScriptFault;
use i3c_task::WordsFault;
use i3c_wave::CaptureFault;
use std::alloc::AllocError;
use thiserror::Error;

/// Why the program gives up, as standard error is told.
#[derive(Debug, Drop, Error)]
pub enum Fault {
    /// The words of the command line ask for nothing, and why.
    #[error("{0}")]
    Words(WordsFault),
    #[error("i3cbus: cannot read\n")]
    Read,
    #[error("i3cbus: write failed\n")]
    Write,
    #[error("i3cbus: too large\n")]
    TooLarge,
    #[error("i3cbus: memory\n")]
    Memory,
    #[error("i3cbus: not balanced\n")]
    NotBalanced,
    /// A capture isn't read to its end, and why.
    #[error("i3cbus: {0}\n")]
    Capture(CaptureFault),
    /// A text behind `--by` is no fact that an end can have.
    #[error("i3cbus: --by '{0}': no fact of an end\n")]
    NoFact(String),
    /// A fact behind `--by` has a name that the file doesn't give.
    #[error("i3cbus: --by '{0}': no line of the file gives this name\n")]
    NoName(String),
    /// A scene can't be met by a program, and why.
    #[error("i3cbus: scene: {0}\n")]
    Scene(String),
    /// A line has no form: its number, and why.
    #[error("i3cbus: line {0}\n")]
    NoForm(String),
}

impl From<ScriptFault> for Fault {
    ghost use Rattle.std.specs.Prelude.{◌≡◌};
    ghost use Rattle.i3c_cli.specs.Endings.{told_as};

    ghost from_gives = { λ fault told. told ≡ told_as fault };

    fn from(fault: ScriptFault) -> Fault {
        match fault {
            ScriptFault::Memory => Fault::Memory,
            ScriptFault::Read => Fault::Read,
            ScriptFault::Write => Fault::Write,
            ScriptFault::TooLarge => Fault::TooLarge,
        }
    }
}

impl From<CaptureFault> for Fault {
    ghost use Rattle.std.specs.Prelude.{◌≡◌};
    ghost use Rattle.i3c_cli.specs.Endings.{capture_told_as};

    ghost from_gives = { λ fault told. told ≡ capture_told_as fault };

    fn from(fault: CaptureFault) -> Fault {
        match fault {
            CaptureFault::Memory => Fault::Memory,
            CaptureFault::Read => Fault::Read,
            fault => Fault::Capture(fault),
        }
    }
}

impl From<AllocError> for Fault {
    ghost use Rattle.std.specs.Prelude.{◌≡◌};
    ghost use Rattle.i3c_cli.specs.declared.fault.Fault.TheVariants.{Memory};

    ghost from_gives = { λ _ fault. fault ≡ Memory };

    fn from(_error: AllocError) -> Fault {
        Fault::Memory
    }
}

impl From<WordsFault> for Fault {
    ghost use Rattle.std.specs.Prelude.{◌≡◌};
    ghost use Rattle.i3c_cli.specs.Endings.{words_told_as};

    ghost from_gives = { λ fault told. told ≡ words_told_as fault };

    fn from(fault: WordsFault) -> Fault {
        match fault {
            WordsFault::Memory => Fault::Memory,
            fault => Fault::Words(fault),
        }
    }
}
