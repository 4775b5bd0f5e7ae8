use std::alloc::AllocError;
use thiserror::Error;

/// Why the words of a command line ask for no task, as standard error is told.
#[derive(Debug, Drop, Error)]
pub enum WordsFault {
    /// They mean nothing, or ask for help: the parser's own text, line feeds and all.
    #[error("{0}")]
    Usage(clap::Error),
    #[error("i3cbus: memory\n")]
    Memory,
    #[error("i3cbus: --legacy takes an address of two capital hex digits, 08 to 77\n")]
    Legacy,
    #[error("i3cbus: --part takes K/N, two decimal numbers, K from 1 to N\n")]
    Part,
    #[error("i3cbus: --order takes the numbers that 'choices' told, with points between them\n")]
    Order,
    #[error("i3cbus: --{0} takes a number of decimal digits alone\n")]
    Number(&'static str),
}

impl From<AllocError> for WordsFault {
    ghost use Rattle.std.specs.Prelude.{◌≡◌};
    ghost use Rattle.i3c_task.specs.declared.words_fault.WordsFault.TheVariants.{Memory};

    ghost from_gives = { λ _ fault. fault ≡ Memory };

    fn from(_error: AllocError) -> WordsFault {
        WordsFault::Memory
    }
}

// The parser's want of memory isn't told in its words.
impl From<clap::Error> for WordsFault {
    ghost use Rattle.i3c_task.specs.Words.{IsOfWords};

    ghost from_gives = { λ _ fault. IsOfWords fault };

    fn from(error: clap::Error) -> WordsFault {
        match error.kind() {
            clap::error::ErrorKind::OutOfMemory => WordsFault::Memory,
            _ => WordsFault::Usage(error),
        }
    }
}
