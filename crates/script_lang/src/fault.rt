//! Why a line is outside the grammar.
ghost use Rattle.std.specs.Prelude.{◌≡◌};
ghost use Rattle.script_lang.specs.Fault.{code_of};

use thiserror::Error;

/// Why a line is outside the grammar.
#[derive(Clone, Copy, Debug, PartialEq, Eq, Error)]
pub enum LineFault {
    #[error("the first word, or the one behind a transaction's name, is no command")]
    UnknownCommand,
    #[error("too few or too many words")]
    Arity,
    #[error("a word is no key, no value, or not the one that stands in this place")]
    BadWord,
    #[error("a word is no number, or one out of its range")]
    BadNumber,
}

impl LineFault {
    /// The fault's number, 1 to 4.
    pub fn code(self) -> u8
        ensures { result ≡ code_of self }
    {
        match self {
            LineFault::UnknownCommand => 1,
            LineFault::Arity => 2,
            LineFault::BadWord => 3,
            LineFault::BadNumber => 4,
        }
    }
}
