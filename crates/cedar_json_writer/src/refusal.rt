//! Why a value isn't written as JSON.
ghost use Rattle.std.specs.Prelude.{Some};
ghost use Rattle.cedar_json_writer.specs.Refusals.{to_json_error_text};

use std::alloc::AllocError;
use std::error::Error;
use std::fmt;

/// Why a value isn't written as JSON.
#[derive(Debug, Drop, PartialEq, Eq)]
pub enum ToJsonError {
    /// Want of memory.
    Memory(AllocError),
    /// A function of this name is called, which is the key of an operator: a call of it would be
    /// read as that operator.
    OperatorKey(String),
}

impl From<AllocError> for ToJsonError {
    ghost use Rattle.std.specs.Prelude.{◌≡◌};
    ghost use Rattle.cedar_json_writer.specs.declared.refusal.ToJsonError.TheVariants.{Memory};

    ghost from_gives = { λ want error. error ≡ Memory want };

    fn from(want: AllocError) -> ToJsonError {
        ToJsonError::Memory(want)
    }
}

impl fmt::Display for ToJsonError {
    ghost output = { λ error. Some (to_json_error_text error) };

    fn fmt<W: fmt::Write>(&self, f: &mut fmt::Formatter<W>) -> fmt::Result {
        match self {
            ToJsonError::Memory(_) => f.write_str("want of memory"),
            ToJsonError::OperatorKey(name) => {
                write!(
                    f,
                    "the function `{name}` has the key of an operator as its name"
                )
            }
        }
    }
}

impl Error for ToJsonError {}
