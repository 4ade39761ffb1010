//! Why a text is no literal.
ghost use Rattle.std.specs.Prelude.{◌≡◌, IfOk};
ghost use Rattle.std.proofs.Common.{Some};
ghost use Rattle.cedar_syntax.specs.messages.Messages.{literal_message};

use crate::err::ParseErrors;
use cedar_expressions::{Expr, TryClone};
use std::alloc::AllocError;
use std::error::Error;
use std::fmt;

/// Why a text is no literal.
#[derive(Debug, Drop, PartialEq, Eq)]
pub enum LiteralParseError {
    /// it is no expression
    Parse(ParseErrors),
    /// it is this expression, which is no literal
    InvalidLiteral(Expr),
}

impl LiteralParseError {
    /// A copy that equals its source.
    pub fn try_clone(&self) -> Result<LiteralParseError, AllocError>
        ensures { IfOk result (λ copy. copy ≡ self.now) }
    {
        match self {
            LiteralParseError::Parse(faults) => Ok(LiteralParseError::Parse(faults.try_clone()?)),
            LiteralParseError::InvalidLiteral(expression) => {
                Ok(LiteralParseError::InvalidLiteral(expression.try_clone()?))
            }
        }
    }
}

impl TryClone for LiteralParseError {
    fn try_clone(&self) -> Result<LiteralParseError, AllocError> {
        LiteralParseError::try_clone(self)
    }
}

impl Clone for LiteralParseError {
    ghost is_clone = { λ fault copy. copy ≡ fault };

    fn clone(&self) -> Result<LiteralParseError, AllocError> {
        LiteralParseError::try_clone(self)
    }
}

impl From<ParseErrors> for LiteralParseError {
    ghost use Rattle.cedar_syntax.specs.declared.err.literal_parse.LiteralParseError.TheVariants.{Parse};

    ghost from_gives = { λ faults fault. fault ≡ Parse faults };

    fn from(faults: ParseErrors) -> LiteralParseError {
        LiteralParseError::Parse(faults)
    }
}

impl fmt::Display for LiteralParseError {
    ghost output = { λ fault. Some (literal_message fault) };

    fn fmt<W: fmt::Write>(&self, f: &mut fmt::Formatter<W>) -> fmt::Result {
        match self {
            LiteralParseError::Parse(faults) => write!(f, "{faults}"),
            LiteralParseError::InvalidLiteral(expression) => {
                write!(f, "invalid literal: {expression}")
            }
        }
    }
}

impl Error for LiteralParseError {}
