//! What a call of the builder refuses.
ghost use Rattle.std.specs.Prelude.{◌≡◌};

use crate::{Text, TryClone};
use std::alloc::{AllocError, AllocFailed};
use std::error::Error;
use std::fmt;

/// The refusal of an expression that can't be made: a record with a key twice.
#[derive(Debug, Drop, PartialEq, Eq)]
pub struct ExpressionConstructionError {
    key: Text,
}

impl ExpressionConstructionError {
    /// The refusal of a record for a key that it has twice.
    pub fn duplicate_key(key: Text) -> ExpressionConstructionError
        ensures { result.key ≡ key }
    {
        ExpressionConstructionError { key }
    }

    /// The key that is there twice.
    pub fn key(&self) -> &str
        ensures { result.now ≡ self.now.key }
    {
        self.key.as_str()
    }
}

impl fmt::Display for ExpressionConstructionError {
    ghost use Rattle.std.proofs.Common.{Some};
    ghost use Rattle.cedar_expressions.specs.Written.{duplicate_text};

    ghost output = { λ error. Some (duplicate_text error) };

    fn fmt<W: fmt::Write>(&self, f: &mut fmt::Formatter<W>) -> fmt::Result {
        write!(f, "duplicate key `{}` in record", self.key)
    }
}

impl Error for ExpressionConstructionError {}

/// Why a record wasn't made: want of memory, or a key that is there twice.
#[derive(Debug, Drop, PartialEq, Eq)]
pub enum RecordError {
    Memory(AllocError),
    Construction(ExpressionConstructionError),
}

impl From<AllocError> for RecordError {
    ghost use Rattle.std.specs.Prelude.{◌≡◌};
    ghost use Rattle.cedar_expressions.specs.declared.errors.RecordError.TheVariants.{Memory};

    ghost from_gives = { λ want error. error ≡ Memory want };

    fn from(want: AllocError) -> RecordError {
        RecordError::Memory(want)
    }
}

impl<T: Drop> From<AllocFailed<T>> for RecordError {
    ghost use Rattle.std.specs.Prelude.{◌≡◌, alloc_error};
    ghost use Rattle.cedar_expressions.specs.declared.errors.RecordError.TheVariants.{Memory};

    ghost from_gives = { λ _ error. error ≡ Memory alloc_error };

    fn from(failed: AllocFailed<T>) -> RecordError {
        RecordError::Memory(AllocError::from(failed))
    }
}

impl fmt::Display for RecordError {
    ghost use Rattle.std.proofs.Common.{Some};
    ghost use Rattle.cedar_expressions.specs.Written.{record_error_text};

    ghost output = { λ error. Some (record_error_text error) };

    fn fmt<W: fmt::Write>(&self, f: &mut fmt::Formatter<W>) -> fmt::Result {
        match self {
            RecordError::Memory(_) => f.write_str("want of memory"),
            RecordError::Construction(error) => write!(f, "{error}"),
        }
    }
}

impl Error for RecordError {}

impl TryClone for ExpressionConstructionError {
    fn try_clone(&self) -> Result<ExpressionConstructionError, AllocError> {
        Ok(ExpressionConstructionError {
            key: self.key.try_clone()?,
        })
    }
}

impl Clone for ExpressionConstructionError {
    ghost is_clone = { λ x y. y ≡ x };

    fn clone(&self) -> Result<ExpressionConstructionError, AllocError> {
        self.try_clone()
    }
}
