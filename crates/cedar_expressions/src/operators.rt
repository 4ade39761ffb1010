//! The operators of one operand and of two.
use crate::TryClone;
use std::alloc::AllocError;
use std::fmt;

/// The operators of a sum.
#[derive(Debug, Clone, Copy, PartialEq, Eq)]
pub enum AddOp {
    Plus,
    Minus,
}

/// The operators with one operand.
#[derive(Debug, Clone, Copy, PartialEq, Eq)]
pub enum UnaryOp {
    Not,
    Neg,
}

impl TryClone for AddOp {
    fn try_clone(&self) -> Result<AddOp, AllocError> {
        Ok(*self)
    }
}

impl TryClone for UnaryOp {
    fn try_clone(&self) -> Result<UnaryOp, AllocError> {
        Ok(*self)
    }
}

impl fmt::Display for AddOp {
    ghost use Rattle.std.proofs.Common.{Some};
    ghost use Rattle.cedar_expressions.specs.Written.{add_op_text};

    ghost output = { λ op. Some (add_op_text op) };

    fn fmt<W: fmt::Write>(&self, f: &mut fmt::Formatter<W>) -> fmt::Result {
        f.write_str(match self {
            AddOp::Plus => "+",
            AddOp::Minus => "-",
        })
    }
}

impl fmt::Display for UnaryOp {
    ghost use Rattle.std.proofs.Common.{Some};
    ghost use Rattle.cedar_expressions.specs.Written.{unary_op_text};

    ghost output = { λ op. Some (unary_op_text op) };

    fn fmt<W: fmt::Write>(&self, f: &mut fmt::Formatter<W>) -> fmt::Result {
        f.write_str(match self {
            UnaryOp::Not => "!",
            UnaryOp::Neg => "-",
        })
    }
}
