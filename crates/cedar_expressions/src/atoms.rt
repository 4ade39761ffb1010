//! Constants, variables, slots' names and the elements of patterns.
ghost use Rattle.std.specs.Prelude.{◌≡◌};

use crate::escape::EscapedText;
use crate::{EntityUID, Text, TryClone};
use std::alloc::AllocError;
use std::fmt;

/// A constant of an expression.
#[derive(Debug, Drop, PartialEq, Eq)]
pub enum Literal {
    Bool(bool),
    Long(i64),
    String(Text),
    EntityUID(EntityUID),
}

/// The variables that an expression may name.
#[derive(Debug, Clone, Copy, PartialEq, Eq)]
pub enum Var {
    Principal,
    Action,
    Resource,
    Context,
}

/// The slots of a template.
#[derive(Debug, Clone, Copy, PartialEq, Eq)]
pub enum SlotId {
    Principal,
    Resource,
}

/// A part of the pattern of `like`.
#[derive(Debug, Clone, Copy, PartialEq, Eq)]
pub enum PatternElem {
    Char(char),
    Wildcard,
}

impl TryClone for Literal {
    fn try_clone(&self) -> Result<Literal, AllocError> {
        match self {
            Literal::Bool(truth) => Ok(Literal::Bool(*truth)),
            Literal::Long(number) => Ok(Literal::Long(*number)),
            Literal::String(text) => Ok(Literal::String(text.try_clone()?)),
            Literal::EntityUID(entity) => Ok(Literal::EntityUID(entity.try_clone()?)),
        }
    }
}

impl Clone for Literal {
    ghost is_clone = { λ x y. y ≡ x };

    fn clone(&self) -> Result<Literal, AllocError> {
        self.try_clone()
    }
}

impl TryClone for Var {
    fn try_clone(&self) -> Result<Var, AllocError> {
        Ok(*self)
    }
}

impl TryClone for SlotId {
    fn try_clone(&self) -> Result<SlotId, AllocError> {
        Ok(*self)
    }
}

impl TryClone for PatternElem {
    fn try_clone(&self) -> Result<PatternElem, AllocError> {
        Ok(*self)
    }
}

/// A constant as it is written in an expression, a string and an entity's identifier with escapes.
impl fmt::Display for Literal {
    ghost use Rattle.std.proofs.Common.{Some};
    ghost use Rattle.cedar_expressions.specs.Written.{literal_text};

    ghost output = { λ literal. Some (literal_text literal) };

    fn fmt<W: fmt::Write>(&self, f: &mut fmt::Formatter<W>) -> fmt::Result {
        match self {
            Literal::Bool(truth) => write!(f, "{truth}"),
            Literal::Long(number) => write!(f, "{number}"),
            Literal::String(text) => write!(f, "\"{}\"", EscapedText::new(text.as_str())),
            Literal::EntityUID(entity) => write!(f, "{entity}"),
        }
    }
}

impl fmt::Display for Var {
    ghost use Rattle.std.proofs.Common.{Some};
    ghost use Rattle.cedar_expressions.specs.Written.{var_text};

    ghost output = { λ var. Some (var_text var) };

    fn fmt<W: fmt::Write>(&self, f: &mut fmt::Formatter<W>) -> fmt::Result {
        f.write_str(match self {
            Var::Principal => "principal",
            Var::Action => "action",
            Var::Resource => "resource",
            Var::Context => "context",
        })
    }
}

impl fmt::Display for SlotId {
    ghost use Rattle.std.proofs.Common.{Some};
    ghost use Rattle.cedar_expressions.specs.Written.{slot_text};

    ghost output = { λ slot. Some (slot_text slot) };

    fn fmt<W: fmt::Write>(&self, f: &mut fmt::Formatter<W>) -> fmt::Result {
        f.write_str(match self {
            SlotId::Principal => "?principal",
            SlotId::Resource => "?resource",
        })
    }
}

impl fmt::Display for PatternElem {
    ghost use Rattle.std.proofs.Common.{Some};
    ghost use Rattle.cedar_expressions.specs.Written.{element_text};

    ghost output = { λ element. Some (element_text element) };

    fn fmt<W: fmt::Write>(&self, f: &mut fmt::Formatter<W>) -> fmt::Result {
        match self {
            PatternElem::Char(character) => write!(f, "{character}"),
            PatternElem::Wildcard => f.write_str("*"),
        }
    }
}
