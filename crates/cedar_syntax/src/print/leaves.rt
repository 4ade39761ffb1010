//! The tokens of the trees that hold no expression.
#![tactic(auto, unfolding(crate::specs::printing::Printed::printed))]

ghost use Rattle.cedar_syntax.specs.printing.Printed.{printed, rel_op_texts, add_op_texts, mult_op_texts, neg_op_texts};
ghost use Rattle.cedar_syntax.specs.trees.Unplaced.{ident_tree, name_tree, str_tree, literal_tree, slot_tree, ref_tree, ref_init_tree};

use crate::cst::{
    AddOp, Ident, Literal, MultOp, Name, NegOp, Ref, RefInit, RelOp, SIGN_LIMIT, Slot, Str,
};
use crate::print::tokens::{
    Tokens, write_between, write_followed, write_number, write_quoted, write_repeated, write_token,
};
use std::fmt;

impl Tokens for RelOp {
    ghost tokens = { rel_op_texts };

    fn write_tokens<W: fmt::Write>(
        &self,
        fresh: bool,
        f: &mut fmt::Formatter<W>,
    ) -> Result<bool, fmt::Error> {
        match self {
            RelOp::Less => write_token("<", fresh, f),
            RelOp::LessEq => write_token("<=", fresh, f),
            RelOp::GreaterEq => write_token(">=", fresh, f),
            RelOp::Greater => write_token(">", fresh, f),
            RelOp::NotEq => write_token("!=", fresh, f),
            RelOp::Eq => write_token("==", fresh, f),
            RelOp::In => write_token("in", fresh, f),
            RelOp::InvalidSingleEq => write_token("=", fresh, f),
        }
    }
}

impl Tokens for AddOp {
    ghost tokens = { add_op_texts };

    fn write_tokens<W: fmt::Write>(
        &self,
        fresh: bool,
        f: &mut fmt::Formatter<W>,
    ) -> Result<bool, fmt::Error> {
        match self {
            AddOp::Plus => write_token("+", fresh, f),
            AddOp::Minus => write_token("-", fresh, f),
        }
    }
}

impl Tokens for MultOp {
    ghost tokens = { mult_op_texts };

    fn write_tokens<W: fmt::Write>(
        &self,
        fresh: bool,
        f: &mut fmt::Formatter<W>,
    ) -> Result<bool, fmt::Error> {
        match self {
            MultOp::Times => write_token("*", fresh, f),
            MultOp::Divide => write_token("/", fresh, f),
            MultOp::Mod => write_token("%", fresh, f),
        }
    }
}

impl Tokens for NegOp {
    ghost tokens = { neg_op_texts };

    fn write_tokens<W: fmt::Write>(
        &self,
        fresh: bool,
        f: &mut fmt::Formatter<W>,
    ) -> Result<bool, fmt::Error> {
        match self {
            NegOp::Bang(n) => write_repeated("!", *n, fresh, f),
            NegOp::OverBang => write_repeated("!", SIGN_LIMIT + 1, fresh, f),
            NegOp::Dash(n) => write_repeated("-", *n, fresh, f),
            NegOp::OverDash => write_repeated("-", SIGN_LIMIT + 1, fresh, f),
        }
    }
}

impl Tokens for Ident {
    ghost tokens = { λ x. printed (ident_tree x) };

    fn write_tokens<W: fmt::Write>(
        &self,
        fresh: bool,
        f: &mut fmt::Formatter<W>,
    ) -> Result<bool, fmt::Error> {
        match self {
            Ident::Principal => write_token("principal", fresh, f),
            Ident::Action => write_token("action", fresh, f),
            Ident::Resource => write_token("resource", fresh, f),
            Ident::Context => write_token("context", fresh, f),
            Ident::True => write_token("true", fresh, f),
            Ident::False => write_token("false", fresh, f),
            Ident::Permit => write_token("permit", fresh, f),
            Ident::Forbid => write_token("forbid", fresh, f),
            Ident::When => write_token("when", fresh, f),
            Ident::Unless => write_token("unless", fresh, f),
            Ident::In => write_token("in", fresh, f),
            Ident::Has => write_token("has", fresh, f),
            Ident::Like => write_token("like", fresh, f),
            Ident::Is => write_token("is", fresh, f),
            Ident::If => write_token("if", fresh, f),
            Ident::Then => write_token("then", fresh, f),
            Ident::Else => write_token("else", fresh, f),
            Ident::Ident(text) => write_token(text.as_str(), fresh, f),
            Ident::Invalid(text) => write_token(text.as_str(), fresh, f),
        }
    }
}

impl Tokens for Name {
    ghost tokens = { λ x. printed (name_tree x) };

    fn write_tokens<W: fmt::Write>(
        &self,
        fresh: bool,
        f: &mut fmt::Formatter<W>,
    ) -> Result<bool, fmt::Error> {
        let fresh = write_followed("::", &self.path, fresh, f)?;
        let fresh = self.name.write_tokens(fresh, f)?;
        Ok(fresh)
    }
}

impl Tokens for Str {
    ghost tokens = { λ x. printed (str_tree x) };

    fn write_tokens<W: fmt::Write>(
        &self,
        fresh: bool,
        f: &mut fmt::Formatter<W>,
    ) -> Result<bool, fmt::Error> {
        match self {
            Str::String(text) => write_quoted(text.as_str(), fresh, f),
            Str::Invalid(text) => write_quoted(text.as_str(), fresh, f),
        }
    }
}

impl Tokens for Literal {
    ghost tokens = { λ x. printed (literal_tree x) };

    fn write_tokens<W: fmt::Write>(
        &self,
        fresh: bool,
        f: &mut fmt::Formatter<W>,
    ) -> Result<bool, fmt::Error> {
        match self {
            Literal::True => write_token("true", fresh, f),
            Literal::False => write_token("false", fresh, f),
            Literal::Num(n) => write_number(*n, fresh, f),
            Literal::Str(s) => s.write_tokens(fresh, f),
        }
    }
}

impl Tokens for Slot {
    ghost tokens = { λ x. printed (slot_tree x) };

    fn write_tokens<W: fmt::Write>(
        &self,
        fresh: bool,
        f: &mut fmt::Formatter<W>,
    ) -> Result<bool, fmt::Error> {
        match self {
            Slot::Principal => write_token("?principal", fresh, f),
            Slot::Resource => write_token("?resource", fresh, f),
            Slot::Other(text) => write_token(text.as_str(), fresh, f),
        }
    }
}

impl Tokens for RefInit {
    ghost tokens = { λ x. printed (ref_init_tree x) };

    fn write_tokens<W: fmt::Write>(
        &self,
        fresh: bool,
        f: &mut fmt::Formatter<W>,
    ) -> Result<bool, fmt::Error> {
        let fresh = self.0.write_tokens(fresh, f)?;
        let fresh = write_token(":", fresh, f)?;
        let fresh = self.1.write_tokens(fresh, f)?;
        Ok(fresh)
    }
}

impl Tokens for Ref {
    ghost tokens = { λ x. printed (ref_tree x) };

    fn write_tokens<W: fmt::Write>(
        &self,
        fresh: bool,
        f: &mut fmt::Formatter<W>,
    ) -> Result<bool, fmt::Error> {
        match self {
            Ref::Uid { path, eid } => {
                let fresh = path.write_tokens(fresh, f)?;
                let fresh = write_token("::", fresh, f)?;
                let fresh = eid.write_tokens(fresh, f)?;
                Ok(fresh)
            }
            Ref::Ref { path, rinits } => {
                let fresh = path.write_tokens(fresh, f)?;
                let fresh = write_token("::", fresh, f)?;
                let fresh = write_token("{", fresh, f)?;
                let fresh = write_between(",", rinits, fresh, f)?;
                let fresh = write_token("}", fresh, f)?;
                Ok(fresh)
            }
        }
    }
}
