//! The tokens of expressions. What may be deep is unfolded into a list of what is still to be
//! printed; else the calls go down the tree, which is faster.
ghost use Rattle.cedar_syntax.specs.printing.Printed.{printed};
ghost use Rattle.cedar_syntax.specs.trees.Unplaced.{expr_tree, data_tree, access_tree, primary_tree, relation_tree, add_tree, and_tree, impl_tree, member_tree, mult_tree, or_tree, init_tree, unary_tree};

use crate::cst::{
    Add, And, Expr, ExprData, ExprImpl, MemAccess, Member, Mult, Or, Primary, RecInit, Relation,
    Unary,
};
use crate::print::tokens::{Tokens, write_between, write_marked, write_opt_marked, write_token};
use crate::print::unfolded::write_unfolded;
use std::fmt;

impl Tokens for Expr {
    ghost tokens = { λ x. printed (expr_tree x) };

    #[cycle(write_tokens)]
    fn write_tokens<W: fmt::Write>(
        &self,
        fresh: bool,
        f: &mut fmt::Formatter<W>,
    ) -> Result<bool, fmt::Error> {
        let fresh = self.inner().write_tokens(fresh, f)?;
        Ok(fresh)
    }
}

impl Tokens for ExprData {
    ghost tokens = { λ x. printed (data_tree x) };

    #[cycle(write_tokens)]
    fn write_tokens<W: fmt::Write>(
        &self,
        fresh: bool,
        f: &mut fmt::Formatter<W>,
    ) -> Result<bool, fmt::Error> {
        match self {
            ExprData::Or(or) => {
                let fresh = or.write_tokens(fresh, f)?;
                Ok(fresh)
            }
            ExprData::If(test, so, other) => {
                let fresh = write_token("if", fresh, f)?;
                let fresh = test.write_tokens(fresh, f)?;
                let fresh = write_token("then", fresh, f)?;
                let fresh = so.write_tokens(fresh, f)?;
                let fresh = write_token("else", fresh, f)?;
                let fresh = other.write_tokens(fresh, f)?;
                Ok(fresh)
            }
        }
    }
}

impl Tokens for MemAccess {
    ghost tokens = { λ x. printed (access_tree x) };

    #[cycle(write_tokens)]
    fn write_tokens<W: fmt::Write>(
        &self,
        fresh: bool,
        f: &mut fmt::Formatter<W>,
    ) -> Result<bool, fmt::Error> {
        match self {
            MemAccess::Field(field) => {
                let fresh = write_token(".", fresh, f)?;
                let fresh = field.write_tokens(fresh, f)?;
                Ok(fresh)
            }
            MemAccess::Call(arguments) => {
                let fresh = write_token("(", fresh, f)?;
                let fresh = write_between(",", arguments, fresh, f)?;
                let fresh = write_token(")", fresh, f)?;
                Ok(fresh)
            }
            MemAccess::Index(index) => {
                let fresh = write_token("[", fresh, f)?;
                let fresh = index.write_tokens(fresh, f)?;
                let fresh = write_token("]", fresh, f)?;
                Ok(fresh)
            }
        }
    }
}

impl Tokens for Primary {
    ghost tokens = { λ x. printed (primary_tree x) };

    #[cycle(write_tokens)]
    fn write_tokens<W: fmt::Write>(
        &self,
        fresh: bool,
        f: &mut fmt::Formatter<W>,
    ) -> Result<bool, fmt::Error> {
        match self {
            Primary::Literal(literal) => {
                let fresh = literal.write_tokens(fresh, f)?;
                Ok(fresh)
            }
            Primary::Ref(reference) => {
                let fresh = reference.write_tokens(fresh, f)?;
                Ok(fresh)
            }
            Primary::Name(name) => {
                let fresh = name.write_tokens(fresh, f)?;
                Ok(fresh)
            }
            Primary::Slot(slot) => {
                let fresh = slot.write_tokens(fresh, f)?;
                Ok(fresh)
            }
            Primary::Expr(expr) => {
                let fresh = write_token("(", fresh, f)?;
                let fresh = expr.write_tokens(fresh, f)?;
                let fresh = write_token(")", fresh, f)?;
                Ok(fresh)
            }
            Primary::EList(elements) => {
                let fresh = write_token("[", fresh, f)?;
                let fresh = write_between(",", elements, fresh, f)?;
                let fresh = write_token("]", fresh, f)?;
                Ok(fresh)
            }
            Primary::RInits(fields) => {
                let fresh = write_token("{", fresh, f)?;
                let fresh = write_between(",", fields, fresh, f)?;
                let fresh = write_token("}", fresh, f)?;
                Ok(fresh)
            }
        }
    }
}

impl Tokens for Relation {
    ghost tokens = { λ x. printed (relation_tree x) };

    #[cycle(write_tokens)]
    fn write_tokens<W: fmt::Write>(
        &self,
        fresh: bool,
        f: &mut fmt::Formatter<W>,
    ) -> Result<bool, fmt::Error> {
        match self {
            Relation::Common { initial, extended } => {
                let fresh = initial.write_tokens(fresh, f)?;
                let fresh = extended.write_tokens(fresh, f)?;
                Ok(fresh)
            }
            Relation::Has { target, field } => {
                let fresh = target.write_tokens(fresh, f)?;
                let fresh = write_token("has", fresh, f)?;
                let fresh = field.write_tokens(fresh, f)?;
                Ok(fresh)
            }
            Relation::Like { target, pattern } => {
                let fresh = target.write_tokens(fresh, f)?;
                let fresh = write_token("like", fresh, f)?;
                let fresh = pattern.write_tokens(fresh, f)?;
                Ok(fresh)
            }
            Relation::IsIn {
                target,
                entity_type,
                in_entity,
            } => {
                let fresh = target.write_tokens(fresh, f)?;
                let fresh = write_token("is", fresh, f)?;
                let fresh = entity_type.write_tokens(fresh, f)?;
                let fresh = write_opt_marked("in", in_entity, fresh, f)?;
                Ok(fresh)
            }
        }
    }
}

impl Tokens for Add {
    ghost tokens = { λ x. printed (add_tree x) };

    #[cycle(write_tokens)]
    fn write_tokens<W: fmt::Write>(
        &self,
        fresh: bool,
        f: &mut fmt::Formatter<W>,
    ) -> Result<bool, fmt::Error> {
        let fresh = self.initial.write_tokens(fresh, f)?;
        let fresh = self.extended.write_tokens(fresh, f)?;
        Ok(fresh)
    }
}

impl Tokens for And {
    ghost tokens = { λ x. printed (and_tree x) };

    #[cycle(write_tokens)]
    fn write_tokens<W: fmt::Write>(
        &self,
        fresh: bool,
        f: &mut fmt::Formatter<W>,
    ) -> Result<bool, fmt::Error> {
        let fresh = self.initial.write_tokens(fresh, f)?;
        let fresh = write_marked("&&", &self.extended, fresh, f)?;
        Ok(fresh)
    }
}

impl Tokens for ExprImpl {
    ghost tokens = { λ x. printed (impl_tree x) };

    #[cycle(write_tokens)]
    fn write_tokens<W: fmt::Write>(
        &self,
        fresh: bool,
        f: &mut fmt::Formatter<W>,
    ) -> Result<bool, fmt::Error> {
        if self.may_be_deep() {
            return write_unfolded(self.alloc(), self.as_ref(), fresh, f);
        }
        let fresh = self.as_ref().write_tokens(fresh, f)?;
        Ok(fresh)
    }
}

impl Tokens for Member {
    ghost tokens = { λ x. printed (member_tree x) };

    #[cycle(write_tokens)]
    fn write_tokens<W: fmt::Write>(
        &self,
        fresh: bool,
        f: &mut fmt::Formatter<W>,
    ) -> Result<bool, fmt::Error> {
        let fresh = self.item.write_tokens(fresh, f)?;
        let fresh = self.access.write_tokens(fresh, f)?;
        Ok(fresh)
    }
}

impl Tokens for Mult {
    ghost tokens = { λ x. printed (mult_tree x) };

    #[cycle(write_tokens)]
    fn write_tokens<W: fmt::Write>(
        &self,
        fresh: bool,
        f: &mut fmt::Formatter<W>,
    ) -> Result<bool, fmt::Error> {
        let fresh = self.initial.write_tokens(fresh, f)?;
        let fresh = self.extended.write_tokens(fresh, f)?;
        Ok(fresh)
    }
}

impl Tokens for Or {
    ghost tokens = { λ x. printed (or_tree x) };

    #[cycle(write_tokens)]
    fn write_tokens<W: fmt::Write>(
        &self,
        fresh: bool,
        f: &mut fmt::Formatter<W>,
    ) -> Result<bool, fmt::Error> {
        let fresh = self.initial.write_tokens(fresh, f)?;
        let fresh = write_marked("||", &self.extended, fresh, f)?;
        Ok(fresh)
    }
}

impl Tokens for RecInit {
    ghost tokens = { λ x. printed (init_tree x) };

    #[cycle(write_tokens)]
    fn write_tokens<W: fmt::Write>(
        &self,
        fresh: bool,
        f: &mut fmt::Formatter<W>,
    ) -> Result<bool, fmt::Error> {
        let fresh = self.0.write_tokens(fresh, f)?;
        let fresh = write_token(":", fresh, f)?;
        let fresh = self.1.write_tokens(fresh, f)?;
        Ok(fresh)
    }
}

impl Tokens for Unary {
    ghost tokens = { λ x. printed (unary_tree x) };

    #[cycle(write_tokens)]
    fn write_tokens<W: fmt::Write>(
        &self,
        fresh: bool,
        f: &mut fmt::Formatter<W>,
    ) -> Result<bool, fmt::Error> {
        let fresh = self.op.write_tokens(fresh, f)?;
        let fresh = self.item.write_tokens(fresh, f)?;
        Ok(fresh)
    }
}
