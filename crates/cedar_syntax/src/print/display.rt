//! `Display` of each tree: its tokens' texts, one space between two.
ghost use Rattle.std.specs.Prelude.{Some};
ghost use Rattle.cedar_syntax.specs.printing.Printed.{tokens_text, printed, rel_op_texts, mult_op_texts, neg_op_texts};
ghost use Rattle.cedar_syntax.specs.trees.Unplaced.{policies_tree, annotation_tree, str_tree, policy_impl_tree, policy_tree, variable_def_tree, ident_tree, cond_tree, impl_tree, expr_tree, data_tree, or_tree, and_tree, relation_tree, add_tree, mult_tree, unary_tree, member_tree, access_tree, primary_tree, name_tree, ref_tree, ref_init_tree, init_tree, literal_tree, slot_tree};

use crate::cst::{
    Add, And, Annotation, Cond, Expr, ExprData, ExprImpl, Ident, Literal, MemAccess, Member, Mult,
    MultOp, Name, NegOp, Or, Policies, Policy, PolicyImpl, Primary, RecInit, Ref, RefInit, RelOp,
    Relation, Slot, Str, Unary, VariableDef,
};
use crate::print::tokens::Tokens;
use std::fmt;

impl fmt::Display for Policies {
    ghost output = { λ x. Some (tokens_text (printed (policies_tree x))) };

    fn fmt<W: fmt::Write>(&self, f: &mut fmt::Formatter<W>) -> fmt::Result {
        self.write_tokens(true, f)?;
        Ok(())
    }
}

impl fmt::Display for Annotation {
    ghost output = { λ x. Some (tokens_text (printed (annotation_tree x))) };

    fn fmt<W: fmt::Write>(&self, f: &mut fmt::Formatter<W>) -> fmt::Result {
        self.write_tokens(true, f)?;
        Ok(())
    }
}

impl fmt::Display for Str {
    ghost output = { λ x. Some (tokens_text (printed (str_tree x))) };

    fn fmt<W: fmt::Write>(&self, f: &mut fmt::Formatter<W>) -> fmt::Result {
        self.write_tokens(true, f)?;
        Ok(())
    }
}

impl fmt::Display for PolicyImpl {
    ghost output = { λ x. Some (tokens_text (printed (policy_impl_tree x))) };

    fn fmt<W: fmt::Write>(&self, f: &mut fmt::Formatter<W>) -> fmt::Result {
        self.write_tokens(true, f)?;
        Ok(())
    }
}

impl fmt::Display for Policy {
    ghost output = { λ x. Some (tokens_text (printed (policy_tree x))) };

    fn fmt<W: fmt::Write>(&self, f: &mut fmt::Formatter<W>) -> fmt::Result {
        self.write_tokens(true, f)?;
        Ok(())
    }
}

impl fmt::Display for VariableDef {
    ghost output = { λ x. Some (tokens_text (printed (variable_def_tree x))) };

    fn fmt<W: fmt::Write>(&self, f: &mut fmt::Formatter<W>) -> fmt::Result {
        self.write_tokens(true, f)?;
        Ok(())
    }
}

impl fmt::Display for Ident {
    ghost output = { λ x. Some (tokens_text (printed (ident_tree x))) };

    fn fmt<W: fmt::Write>(&self, f: &mut fmt::Formatter<W>) -> fmt::Result {
        self.write_tokens(true, f)?;
        Ok(())
    }
}

impl fmt::Display for Cond {
    ghost output = { λ x. Some (tokens_text (printed (cond_tree x))) };

    fn fmt<W: fmt::Write>(&self, f: &mut fmt::Formatter<W>) -> fmt::Result {
        self.write_tokens(true, f)?;
        Ok(())
    }
}

impl fmt::Display for ExprImpl {
    ghost output = { λ x. Some (tokens_text (printed (impl_tree x))) };

    fn fmt<W: fmt::Write>(&self, f: &mut fmt::Formatter<W>) -> fmt::Result {
        self.write_tokens(true, f)?;
        Ok(())
    }
}

impl fmt::Display for Expr {
    ghost output = { λ x. Some (tokens_text (printed (expr_tree x))) };

    fn fmt<W: fmt::Write>(&self, f: &mut fmt::Formatter<W>) -> fmt::Result {
        self.write_tokens(true, f)?;
        Ok(())
    }
}

impl fmt::Display for ExprData {
    ghost output = { λ x. Some (tokens_text (printed (data_tree x))) };

    fn fmt<W: fmt::Write>(&self, f: &mut fmt::Formatter<W>) -> fmt::Result {
        self.write_tokens(true, f)?;
        Ok(())
    }
}

impl fmt::Display for Or {
    ghost output = { λ x. Some (tokens_text (printed (or_tree x))) };

    fn fmt<W: fmt::Write>(&self, f: &mut fmt::Formatter<W>) -> fmt::Result {
        self.write_tokens(true, f)?;
        Ok(())
    }
}

impl fmt::Display for And {
    ghost output = { λ x. Some (tokens_text (printed (and_tree x))) };

    fn fmt<W: fmt::Write>(&self, f: &mut fmt::Formatter<W>) -> fmt::Result {
        self.write_tokens(true, f)?;
        Ok(())
    }
}

impl fmt::Display for Relation {
    ghost output = { λ x. Some (tokens_text (printed (relation_tree x))) };

    fn fmt<W: fmt::Write>(&self, f: &mut fmt::Formatter<W>) -> fmt::Result {
        self.write_tokens(true, f)?;
        Ok(())
    }
}

impl fmt::Display for RelOp {
    ghost output = { λ x. Some (tokens_text (rel_op_texts x)) };

    fn fmt<W: fmt::Write>(&self, f: &mut fmt::Formatter<W>) -> fmt::Result {
        self.write_tokens(true, f)?;
        Ok(())
    }
}

impl fmt::Display for MultOp {
    ghost output = { λ x. Some (tokens_text (mult_op_texts x)) };

    fn fmt<W: fmt::Write>(&self, f: &mut fmt::Formatter<W>) -> fmt::Result {
        self.write_tokens(true, f)?;
        Ok(())
    }
}

impl fmt::Display for NegOp {
    ghost output = { λ x. Some (tokens_text (neg_op_texts x)) };

    fn fmt<W: fmt::Write>(&self, f: &mut fmt::Formatter<W>) -> fmt::Result {
        self.write_tokens(true, f)?;
        Ok(())
    }
}

impl fmt::Display for Add {
    ghost output = { λ x. Some (tokens_text (printed (add_tree x))) };

    fn fmt<W: fmt::Write>(&self, f: &mut fmt::Formatter<W>) -> fmt::Result {
        self.write_tokens(true, f)?;
        Ok(())
    }
}

impl fmt::Display for Mult {
    ghost output = { λ x. Some (tokens_text (printed (mult_tree x))) };

    fn fmt<W: fmt::Write>(&self, f: &mut fmt::Formatter<W>) -> fmt::Result {
        self.write_tokens(true, f)?;
        Ok(())
    }
}

impl fmt::Display for Unary {
    ghost output = { λ x. Some (tokens_text (printed (unary_tree x))) };

    fn fmt<W: fmt::Write>(&self, f: &mut fmt::Formatter<W>) -> fmt::Result {
        self.write_tokens(true, f)?;
        Ok(())
    }
}

impl fmt::Display for Member {
    ghost output = { λ x. Some (tokens_text (printed (member_tree x))) };

    fn fmt<W: fmt::Write>(&self, f: &mut fmt::Formatter<W>) -> fmt::Result {
        self.write_tokens(true, f)?;
        Ok(())
    }
}

impl fmt::Display for MemAccess {
    ghost output = { λ x. Some (tokens_text (printed (access_tree x))) };

    fn fmt<W: fmt::Write>(&self, f: &mut fmt::Formatter<W>) -> fmt::Result {
        self.write_tokens(true, f)?;
        Ok(())
    }
}

impl fmt::Display for Primary {
    ghost output = { λ x. Some (tokens_text (printed (primary_tree x))) };

    fn fmt<W: fmt::Write>(&self, f: &mut fmt::Formatter<W>) -> fmt::Result {
        self.write_tokens(true, f)?;
        Ok(())
    }
}

impl fmt::Display for Name {
    ghost output = { λ x. Some (tokens_text (printed (name_tree x))) };

    fn fmt<W: fmt::Write>(&self, f: &mut fmt::Formatter<W>) -> fmt::Result {
        self.write_tokens(true, f)?;
        Ok(())
    }
}

impl fmt::Display for Ref {
    ghost output = { λ x. Some (tokens_text (printed (ref_tree x))) };

    fn fmt<W: fmt::Write>(&self, f: &mut fmt::Formatter<W>) -> fmt::Result {
        self.write_tokens(true, f)?;
        Ok(())
    }
}

impl fmt::Display for RefInit {
    ghost output = { λ x. Some (tokens_text (printed (ref_init_tree x))) };

    fn fmt<W: fmt::Write>(&self, f: &mut fmt::Formatter<W>) -> fmt::Result {
        self.write_tokens(true, f)?;
        Ok(())
    }
}

impl fmt::Display for RecInit {
    ghost output = { λ x. Some (tokens_text (printed (init_tree x))) };

    fn fmt<W: fmt::Write>(&self, f: &mut fmt::Formatter<W>) -> fmt::Result {
        self.write_tokens(true, f)?;
        Ok(())
    }
}

impl fmt::Display for Literal {
    ghost output = { λ x. Some (tokens_text (printed (literal_tree x))) };

    fn fmt<W: fmt::Write>(&self, f: &mut fmt::Formatter<W>) -> fmt::Result {
        self.write_tokens(true, f)?;
        Ok(())
    }
}

impl fmt::Display for Slot {
    ghost output = { λ x. Some (tokens_text (printed (slot_tree x))) };

    fn fmt<W: fmt::Write>(&self, f: &mut fmt::Formatter<W>) -> fmt::Result {
        self.write_tokens(true, f)?;
        Ok(())
    }
}
