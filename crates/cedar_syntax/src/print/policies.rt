//! The tokens of policies and their parts.
ghost use Rattle.std.specs.Prelude.{◌≡◌};
ghost use Rattle.cedar_syntax.specs.declared.cst.Policy.TheVariants as variants;
ghost use Rattle.cedar_syntax.specs.printing.Printed.{printed};
ghost use Rattle.cedar_syntax.specs.trees.Unplaced.{annotation_tree, variable_def_tree, cond_tree, policy_impl_tree, policy_tree, policies_tree};

use crate::cst::{Annotation, Cond, Policies, Policy, PolicyImpl, VariableDef};
use crate::print::tokens::{Tokens, write_between, write_opt_marked, write_token};
use std::fmt;

fn inner_of(policy: &Policy) -> &PolicyImpl
    ensures { policy.now ≡ variants.Policy result.now }
{
    match policy {
        Policy::Policy(inner) => inner,
    }
}

impl Tokens for Annotation {
    ghost tokens = { λ x. printed (annotation_tree x) };

    fn write_tokens<W: fmt::Write>(
        &self,
        fresh: bool,
        f: &mut fmt::Formatter<W>,
    ) -> Result<bool, fmt::Error> {
        let fresh = write_token("@", fresh, f)?;
        let fresh = self.key.write_tokens(fresh, f)?;
        match &self.value {
            None => Ok(fresh),
            Some(value) => {
                let fresh = write_token("(", fresh, f)?;
                let fresh = value.write_tokens(fresh, f)?;
                let fresh = write_token(")", fresh, f)?;
                Ok(fresh)
            }
        }
    }
}

impl Tokens for VariableDef {
    ghost tokens = { λ x. printed (variable_def_tree x) };

    fn write_tokens<W: fmt::Write>(
        &self,
        fresh: bool,
        f: &mut fmt::Formatter<W>,
    ) -> Result<bool, fmt::Error> {
        let fresh = self.variable.write_tokens(fresh, f)?;
        let fresh = write_opt_marked(":", &self.unused_type_name, fresh, f)?;
        let fresh = write_opt_marked("is", &self.entity_type, fresh, f)?;
        let fresh = self.ineq.write_tokens(fresh, f)?;
        Ok(fresh)
    }
}

impl Tokens for Cond {
    ghost tokens = { λ x. printed (cond_tree x) };

    fn write_tokens<W: fmt::Write>(
        &self,
        fresh: bool,
        f: &mut fmt::Formatter<W>,
    ) -> Result<bool, fmt::Error> {
        let fresh = self.cond.write_tokens(fresh, f)?;
        let fresh = write_token("{", fresh, f)?;
        let fresh = self.expr.write_tokens(fresh, f)?;
        let fresh = write_token("}", fresh, f)?;
        Ok(fresh)
    }
}

impl Tokens for PolicyImpl {
    ghost tokens = { λ x. printed (policy_impl_tree x) };

    fn write_tokens<W: fmt::Write>(
        &self,
        fresh: bool,
        f: &mut fmt::Formatter<W>,
    ) -> Result<bool, fmt::Error> {
        let fresh = self.annotations.write_tokens(fresh, f)?;
        let fresh = self.effect.write_tokens(fresh, f)?;
        let fresh = write_token("(", fresh, f)?;
        let fresh = write_between(",", &self.variables, fresh, f)?;
        let fresh = write_token(")", fresh, f)?;
        let fresh = self.conds.write_tokens(fresh, f)?;
        let fresh = write_token(";", fresh, f)?;
        Ok(fresh)
    }
}

impl Tokens for Policy {
    ghost tokens = { λ x. printed (policy_tree x) };

    fn write_tokens<W: fmt::Write>(
        &self,
        fresh: bool,
        f: &mut fmt::Formatter<W>,
    ) -> Result<bool, fmt::Error> {
        let fresh = inner_of(self).write_tokens(fresh, f)?;
        Ok(fresh)
    }
}

impl Tokens for Policies {
    ghost tokens = { λ x. printed (policies_tree x) };

    fn write_tokens<W: fmt::Write>(
        &self,
        fresh: bool,
        f: &mut fmt::Formatter<W>,
    ) -> Result<bool, fmt::Error> {
        let fresh = self.0.write_tokens(fresh, f)?;
        Ok(fresh)
    }
}
