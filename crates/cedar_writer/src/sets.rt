//! Policies one behind another.
ghost use Rattle.std.specs.Prelude.{◌≡◌, []};
ghost use Rattle.std.specs.Vec.Iter.{into_iter_items};
ghost use Rattle.cedar_conversion.specs.strict.Table.{table_of};
ghost use Rattle.cedar_syntax.specs.tokens.Signs.{sign_limit};
ghost use Rattle.cedar_writer.specs.WrittenPolicies.{policies_words, AreWritablePolicies};
ghost use Rattle.cedar_writer.specs.WrittenTexts.{template_lent, templates_lent, all_parts};
ghost use Rattle.cedar_writer.specs.machines.Policies.{Writes, IsOneUnwritable};

use crate::output::Output;
use crate::policy::write_template;
use crate::refusal::NotWritten;
use cedar_conversion::styles::ExtStyles;
use cedar_policy_store::{Policies, StaticPolicy, Template};
use either::Either;
use std::alloc::Global;

/// Writes policies and templates, each on a line of its own.
pub fn write_policies(
    alloc: Global,
    policies: Policies<'_>,
    styles: &ExtStyles,
    out: &mut Output,
) -> Result<(), NotWritten>
    ensures { Writes (policies_words (table_of styles.now)
        (all_parts (templates_lent (into_iter_items policies.entry))) [])
        (AreWritablePolicies (table_of styles.now) sign_limit
        (all_parts (templates_lent (into_iter_items policies.entry))))
        (IsOneUnwritable (table_of styles.now) sign_limit
        (all_parts (templates_lent (into_iter_items policies.entry))))
        result out.old out.new }
{
    for policy in policies {
        write_template(alloc, as_template(policy), styles, out)?;
    }
    Ok(())
}

/// A static policy, or a template, as a template.
fn as_template<'a>(policy: Either<&'a StaticPolicy, &'a Template>) -> &'a Template
    ensures { result.now ≡ template_lent policy.entry }
{
    match policy {
        Either::Left(policy) => policy.as_template(),
        Either::Right(template) => template,
    }
}
