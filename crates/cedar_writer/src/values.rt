//! Expressions, policies and sets as Cedar text.
ghost use Rattle.std.specs.Prelude.{◌≡◌, IfOk, IfErr};
ghost use Rattle.std.specs.String.{string_bytes};
ghost use Rattle.cedar_expressions.specs.Meaning.{expr_meaning};
ghost use Rattle.cedar_conversion.specs.strict.Table.{table_of};
ghost use Rattle.cedar_syntax.specs.tokens.Signs.{sign_limit};
ghost use Rattle.cedar_writer.specs.Spacing.{line_of};
ghost use Rattle.cedar_writer.specs.WrittenTexts.{IsTextOf, HasNoText, written_parts, IsTextOfPolicy, HasNoPolicyText, IsTextOfSet, HasNoTextOfSet};
ghost use Rattle.cedar_policy_store.specs.PlaceFree.{template_meaning};
ghost use Rattle.cedar_writer.specs.WrittenPolicies.{policy_words};
ghost use Rattle.cedar_writer.specs.Writing.{words};

use crate::output::Output;
use crate::policy::write_template;
use crate::refusal::NotWritten;
use crate::sets::write_policies;
use crate::writer::write_expr;
use cedar_conversion::styles::ExtStyles;
use cedar_expressions::Expr;
use cedar_policy_store::{PolicySet, StaticPolicy, Template};
use std::alloc::Global;

/// An expression as Cedar text.
///
///     let name = Text::from_str(alloc, name)?;
///     let value = ExprBuilder::<()>::new(alloc).val(Literal::String(name))?;
///     let text = expr_to_cedar(alloc, &value, &ExtStyles::cedar(alloc)?)?;
///
/// Where some tokens mean the expression under this table, it answers a text, and the text's
/// tokens mean the expression, the places of its slots aside. Any other expression is refused,
/// with what of it no text means. Or it is `NotWritten::Memory`. Nothing is written after a
/// refusal.
///
/// Between two words stands one space, but none behind `(`, `[`, `.`, `::`, `@`, `!` and a sign,
/// none before `)`, `]`, `,`, `;`, `.`, `::`, the `(` of a call and the `[` of an access:
/// `(a.b || f(1)) && !c`. An operand stands in parentheses exactly where it is looser than its
/// place.
pub fn expr_to_cedar(alloc: Global, expr: &Expr, styles: &ExtStyles) -> Result<String, NotWritten>
    ensures means { IfOk result (λ text. IsTextOf (table_of styles.now) sign_limit
        (expr_meaning expr.now) (string_bytes text)) }
    ensures line { IfOk result (λ text. string_bytes text
        ≡ line_of (words (table_of styles.now) (expr_meaning expr.now))) }
    ensures refused { IfErr result (HasNoText (table_of styles.now) sign_limit
        (expr_meaning expr.now)) }
{
    let mut out = Output::new(alloc);
    write_expr(alloc, expr, styles, &mut out)?;
    Ok(out.into_string())
}

/// A policy or a template as Cedar text: its annotations in the order of their keys, its effect,
/// its scope, its conditions and `;`.
///
///     let line = template_to_cedar(alloc, template, &ExtStyles::cedar(alloc)?)?;
///
/// Where some tokens mean it under this table, whatever it is called, it answers a text, and the
/// text's tokens mean it. Any other is refused, with what of it no text means. Or it is
/// `NotWritten::Memory`. Conditions that were joined are written apart again, a negated one as
/// `unless`: `permit (principal == User::"a", action, resource) when { a.b } unless { c };`. Words
/// are spaced as `expr_to_cedar` has it.
pub fn template_to_cedar(
    alloc: Global,
    template: &Template,
    styles: &ExtStyles,
) -> Result<String, NotWritten>
    ensures means { IfOk result (λ text. IsTextOfPolicy (table_of styles.now) sign_limit
        (template_meaning template.now) (string_bytes text)) }
    ensures line { IfOk result (λ text. string_bytes text
        ≡ line_of (policy_words (table_of styles.now) (written_parts template.now))) }
    ensures refused { IfErr result (HasNoPolicyText (table_of styles.now) sign_limit
        (template_meaning template.now)) }
{
    let mut out = Output::new(alloc);
    write_template(alloc, template, styles, &mut out)?;
    Ok(out.into_string())
}

/// The same of a policy without slots.
///
///     let line = static_policy_to_cedar(alloc, policy, &ExtStyles::cedar(alloc)?)?;
pub fn static_policy_to_cedar(
    alloc: Global,
    policy: &StaticPolicy,
    styles: &ExtStyles,
) -> Result<String, NotWritten>
    ensures means { IfOk result (λ text. IsTextOfPolicy (table_of styles.now) sign_limit
        (template_meaning policy.now) (string_bytes text)) }
    ensures line { IfOk result (λ text. string_bytes text
        ≡ line_of (policy_words (table_of styles.now) (written_parts policy.now))) }
    ensures refused { IfErr result (HasNoPolicyText (table_of styles.now) sign_limit
        (template_meaning policy.now)) }
{
    template_to_cedar(alloc, policy.as_template(), styles)
}

/// The policies and templates of a set as Cedar text, each on a line with a line feed behind it,
/// in the order of `PolicySet::iter`: `policy10` stands behind `policy9`.
///
///     let text = policyset_to_cedar(alloc, &set, &ExtStyles::cedar(alloc)?)?;
///
/// The text's tokens mean the set of these policies under `policy0`, `policy1` and so on, whatever
/// they are called. It is refused where one of them is, with what of that no text means. Or it is
/// `NotWritten::Memory`.
pub fn policyset_to_cedar(
    alloc: Global,
    set: &PolicySet,
    styles: &ExtStyles,
) -> Result<String, NotWritten>
    ensures means { IfOk result (λ text.
        IsTextOfSet (table_of styles.now) sign_limit set.now (string_bytes text)) }
    ensures refused { IfErr result (HasNoTextOfSet (table_of styles.now) sign_limit set.now) }
{
    let policies = set.iter(alloc)?;
    let mut out = Output::new(alloc);
    write_policies(alloc, policies, styles, &mut out)?;
    Ok(out.into_lines()?)
}
