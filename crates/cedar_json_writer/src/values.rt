//! Expressions, policies and sets as JSON.
ghost use Rattle.std.specs.Prelude.{◌≡◌, ◌++◌, [], IfOk, IfErr, OnOk, map, string_bytes};
ghost use Rattle.std.specs.FinMap as maps;
ghost use Rattle.std.specs.List.{flat_map};
ghost use Rattle.json.specs.Lex.{tokens};
ghost use Rattle.json.specs.Print.{print};
ghost use Rattle.cedar_expressions.specs.Meaning.{expr_meaning};
ghost use Rattle.cedar_policy_store.specs.PlaceFree.{template_meaning};
ghost use Rattle.cedar_json_writer.specs.Forms.{value_json};
ghost use Rattle.cedar_json_writer.specs.FunctionKeys.{keys_called};
ghost use Rattle.cedar_json_writer.specs.PolicyForms.{keys_called_by, policy_json, set_json};
ghost use Rattle.cedar_json_writer.specs.Texts.{IsJsonText, TellsFirst};

use crate::policy::{write_set, write_template};
use crate::refusal::ToJsonError;
use crate::writer::write_expr;
use cedar_expressions::Expr;
use cedar_policy_store::{PolicySet, StaticPolicy, Template};
use json::Writer;
use std::alloc::{AllocError, Global};

/// An expression as JSON, without a space.
///
///     let text = expr_to_json(alloc, &expr)?;
///
/// An expression is an object of one member: `1 + 2` is
/// `{"+":{"left":{"Value":1},"right":{"Value":2}}}`. Operands of any number are joined from the
/// left, and `a has b.c` is written as `a has b && a.b has c`. It is refused with
/// `ToJsonError::OperatorKey` exactly where it calls a function whose name is the key of an
/// operator, with the first of these; Cedar has none. Or it is `ToJsonError::Memory`.
pub fn expr_to_json(alloc: Global, expr: &Expr) -> Result<String, ToJsonError>
    ensures text { IfOk result (λ text.
        IsJsonText (value_json (expr_meaning expr.now)) (string_bytes text)) }
    ensures free { OnOk result (keys_called (expr_meaning expr.now) [] ≡ []) }
    ensures refused { IfErr result (TellsFirst (keys_called (expr_meaning expr.now) [])) }
{
    let mut out = Writer::new(Vec::new(alloc));
    write_expr(alloc, expr, &mut out)?;
    Ok(text_of(out)?)
}

/// A policy or a template as JSON, without its name.
///
///     let text = template_to_json(alloc, template)?;
///
/// It is an object of `effect`, `principal`, `action`, `resource`, `conditions` and, where there
/// are any, `annotations`. Conditions that were joined are written apart again, a negated one as
/// `unless`. It is refused as `expr_to_json` refuses an expression, for one of its conditions.
pub fn template_to_json(alloc: Global, template: &Template) -> Result<String, ToJsonError>
    ensures text { IfOk result (λ text.
        IsJsonText (policy_json (template_meaning template.now)) (string_bytes text)) }
    ensures free { OnOk result (keys_called_by (template_meaning template.now) ≡ []) }
    ensures refused { IfErr result
        (TellsFirst (keys_called_by (template_meaning template.now))) }
{
    let mut out = Writer::new(Vec::new(alloc));
    write_template(alloc, template, &mut out)?;
    Ok(text_of(out)?)
}

/// The same of a policy without slots.
///
///     let text = static_policy_to_json(alloc, policy)?;
pub fn static_policy_to_json(alloc: Global, policy: &StaticPolicy) -> Result<String, ToJsonError>
    ensures text { IfOk result (λ text.
        IsJsonText (policy_json (template_meaning policy.now)) (string_bytes text)) }
    ensures free { OnOk result (keys_called_by (template_meaning policy.now) ≡ []) }
    ensures refused { IfErr result
        (TellsFirst (keys_called_by (template_meaning policy.now))) }
{
    template_to_json(alloc, policy.as_template())
}

/// A set as JSON: its static policies, and then its templates, each under its name and in the
/// order of the names' bytes.
///
///     let text = policyset_to_json(alloc, &set)?;
///
/// It is an object of `staticPolicies`, `templates` and `templateLinks`. The policies that were
/// made of a template stand among the static policies, and `templateLinks` is empty. It is refused
/// as `template_to_json` refuses a policy, for one of its policies.
pub fn policyset_to_json(alloc: Global, set: &PolicySet) -> Result<String, ToJsonError>
    ensures text { IfOk result (λ text. IsJsonText (set_json
        (map template_meaning (maps.values set.now.policies))
        (map template_meaning (maps.values set.now.templates))) (string_bytes text)) }
    ensures free { OnOk result (flat_map keys_called_by (map template_meaning
        (maps.values set.now.policies ++ maps.values set.now.templates)) ≡ []) }
    ensures refused { IfErr result (TellsFirst (flat_map keys_called_by (map template_meaning
        (maps.values set.now.policies ++ maps.values set.now.templates)))) }
{
    let mut out = Writer::new(Vec::new(alloc));
    write_set(alloc, set, &mut out)?;
    Ok(text_of(out)?)
}

/// What was written, as a text.
fn text_of(out: Writer) -> Result<String, AllocError>
    requires { out.before ≡ [] }
    ensures text { IfOk result (λ text. string_bytes text ≡ print out.tokens) }
    ensures read { IfOk result (λ text. tokens (string_bytes text) ≡ out.tokens) }
{
    match String::from_utf8(out.into_inner()) {
        Ok(text) => Ok(text),
        Err(refused) => {
            drop(refused);
            Err(AllocError)
        }
    }
}
