//! From a text to what it means.
ghost use Rattle.std.specs.Prelude.{◌≡◌, List, Ok, MatchResult, IfErr, IfOk};
ghost use Rattle.cedar_lexer.specs.Token.{Lexeme};
ghost use Rattle.cedar_lexer.specs.Cut.{Cuts};
ghost use Rattle.cedar_expressions.specs.Meaning.{expr_meaning};
ghost use Rattle.cedar_expressions.specs.Value.{Value};
ghost use Rattle.cedar_expressions.specs.WithoutPlaces.{without_places};
ghost use Rattle.cedar_policy_store.specs.PlaceFree.{Policy, Policies, set_meaning};
ghost use Rattle.cedar_policy_store.specs.PolicyMaps.{PolicyMaps};
ghost use Rattle.cedar_policy_store.specs.declared.template.Template.{Template};
ghost use Rattle.cedar_syntax.specs.declared.cst.Policies.{Policies as SetTree};
ghost use Rattle.cedar_syntax.specs.trees.Trees.{Cell};
ghost use Rattle.cedar_policy_conversion.specs.Policies.{placed_outcome, set_parts};
ghost use Rattle.cedar_policy_conversion.specs.PolicyMeaning.{no_policies, policy_id, with_policy};
ghost use Rattle.cedar_syntax.specs.faults.ParseErrors.{IsMemory};
ghost use Rattle.cedar_grammar.specs.faults.Leftmost.{HasLeftmost, NumbersFit};
ghost use Rattle.cedar_grammar.specs.grammar.Grammar.{IsTreeOf};
ghost use Rattle.cedar_grammar.specs.grammar.LoosePolicies.{ReadsPolicies};
ghost use Rattle.cedar_grammar.specs.grammar.Sentences.{HasTree};
ghost use Rattle.cedar_syntax.specs.tokens.Signs.{sign_limit};
ghost use Rattle.cedar_policy_parser.specs.meaning.OldMeaning.{IsOldPolicySet};
ghost use Rattle.cedar_policy_parser.specs.faults.Refused.{RefusesSet, RefusesText};
ghost use Rattle.cedar_conversion.specs.strict.Strict.{Means, expression};
ghost use Rattle.cedar_policy_parser.specs.meaning.StrictPolicy.{IsPolicySet};
ghost use Rattle.cedar_conversion.specs.strict.Table.{table_of};
ghost use Rattle.cedar_policy_parser.specs.meaning.VariedTexts.{SpacesKeep, ParenthesesKeep};
ghost use Rattle.cedar_writer.specs.NumberedSets.{IsNumberedSet};
ghost use Rattle.cedar_writer.specs.WrittenTexts.{IsTextOf, IsTextOfPolicy, IsTextOfAll, IsTextOfSet, called, numbered};

use crate::policy_laws::one_set;
use cedar_expressions::{Expr, ExprBuilder};
use cedar_lexer::laws::at_most_one_cut;
use cedar_policy_conversion::cst_to_ast::{ExprAst, ExtStyles, PoliciesAst};
use cedar_policy_store::PolicySet;
use cedar_syntax::err::Failure;
use cedar_text::text_to_cst::{parse_expr, parse_policies};
use std::alloc::Global;

/// The expression that a text means.
///
///     let styles = ExtStyles::cedar(alloc)?;
///     let value = parse_expression(alloc, "principal.age >= 18", &styles)?;
///
/// It answers a value exactly if the tokens that the text cuts into have a meaning in the strict
/// grammar under this table, and then that value, the only one. Any other text is refused with one
/// or more faults, each at its bytes of the text: the one fault of `parse_expr`, or those of
/// `to_expr`, all that there are. Or it is `Failure::Memory`.
///
/// What `expr_to_cedar` wrote under the same table is read as an expression that equals the
/// written one.
pub fn parse_expression(alloc: Global, text: &str, styles: &ExtStyles) -> Result<Expr, Failure>
    ensures value { IfOk result (λ e.
        (ts : List Lexeme) × Cuts text.now ts × Means
        (table_of styles.now) sign_limit expression ts (expr_meaning e)) }
    ensures only { (ts : List Lexeme) (w : Value) → Cuts text.now ts
        → Means (table_of styles.now) sign_limit expression ts w
        → MatchResult result (λ e. expr_meaning e ≡ w) IsMemory }
    ensures written { (w : Value) → IsTextOf (table_of styles.now) sign_limit w text.now
        → MatchResult result (λ e. without_places (expr_meaning e) ≡ without_places w) IsMemory }
    ensures refused { IfErr result (λ failure. RefusesText
        (table_of styles.now) failure text.now) }
{
    let tree = parse_expr(alloc, text)?;
    tree.to_expr::<ExprBuilder<()>>(alloc, styles)
}

/// The policies that a text means.
///
///     let set = parse_policyset(alloc, text, &ExtStyles::cedar(alloc)?)?;
///     for policy in set.static_policies() {
///         writeln!(out, "{}: {}", policy.id(), policy.as_template().effect())?;
///     }
///
/// It answers a set exactly if the tokens that the text cuts into have a meaning in the strict
/// grammar of policy sets under this table, and then that set, the only one, places aside: its
/// policies and templates under `policy0`, `policy1` and so on, each with the places of its parts
/// in the text's tree, as `to_policyset` has them. Any other text is refused with one or more
/// faults, each at its bytes of the text: those of `parse_policies`, all that there are, or those
/// of `to_policyset`, all that there are. Of a text whose tokens the loose grammar has no tree for
/// and whose numbers fit 64 bits, one fault starts before all others: at the first token, or the
/// end, that no sentence of it allows. Or it is `Failure::Memory`.
///
/// A text that meant a set while no more than four signs in a row were counted means that set.
/// What a text means stays what it means where a white space character, or a comment with its line
/// end, is put straight before a token of it, and where parentheses are put around the whole
/// expression of a condition, or around an entity or a slot of a scope.
///
/// What `template_to_cedar` or `static_policy_to_cedar` wrote under the same table is read as the
/// written policy, under the name `policy0`; what `policyset_to_cedar` wrote as the written
/// policies, under `policy0`, `policy1` and so on: as the very set, where they bear these names in
/// their order and each template has a slot in its scope.
pub fn parse_policyset(alloc: Global, text: &str, styles: &ExtStyles) -> Result<PolicySet, Failure>
    ensures value { IfOk result (λ set.
        (ts : List Lexeme) × Cuts text.now ts × IsPolicySet
        (table_of styles.now) sign_limit ts (set_meaning set)) }
    ensures only { (ts : List Lexeme) (meant : Policies) → Cuts text.now ts
        → IsPolicySet (table_of styles.now) sign_limit ts meant
        → MatchResult result (λ set. set_meaning set ≡ meant) IsMemory }
    ensures placed { IfOk result (λ set. (tree : Cell SetTree)
        × IsTreeOf ReadsPolicies text.now tree
        × (placed_outcome (table_of styles.now) tree ≡ Ok (set_parts set))) }
    ensures written_policy { (policy : Policy)
        → IsTextOfPolicy (table_of styles.now) sign_limit policy text.now
        → MatchResult result (λ set. set_meaning set
        ≡ with_policy no_policies (called (policy_id 0) policy)) IsMemory }
    ensures written_policies { (all : List Template)
        → IsTextOfAll (table_of styles.now) sign_limit all text.now
        → MatchResult result (λ set. set_meaning set ≡ numbered all) IsMemory }
    ensures written_set { (set : PolicyMaps) → IsNumberedSet set
        → IsTextOfSet (table_of styles.now) sign_limit set text.now
        → MatchResult result (λ read. set_meaning read ≡ set_meaning set) IsMemory }
    ensures refused { IfErr result (λ failure. RefusesSet
        (table_of styles.now) failure text.now) }
    ensures leftmost { (ts : List Lexeme) → Cuts text.now ts → NumbersFit ts
        → ¬ HasTree (ReadsPolicies text.now) ts
        → IfErr result (λ failure. HasLeftmost ReadsPolicies text.now ts failure) }
    ensures kept { (ts : List Lexeme) (meant : Policies) → Cuts text.now ts
        → IsOldPolicySet (table_of styles.now) ts meant
        → MatchResult result (λ set. set_meaning set ≡ meant) IsMemory }
    ensures spaces { IfOk result (λ set. SpacesKeep
        (table_of styles.now) sign_limit text.now (set_meaning set)) }
    ensures parentheses { IfOk result (λ set. ParenthesesKeep
        (table_of styles.now) sign_limit text.now (set_meaning set)) }
{
    at_most_one_cut();
    one_set();
    let tree = parse_policies(alloc, text)?;
    tree.into_policyset(alloc, styles)
}
