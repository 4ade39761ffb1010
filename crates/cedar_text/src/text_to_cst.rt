//! The loose syntax tree of a text, or the faults for which it has none: the first, of policies
//! all.
ghost use Rattle.std.specs.Prelude.{◌≡◌, List, MatchResult, IfOk, IfErr};
ghost use Rattle.std.specs.List.{All};
ghost use Rattle.cedar_lexer.specs.Cut.{Cuts};
ghost use Rattle.cedar_lexer.specs.Token.{Lexeme};
ghost use Rattle.cedar_syntax.specs.declared.cst.Expr.{Expr};
ghost use Rattle.cedar_syntax.specs.declared.cst.Ident.{Ident};
ghost use Rattle.cedar_syntax.specs.declared.cst.Name.{Name};
ghost use Rattle.cedar_syntax.specs.declared.cst.Policies.{Policies};
ghost use Rattle.cedar_syntax.specs.declared.cst.Policy.{Policy};
ghost use Rattle.cedar_syntax.specs.declared.cst.Primary.{Primary};
ghost use Rattle.cedar_syntax.specs.declared.cst.Ref.{Ref};
ghost use Rattle.cedar_syntax.specs.faults.ParseErrors.{IsMemory};
ghost use Rattle.cedar_grammar.specs.faults.FirstFault.{IsRefusal};
ghost use Rattle.cedar_grammar.specs.grammar.Grammar.{IsTreeOf};
ghost use Rattle.cedar_grammar.specs.faults.Leftmost.{HasLeftmost, NumbersFit};
ghost use Rattle.cedar_grammar.specs.grammar.LooseExpressions.{ReadsExpr, ReadsPrimary};
ghost use Rattle.cedar_grammar.specs.grammar.LoosePolicies.{ReadsPolicies, ReadsPolicy};
ghost use Rattle.cedar_grammar.specs.grammar.LooseWords.{ReadsIdent, ReadsName, ReadsRef};
ghost use Rattle.cedar_grammar.specs.faults.MendedFaults.{IsMendedRefusal, NothingBefore, PoliciesBefore};
ghost use Rattle.cedar_grammar.specs.printing.PrintLaw.{HasSameTree, node_text};
ghost use Rattle.cedar_syntax.specs.trees.TreePlaces.{IsPlace, node_places, expr_places, ident_places, name_places, policies_places, policy_places, primary_places, ref_places};
ghost use Rattle.cedar_syntax.specs.trees.Trees.{Cell};
ghost use Rattle.cedar_syntax.specs.trees.Unlocated.{unlocated_name, unlocated_ref};
ghost use Rattle.cedar_syntax.specs.trees.UnlocatedTrees.{unlocated_expr, unlocated_ident, unlocated_primary, unlocated_policy, unlocated_policies};
ghost use Rattle.cedar_syntax.specs.trees.Unplaced.{expr_tree, primary_tree, name_tree, ref_tree, ident_tree, policy_tree, policies_tree};

pub mod laws;
mod whole_texts;

use crate::text_to_cst::whole_texts::{WholePoliciesState, WholePolicyState};
use cedar_expression_machine::expression::start_symbols::{ExprState, PrimaryState};
use cedar_expression_machine::words::state::{IdentState, PathState, WordsState};
use cedar_grammar::reading::expected::ClosersOnly;
use cedar_grammar::reading::{driver, mending};
use cedar_syntax::cst::{Expr, Ident, Name, Policies, Policy, Primary, Ref};
use cedar_syntax::err::Failure;
use cedar_syntax::node::Node;
use std::alloc::Global;

/// The tree of policies.
///
/// It answers a tree exactly if the text cuts into tokens that are policies by the loose grammar,
/// and then that tree, the only one. Every place in it is a range of bytes of the text, on
/// boundaries of characters. Its printed text cuts into tokens that have this tree too, places
/// aside, and no other.
///
/// A refusal is all faults of the text, the one at which the parse stops first: behind a token
/// with which no policies go on, reading goes on with the mended tokens. Each fault is one of
/// those of `parse_expr`, of policies; where an operand has ended in something that is open and a
/// token is refused, only the kinds that close it are told as expected. Of a text that cuts into
/// tokens whose numbers all fit 64 bits, one fault starts before all others: that of the first
/// token with which no policies go on, or of the end. Or it is `Failure::Memory`.
pub fn parse_policies(alloc: Global, text: &str) -> Result<Node<Option<Policies>>, Failure>
    ensures found { IfOk result (λ x. IsTreeOf ReadsPolicies text.now x) }
    ensures places { IfOk result
        (λ x. All (IsPlace text.now) (node_places policies_places x)) }
    ensures printed { IfOk result
        (λ x. HasSameTree ReadsPolicies unlocated_policies x (node_text policies_tree x)) }
    ensures only { (y : Cell Policies) → IsTreeOf ReadsPolicies text.now y
        → MatchResult result (λ x. x ≡ y) IsMemory }
    ensures refused { IfErr result
        (λ f. IsMendedRefusal ReadsPolicies PoliciesBefore text.now f) }
    ensures leftmost { (ts : List Lexeme) → Cuts text.now ts → NumbersFit ts
        → IfErr result (λ f. HasLeftmost ReadsPolicies text.now ts f) }
{
    mending::parse_on::<Node<Option<Policies>>, WholePoliciesState>(alloc, text)
}

/// The tree of one policy.
///
/// It answers and refuses as `parse_policies` does, of single policies; behind a whole policy the
/// first fault stops the parse.
///
///     let tree = parse_policy(alloc, "permit(principal, action, resource);")?;
///     let policy = tree.to_policy_or_template(alloc, id, &styles)?;
pub fn parse_policy(alloc: Global, text: &str) -> Result<Node<Option<Policy>>, Failure>
    ensures found { IfOk result (λ x. IsTreeOf ReadsPolicy text.now x) }
    ensures places { IfOk result
        (λ x. All (IsPlace text.now) (node_places policy_places x)) }
    ensures printed { IfOk result
        (λ x. HasSameTree ReadsPolicy unlocated_policy x (node_text policy_tree x)) }
    ensures only { (y : Cell Policy) → IsTreeOf ReadsPolicy text.now y
        → MatchResult result (λ x. x ≡ y) IsMemory }
    ensures refused { IfErr result
        (λ f. IsMendedRefusal ReadsPolicy NothingBefore text.now f) }
    ensures leftmost { (ts : List Lexeme) → Cuts text.now ts → NumbersFit ts
        → IfErr result (λ f. HasLeftmost ReadsPolicy text.now ts f) }
{
    mending::parse_on::<Node<Option<Policy>>, WholePolicyState>(alloc, text)
}

/// The tree of an expression.
///
/// It answers a tree exactly if the text cuts into tokens that the loose grammar has a tree for,
/// and then that tree, the only one. Every place in it is a range of bytes of the text, on
/// boundaries of characters. Its printed text cuts into tokens that have this tree too, places
/// aside, and no other.
///
/// A refusal is one fault, the first of these: `UnrecognizedToken`, a token with which no
/// expression goes on, at its bytes; `UnrecognizedEof`, where no expression ends at the end of the
/// text, at the end of the last token or 0, each with the kinds of token that could have stood
/// there, and where an operand has ended in something that is open, only with those that close it;
/// `User`, a number past `u64` where a number may stand, at its digits; `InvalidToken`, where no
/// token starts. Or it is `Failure::Memory`.
pub fn parse_expr(alloc: Global, text: &str) -> Result<Node<Option<Expr>>, Failure>
    ensures found { IfOk result (λ x. IsTreeOf ReadsExpr text.now x) }
    ensures places { IfOk result (λ x. All (IsPlace text.now) (node_places expr_places x)) }
    ensures printed { IfOk result
        (λ x. HasSameTree ReadsExpr unlocated_expr x (node_text expr_tree x)) }
    ensures only { (y : Cell Expr) → IsTreeOf ReadsExpr text.now y
        → MatchResult result (λ x. x ≡ y) IsMemory }
    ensures refused { IfErr result
        (λ f. IsRefusal ReadsExpr ClosersOnly.TokensAndEnd text.now f) }
{
    driver::parse::<Node<Option<Expr>>, ExprState>(alloc, text, ClosersOnly::TokensAndEnd)
}

/// The tree of an entity literal.
///
/// It answers a tree exactly if the text cuts into tokens that are an entity literal by the loose
/// grammar, and then that tree, the only one. Every place in it is a range of bytes of the text,
/// on boundaries of characters. Its printed text cuts into tokens that have this tree too, places
/// aside, and no other.
///
/// A refusal is one fault, the first of these: `UnrecognizedToken`, a token with which no entity
/// literal goes on, at its bytes; `UnrecognizedEof`, where none ends at the end of the text, at
/// the end of the last token or 0, each with the kinds of token that could have stood there;
/// `User`, a number past `u64` where a number may stand, at its digits; `InvalidToken`, where no
/// token starts. Or it is `Failure::Memory`.
///
///     let alice = parse_ref(alloc, "User::\"alice\"")?.to_ref(alloc)?;
pub fn parse_ref(alloc: Global, text: &str) -> Result<Node<Option<Ref>>, Failure>
    ensures found { IfOk result (λ x. IsTreeOf ReadsRef text.now x) }
    ensures places { IfOk result (λ x. All (IsPlace text.now) (node_places ref_places x)) }
    ensures printed { IfOk result
        (λ x. HasSameTree ReadsRef unlocated_ref x (node_text ref_tree x)) }
    ensures only { (y : Cell Ref) → IsTreeOf ReadsRef text.now y
        → MatchResult result (λ x. x ≡ y) IsMemory }
    ensures refused { IfErr result (λ f. IsRefusal ReadsRef ClosersOnly.Never text.now f) }
{
    driver::parse::<Node<Option<Ref>>, WordsState>(alloc, text, ClosersOnly::Never)
}

/// The tree of a name: an identifier other than `true`, `false` and `if`, or several joined by
/// `::`.
///
/// It answers and refuses as `parse_ref` does, of names.
pub fn parse_name(alloc: Global, text: &str) -> Result<Node<Option<Name>>, Failure>
    ensures found { IfOk result (λ x. IsTreeOf ReadsName text.now x) }
    ensures places { IfOk result (λ x. All (IsPlace text.now) (node_places name_places x)) }
    ensures printed { IfOk result
        (λ x. HasSameTree ReadsName unlocated_name x (node_text name_tree x)) }
    ensures only { (y : Cell Name) → IsTreeOf ReadsName text.now y
        → MatchResult result (λ x. x ≡ y) IsMemory }
    ensures refused { IfErr result (λ f. IsRefusal ReadsName ClosersOnly.Never text.now f) }
{
    driver::parse::<Node<Option<Name>>, PathState>(alloc, text, ClosersOnly::Never)
}

/// The tree of one identifier, which may be any word.
///
/// It answers and refuses as `parse_ref` does, of single identifiers.
pub fn parse_ident(alloc: Global, text: &str) -> Result<Node<Option<Ident>>, Failure>
    ensures found { IfOk result (λ x. IsTreeOf ReadsIdent text.now x) }
    ensures places { IfOk result (λ x. All (IsPlace text.now) (node_places ident_places x)) }
    ensures printed { IfOk result
        (λ x. HasSameTree ReadsIdent unlocated_ident x (node_text ident_tree x)) }
    ensures only { (y : Cell Ident) → IsTreeOf ReadsIdent text.now y
        → MatchResult result (λ x. x ≡ y) IsMemory }
    ensures refused { IfErr result (λ f. IsRefusal ReadsIdent ClosersOnly.Never text.now f) }
{
    driver::parse::<Node<Option<Ident>>, IdentState>(alloc, text, ClosersOnly::Never)
}

/// The tree of a primary: a literal, a name, an entity literal, a slot, or what stands in
/// brackets.
///
/// It answers and refuses as `parse_ref` does, of primaries; but where an operand has ended in
/// something that is open, only the kinds that close it are told as expected.
pub fn parse_primary(alloc: Global, text: &str) -> Result<Node<Option<Primary>>, Failure>
    ensures found { IfOk result (λ x. IsTreeOf ReadsPrimary text.now x) }
    ensures places { IfOk result
        (λ x. All (IsPlace text.now) (node_places primary_places x)) }
    ensures printed { IfOk result
        (λ x. HasSameTree ReadsPrimary unlocated_primary x (node_text primary_tree x)) }
    ensures only { (y : Cell Primary) → IsTreeOf ReadsPrimary text.now y
        → MatchResult result (λ x. x ≡ y) IsMemory }
    ensures refused { IfErr result
        (λ f. IsRefusal ReadsPrimary ClosersOnly.TokensAndEnd text.now f) }
{
    driver::parse::<Node<Option<Primary>>, PrimaryState>(alloc, text, ClosersOnly::TokensAndEnd)
}
