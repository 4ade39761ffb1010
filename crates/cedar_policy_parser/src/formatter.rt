//! The text of policies laid out anew: each on a line of its own, one space between two tokens.
ghost use Rattle.std.specs.Prelude.{◌≡◌, ◌++◌, List, Ok, codes, IfOk, OnOk, IfErr, string_bytes};
ghost use Rattle.cedar_lexer.specs.Cut.{Cuts};
ghost use Rattle.cedar_lexer.specs.Token.{Lexeme};
ghost use Rattle.cedar_policy_store.specs.PlaceFree as free;
ghost use Rattle.cedar_grammar.specs.printing.Formatted.{formatted, lines_text};
ghost use Rattle.cedar_grammar.specs.faults.Leftmost.{HasLeftmost, NumbersFit};
ghost use Rattle.cedar_grammar.specs.grammar.Grammar.{IsTreeOf};
ghost use Rattle.cedar_grammar.specs.grammar.LoosePolicies.{ReadsPolicies};
ghost use Rattle.cedar_grammar.specs.printing.PrintLaw.{node_text};
ghost use Rattle.cedar_grammar.specs.grammar.Sentences.{HasTree};
ghost use Rattle.cedar_syntax.specs.faults.ParseErrors.{IsMemory};
ghost use Rattle.cedar_syntax.specs.trees.Trees.{Cell};
ghost use Rattle.cedar_syntax.specs.trees.Unplaced.{policy_tree};
ghost use Rattle.cedar_syntax.specs.declared.cst.Policies.{Policies};
ghost use Rattle.cedar_conversion.specs.outcome.Seen.{Refuses};
ghost use Rattle.cedar_conversion.specs.strict.Table.{table_of};
ghost use Rattle.cedar_policy_conversion.specs.Policies.{policies_outcome};
ghost use Rattle.cedar_policy_parser.specs.meaning.Formatted.{Formats, MeansSet, MeanTheSame, IsInLines, IsAnsweredAgain};
ghost use Rattle.cedar_policy_parser.specs.faults.Refused.{RefusesSet};

use cedar_grammar::laws::formatted_policies;
use cedar_lexer::laws::at_most_one_cut;
use cedar_policy_conversion::cst_to_ast::{ExtStyles, PoliciesAst};
use cedar_syntax::cst::{Policies, Policy};
use cedar_syntax::err::Failure;
use cedar_syntax::node::Node;
use cedar_text::text_to_cst::laws::printed_texts;
use cedar_text::text_to_cst::parse_policies;
use std::alloc::{AllocError, Global};

/// The policies that a text means, in lines: of each policy its tokens' texts as `Display` writes
/// them, one space between two, and a line feed behind each policy. Comments are left out, and so
/// are leading zeros and last commas.
///
///     let lines = format_policies(alloc, text, &ExtStyles::cedar(alloc)?)?;
///
/// It answers a text exactly if the tokens that `text` cuts into have a meaning in the strict
/// grammar of policy sets under this table. The answer's tokens mean the same set, places aside,
/// and a call on the answer gives the same bytes. Any other text is refused as `parse_policyset`
/// refuses it, with one or more faults, each at its bytes of the text: those of `parse_policies`,
/// all that there are, or those of `to_policyset`, all that there are. Or it is `Failure::Memory`.
///
/// The layout is this library's own: the crate that it ports has no formatter.
pub fn format_policies(alloc: Global, text: &str, styles: &ExtStyles) -> Result<String, Failure>
    ensures formats { Formats (table_of styles.now) text.now result }
    ensures meaning { IfOk result (λ lines.
        MeanTheSame (table_of styles.now) text.now (string_bytes lines)) }
    ensures stays { IfOk result (λ lines. IsInLines (string_bytes lines)) }
    ensures again { IfOk result (λ lines. IsAnsweredAgain (table_of styles.now) lines) }
    ensures refused { IfErr result (λ failure. RefusesSet
        (table_of styles.now) failure text.now) }
    ensures leftmost { (ts : List Lexeme) → Cuts text.now ts → NumbersFit ts
        → ¬ HasTree (ReadsPolicies text.now) ts
        → IfErr result (λ failure. HasLeftmost ReadsPolicies text.now ts failure) }
{
    printed_texts();
    formatted_policies();
    let tree = meant_tree(alloc, text, styles)?;
    let lines = tree_in_lines(alloc, &tree)?;
    Ok(lines)
}

/// The tree of a text that means a set of policies under a table.
fn meant_tree(
    alloc: Global,
    text: &str,
    styles: &ExtStyles,
) -> Result<Node<Option<Policies>>, Failure>
    ensures found { IfOk result (λ x. IsTreeOf ReadsPolicies text.now x) }
    ensures one { (y : Cell Policies) → IsTreeOf ReadsPolicies text.now y
        → IfOk result (λ x. x ≡ y) }
    ensures meant { IfOk result (λ x.
        (set : free.Policies) × MeansSet (table_of styles.now) text.now set) }
    ensures only { (set : free.Policies) → MeansSet (table_of styles.now) text.now set
        → IfErr result IsMemory }
    ensures refused { IfErr result (λ failure. RefusesSet
        (table_of styles.now) failure text.now) }
    ensures leftmost { (ts : List Lexeme) → Cuts text.now ts → NumbersFit ts
        → ¬ HasTree (ReadsPolicies text.now) ts
        → IfErr result (λ failure. HasLeftmost ReadsPolicies text.now ts failure) }
{
    at_most_one_cut();
    let tree = parse_policies(alloc, text)?;
    convert(alloc, styles, &tree)?;
    Ok(tree)
}

/// Refuses a tree that stands for no set of policies.
fn convert(alloc: Global, styles: &ExtStyles, tree: &Node<Option<Policies>>) -> Result<(), Failure>
    ensures value { IfOk result (λ done. (set : free.Policies)
        × (policies_outcome (table_of styles.now) tree.now ≡ Ok set)) }
    ensures refused { IfErr result (λ failure.
        Refuses failure (policies_outcome (table_of styles.now) tree.now)) }
{
    tree.to_policyset(alloc, styles).and(Ok(()))
}

/// The policies of a tree in lines.
fn tree_in_lines(alloc: Global, tree: &Node<Option<Policies>>) -> Result<String, AllocError>
    ensures { IfOk result (λ text. string_bytes text ≡ formatted tree.now) }
{
    match tree.as_inner() {
        Some(policies) => lines(alloc, policies.0.as_slice()),
        None => Ok(String::new(alloc)),
    }
}

/// Policies in lines.
fn lines(alloc: Global, policies: &[Node<Option<Policy>>]) -> Result<String, AllocError>
    ensures { IfOk result (λ text. string_bytes text ≡ lines_text policies.now) }
{
    let mut text = String::new(alloc);
    for policy in policies {
        add_line(&mut text, policy)?;
    }
    Ok(text)
}

/// Adds a policy's printed text, and a line feed behind it.
fn add_line(text: &mut String, node: &Node<Option<Policy>>) -> Result<(), AllocError>
    ensures { OnOk result (string_bytes text.new
        ≡ string_bytes text.old ++ (node_text policy_tree node.now ++ codes "\n")) }
{
    match node.as_inner() {
        Some(policy) => writeln!(text, "{policy}"),
        None => text.push_str("\n"),
    }
}
