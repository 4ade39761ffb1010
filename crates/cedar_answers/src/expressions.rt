//! One expression: its tree, printed.
ghost use Rattle.std.specs.Prelude.{◌≡◌, IfOk, IfErr, string_bytes};
ghost use Rattle.cedar_conversion.specs.strict.CedarExtensions.{cedar_extensions};
ghost use Rattle.cedar_conversion.specs.strict.Table.{table_of};
ghost use Rattle.cedar_grammar.specs.printing.PrintLaw.{node_text};
ghost use Rattle.cedar_policy_parser.specs.faults.Refused.{RefusesText};
ghost use Rattle.cedar_syntax.specs.faults.ParseErrors.{IsMemory};
ghost use Rattle.cedar_syntax.specs.trees.Unplaced.{expr_tree};
ghost use Rattle.cedar_answers.specs.Answers.{AnswersExpression, IsPrintOf, MeansExpression};

use crate::answer::{CedarAnswer, NO_MEMORY, NOT_UTF8, bare};
use crate::refusals::{refused, with_text};
use cedar_policy_parser::cst::Expr;
use cedar_policy_parser::err::Failure;
use cedar_policy_parser::node::Node;
use cedar_policy_parser::text_to_cst::parse_expr;
use cedar_policy_parser::{ExprAst, ExprBuilder, ExtStyles};
use std::alloc::{AllocError, Global};

/// What is told of an expression, under Cedar's own extensions.
pub fn answer(alloc: Global, text: &[u8]) -> CedarAnswer
    ensures { AnswersExpression cedar_extensions text.now result }
{
    match str::from_utf8(text) {
        Ok(text) => answer_text(alloc, text),
        Err(_) => bare(NOT_UTF8),
    }
}

fn answer_text(alloc: Global, text: &str) -> CedarAnswer
    ensures { AnswersExpression cedar_extensions text.now result }
{
    match ExtStyles::cedar(alloc) {
        Ok(styles) => answer_under(alloc, text, &styles),
        Err(_) => bare(NO_MEMORY),
    }
}

fn answer_under(alloc: Global, text: &str, styles: &ExtStyles) -> CedarAnswer
    ensures { AnswersExpression (table_of styles.now) text.now result }
{
    match expression_of(alloc, text, styles) {
        Ok(printed) => with_text(printed),
        Err(failure) => refused(alloc, text, &failure),
    }
}

/// The printed tree of a text that means an expression. Any other text is refused with its faults,
/// or it is want of memory.
fn expression_of(alloc: Global, text: &str, styles: &ExtStyles) -> Result<String, Failure>
    ensures meant { IfOk result (λ printed. MeansExpression (table_of styles.now) text.now) }
    ensures printed { IfOk result (λ printed. IsPrintOf text.now (string_bytes printed)) }
    ensures only { MeansExpression (table_of styles.now) text.now → IfErr result IsMemory }
    ensures refused { IfErr result (λ failure. RefusesText
        (table_of styles.now) failure text.now) }
{
    let tree = parse_expr(alloc, text)?;
    let value = tree.to_expr::<ExprBuilder<()>>(alloc, styles)?;
    drop(value);
    let printed = tree_text(alloc, &tree)?;
    Ok(printed)
}

/// A tree's tokens as `Display` writes them.
fn tree_text(alloc: Global, tree: &Node<Option<Expr>>) -> Result<String, AllocError>
    ensures { IfOk result (λ text. string_bytes text ≡ node_text expr_tree tree.now) }
{
    match tree.as_inner() {
        Some(expr) => Ok(format!(in alloc; "{expr}")?),
        None => Ok(String::new(alloc)),
    }
}
