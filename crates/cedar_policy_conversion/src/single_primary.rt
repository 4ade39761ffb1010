//! The primary that an expression is, through operators with one operand and parentheses; any
//! other form is refused by what it is.
ghost use Rattle.std.specs.Prelude.{◌≡◌, ◌≢◌, IfOk, MatchOption, Option, Some};
ghost use Rattle.cedar_syntax.specs.declared.node.Node.{Node as Held};
ghost use Rattle.cedar_syntax.specs.declared.cst.Expr.{Expr as Tree};
ghost use Rattle.cedar_syntax.specs.declared.cst.Primary.TheVariants as primaries;
ghost use Rattle.cedar_syntax.specs.trees.Forms.{located, expr_form, or_form, primary_form};
ghost use Rattle.cedar_conversion.specs.outcome.Detail.{nothing};
ghost use Rattle.cedar_conversion.specs.outcome.Outcome.{wrong_node};
ghost use Rattle.cedar_policy_conversion.specs.References.{lone};
ghost use Rattle.cedar_policy_conversion.specs.machines.LonePaths.{ComesToPrimary, child_outcome};
ghost use Rattle.cedar_conversion.specs.outcome.Seen.{Gives, detail_of, kind_of};
ghost use Rattle.cedar_conversion.specs.machines.Views.{TellsAlone};

use cedar_conversion::answer::failure::BoxedFailure;
use cedar_conversion::answer::special::{empty_node, refusal_with};
use cedar_conversion::convert::data_of;
use cedar_conversion::operators::single_child::SingleChild;
use cedar_expressions::OwnedText;
use cedar_syntax::cst;
use cedar_syntax::err::ToASTErrorKind;
use cedar_syntax::loc::Loc;
use cedar_syntax::node::Node;
use std::alloc::{AllocError, Global};

/// Another form than what is wanted, and perhaps a hint.
fn another_form(
    alloc: Global,
    expected: &'static str,
    got: Result<String, AllocError>,
    hint: &str,
) -> Result<ToASTErrorKind, AllocError>
    ensures { IfOk result (λ kind. (kind_of kind ≡ wrong_node) × (detail_of kind ≡ nothing)) }
{
    let got = OwnedText::from(got?);
    let suggestion = if hint.is_empty() {
        None
    } else {
        Some(OwnedText::from_str(alloc, hint)?)
    };
    Ok(ToASTErrorKind::WrongNode {
        expected,
        got,
        suggestion,
    })
}

/// The refusal of a form that `got` shows, with a hint unless that is empty.
pub(crate) fn wrong_node(
    alloc: Global,
    expected: &'static str,
    got: Result<String, AllocError>,
    hint: &str,
    loc: &Option<Loc>,
) -> BoxedFailure
    ensures { TellsAlone result wrong_node loc.now }
{
    refusal_with(alloc, another_form(alloc, expected, got, hint), loc)
}

/// The same of a form with a fixed name.
pub(crate) fn form(
    alloc: Global,
    expected: &'static str,
    got: &str,
    hint: &str,
    loc: &Option<Loc>,
) -> BoxedFailure
    ensures { TellsAlone result wrong_node loc.now }
{
    wrong_node(alloc, expected, String::from_str(alloc, got), hint, loc)
}

/// What a message says of a relation.
fn relation_word(relation: &cst::Relation) -> &'static str {
    match relation {
        cst::Relation::Common { .. } => "a binary operator",
        cst::Relation::Has { .. } => "a `has` expression",
        cst::Relation::Like { .. } => "a `like` expression",
        cst::Relation::IsIn { .. } => "an `is` expression",
    }
}

// ---- levels of operators

/// A level of operators, and what a message says where a node is more than one part of it.
trait Level: SingleChild {
    /// What may have been meant; empty where there is nothing to say.
    const HINT: &'static str;

    /// What the node is instead.
    fn described(&self, alloc: Global) -> Result<String, AllocError>;
}

impl Level for cst::Or {
    const HINT: &'static str = "a policy can be written for each side of the `||`";

    fn described(&self, alloc: Global) -> Result<String, AllocError> {
        String::from_str(alloc, "a `||` expression")
    }
}

impl Level for cst::And {
    const HINT: &'static str = "the right side of the `&&` can stand in a `when` condition";

    fn described(&self, alloc: Global) -> Result<String, AllocError> {
        String::from_str(alloc, "a `&&` expression")
    }
}

impl Level for cst::Relation {
    const HINT: &'static str = "";

    fn described(&self, alloc: Global) -> Result<String, AllocError> {
        String::from_str(alloc, relation_word(self))
    }
}

impl Level for cst::Add {
    const HINT: &'static str = "no name of a type holds `+` or `-`";

    fn described(&self, alloc: Global) -> Result<String, AllocError> {
        String::from_str(alloc, "a `+/-` expression")
    }
}

impl Level for cst::Mult {
    const HINT: &'static str = "";

    fn described(&self, alloc: Global) -> Result<String, AllocError> {
        String::from_str(alloc, "a `*` expression")
    }
}

impl Level for cst::Unary {
    const HINT: &'static str = "";

    fn described(&self, alloc: Global) -> Result<String, AllocError> {
        match self.op {
            Some(op) => format!(in alloc; "a `{op}` expression"),
            None => String::from_str(alloc, "an expression"),
        }
    }
}

impl Level for cst::Member {
    const HINT: &'static str = "names of types are joined by `::`";

    fn described(&self, alloc: Global) -> Result<String, AllocError> {
        String::from_str(alloc, "a `.` expression")
    }
}

/// The one part that a node of a level is.
#[inline(always)]
fn child_of<'a, L: Level>(
    alloc: Global,
    expected: &'static str,
    node: &'a Node<Option<L>>,
) -> Result<&'a Node<Option<L::Part>>, BoxedFailure>
    ensures { Gives (λ part. located L.part_form part.now) result
        (child_outcome (located L.form node.now)) }
{
    match &node.node {
        Some(level) => match level.single_child() {
            Some(part) => Ok(part),
            None => {
                let got = level.described(alloc);
                Err(wrong_node(alloc, expected, got, L::HINT, &node.loc))
            }
        },
        None => Err(empty_node(alloc, &node.loc)),
    }
}

// ---- the walk down to a primary, which may be another expression in parentheses

fn primary_of<'a>(
    alloc: Global,
    expected: &'static str,
    node: &'a Node<Option<cst::Expr>>,
) -> Result<&'a Node<Option<cst::Primary>>, BoxedFailure>
    ensures { ComesToPrimary (located expr_form node.now) result }
{
    match &node.node {
        Some(tree) => match data_of(tree) {
            cst::ExprData::Or(part) => or_primary(alloc, expected, part),
            cst::ExprData::If(_, _, _) => {
                Err(form(alloc, expected, "an `if` expression", "", &node.loc))
            }
        },
        None => Err(empty_node(alloc, &node.loc)),
    }
}

/// The primary to which a node comes level by level.
fn or_primary<'a>(
    alloc: Global,
    expected: &'static str,
    node: &'a Node<Option<cst::Or>>,
) -> Result<&'a Node<Option<cst::Primary>>, BoxedFailure>
    ensures { ComesToPrimary (located or_form node.now) result }
{
    let and = child_of(alloc, expected, node)?;
    let relation = child_of(alloc, expected, and)?;
    let add = child_of(alloc, expected, relation)?;
    let mult = child_of(alloc, expected, add)?;
    let unary = child_of(alloc, expected, mult)?;
    let member = child_of(alloc, expected, unary)?;
    child_of(alloc, expected, member)
}

// ---- the walk through parentheses

/// What stands in parentheses, if a primary is that.
fn parenthesized(node: &Node<Option<cst::Primary>>) -> Option<&Node<Option<cst::Expr>>>
    ensures { MatchOption result
        ((a : Held (Option Tree)) → node.now.node ≢ Some (primaries.Expr a))
        (λ inner. node.now.node ≡ Some (primaries.Expr inner.now)) }
{
    match &node.node {
        Some(cst::Primary::Expr(inner)) => Some(inner),
        Some(cst::Primary::Literal(_)) => None,
        Some(cst::Primary::Ref(_)) => None,
        Some(cst::Primary::Name(_)) => None,
        Some(cst::Primary::Slot(_)) => None,
        Some(cst::Primary::EList(_)) => None,
        Some(cst::Primary::RInits(_)) => None,
        None => None,
    }
}

/// A primary without parentheses around it; an empty node is refused here.
fn bare<'a>(
    alloc: Global,
    node: &'a Node<Option<cst::Primary>>,
) -> Result<&'a Node<Option<cst::Primary>>, BoxedFailure>
    ensures { ((a : Held (Option Tree)) → node.now.node ≢ Some (primaries.Expr a))
        → Gives (λ p. located primary_form p.now) result
        (lone (located primary_form node.now)) }
{
    match &node.node {
        Some(cst::Primary::Expr(_)) => Err(empty_node(alloc, &node.loc)),
        Some(cst::Primary::Literal(_)) => Ok(node),
        Some(cst::Primary::Ref(_)) => Ok(node),
        Some(cst::Primary::Name(_)) => Ok(node),
        Some(cst::Primary::Slot(_)) => Ok(node),
        Some(cst::Primary::EList(_)) => Ok(node),
        Some(cst::Primary::RInits(_)) => Ok(node),
        None => Err(empty_node(alloc, &node.loc)),
    }
}

/// The primary that an expression is, once all parentheses are opened.
#[inline(never)]
pub(crate) fn expr_primary<'a>(
    alloc: Global,
    expected: &'static str,
    node: &'a Node<Option<cst::Expr>>,
) -> Result<&'a Node<Option<cst::Primary>>, BoxedFailure>
    ensures { Gives (λ p. located primary_form p.now) result (lone (located expr_form node.now)) }
{
    let mut primary = primary_of(alloc, expected, node)?;
    while let Some(inner) = parenthesized(primary) {
        primary = primary_of(alloc, expected, inner)?;
    }
    bare(alloc, primary)
}
