//! Identifiers and names.
ghost use Rattle.std.specs.Prelude.{◌≡◌, Ok};
ghost use Rattle.cedar_expressions.specs.Value.{Value};
ghost use Rattle.cedar_conversion.specs.outcome.Held.{bare_name, variable};
ghost use Rattle.cedar_conversion.specs.parts.Leaves.{name_leaf as named_held};
ghost use Rattle.cedar_conversion.specs.parts.Names.{spelling_outcome, valid_text as valid_text_of, valid_ident_of as valid_of, valid_ident as valid_outcome, any_ident_of as any_of, any_ident as any_outcome, unreserved_ident as unreserved_outcome, all_of, path_outcome, name_outcome, variable_of, named_variable};
ghost use Rattle.cedar_conversion.specs.outcome.Detail as d;
ghost use Rattle.cedar_conversion.specs.outcome.Outcome.{next, reserved_identifier, invalid_identifier};
ghost use Rattle.cedar_conversion.specs.outcome.Seen.{Gives, itself};
ghost use Rattle.cedar_conversion.specs.machines.Views.{TellsOne, plain};

use crate::answer::failure::{BoxedFailure, flatten_tuple_2, go_on};
use crate::answer::lists::{add, with_room};
use crate::answer::special::{ExprOrSpecial, empty_node, refusal, refusal_with};
use crate::answer::{Converted, put};
use cedar_expressions::{
    AnyId, ExprBuilderInfallibleBuild, Id, InternalName, Name, Text, TryClone, UnreservedId, Var,
};
use cedar_syntax::cst::{self, Ident};
use cedar_syntax::err::ToASTErrorKind;
use cedar_syntax::loc::Loc;
use cedar_syntax::node::Node;
use std::alloc::Global;

/// A text that no identifier is spelled as.
fn invalid_identifier(alloc: Global, loc: &Option<Loc>, text: &str) -> BoxedFailure
    ensures { TellsOne result (invalid_identifier, loc.now, d.spelling text.now) }
{
    let kind = Text::from_str(alloc, text).map(ToASTErrorKind::InvalidIdentifier);
    refusal_with(alloc, kind, loc)
}

/// A word that no name may hold.
fn reserved_identifier(alloc: Global, loc: &Option<Loc>, word: &Ident) -> BoxedFailure
    ensures { TellsOne result (reserved_identifier, loc.now, d.word word.now) }
{
    let kind = word.try_clone().map(ToASTErrorKind::ReservedIdentifier);
    refusal_with(alloc, kind, loc)
}

fn valid_text(alloc: Global, loc: &Option<Loc>, text: &str) -> Result<Id, BoxedFailure>
    ensures { Gives itself result (valid_text_of loc.now text.now) }
{
    match Id::new(Text::from_str(alloc, text)?) {
        Some(id) => Ok(id),
        None => Err(invalid_identifier(alloc, loc, text)),
    }
}

fn any_text(alloc: Global, loc: &Option<Loc>, text: &str) -> Result<AnyId, BoxedFailure>
    ensures { Gives itself result (spelling_outcome loc.now text.now) }
{
    match AnyId::new(Text::from_str(alloc, text)?) {
        Some(id) => Ok(id),
        None => Err(invalid_identifier(alloc, loc, text)),
    }
}

fn valid_ident_of(alloc: Global, loc: &Option<Loc>, ident: &Ident) -> Result<Id, BoxedFailure>
    ensures { Gives itself result (valid_of loc.now ident.now) }
{
    match ident {
        Ident::Principal => valid_text(alloc, loc, "principal"),
        Ident::Action => valid_text(alloc, loc, "action"),
        Ident::Resource => valid_text(alloc, loc, "resource"),
        Ident::Context => valid_text(alloc, loc, "context"),
        Ident::Permit => valid_text(alloc, loc, "permit"),
        Ident::Forbid => valid_text(alloc, loc, "forbid"),
        Ident::When => valid_text(alloc, loc, "when"),
        Ident::Unless => valid_text(alloc, loc, "unless"),
        Ident::Ident(text) => valid_text(alloc, loc, text.as_str()),
        Ident::Invalid(text) => Err(invalid_identifier(alloc, loc, text.as_str())),
        _ => Err(reserved_identifier(alloc, loc, ident)),
    }
}

/// An identifier that a name may hold.
pub fn valid_id(alloc: Global, node: &Node<Option<Ident>>) -> Result<Id, BoxedFailure>
    ensures { Gives itself result (valid_outcome node.now) }
{
    match &node.node {
        Some(ident) => valid_ident_of(alloc, &node.loc, ident),
        None => Err(empty_node(alloc, &node.loc)),
    }
}

fn any_ident_of(alloc: Global, loc: &Option<Loc>, ident: &Ident) -> Result<AnyId, BoxedFailure>
    ensures { Gives itself result (any_of loc.now ident.now) }
{
    match ident {
        Ident::Principal => any_text(alloc, loc, "principal"),
        Ident::Action => any_text(alloc, loc, "action"),
        Ident::Resource => any_text(alloc, loc, "resource"),
        Ident::Context => any_text(alloc, loc, "context"),
        Ident::True => any_text(alloc, loc, "true"),
        Ident::False => any_text(alloc, loc, "false"),
        Ident::Permit => any_text(alloc, loc, "permit"),
        Ident::Forbid => any_text(alloc, loc, "forbid"),
        Ident::When => any_text(alloc, loc, "when"),
        Ident::Unless => any_text(alloc, loc, "unless"),
        Ident::In => any_text(alloc, loc, "in"),
        Ident::Has => any_text(alloc, loc, "has"),
        Ident::Like => any_text(alloc, loc, "like"),
        Ident::Is => any_text(alloc, loc, "is"),
        Ident::If => any_text(alloc, loc, "if"),
        Ident::Then => any_text(alloc, loc, "then"),
        Ident::Else => any_text(alloc, loc, "else"),
        Ident::Ident(text) => any_text(alloc, loc, text.as_str()),
        Ident::Invalid(text) => Err(invalid_identifier(alloc, loc, text.as_str())),
    }
}

/// Any identifier, the reserved words too.
pub fn any_id(alloc: Global, node: &Node<Option<Ident>>) -> Result<AnyId, BoxedFailure>
    ensures { Gives itself result (any_outcome node.now) }
{
    match &node.node {
        Some(ident) => any_ident_of(alloc, &node.loc, ident),
        None => Err(empty_node(alloc, &node.loc)),
    }
}

/// An identifier that a field, a method or an attribute may be.
pub(crate) fn unreserved_ident(
    alloc: Global,
    node: &Node<Option<Ident>>,
) -> Result<UnreservedId, BoxedFailure>
    ensures { Gives itself result (unreserved_outcome node.now) }
{
    match UnreservedId::try_from(valid_id(alloc, node)?) {
        Ok(id) => Ok(id),
        Err(error) => Err(refusal(alloc, ToASTErrorKind::ReservedNamespace(error), &node.loc)),
    }
}

fn path_of(alloc: Global, path: &[Node<Option<Ident>>]) -> Result<Vec<Id>, BoxedFailure>
    ensures { Gives (λ ids. ids.items) result (all_of valid_outcome path.now) }
{
    let mut all: Result<Vec<Id>, BoxedFailure> = with_room(alloc, path.len());
    for part in path {
        add(&mut all, valid_id(alloc, part));
        go_on(&all)?;
    }
    all
}

fn name_at(alloc: Global, loc: &Option<Loc>, name: &cst::Name) -> Result<Name, BoxedFailure>
    ensures { Gives itself result (path_outcome loc.now name.now) }
{
    let last = valid_id(alloc, &name.name);
    let path = path_of(alloc, name.path.as_slice());
    let (last, path) = flatten_tuple_2(last, path)?;
    match Name::try_from(InternalName::new(last, path)) {
        Ok(name) => Ok(name),
        Err(error) => Err(refusal(alloc, ToASTErrorKind::ReservedNamespace(error), loc)),
    }
}

/// A name: identifiers without `__cedar`.
pub(crate) fn name_of(alloc: Global, node: &Node<Option<cst::Name>>) -> Result<Name, BoxedFailure>
    ensures { Gives itself result (name_outcome node.now) }
{
    match &node.node {
        Some(name) => name_at(alloc, &node.loc, name),
        None => Err(empty_node(alloc, &node.loc)),
    }
}

fn variable(ident: &Ident) -> Option<Var>
    ensures { result ≡ variable_of ident.now }
{
    match ident {
        Ident::Principal => Some(Var::Principal),
        Ident::Action => Some(Var::Action),
        Ident::Resource => Some(Var::Resource),
        Ident::Context => Some(Var::Context),
        _ => None,
    }
}

/// The variable that a name is, if it is one.
fn variable_in(node: &Node<Option<cst::Name>>) -> Option<Var>
    ensures { result ≡ named_variable node.now.node }
{
    let name = node.node.as_ref()?;
    if !name.path.is_empty() {
        return None;
    }
    variable(name.name.node.as_ref()?)
}

/// A variable, with the place of its primary.
#[inline(always)]
fn variable_at<E>(var: Var, loc: &Option<Loc>) -> Result<ExprOrSpecial<E>, BoxedFailure>
    ensures { (meaning : E → Value) → Gives (plain meaning) result (Ok (variable loc.now var)) }
{
    Ok(ExprOrSpecial::Var(var, loc.try_clone()?))
}

/// A name, with the place of its primary.
#[inline(always)]
fn name_with<E>(
    alloc: Global,
    loc: &Option<Loc>,
    node: &Node<Option<cst::Name>>,
) -> Result<ExprOrSpecial<E>, BoxedFailure>
    ensures { (meaning : E → Value) → Gives (plain meaning) result
        (next (name_outcome node.now) (λ name. Ok (bare_name loc.now name))) }
{
    let loc = loc.try_clone()?;
    Ok(ExprOrSpecial::Name(name_of(alloc, node)?, loc))
}

/// A variable or a name, with the place of its primary.
#[inline(never)]
pub(crate) fn variable_or_name<B: ExprBuilderInfallibleBuild>(
    alloc: Global,
    loc: &Option<Loc>,
    node: &Node<Option<cst::Name>>,
    answer: &mut Converted<B::Expr>,
)
    ensures { Gives (plain B.meaning) answer.new (named_held loc.now node.now) }
{
    match variable_in(node) {
        Some(var) => put(answer, variable_at::<B::Expr>(var, loc)),
        None => put(answer, name_with::<B::Expr>(alloc, loc, node)),
    }
}
