//! What a form is where something else than an expression is wanted: a pattern, an entity type, a
//! string, a record's key.
ghost use Rattle.std.specs.Prelude.{◌≡◌, [], false, IfOk, MatchOption};
ghost use Rattle.cedar_expressions.specs.Path.{is_unreserved_identifier};
ghost use Rattle.cedar_expressions.specs.Written.{var_text};
ghost use Rattle.cedar_conversion.specs.outcome.Detail.{nothing, word};
ghost use Rattle.cedar_conversion.specs.outcome.Held.{Held, as_attribute, as_entity_type, as_pattern, as_string, truth_word, unqualified};
ghost use Rattle.cedar_conversion.specs.parts.Literals.{string_outcome};
ghost use Rattle.cedar_syntax.specs.trees.Forms.{located, primary_form};
ghost use Rattle.cedar_conversion.specs.outcome.Outcome.{Outcome, next, invalid_attribute, invalid_is_type, invalid_pattern, invalid_string, path_as_attribute, reserved_identifier};
ghost use Rattle.cedar_conversion.specs.outcome.Seen.{Gives, detail_of, itself, kind_of};
ghost use Rattle.cedar_conversion.specs.machines.Views.{TellsAlone, TellsOne, plain};

use crate::answer::failure::BoxedFailure;
use crate::answer::special::{ExprOrSpecial, empty_node, refusal, refusal_with, to_text};
use crate::answer::{Converted, placeholder};
use crate::leaves::literals::literal;
use crate::leaves::names::variable_or_name;
use crate::leaves::strings::{pattern_of, unescape_raw};
use cedar_expressions::{
    EntityType, ExprBuilderInfallibleBuild, Id, Name, PatternElem, Text, TryClone, UnreservedId,
    Var,
};
use cedar_syntax::cst::{self, Ident, Primary};
use cedar_syntax::err::{self, ToASTErrorKind};
use cedar_syntax::loc::Loc;
use cedar_syntax::node::Node;
use std::alloc::{AllocError, Global};

/// The word that a variable is.
pub(crate) fn variable_word(alloc: Global, var: Var) -> Result<Text, AllocError>
    ensures { IfOk result (λ text. text ≡ var_text var) }
{
    match var {
        Var::Principal => Text::from_str(alloc, "principal"),
        Var::Action => Text::from_str(alloc, "action"),
        Var::Resource => Text::from_str(alloc, "resource"),
        Var::Context => Text::from_str(alloc, "context"),
    }
}

/// What stands at a place, as a message shows it.
pub(crate) fn source_at(alloc: Global, loc: Option<&Loc>) -> Result<Text, AllocError> {
    let found = match loc {
        Some(loc) => loc.snippet(),
        None => None,
    };
    match found {
        Some(text) => Text::from_str(alloc, text),
        None => Text::from_str(alloc, "<invalid>"),
    }
}

/// A form as a message shows it: a word or a name, or how an expression is written.
fn shown<E>(alloc: Global, special: &ExprOrSpecial<E>) -> Result<Text, AllocError> {
    match special {
        ExprOrSpecial::Expr(_, loc) => source_at(alloc, loc.as_ref()),
        ExprOrSpecial::Var(var, _) => variable_word(alloc, *var),
        ExprOrSpecial::Name(name, _) => to_text(alloc, name),
        ExprOrSpecial::BoolLit(true, _) => Text::from_str(alloc, "true"),
        ExprOrSpecial::BoolLit(false, _) => Text::from_str(alloc, "false"),
        ExprOrSpecial::StrLit(raw, _) => raw.try_clone(),
    }
}

fn invalid_pattern<E>(alloc: Global, special: &ExprOrSpecial<E>, loc: &Option<Loc>) -> BoxedFailure
    ensures { TellsAlone result invalid_pattern loc.now }
{
    let kind = shown(alloc, special).map(ToASTErrorKind::InvalidPattern);
    refusal_with(alloc, kind, loc)
}

/// Right of `like`: a string alone, read as a pattern.
pub(crate) fn into_pattern<B: ExprBuilderInfallibleBuild>(
    alloc: Global,
    special: &ExprOrSpecial<B::Expr>,
) -> Result<Vec<PatternElem>, BoxedFailure>
    ensures { Gives (λ elements. elements.items) result
        (as_pattern (plain B.meaning special.now)) }
{
    match special {
        ExprOrSpecial::Expr(_, loc)
        | ExprOrSpecial::Var(_, loc)
        | ExprOrSpecial::Name(_, loc)
        | ExprOrSpecial::BoolLit(_, loc) => Err(invalid_pattern(alloc, special, loc)),
        ExprOrSpecial::StrLit(raw, loc) => pattern_of(alloc, raw, loc),
    }
}

fn invalid_string<E>(alloc: Global, special: &ExprOrSpecial<E>, loc: &Option<Loc>) -> BoxedFailure
    ensures { TellsAlone result invalid_string loc.now }
{
    let kind = shown(alloc, special).map(ToASTErrorKind::InvalidString);
    refusal_with(alloc, kind, loc)
}

/// Where a string is wanted and nothing else: what it stands for.
fn into_string<B: ExprBuilderInfallibleBuild>(
    alloc: Global,
    special: &ExprOrSpecial<B::Expr>,
) -> Result<Text, BoxedFailure>
    ensures { Gives itself result (as_string (plain B.meaning special.now)) }
{
    match special {
        ExprOrSpecial::Expr(_, loc)
        | ExprOrSpecial::Var(_, loc)
        | ExprOrSpecial::Name(_, loc)
        | ExprOrSpecial::BoolLit(_, loc) => Err(invalid_string(alloc, special, loc)),
        ExprOrSpecial::StrLit(raw, loc) => unescape_raw(alloc, raw, loc),
    }
}

/// The kind that tells the sides of an `is` as a message shows them: the left one where it has a
/// value.
fn sides_shown(
    alloc: Global,
    left: Option<&Loc>,
    right: Option<&Loc>,
) -> Result<ToASTErrorKind, AllocError>
    ensures { IfOk result (λ kind. (kind_of kind ≡ invalid_is_type)
        × (detail_of kind ≡ nothing)) }
{
    let lhs = match left {
        Some(_) => source_at(alloc, left)?,
        None => Text::from_str(alloc, "..")?,
    };
    let rhs = source_at(alloc, right)?;
    Ok(ToASTErrorKind::InvalidIsType { lhs, rhs })
}

/// What can't stand right of `is`.
fn invalid_is_type(alloc: Global, left: Option<&Loc>, loc: &Option<Loc>) -> BoxedFailure
    ensures { TellsAlone result invalid_is_type loc.now }
{
    refusal_with(alloc, sides_shown(alloc, left, loc.as_ref()), loc)
}

/// The identifier that a text spells, if it may stand in a name.
fn id_of(text: Text) -> Option<UnreservedId>
    ensures { MatchOption result (is_unreserved_identifier text ≡ false) (λ id. id ≡ text) }
{
    match UnreservedId::unless_reserved(Id::new(text)?) {
        Ok(id) => Some(id),
        Err(_) => None,
    }
}

/// The entity type whose name is a variable's word.
fn variable_type(alloc: Global, var: Var) -> Result<EntityType, AllocError>
    ensures { IfOk result (λ it. it.name ≡ record { path = []; id = var_text var }) }
{
    let Some(id) = id_of(variable_word(alloc, var)?) else {
        unreachable!()
    };
    Ok(EntityType::from(Name::from(id)))
}

/// Right of `is`: a name or a variable alone, read as an entity type. `left` is the place of the
/// left side where that has a value.
pub fn into_entity_type<B: ExprBuilderInfallibleBuild>(
    alloc: Global,
    left: Option<&Loc>,
    special: ExprOrSpecial<B::Expr>,
) -> Result<EntityType, BoxedFailure>
    ensures { Gives itself result (as_entity_type (plain B.meaning special)) }
{
    match special {
        ExprOrSpecial::Expr(_, loc) => Err(invalid_is_type(alloc, left, &loc)),
        ExprOrSpecial::Var(var, _) => Ok(variable_type(alloc, var)?),
        ExprOrSpecial::Name(name, _) => Ok(EntityType::from(name)),
        ExprOrSpecial::BoolLit(_, loc) => Err(invalid_is_type(alloc, left, &loc)),
        ExprOrSpecial::StrLit(_, loc) => Err(invalid_is_type(alloc, left, &loc)),
    }
}

fn invalid_attribute(alloc: Global, loc: &Option<Loc>) -> BoxedFailure
    ensures { TellsAlone result invalid_attribute loc.now }
{
    let kind = source_at(alloc, loc.as_ref()).map(ToASTErrorKind::InvalidAttribute);
    refusal_with(alloc, kind, loc)
}

/// A path where an attribute is wanted; `shown` is what a message shows of it.
pub(crate) fn path_as_attribute(
    alloc: Global,
    shown: Result<Text, AllocError>,
    loc: &Option<Loc>,
) -> BoxedFailure
    ensures { TellsAlone result path_as_attribute loc.now }
{
    let kind = shown.map(ToASTErrorKind::PathAsAttribute);
    refusal_with(alloc, kind, loc)
}

/// The word that a truth value is.
fn truth_word(value: bool) -> Ident
    ensures { result ≡ truth_word value }
{
    if value { Ident::True } else { Ident::False }
}

/// `true` or `false` where an attribute is wanted.
pub(crate) fn truth_as_attribute(alloc: Global, value: bool, loc: &Option<Loc>) -> BoxedFailure
    ensures { TellsOne result (reserved_identifier, loc.now, word (truth_word value)) }
{
    refusal(
        alloc,
        ToASTErrorKind::ReservedIdentifier(truth_word(value)),
        loc,
    )
}

/// The identifier that a name is as a record's key.
fn name_attribute(alloc: Global, name: &Name, loc: &Option<Loc>) -> Result<Text, BoxedFailure>
    ensures { Gives itself result (unqualified loc.now name.now.path name.now.id) }
{
    if name.as_internal().namespace_components().is_empty() {
        Ok(Text::from_str(alloc, name.basename().as_str())?)
    } else {
        Err(path_as_attribute(alloc, to_text(alloc, name), loc))
    }
}

/// The key of a record.
pub(crate) fn into_attribute<B: ExprBuilderInfallibleBuild>(
    alloc: Global,
    special: &ExprOrSpecial<B::Expr>,
) -> Result<Text, BoxedFailure>
    ensures { Gives itself result (as_attribute (plain B.meaning special.now)) }
{
    match special {
        ExprOrSpecial::Expr(_, loc) => Err(invalid_attribute(alloc, loc)),
        ExprOrSpecial::Var(var, _) => Ok(variable_word(alloc, *var)?),
        ExprOrSpecial::Name(name, loc) => name_attribute(alloc, name, loc),
        ExprOrSpecial::BoolLit(value, loc) => Err(truth_as_attribute(alloc, *value, loc)),
        ExprOrSpecial::StrLit(raw, loc) => unescape_raw(alloc, raw, loc),
    }
}

/// The string that a conversion gives, where a string is wanted and nothing else.
pub(crate) fn string_from<B: ExprBuilderInfallibleBuild>(
    alloc: Global,
    converted: Result<ExprOrSpecial<B::Expr>, BoxedFailure>,
) -> Result<Text, BoxedFailure>
    ensures { (h : Outcome Held) → Gives (plain B.meaning) converted h
        → Gives itself result (next h as_string) }
{
    let special = converted?;
    let text = into_string::<B>(alloc, &special);
    drop(special);
    text
}

/// What a primary is where a string is wanted and nothing else.
pub fn string_literal<B: ExprBuilderInfallibleBuild>(
    alloc: Global,
    node: &Node<Option<Primary>>,
) -> Result<Text, BoxedFailure>
    ensures { Gives itself result (string_outcome (located primary_form node.now)) }
{
    match &node.node {
        Some(Primary::Literal(inner)) => {
            let mut answer: Converted<B::Expr> = placeholder();
            literal::<B>(alloc, inner, &mut answer);
            string_from::<B>(alloc, answer)
        }
        Some(Primary::Ref(_)) => Err(invalid_string_at(alloc, &node.loc)),
        Some(Primary::Name(inner)) => Err(name_as_string::<B>(alloc, &node.loc, inner)),
        Some(Primary::Slot(_)) => Err(invalid_string_at(alloc, &node.loc)),
        Some(Primary::Expr(_)) => Err(invalid_string_at(alloc, &node.loc)),
        Some(Primary::EList(_)) => Err(invalid_string_at(alloc, &node.loc)),
        Some(Primary::RInits(_)) => Err(invalid_string_at(alloc, &node.loc)),
        None => Err(empty_node(alloc, &node.loc)),
    }
}

/// A name where a string is wanted, as its value is shown where it has one.
fn name_as_string<B: ExprBuilderInfallibleBuild>(
    alloc: Global,
    loc: &Option<Loc>,
    name: &Node<Option<cst::Name>>,
) -> BoxedFailure
    ensures { TellsAlone result invalid_string loc.now }
{
    let mut answer: Converted<B::Expr> = placeholder();
    variable_or_name::<B>(alloc, loc, name, &mut answer);
    match answer {
        Ok(special) => {
            let failure = invalid_string(alloc, &special, loc);
            drop(special);
            failure
        }
        Err(failure) => match err::Failure::from(failure) {
            err::Failure::Memory(error) => BoxedFailure::from(error),
            err::Failure::Errors(_) => invalid_string_at(alloc, loc),
        },
    }
}

fn invalid_string_at(alloc: Global, loc: &Option<Loc>) -> BoxedFailure
    ensures { TellsAlone result invalid_string loc.now }
{
    let kind = source_at(alloc, loc.as_ref()).map(ToASTErrorKind::InvalidString);
    refusal_with(alloc, kind, loc)
}
