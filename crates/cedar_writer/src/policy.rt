//! The words of policies and templates.
ghost use Rattle.std.specs.Prelude.{◌≡◌, ◌++◌, [], OnOk, map, true, codes};
ghost use Rattle.std.specs.FinMap.{entries};
ghost use Rattle.std.specs.List.{list_all};
ghost use Rattle.std.specs.Option.{option_copied, option_map};
ghost use Rattle.std.specs.Str.{IsUtf8};
ghost use Rattle.cedar_lexer.specs.declared.token.TokenKind.TheVariants as kind;
ghost use Rattle.cedar_expressions.specs.Meaning.{unplaced};
ghost use Rattle.cedar_conversion.specs.strict.Table.{table_of};
ghost use Rattle.cedar_policy_store.specs.declared.constraints.ActionConstraint.TheVariants as actions;
ghost use Rattle.cedar_policy_store.specs.Actions.{is_action};
ghost use Rattle.cedar_policy_store.specs.PlaceFree.{at_value, annotation_value, reference_meaning, constraint_meaning};
ghost use Rattle.cedar_syntax.specs.tokens.Signs.{sign_limit};
ghost use Rattle.cedar_writer.specs.Fitness.{IsUnfitAction};
ghost use Rattle.cedar_writer.specs.Writable.{IsWritableName};
ghost use Rattle.cedar_writer.specs.WrittenWords.{kind_in, alone, name_words, entity_words};
ghost use Rattle.cedar_writer.specs.Writing.{words};
ghost use Rattle.cedar_writer.specs.WrittenPolicies.{key_kinds, annotations_words, annotation_words, equals, is_keyword, reference_words, asks_words, entities_words, action_words, scope_words, conditions_in, conditions_of, condition_words, conditions_words, effect_words, policy_words, AreWritableAnnotations, IsWritableEntity, AreWritableEntities, IsWritableReference, IsWritableConstraint, IsWritableAction, IsWritableCondition, AreWritableConditions, IsWritablePolicy};
ghost use Rattle.cedar_writer.specs.machines.Lines.{later_entities_words};
ghost use Rattle.cedar_writer.specs.machines.Outputs.{Adds};
ghost use Rattle.cedar_writer.specs.machines.Policies.{IsFreeBody, IsUnwritable, AreUnwritable, IsUnwritableCondition, IsUnwritableBody, Writes};
ghost use Rattle.cedar_writer.specs.WrittenTexts.{written_parts};

use crate::output::{Output, identifier_kind};
use crate::refusal::{NotWritable, NotWritten};
use crate::shape::{joined, negated};
use crate::writer::write_expr;
use cedar_conversion::styles::ExtStyles;
use cedar_expressions::{EntityType, EntityUID, Expr, Items};
use cedar_lexer::token::TokenKind;
use cedar_policy_store::{
    ActionConstraint, Annotations, Effect, EntityReference, PrincipalOrResourceConstraint, Template,
};
use std::alloc::{AllocError, Global};

/// Writes a policy: annotations, effect, scope, conditions and `;`.
pub fn write_template(
    alloc: Global,
    template: &Template,
    styles: &ExtStyles,
    out: &mut Output,
) -> Result<(), NotWritten>
    ensures { Writes (policy_words (table_of styles.now) (written_parts template.now))
        (IsWritablePolicy (table_of styles.now) sign_limit (written_parts template.now))
        (IsUnwritable (table_of styles.now) sign_limit (written_parts template.now))
        result out.old out.new }
{
    write_annotations(template.annotations(), out)?;
    write_effect(template.effect(), out)?;
    out.word(TokenKind::OpenParen, "(")?;
    write_scope(template, out)?;
    out.word(TokenKind::CloseParen, ")")?;
    write_condition_parts(alloc, template.non_scope_constraints(), styles, out)?;
    Ok(out.word(TokenKind::Semicolon, ";")?)
}

fn write_annotations(annotations: &Annotations, out: &mut Output) -> Result<(), AllocError>
    ensures words { OnOk result (Adds out.old out.new
        (annotations_words (map (at_value annotation_value) (entries annotations.now)) [])) }
    ensures writable { OnOk result (AreWritableAnnotations
        (map (at_value annotation_value) (entries annotations.now))) }
{
    for (key, annotation) in annotations.iter() {
        write_annotation(key.as_str(), annotation.as_str(), out)?;
    }
    Ok(())
}

/// `@`, a key, and a string in parentheses.
fn write_annotation(key: &str, text: &str, out: &mut Output) -> Result<(), AllocError>
    ensures words { OnOk result (Adds out.old out.new (annotation_words key.now text.now)) }
    ensures writable { IsUtf8 text.now }
{
    out.word(TokenKind::At, "@")?;
    out.word(key_kind(key), key)?;
    out.word(TokenKind::OpenParen, "(")?;
    out.string(text)?;
    out.word(TokenKind::CloseParen, ")")
}

/// The kind of token that an annotation's key is: any word of the language, or none.
fn key_kind(key: &str) -> TokenKind
    ensures { result ≡ kind_in key_kinds key.now }
{
    match key {
        "true" => TokenKind::True,
        "false" => TokenKind::False,
        "if" => TokenKind::If,
        "then" => TokenKind::Then,
        "else" => TokenKind::Else,
        "in" => TokenKind::In,
        "is" => TokenKind::Is,
        "has" => TokenKind::Has,
        "like" => TokenKind::Like,
        _ => identifier_kind(key),
    }
}

fn write_effect(effect: Effect, out: &mut Output) -> Result<(), AllocError>
    ensures { OnOk result (Adds out.old out.new (effect_words effect)) }
{
    match effect {
        Effect::Permit => out.word(TokenKind::Permit, "permit"),
        Effect::Forbid => out.word(TokenKind::Forbid, "forbid"),
    }
}

/// What stands between the parentheses of a policy.
fn write_scope(template: &Template, out: &mut Output) -> Result<(), NotWritten>
    ensures { Writes (scope_words (written_parts template.now).principal
        (written_parts template.now).action (written_parts template.now).resource)
        (IsWritableConstraint (written_parts template.now).principal
        × IsWritableAction (written_parts template.now).action
        × IsWritableConstraint (written_parts template.now).resource)
        (IsUnfitAction (written_parts template.now).action) result out.old out.new }
{
    out.word(TokenKind::Principal, "principal")?;
    write_principal(template.principal_constraint().as_inner(), out)?;
    out.word(TokenKind::Comma, ",")?;
    out.word(TokenKind::Action, "action")?;
    write_action(template.action_constraint(), out)?;
    out.word(TokenKind::Comma, ",")?;
    out.word(TokenKind::Resource, "resource")?;
    write_resource(template.resource_constraint().as_inner(), out)?;
    Ok(())
}

/// What is asked of the principal.
fn write_principal(
    constraint: &PrincipalOrResourceConstraint,
    out: &mut Output,
) -> Result<(), AllocError>
    ensures words { OnOk result (Adds out.old out.new (asks_words kind.PrincipalSlot
        (codes "?principal") (constraint_meaning constraint.now))) }
    ensures writable { OnOk result (IsWritableConstraint (constraint_meaning constraint.now)) }
{
    write_constraint(constraint, TokenKind::PrincipalSlot, "?principal", out)
}

/// What is asked of the resource.
fn write_resource(
    constraint: &PrincipalOrResourceConstraint,
    out: &mut Output,
) -> Result<(), AllocError>
    ensures words { OnOk result (Adds out.old out.new (asks_words kind.ResourceSlot
        (codes "?resource") (constraint_meaning constraint.now))) }
    ensures writable { OnOk result (IsWritableConstraint (constraint_meaning constraint.now)) }
{
    write_constraint(constraint, TokenKind::ResourceSlot, "?resource", out)
}

/// What is asked of a variable whose slot is a token of this kind and text.
fn write_constraint(
    constraint: &PrincipalOrResourceConstraint,
    slot: TokenKind,
    text: &str,
    out: &mut Output,
) -> Result<(), AllocError>
    ensures words { OnOk result (Adds out.old out.new
        (asks_words slot text.now (constraint_meaning constraint.now))) }
    ensures writable { OnOk result (IsWritableConstraint (constraint_meaning constraint.now)) }
{
    match constraint {
        PrincipalOrResourceConstraint::Any => Ok(()),
        PrincipalOrResourceConstraint::Eq(reference) => {
            out.word(TokenKind::EqEq, "==")?;
            write_reference(reference, slot, text, out)
        }
        PrincipalOrResourceConstraint::In(reference) => {
            out.word(TokenKind::In, "in")?;
            write_reference(reference, slot, text, out)
        }
        PrincipalOrResourceConstraint::Is(entity_type) => write_type(entity_type, out),
        PrincipalOrResourceConstraint::IsIn(entity_type, reference) => {
            write_type(entity_type, out)?;
            out.word(TokenKind::In, "in")?;
            write_reference(reference, slot, text, out)
        }
    }
}

/// `is` and the name of a type.
fn write_type(entity_type: &EntityType, out: &mut Output) -> Result<(), AllocError>
    ensures words { OnOk result (Adds out.old out.new
        (is_keyword ++ name_words entity_type.now.name)) }
    ensures writable { OnOk result (IsWritableName entity_type.now.name) }
{
    out.word(TokenKind::Is, "is")?;
    out.name(entity_type.name())
}

/// An entity, or the slot.
fn write_reference(
    reference: &EntityReference,
    slot: TokenKind,
    text: &str,
    out: &mut Output,
) -> Result<(), AllocError>
    ensures words { OnOk result (Adds out.old out.new
        (reference_words slot text.now (reference_meaning reference.now))) }
    ensures writable { OnOk result (IsWritableReference (reference_meaning reference.now)) }
{
    match reference {
        EntityReference::EUID(entity) => write_entity(entity, out),
        EntityReference::Slot(_) => out.word(slot, text),
    }
}

fn write_entity(entity: &EntityUID, out: &mut Output) -> Result<(), AllocError>
    ensures words { OnOk result (Adds out.old out.new (entity_words entity.now)) }
    ensures writable { OnOk result (IsWritableEntity entity.now) }
{
    let name = entity.entity_type().name();
    out.name(name)?;
    out.word(TokenKind::ColonColon, "::")?;
    out.string(entity.eid().as_str())
}

/// What is asked of the action: each entity's type is an action's.
fn write_action(action: &ActionConstraint, out: &mut Output) -> Result<(), NotWritten>
    ensures { Writes (action_words action.now) (IsWritableAction action.now)
        (IsUnfitAction action.now) result out.old out.new }
{
    match action {
        ActionConstraint::Any => Ok(()),
        ActionConstraint::Eq(entity) => write_one_action(entity, out),
        ActionConstraint::In(entities) => write_actions(entities, out),
    }
}

fn write_one_action(entity: &EntityUID, out: &mut Output) -> Result<(), NotWritten>
    ensures { Writes (action_words (actions.Eq entity.now)) (IsWritableAction
        (actions.Eq entity.now)) (IsUnfitAction (actions.Eq entity.now)) result out.old out.new }
{
    if !is_action(entity) {
        return Err(NotWritten::NotWritable(NotWritable::NoAction));
    }
    out.word(TokenKind::EqEq, "==")?;
    Ok(write_entity(entity, out)?)
}

fn write_actions(entities: &Items<EntityUID>, out: &mut Output) -> Result<(), NotWritten>
    ensures { Writes (action_words (actions.In entities.now)) (IsWritableAction
        (actions.In entities.now)) (IsUnfitAction (actions.In entities.now)) result
        out.old out.new }
{
    if !are_actions(entities.as_slice()) {
        return Err(NotWritten::NotWritable(NotWritable::NoAction));
    }
    out.word(TokenKind::In, "in")?;
    out.word(TokenKind::OpenBracket, "[")?;
    write_entities(entities.as_slice(), out)?;
    Ok(out.word(TokenKind::CloseBracket, "]")?)
}

/// Entities with a comma between two.
fn write_entities(entities: &[EntityUID], out: &mut Output) -> Result<(), AllocError>
    ensures words { OnOk result (Adds out.old out.new (entities_words entities.now)) }
    ensures writable { OnOk result (AreWritableEntities entities.now) }
{
    match entities.split_first() {
        None => Ok(()),
        Some((first, rest)) => {
            write_entity(first, out)?;
            write_later_entities(rest, out)
        }
    }
}

/// Entities, each behind a comma.
fn write_later_entities(entities: &[EntityUID], out: &mut Output) -> Result<(), AllocError>
    ensures words { OnOk result (Adds out.old out.new (later_entities_words entities.now)) }
    ensures writable { OnOk result (AreWritableEntities entities.now) }
{
    for entity in entities {
        out.word(TokenKind::Comma, ",")?;
        write_entity(entity, out)?;
    }
    Ok(())
}

/// Whether the last identifier of an entity's type is `Action`.
fn is_action(entity: &EntityUID) -> bool
    ensures { result ≡ is_action entity.now }
{
    entity.entity_type().name().basename().as_str() == "Action"
}

fn are_actions(entities: &[EntityUID]) -> bool
    ensures { result ≡ list_all is_action entities.now }
{
    entities.iter().all(|entity| is_action(entity))
}

/// The conditions of a policy, if it has one.
fn write_condition_parts(
    alloc: Global,
    condition: Option<&Expr>,
    styles: &ExtStyles,
    out: &mut Output,
) -> Result<(), NotWritten>
    ensures { Writes (conditions_words (table_of styles.now) (conditions_of
        (option_map unplaced (option_copied condition.entry))) []) (AreWritableConditions
        (table_of styles.now) sign_limit (conditions_of
        (option_map unplaced (option_copied condition.entry))))
        (AreUnwritable (table_of styles.now) sign_limit (conditions_of
        (option_map unplaced (option_copied condition.entry)))) result out.old out.new }
{
    match condition {
        None => Ok(()),
        Some(condition) => write_conditions(alloc, condition, styles, out),
    }
}

/// Conditions that were joined, written apart again.
fn write_conditions(
    alloc: Global,
    condition: &Expr,
    styles: &ExtStyles,
    out: &mut Output,
) -> Result<(), NotWritten>
    ensures { Writes (conditions_words (table_of styles.now) (conditions_in
        (unplaced condition.now)) []) (AreWritableConditions (table_of styles.now) sign_limit
        (conditions_in (unplaced condition.now))) (AreUnwritable (table_of styles.now)
        sign_limit (conditions_in (unplaced condition.now))) result out.old out.new }
{
    let mut left = condition;
    while let Some(both) = joined(left) {
        write_condition(alloc, &both.0, styles, out)?;
        left = &both.1;
    }
    write_condition(alloc, left, styles, out)
}

/// `when` and an expression in braces, or `unless` and what it negates.
fn write_condition(
    alloc: Global,
    condition: &Expr,
    styles: &ExtStyles,
    out: &mut Output,
) -> Result<(), NotWritten>
    ensures { Writes (condition_words (table_of styles.now) (unplaced condition.now))
        (IsWritableCondition (table_of styles.now) sign_limit (unplaced condition.now))
        (IsUnwritableCondition (table_of styles.now) sign_limit (unplaced condition.now))
        result out.old out.new }
{
    match negated(condition) {
        Some(a) => {
            out.word(TokenKind::Unless, "unless")?;
            write_body(alloc, a, styles, out)
        }
        None => {
            out.word(TokenKind::When, "when")?;
            write_body(alloc, condition, styles, out)
        }
    }
}

/// An expression without slots, in braces.
fn write_body(
    alloc: Global,
    expr: &Expr,
    styles: &ExtStyles,
    out: &mut Output,
) -> Result<(), NotWritten>
    ensures { Writes (alone kind.OpenBrace (codes "{") ++ words (table_of styles.now)
        (unplaced expr.now) ++ alone kind.CloseBrace (codes "}"))
        (IsFreeBody (table_of styles.now) sign_limit (unplaced expr.now))
        (IsUnwritableBody (table_of styles.now) sign_limit (unplaced expr.now))
        result out.old out.new }
{
    if !expr.slots(alloc)?.is_empty() {
        return Err(NotWritten::NotWritable(NotWritable::SlotInCondition));
    }
    out.word(TokenKind::OpenBrace, "{")?;
    write_expr(alloc, expr, styles, out)?;
    Ok(out.word(TokenKind::CloseBrace, "}")?)
}
