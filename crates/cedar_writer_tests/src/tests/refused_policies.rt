//! Policies that no text means, made by hand, and what their refusals say.
use super::assertions::{holds_for, made, refusal};
use cedar_policy_parser::text_to_cst::parse_ref;
use cedar_policy_parser::{
    ActionConstraint, Annotations, Effect, EntityUID, Expr, ExprBuilder,
    ExprBuilderInfallibleBuild, ExtStyles, Items, NotWritable, NotWritten, PolicyID, PolicySet,
    PrincipalConstraint, PrincipalOrResourceConstraint, RefAst, ResourceConstraint, SlotId,
    StaticPolicy, Template, policyset_to_cedar, static_policy_to_cedar, template_to_cedar,
};
use std::collections::BTreeMap;
use std::process::Abort;

/// A policy with an action and a condition.
fn policy(rt: &impl AllocGlobal, action: ActionConstraint, condition: Option<Expr>) -> Template {
    Template::new(
        PolicyID::new(String::new(rt.alloc())),
        None,
        Annotations::from(BTreeMap::new(rt.alloc())),
        Effect::Permit,
        PrincipalConstraint::new(PrincipalOrResourceConstraint::Any),
        action,
        ResourceConstraint::new(PrincipalOrResourceConstraint::Any),
        condition,
    )
}

/// The entity of a text.
fn entity(rt: &(impl Abort + AllocGlobal), text: &str) -> EntityUID {
    made(rt, made(rt, parse_ref(rt.alloc(), text)).to_ref(rt.alloc()))
}

/// The policy is refused with this.
fn refuses(rt: &(impl Abort + AllocGlobal), policy: Template, what: NotWritable) {
    let styles = made(rt, ExtStyles::cedar(rt.alloc()));
    let why = refusal(rt, template_to_cedar(rt.alloc(), &policy, &styles));
    holds_for(rt, why == NotWritten::NotWritable(what), &why);
    drop(policy);
    drop(styles);
}

#[test]
fn refuses_a_slot_in_a_condition(rt: HostRuntime) {
    let slot: Expr = made(
        &rt,
        ExprBuilder::<()>::new(rt.alloc()).slot(SlotId::Principal),
    );
    let condition = made(&rt, ExprBuilder::<()>::new(rt.alloc()).not(slot));
    let template = policy(&rt, ActionConstraint::Any, Some(condition));
    refuses(&rt, template, NotWritable::SlotInCondition);
}

#[test]
fn refuses_an_action_of_another_type(rt: HostRuntime) {
    let action = ActionConstraint::Eq(entity(&rt, "Action::User::\"a\""));
    refuses(&rt, policy(&rt, action, None), NotWritable::NoAction);
    let mut entities = Vec::new(rt.alloc());
    made(&rt, entities.push(entity(&rt, "App::Action::\"a\"")));
    made(&rt, entities.push(entity(&rt, "User::\"a\"")));
    let action = ActionConstraint::In(Items::from(entities));
    refuses(&rt, policy(&rt, action, None), NotWritable::NoAction);
}

#[test]
fn refuses_a_static_policy_alone_and_in_a_set(rt: HostRuntime) {
    let styles = made(&rt, ExtStyles::cedar(rt.alloc()));
    let action = ActionConstraint::Eq(entity(&rt, "User::\"a\""));
    let refused = made(&rt, StaticPolicy::try_from(policy(&rt, action, None)));
    let why = refusal(&rt, static_policy_to_cedar(rt.alloc(), &refused, &styles));
    holds_for(
        &rt,
        why == NotWritten::NotWritable(NotWritable::NoAction),
        &why,
    );
    let mut set = PolicySet::new(rt.alloc());
    made(&rt, set.add_static(refused));
    let why = refusal(&rt, policyset_to_cedar(rt.alloc(), &set, &styles));
    holds_for(
        &rt,
        why == NotWritten::NotWritable(NotWritable::NoAction),
        &why,
    );
    drop(set);
    drop(styles);
}
