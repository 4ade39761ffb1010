//! Sets of policies.
ghost use Rattle.std.specs.Prelude.{◌≡◌, ◌<◌, ◌^◌, List, OnOk, OnErr, IfErr, false, length};
ghost use Rattle.cedar_policy_store.specs.PlaceFree.{set_meaning};
ghost use Rattle.cedar_policy_store.specs.PolicyMaps.{holds_id};
ghost use Rattle.cedar_conversion.specs.outcome.Outcome.{Outcome, item_more};
ghost use Rattle.cedar_policy_conversion.specs.Policies as k;
ghost use Rattle.cedar_policy_conversion.specs.PolicyMeaning.{policy_id as policy_id_of};
ghost use Rattle.cedar_conversion.specs.outcome.Seen.{Gives};
ghost use Rattle.cedar_conversion.specs.strict.Table.{table_of};
ghost use Rattle.cedar_policy_conversion.specs.machines.Filled.{AddsAtMost, IsAdded, IsFreeFor, SeenSet, WantsMemoryAlone, id_of, seen_outcome, seen_set, set_view};

use crate::cst_to_ast::ExtStyles;
use crate::policy_ids::{GeneratedPolicyIds, policy_id};
use crate::templates::static_or_template;
use cedar_conversion::answer::failure::{BoxedFailure, go_on};
use cedar_conversion::answer::faults::add_refusal;
use cedar_conversion::answer::special::empty_node;
use cedar_policy_store::{PolicySet, PolicySetError, StaticPolicy, Template};
use cedar_syntax::cst::{Policies, Policy};
use cedar_syntax::node::Node;
use either::Either;
use std::alloc::{AllocError, Global};

/// Adds a policy or a template under its name, which is free.
fn add(set: &mut PolicySet, policy: Either<StaticPolicy, Template>) -> Result<(), PolicySetError>
    requires { holds_id set.old (id_of policy) ≡ false }
    ensures added { OnOk result (IsAdded set.old policy set.new) }
    ensures refused { IfErr result WantsMemoryAlone }
    ensures unchanged { OnErr result (set.new ≡ set.old) }
{
    match policy {
        Either::Left(policy) => set.add_static(policy),
        Either::Right(template) => set.add_template(template),
    }
}

/// Keeps a policy under its name, which is free.
fn keep(set: &mut PolicySet, policy: Either<StaticPolicy, Template>) -> Result<(), AllocError>
    requires { holds_id set.old (id_of policy) ≡ false }
    ensures added { OnOk result (IsAdded set.old policy set.new) }
    ensures unchanged { OnErr result (set.new ≡ set.old) }
{
    match add(set, policy) {
        Ok(()) => Ok(()),
        Err(PolicySetError::Memory(error)) => Err(error),
        Err(PolicySetError::Occupied { .. }) => unreachable!(),
    }
}

/// Keeps one policy more, under a name that is free, or tells its faults behind those of the
/// policies before it.
fn one_more(
    set: &mut PolicySet,
    all: Result<(), BoxedFailure>,
    next: Result<Either<StaticPolicy, Template>, BoxedFailure>,
) -> Result<(), BoxedFailure>
    requires { IsFreeFor set.old next }
    ensures told { (o : Outcome (List k.TemplateParts)) (x : Outcome k.TemplateParts)
        → Gives (set_view set.old) all (seen_outcome o)
        → Gives k.either_parts next (k.side_outcome x)
        → Gives (set_view set.new) result (seen_outcome (item_more o x)) }
    ensures named { AddsAtMost next set.old set.new }
{
    match next {
        Ok(policy) => match keep(set, policy) {
            Ok(()) => all,
            Err(error) => Err(BoxedFailure::from(error)),
        },
        Err(failure) => add_refusal(all, failure),
    }
}

/// The set, if none of its policies is refused.
fn filled(set: PolicySet, all: Result<(), BoxedFailure>) -> Result<PolicySet, BoxedFailure>
    ensures { (o : Outcome SeenSet) → Gives (set_view set) all o → Gives seen_set result o }
{
    all?;
    Ok(set)
}

/// The policies of a set, joined, each under its name.
fn policies(
    alloc: Global,
    styles: &ExtStyles,
    nodes: &[Node<Option<Policy>>],
) -> Result<PolicySet, BoxedFailure>
    requires { length nodes.now < 2 ^ 64 }
    ensures meant { Gives set_meaning result (k.set_outcome (table_of styles.now) nodes.now) }
    ensures placed { Gives k.set_parts result
        (k.placed_policies (table_of styles.now) nodes.now) }
{
    let mut set = PolicySet::new(alloc);
    let mut all: Result<(), BoxedFailure> = Ok(());
    for item in GeneratedPolicyIds::new(alloc, nodes) {
        let (id, node) = item?;
        all = one_more(&mut set, all, static_or_template(alloc, styles, id, node));
        go_on(&all)?;
    }
    filled(set, all)
}

/// The policy that stands there in a set, under its name.
fn policy_at(
    alloc: Global,
    styles: &ExtStyles,
    count: usize,
    node: &Node<Option<Policy>>,
) -> Result<Either<StaticPolicy, Template>, BoxedFailure>
    ensures { Gives k.either_parts result
        (k.either_outcome (table_of styles.now) (policy_id_of count) node.now) }
{
    let id = policy_id(alloc, count)?;
    static_or_template(alloc, styles, id, node)
}

/// The same of nodes by value: each is let go as soon as it is converted, so that their memory
/// serves the set.
fn own_policies(
    alloc: Global,
    styles: &ExtStyles,
    nodes: Vec<Node<Option<Policy>>>,
) -> Result<PolicySet, BoxedFailure>
    requires { length nodes.items < 2 ^ 64 }
    ensures meant { Gives set_meaning result (k.set_outcome (table_of styles.now) nodes.items) }
    ensures placed { Gives k.set_parts result
        (k.placed_policies (table_of styles.now) nodes.items) }
{
    let mut set = PolicySet::new(alloc);
    let mut all: Result<(), BoxedFailure> = Ok(());
    for (count, node) in nodes.into_iter().enumerate() {
        all = one_more(&mut set, all, policy_at(alloc, styles, count, &node));
        go_on(&all)?;
    }
    filled(set, all)
}

/// The set that a tree stands for.
pub(crate) fn policy_set(
    alloc: Global,
    styles: &ExtStyles,
    node: &Node<Option<Policies>>,
) -> Result<PolicySet, BoxedFailure>
    ensures meant { Gives set_meaning result
        (k.policies_outcome (table_of styles.now) node.now) }
    ensures placed { Gives k.set_parts result
        (k.placed_outcome (table_of styles.now) node.now) }
{
    match &node.node {
        Some(inner) => policies(alloc, styles, inner.0.as_slice()),
        None => Err(empty_node(alloc, &node.loc)),
    }
}

/// The set that a tree by value stands for.
pub(crate) fn own_policy_set(
    alloc: Global,
    styles: &ExtStyles,
    node: Node<Option<Policies>>,
) -> Result<PolicySet, BoxedFailure>
    ensures meant { Gives set_meaning result
        (k.policies_outcome (table_of styles.now) node) }
    ensures placed { Gives k.set_parts result
        (k.placed_outcome (table_of styles.now) node) }
{
    let (inner, loc) = node.into_inner();
    match inner {
        Some(inner) => own_policies(alloc, styles, inner.0.into_vec()),
        None => Err(empty_node(alloc, &loc)),
    }
}
