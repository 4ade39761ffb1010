//! Right of an operator of the scope: an entity, the variable's own slot, or a set of entities.
//! What is made of the primary that stands there is told by a kind of reference.
ghost use Rattle.std.specs.Prelude.{◌≡◌, map};
ghost use Rattle.cedar_syntax.specs.trees.Forms.{located, parts_of, listed_expr, expr_form, primary_form};
ghost use Rattle.cedar_conversion.specs.outcome.Outcome.{wrong_node};
ghost use Rattle.cedar_policy_conversion.specs.References.{RefKind as Kind, single_entity, entity_or_slot, one_or_multiple, literal_fault, lone_entity, entities, single_outcome, own_slot_outcome, several_outcome, of_variable, referent_at, referent_outcome};
ghost use Rattle.cedar_conversion.specs.outcome.Seen.{Gives, itself};
ghost use Rattle.cedar_conversion.specs.machines.Views.{TellsAlone, TellsOne};

use crate::single_primary::{expr_primary, form, wrong_node};
use cedar_conversion::answer::failure::{BoxedFailure, go_on};
use cedar_conversion::answer::lists::add;
use cedar_conversion::answer::places::bytes_of;
use cedar_conversion::answer::special::{empty_node, refusal};
use cedar_conversion::leaves::entities::entity_of;
use cedar_expressions::{EntityUID, Items, NodePlace, Var};
use cedar_policy_store::EntityReference;
use cedar_syntax::cst;
use cedar_syntax::err::ToASTErrorKind;
use cedar_syntax::err::parse_errors::Ref;
use cedar_syntax::loc::Loc;
use cedar_syntax::node::Node;
use std::alloc::Global;

/// One entity and nothing else.
#[derive(Drop)]
pub struct SingleEntity(pub EntityUID);

/// One entity, or those of a set.
#[derive(Drop)]
pub enum OneOrMultipleRefs {
    Single(EntityUID),
    Multiple(Items<EntityUID>),
}

/// What may stand right of an operator of the scope, and what is made of it.
pub(crate) trait RefKind: Drop {
    ghost kind: { Kind Self };

    /// What is wanted, as a message names it.
    fn err_str() -> &'static str;

    fn create_single_ref(uid: EntityUID) -> Self
        ensures { result ≡ kind.single uid };

    fn create_slot(alloc: Global, loc: &Option<Loc>) -> Result<Self, BoxedFailure>
        ensures { Gives itself result (kind.slot loc.now) };

    /// A set of entities, or its refusal before an item is looked at.
    fn create_multiple_refs(
        alloc: Global,
        loc: &Option<Loc>,
        items: &[Node<Option<cst::Expr>>],
    ) -> Result<Self, BoxedFailure>
        ensures { Gives itself result
            (several_outcome loc.now kind.takes kind.several
            (entities (parts_of (map listed_expr items.now)))) };
}

impl RefKind for SingleEntity {
    ghost kind = { single_entity };

    fn err_str() -> &'static str {
        "an entity uid"
    }

    fn create_single_ref(uid: EntityUID) -> SingleEntity {
        SingleEntity(uid)
    }

    fn create_slot(alloc: Global, loc: &Option<Loc>) -> Result<SingleEntity, BoxedFailure> {
        let kind = ToASTErrorKind::wrong_entity_argument_one_expected(Ref::Single, Ref::Template);
        Err(refusal(alloc, kind, loc))
    }

    fn create_multiple_refs(
        alloc: Global,
        loc: &Option<Loc>,
        items: &[Node<Option<cst::Expr>>],
    ) -> Result<SingleEntity, BoxedFailure> {
        let _ = items;
        let kind = ToASTErrorKind::wrong_entity_argument_one_expected(Ref::Single, Ref::Set);
        Err(refusal(alloc, kind, loc))
    }
}

impl RefKind for EntityReference {
    ghost kind = { entity_or_slot };

    fn err_str() -> &'static str {
        "an entity uid or matching template slot"
    }

    fn create_single_ref(uid: EntityUID) -> EntityReference {
        EntityReference::EUID(uid)
    }

    fn create_slot(alloc: Global, loc: &Option<Loc>) -> Result<EntityReference, BoxedFailure> {
        let _ = alloc;
        Ok(EntityReference::Slot(NodePlace::from(bytes_of(loc))))
    }

    fn create_multiple_refs(
        alloc: Global,
        loc: &Option<Loc>,
        items: &[Node<Option<cst::Expr>>],
    ) -> Result<EntityReference, BoxedFailure> {
        let _ = items;
        let kind = ToASTErrorKind::wrong_entity_argument_two_expected(
            Ref::Single,
            Ref::Template,
            Ref::Set,
        );
        Err(refusal(alloc, kind, loc))
    }
}

impl RefKind for OneOrMultipleRefs {
    ghost kind = { one_or_multiple };

    fn err_str() -> &'static str {
        "an entity uid or set of entity uids"
    }

    fn create_single_ref(uid: EntityUID) -> OneOrMultipleRefs {
        OneOrMultipleRefs::Single(uid)
    }

    fn create_slot(alloc: Global, loc: &Option<Loc>) -> Result<OneOrMultipleRefs, BoxedFailure> {
        let kind = ToASTErrorKind::wrong_entity_argument_two_expected(
            Ref::Single,
            Ref::Set,
            Ref::Template,
        );
        Err(refusal(alloc, kind, loc))
    }

    fn create_multiple_refs(
        alloc: Global,
        loc: &Option<Loc>,
        items: &[Node<Option<cst::Expr>>],
    ) -> Result<OneOrMultipleRefs, BoxedFailure> {
        let _ = loc;
        let uids = entities(alloc, items)?;
        Ok(OneOrMultipleRefs::Multiple(Items::from(uids)))
    }
}

// ---- what a primary refers to

fn literal_found(
    alloc: Global,
    expected: &'static str,
    loc: &Option<Loc>,
    node: &Node<Option<cst::Literal>>,
) -> BoxedFailure
    ensures { TellsOne result (literal_fault loc.now node.now.loc node.now.node) }
{
    match &node.node {
        Some(literal) => {
            let got = format!(in alloc; "literal `{literal}`");
            wrong_node(alloc, expected, got, "", loc)
        }
        None => empty_node(alloc, &node.loc),
    }
}

/// What a name may have been meant as.
const ENTITY_HINT: &str = "an entity is written `User::\"alice\"`";

fn name_found(
    alloc: Global,
    expected: &'static str,
    loc: &Option<Loc>,
    node: &Node<Option<cst::Name>>,
) -> BoxedFailure
    ensures { TellsAlone result wrong_node loc.now }
{
    match &node.node {
        Some(name) => {
            let got = format!(in alloc; "name `{name}`");
            wrong_node(alloc, expected, got, ENTITY_HINT, loc)
        }
        None => form(alloc, expected, "name", ENTITY_HINT, loc),
    }
}

/// A record or an expression, which refer to nothing.
fn record_found(alloc: Global, expected: &'static str, loc: &Option<Loc>) -> BoxedFailure
    ensures { TellsAlone result wrong_node loc.now }
{
    form(alloc, expected, "record initializer", "", loc)
}

/// An item of a set, which the action alone may be asked for.
fn lone_entity(alloc: Global, node: &Node<Option<cst::Expr>>) -> Result<EntityUID, BoxedFailure>
    ensures { Gives itself result (lone_entity (located expr_form node.now)) }
{
    let SingleEntity(uid) = to_ref_or_refs::<SingleEntity>(alloc, Var::Action, node)?;
    Ok(uid)
}

/// The entities of a set.
fn entities(
    alloc: Global,
    items: &[Node<Option<cst::Expr>>],
) -> Result<Vec<EntityUID>, BoxedFailure>
    ensures { Gives (λ v. v.items) result (entities (parts_of (map listed_expr items.now))) }
{
    let mut all: Result<Vec<EntityUID>, BoxedFailure> = Ok(Vec::new(alloc));
    for item in items {
        add(&mut all, lone_entity(alloc, item));
        go_on(&all)?;
    }
    all
}

/// Another variable's slot, or none of a scope.
fn other_slot(
    alloc: Global,
    expected: &'static str,
    loc: &Option<Loc>,
    slot: &cst::Slot,
    var: Var,
) -> BoxedFailure
    ensures { TellsAlone result wrong_node loc.now }
{
    let got = format!(in alloc; "{slot} instead of ?{var}");
    wrong_node(alloc, expected, got, "", loc)
}

/// A slot stands for its own variable alone.
fn of_variable<T: RefKind>(
    alloc: Global,
    loc: &Option<Loc>,
    var: Var,
    made: T,
    slot: &cst::Slot,
) -> Result<T, BoxedFailure>
    ensures { Gives itself result (of_variable loc.now var made slot.now) }
{
    if slot.matches(var) {
        Ok(made)
    } else {
        Err(other_slot(alloc, T::err_str(), loc, slot, var))
    }
}

/// What is made of an entity.
fn entity_found<T: RefKind>(alloc: Global, node: &Node<Option<cst::Ref>>) -> Result<T, BoxedFailure>
    ensures { Gives itself result (single_outcome T.kind node.now) }
{
    let uid = entity_of(alloc, node)?;
    Ok(T::create_single_ref(uid))
}

/// What is made of a slot, if it is taken and is the variable's own.
fn slot_found<T: RefKind>(
    alloc: Global,
    var: Var,
    loc: &Option<Loc>,
    node: &Node<Option<cst::Slot>>,
) -> Result<T, BoxedFailure>
    ensures { Gives itself result (own_slot_outcome T.kind var loc.now node.now) }
{
    let made = T::create_slot(alloc, loc)?;
    match &node.node {
        Some(slot) => of_variable::<T>(alloc, loc, var, made, slot),
        None => Err(empty_node(alloc, &node.loc)),
    }
}

/// What a primary refers to.
fn referred_at<T: RefKind>(
    alloc: Global,
    var: Var,
    node: &Node<Option<cst::Primary>>,
) -> Result<T, BoxedFailure>
    ensures { Gives itself result (referent_at T.kind var (located primary_form node.now)) }
{
    match &node.node {
        Some(cst::Primary::Ref(inner)) => entity_found::<T>(alloc, inner.as_ref()),
        Some(cst::Primary::Slot(inner)) => slot_found::<T>(alloc, var, &node.loc, inner),
        Some(cst::Primary::EList(items)) => {
            T::create_multiple_refs(alloc, &node.loc, items.as_slice())
        }
        Some(cst::Primary::Literal(inner)) => {
            Err(literal_found(alloc, T::err_str(), &node.loc, inner))
        }
        Some(cst::Primary::Name(inner)) => {
            Err(name_found(alloc, T::err_str(), &node.loc, inner))
        }
        Some(cst::Primary::RInits(_)) => Err(record_found(alloc, T::err_str(), &node.loc)),
        Some(cst::Primary::Expr(_)) => Err(record_found(alloc, T::err_str(), &node.loc)),
        None => Err(empty_node(alloc, &node.loc)),
    }
}

/// What an expression refers to: an entity, the slot of a variable, or a set of entities, as far
/// as the kind takes them.
pub(crate) fn to_ref_or_refs<T: RefKind>(
    alloc: Global,
    var: Var,
    node: &Node<Option<cst::Expr>>,
) -> Result<T, BoxedFailure>
    ensures { Gives itself result (referent_outcome T.kind var node.now) }
{
    referred_at::<T>(alloc, var, expr_primary(alloc, T::err_str(), node)?)
}
