//! Annotations: keys, and what a caller makes of their texts.
ghost use Rattle.std.specs.Prelude.{◌≡◌, ◌⊎◌, List, [], ◌∷◌, ◌++◌, IfOk, true, false, string_bytes};
ghost use Rattle.std.specs.BTreeMap.{IsOrdered};
ghost use Rattle.std.specs.FinMap.{contains_key, insert};
ghost use Rattle.std.specs.Option.{option_map};
ghost use Rattle.cedar_syntax.specs.declared.err.faults.ParseError.TheVariants.{ToAST};
ghost use Rattle.cedar_policy_conversion.specs.AnnotationKeys as k;
ghost use Rattle.cedar_policy_store.specs.TextMap.{map_in, text_order};
ghost use Rattle.cedar_conversion.specs.outcome.Detail.{spelling};
ghost use Rattle.cedar_conversion.specs.outcome.Outcome.{NamedFault, duplicate_annotation, faults_outcome};
ghost use Rattle.cedar_conversion.specs.outcome.Seen.{Gives, named_fault};
ghost use Rattle.cedar_syntax.specs.faults.Joined.{WantsMemory};
ghost use Rattle.cedar_policy_conversion.specs.machines.Filled.{HoldsSoFar};
ghost use Rattle.cedar_policy_conversion.specs.machines.PolicyViews.{pair_view};
ghost use Rattle.cedar_conversion.specs.machines.Views.{empty_view};

use cedar_conversion::answer::failure::{BoxedFailure, flatten_tuple_2, go_on};
use cedar_conversion::answer::faults::{add_fault, add_refusal};
use cedar_conversion::answer::special::empty_node;
use cedar_conversion::leaves::entities::id_of;
use cedar_conversion::leaves::names::any_id;
use cedar_expressions::{AnyId, TryClone};
use cedar_syntax::cst::{Annotation, Str};
use cedar_syntax::err::{ToASTError, ToASTErrorKind};
use cedar_syntax::loc::Loc;
use cedar_syntax::node::Node;
use std::alloc::{AllocError, Global};
use std::collections::BTreeMap;
use std::collections::btree_map::Entry;

/// The text that an annotation's string stands for, if it has one.
fn text_of(
    alloc: Global,
    loc: &Option<Loc>,
    node: &Option<Node<Option<Str>>>,
) -> Result<Option<String>, BoxedFailure>
    ensures { Gives (option_map string_bytes) result (k.value_text_outcome loc.now node.now) }
{
    match node {
        Some(node) => Ok(Some(id_of(alloc, loc, node)?.into_string()?)),
        None => Ok(None),
    }
}

/// A key and its text, joined.
fn pair(
    alloc: Global,
    loc: &Option<Loc>,
    annotation: &Annotation,
) -> Result<(AnyId, Option<String>), BoxedFailure>
    ensures { Gives (pair_view loc.now) result (k.key_value_outcome loc.now annotation.now) }
{
    flatten_tuple_2(
        any_id(alloc, &annotation.key),
        text_of(alloc, loc, &annotation.value),
    )
}

/// The key and the text of an annotation.
fn text_pair(
    alloc: Global,
    node: &Node<Option<Annotation>>,
) -> Result<(AnyId, Option<String>), BoxedFailure>
    ensures { Gives (pair_view node.now.loc) result (k.annotation_outcome node.now) }
{
    match &node.node {
        Some(inner) => pair(alloc, &node.loc, inner),
        None => Err(empty_node(alloc, &node.loc)),
    }
}

/// The key of an annotation, and what `f` makes of its text and its place.
pub(crate) fn kv_pair<T: Drop, F: Fn(Option<String>, Option<&Loc>) -> T>(
    alloc: Global,
    node: &Node<Option<Annotation>>,
    f: &F,
) -> Result<(AnyId, T), BoxedFailure>
    requires { F.IsAlwaysCallable f.now }
    ensures { k.GivesPair F.Fn f.now result (k.annotation_outcome node.now) }
{
    let (key, text) = text_pair(alloc, node)?;
    let value = f(text, node.loc.as_ref());
    Ok((key, value))
}

/// An annotation whose key an earlier one has.
fn duplicate(key: &AnyId, loc: &Option<Loc>) -> Result<ToASTError, AllocError>
    ensures { IfOk result (λ made. named_fault (ToAST made)
        ≡ (duplicate_annotation, loc.now, spelling key.now)) }
{
    let loc = loc.try_clone()?;
    Ok(ToASTError::new(ToASTErrorKind::DuplicateAnnotation(key.try_clone()?), loc))
}

/// Keeps a value under its key, unless an earlier annotation has it.
#[tactic(auto, using(crate::proofs::FilledMaps::with_entry))]
fn keep<T: Drop>(
    alloc: Global,
    map: &mut BTreeMap<AnyId, T>,
    pair: (AnyId, T),
    loc: &Option<Loc>,
    all: Result<(), BoxedFailure>,
) -> Result<(), BoxedFailure>
    ensures ordered { IsOrdered text_order map.old → IsOrdered text_order map.new }
    ensures memory { WantsMemory all → WantsMemory result }
    ensures known { IsOrdered text_order map.old → contains_key (map_in map.old) pair.0 ≡ true
        → (map_in map.new ≡ map_in map.old)
        × ((faults : List NamedFault) → Gives empty_view all (faults_outcome faults)
        → Gives empty_view result
        (faults_outcome (faults ++ (duplicate_annotation, loc.now, spelling pair.0) ∷ []))) }
    ensures new { IsOrdered text_order map.old → contains_key (map_in map.old) pair.0 ≡ false
        → WantsMemory result
        ⊎ ((result ≡ all) × (map_in map.new ≡ insert (map_in map.old) pair.0 pair.1)) }
{
    let (key, value) = pair;
    match map.entry(key)? {
        Entry::Occupied(known) => add_fault(alloc, all, duplicate(known.key(), loc)),
        Entry::Vacant(room) => {
            room.insert(value);
            all
        }
    }
}

/// One annotation more, behind those so far.
fn one_more<T: Drop, F: Fn(Option<String>, Option<&Loc>) -> T>(
    alloc: Global,
    map: &mut BTreeMap<AnyId, T>,
    all: Result<(), BoxedFailure>,
    node: &Node<Option<Annotation>>,
    f: &F,
) -> Result<(), BoxedFailure>
    requires { F.IsAlwaysCallable f.now }
    ensures ordered { IsOrdered text_order map.old → IsOrdered text_order map.new }
    ensures filled { (so_far : k.Gathering) → IsOrdered text_order map.old
        → HoldsSoFar F.Fn f.now so_far (map_in map.old) all
        → HoldsSoFar F.Fn f.now (k.gathering_with_node so_far node.now) (map_in map.new) result }
{
    match kv_pair::<T, F>(alloc, node, f) {
        Ok(pair) => keep::<T>(alloc, map, pair, &node.loc, all),
        Err(failure) => add_refusal(all, failure),
    }
}

/// What `f` makes of each annotation, by its key.
pub(crate) fn annotations<T: Drop, F: Fn(Option<String>, Option<&Loc>) -> T>(
    alloc: Global,
    nodes: &[Node<Option<Annotation>>],
    f: &F,
) -> Result<BTreeMap<AnyId, T>, BoxedFailure>
    requires { F.IsAlwaysCallable f.now }
    ensures { k.GivesByKey F.Fn f.now result (k.annotations_outcome nodes.now) }
{
    let mut map = BTreeMap::new(alloc);
    let mut all: Result<(), BoxedFailure> = Ok(());
    for node in nodes {
        all = one_more::<T, F>(alloc, &mut map, all, node, f);
        go_on(&all)?;
    }
    all?;
    Ok(map)
}
