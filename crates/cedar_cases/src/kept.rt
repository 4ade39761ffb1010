//! Calls that change what they have, or lend it, with what has to hold where memory is refused:
//! that it is as it was before.
//!
//! Memory is refused from outside, request by request (`.ci/refused_memory`). A call that was
//! refused is answered as want of memory where what it had is as before, and else by a line that
//! no case wants.

use crate::faults::{Told, tell_failure};
use crate::parts::{Conversion, value};
use crate::reports::add;
use crate::tables::styles;
use crate::trees::Tree;
use cedar_expressions::TryClone;
use cedar_policy_parser::ExtStyles;
use cedar_policy_parser::cst_to_ast::{GeneratedPolicyIds, PoliciesAst, PolicyAst};
use cedar_policy_store::{PolicyID, PolicySet, PolicySetError};
use cedar_syntax::cst::{Policies, Policy};
use cedar_syntax::err::{Failure, ParseErrors};
use cedar_syntax::node::Node;
use either::Either;
use std::alloc::{AllocError, Global};

/// What a call is told to have done that was refused memory: no more than that, where what it had
/// was kept.
fn tell_kept(alloc: Global, is_kept: bool, error: AllocError) -> Result<String, AllocError> {
    if is_kept {
        return Err(error);
    }
    String::from_str(alloc, "changed, though memory was refused")
}

/// How many faults a text has together with the same ones once more.
pub(crate) fn tell_extended<T: Tree>(alloc: Global, text: &str) -> Result<String, AllocError> {
    match T::read(alloc, text) {
        Err(Failure::Errors(faults)) => twice(alloc, &faults),
        Err(Failure::Memory(error)) => Err(error),
        Ok(node) => {
            drop(node);
            String::from_str(alloc, "no faults")
        }
    }
}

fn twice(alloc: Global, faults: &ParseErrors) -> Result<String, AllocError> {
    let mut list = faults.try_clone()?;
    let told = match faults.try_clone() {
        Ok(more) => match list.extend(more) {
            Ok(()) => format!(in alloc; "{}", list.len()),
            Err(error) => tell_kept(alloc, list == *faults, error),
        },
        Err(error) => Err(error),
    };
    drop(list);
    told
}

/// The call `with_generated_policyids`.
pub(crate) struct PolicyIds;

impl Conversion for PolicyIds {
    type From = Policies;

    fn tell(
        alloc: Global,
        _words: &str,
        node: &Node<Option<Policies>>,
    ) -> Result<String, AllocError> {
        match node.with_generated_policyids(alloc) {
            Ok(ids) => names_of(alloc, ids),
            Err(failure) => tell_failure(alloc, Told::Message, failure),
        }
    }
}

/// The names of a set's policies. Behind one that is refused memory none comes.
fn names_of(alloc: Global, mut ids: GeneratedPolicyIds<'_>) -> Result<String, AllocError> {
    let mut lines = String::new(alloc);
    while let Some(item) = ids.next() {
        match item {
            Ok((id, _)) => add(&mut lines, id.as_str())?,
            Err(error) => {
                let is_ended = ids.next().is_none() && ids.next().is_none();
                return tell_kept(alloc, is_ended, error);
            }
        }
    }
    Ok(lines)
}

/// The call `to_policyset`, on a tree that has to be the same afterwards.
pub(crate) struct SharedTree;

impl Conversion for SharedTree {
    type From = Policies;

    fn tell(
        alloc: Global,
        words: &str,
        node: &Node<Option<Policies>>,
    ) -> Result<String, AllocError> {
        let styles = styles(alloc, words)?;
        let before = node.try_clone();
        let set = node.to_policyset(alloc, &styles);
        drop(styles);
        match is_same::<Node<Option<Policies>>>(before, node) {
            Ok(true) => value::<PolicySet>(alloc, set),
            Ok(false) => tell_changed::<Result<PolicySet, Failure>>(alloc, set),
            Err(error) => Err(error),
        }
    }
}

/// Whether something is as it was before.
fn is_same<T: PartialEq + Drop>(
    before: Result<T, AllocError>,
    now: &T,
) -> Result<bool, AllocError> {
    let before = before?;
    Ok(before == *now)
}

/// What is told of what was made of a tree that changed.
fn tell_changed<T: Drop>(alloc: Global, made: T) -> Result<String, AllocError> {
    drop(made);
    String::from_str(alloc, "the tree changed")
}

/// The calls `add_static` and `add_template`.
pub(crate) struct Added;

impl Conversion for Added {
    type From = Policies;

    /// The set that the tree is, with its first policy once more under another name.
    fn tell(
        alloc: Global,
        words: &str,
        node: &Node<Option<Policies>>,
    ) -> Result<String, AllocError> {
        let Some(Policies(policies)) = node.as_inner() else {
            return String::from_str(alloc, "an empty node");
        };
        let Some(first) = policies.as_slice().first() else {
            return String::from_str(alloc, "no policy");
        };
        let styles = styles(alloc, words)?;
        let told = match node.to_policyset(alloc, &styles) {
            Ok(set) => with_first(alloc, &styles, set, first),
            Err(failure) => tell_failure(alloc, Told::Message, failure),
        };
        drop(styles);
        told
    }
}

/// A set with a policy more.
fn with_first(
    alloc: Global,
    styles: &ExtStyles,
    mut set: PolicySet,
    first: &Node<Option<Policy>>,
) -> Result<String, AllocError> {
    let before = set.try_clone();
    let added = put(alloc, styles, &mut set, first);
    let was_same = is_same::<PolicySet>(before, &set);
    match added {
        Ok(()) => value::<PolicySet>(alloc, Ok(set)),
        Err(Failure::Memory(error)) => tell_kept(alloc, was_same?, error),
        Err(failure) => tell_failure(alloc, Told::Message, failure),
    }
}

/// Puts a policy into a set, as what it is, under a name of its own.
fn put(
    alloc: Global,
    styles: &ExtStyles,
    set: &mut PolicySet,
    policy: &Node<Option<Policy>>,
) -> Result<(), Failure> {
    let id = PolicyID::new(String::from_str(alloc, "added")?);
    let added = match policy.to_policy_or_template(alloc, id, styles)? {
        Either::Left(policy) => set.add_static(policy),
        Either::Right(template) => set.add_template(template),
    };
    match added {
        Err(PolicySetError::Memory(error)) => Err(Failure::from(error)),
        Ok(()) | Err(PolicySetError::Occupied { .. }) => Ok(()),
    }
}
