//! The policies of a set in the order of their names.
ghost use Rattle.std.specs.Prelude.{◌≡◌, IfOk, OnOk};
ghost use Rattle.std.specs.Vec.Iter.{into_iter_items};
ghost use Rattle.std.specs.List.Sorted.{IsPermutation, IsSortedByKey};
ghost use Rattle.cedar_policy_store.specs.IdOrder.{id_order};
ghost use Rattle.cedar_policy_store.specs.Listing.{all_lent, lent_id, IsListing};

use crate::id_order::compare_ids;
use crate::{PolicyID, PolicySet, StaticPolicy, Template};
use either::Either;
use std::alloc::{AllocError, Global};
use std::vec::IntoIter;

/// The static policies and the templates of a set.
pub type Policies<'a> = IntoIter<Either<&'a StaticPolicy, &'a Template>>;

impl PolicySet {
    /// The static policies and the templates, each once, in the order of their names: behind a
    /// common word by the number at the end, by value, so that `policy9` stands before `policy10`;
    /// else as texts.
    ///
    ///     for policy in set.iter(alloc)? {
    ///         let policy = policy.either(|policy| policy.as_template(), |template| template);
    ///         writeln!(out, "{}", policy.id())?;
    ///     }
    pub fn iter<'a>(&'a self, alloc: Global) -> Result<Policies<'a>, AllocError>
        ensures { IfOk result (λ all. IsListing self.now (into_iter_items all)) }
    {
        let mut all = Vec::new(alloc);
        for policy in self.static_policies() {
            all.push(Either::Left(policy))?;
        }
        for template in self.templates() {
            all.push(Either::Right(template))?;
        }
        sort_by_name(&mut all)?;
        Ok(all.into_iter())
    }
}

/// Sorts policies by their names.
fn sort_by_name<'a>(all: &mut Vec<Either<&'a StaticPolicy, &'a Template>>) -> Result<(), AllocError>
    ensures same { IsPermutation (all_lent all.old.items) (all_lent all.new.items) }
    ensures sorted { OnOk result (IsSortedByKey lent_id id_order all.new.items) }
{
    all.sort_by(|a, b| compare_ids(name_of(a), name_of(b)))
}

/// The name of a static policy or a template.
fn name_of<'a>(policy: &'a Either<&'a StaticPolicy, &'a Template>) -> &'a PolicyID
    ensures { result.now ≡ lent_id policy.now }
{
    match policy {
        Either::Left(policy) => policy.id(),
        Either::Right(template) => template.id(),
    }
}
