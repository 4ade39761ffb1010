//! Sets of static policies and templates by name.
ghost use Rattle.std.specs.Prelude.{◌≡◌, ◌↔◌, IsTrue, OnOk, OnErr, IfErr, IfSome, IsOkAnd, Err, false};
ghost use Rattle.std.specs.BTreeMap.{IsOrdered, IsUnchanged, insert_entry};
ghost use Rattle.std.specs.Option.{option_copied};
ghost use Rattle.std.specs.FinMap as map;
ghost use Rattle.cedar_policy_store.specs.declared.policy_set.PolicySetError.TheVariants.{Memory, Occupied};
ghost use Rattle.cedar_policy_store.specs.PolicyMaps.{PolicyMaps, IsRefusalOf, holds_id, policy_count, either_id, maps_with, maps_without, policy_named};
ghost use Rattle.cedar_policy_store.specs.TextMap.{text_order};

use crate::held::beside;
use crate::{PolicyID, StaticPolicy, Template};
use cedar_expressions::TryClone;
use either::Either;
use std::alloc::{AllocError, AllocFailed, Global};
use std::collections::BTreeMap;
use std::collections::btree_map::Values;
use std::error::Error;
use std::fmt;
use std::marker::Model;

/// Static policies and templates, each under its own name, which contracts see as two finite maps
/// by name. Equality looks at no place.
#[derive(Debug)]
pub struct PolicySet {
    policies: BTreeMap<PolicyID, StaticPolicy>,
    templates: BTreeMap<PolicyID, Template>,
}

impl Drop for PolicySet {
    fn drop(self) {
        let PolicySet {
            policies: _,
            templates: _,
        } = self;
    }
}

impl Model for PolicySet {
    ghost use Rattle.std.specs.BTreeMap.{IsOrdered};
    ghost use Rattle.cedar_policy_store.specs.TextMap.{text_order, map_in};
    ghost use Rattle.cedar_policy_store.specs.contracts.template.Template as whole;
    ghost use Rattle.cedar_policy_store.specs.PolicyMaps.{PolicyMaps, StandByName, maps_code};

    ghost Value = { PolicyMaps };

    ghost coded = { maps_code whole.the_row.coded };

    ghost view = { λ set. record {
      policies = map_in set.policies;
      templates = map_in set.templates;
    } };

    ghost invariant = { λ set.
        IsOrdered text_order set.policies × IsOrdered text_order set.templates
        × StandByName set.policies.entries × StandByName set.templates.entries };
}

impl PolicySet {
    /// The set without policies and templates; it takes no memory.
    pub fn new(alloc: Global) -> PolicySet
        ensures { result ≡ record { policies = map.empty; templates = map.empty } }
    {
        PolicySet {
            policies: BTreeMap::new(alloc),
            templates: BTreeMap::new(alloc),
        }
    }

    /// Adds a static policy under its name. It is refused with `Occupied` exactly where the set
    /// has that name, be it a template's; after a refusal, want of memory too, the set is as it
    /// was.
    pub fn add_static(&mut self, policy: StaticPolicy) -> Result<(), PolicySetError>
        ensures added { OnOk result (self.new ≡
            record self.old { policies = map.insert self.old.policies policy.id policy }) }
        ensures free { OnOk result (holds_id self.old policy.id ≡ false) }
        ensures occupied { (result ≡ Err (Occupied policy.id))
            ↔ IsTrue (holds_id self.old policy.id) }
        ensures refused { IfErr result (λ error. IsRefusalOf policy.id error) }
        ensures unchanged { OnErr result (self.new ≡ self.old) }
    {
        if self.contains(policy.id()) {
            return Err(PolicySetError::Occupied {
                id: Template::from(policy).into_id(),
            });
        }
        keep(&mut self.policies, policy.id().try_clone(), policy)?;
        Ok(())
    }

    /// Adds a template under its name. It is refused with `Occupied` exactly where the set has
    /// that name, be it a static policy's; after a refusal, want of memory too, the set is as it
    /// was.
    pub fn add_template(&mut self, template: Template) -> Result<(), PolicySetError>
        ensures added { OnOk result (self.new ≡
            record self.old { templates = map.insert self.old.templates template.id template }) }
        ensures free { OnOk result (holds_id self.old template.id ≡ false) }
        ensures occupied { (result ≡ Err (Occupied template.id))
            ↔ IsTrue (holds_id self.old template.id) }
        ensures refused { IfErr result (λ error. IsRefusalOf template.id error) }
        ensures unchanged { OnErr result (self.new ≡ self.old) }
    {
        if self.contains(template.id()) {
            return Err(PolicySetError::Occupied {
                id: template.into_id(),
            });
        }
        keep(&mut self.templates, template.id().try_clone(), template)?;
        Ok(())
    }

    /// The static policy of a name, if there is one.
    pub fn static_policy(&self, id: &PolicyID) -> Option<&StaticPolicy>
        ensures policy { option_copied result ≡ map.get self.now.policies id.now }
        ensures named { IfSome result (λ policy. policy.now.id ≡ id.now) }
    {
        self.policies.get(id)
    }

    /// The template of a name, if there is one.
    pub fn template(&self, id: &PolicyID) -> Option<&Template>
        ensures template { option_copied result ≡ map.get self.now.templates id.now }
        ensures named { IfSome result (λ template. template.now.id ≡ id.now) }
    {
        self.templates.get(id)
    }

    /// The static policies, in the order of their names.
    pub fn static_policies(&self) -> Values<'_, PolicyID, StaticPolicy>
        ensures { result ≡ map.values self.now.policies }
    {
        self.policies.values()
    }

    /// The templates, in the order of their names.
    pub fn templates(&self) -> Values<'_, PolicyID, Template>
        ensures { result ≡ map.values self.now.templates }
    {
        self.templates.values()
    }

    /// Whether the set has a static policy or a template of a name.
    pub fn contains(&self, id: &PolicyID) -> bool
        ensures { result ≡ holds_id self.now id.now }
    {
        self.policies.contains_key(id) || self.templates.contains_key(id)
    }

    /// How many static policies and templates there are.
    pub fn len(&self) -> usize
        ensures { result ≡ policy_count self.now }
    {
        let policies = self.policies.len();
        let templates = self.templates.len();
        policies + templates
    }

    /// Whether there is neither a static policy nor a template.
    pub fn is_empty(&self) -> bool
        ensures { IsTrue result ↔ (policy_count self.now ≡ 0) }
    {
        self.len() == 0
    }

    /// Adds a static policy or a template under its name, as `add_static` and `add_template` do.
    ///
    ///     set.add(Either::Left(policy))?;
    pub fn add(&mut self, policy: Either<StaticPolicy, Template>) -> Result<(), PolicySetError>
        ensures added { OnOk result (self.new ≡ maps_with self.old policy) }
        ensures free { OnOk result (holds_id self.old (either_id policy) ≡ false) }
        ensures occupied { (result ≡ Err (Occupied (either_id policy)))
            ↔ IsTrue (holds_id self.old (either_id policy)) }
        ensures refused { IfErr result (λ error. IsRefusalOf (either_id policy) error) }
        ensures unchanged { OnErr result (self.new ≡ self.old) }
    {
        match policy {
            Either::Left(policy) => self.add_static(policy),
            Either::Right(template) => self.add_template(template),
        }
    }

    /// Takes the static policy or the template of a name out of the set, if there is one; else
    /// the set is as it was.
    pub fn remove(&mut self, id: &PolicyID) -> Option<Either<StaticPolicy, Template>>
        ensures taken { result ≡ policy_named self.old id.now }
        ensures left { self.new ≡ maps_without self.old id.now }
    {
        match self.policies.remove(id) {
            Some(policy) => Some(Either::Left(policy)),
            None => match self.templates.remove(id) {
                Some(template) => Some(Either::Right(template)),
                None => None,
            },
        }
    }
}

/// Adds an entry under a new name, or leaves the map as it was.
fn keep<V: Drop>(
    map: &mut BTreeMap<PolicyID, V>,
    id: Result<PolicyID, AllocError>,
    value: V,
) -> Result<(), AllocError>
    ensures ok { OnOk result (IsOkAnd id (λ id.
        map.new.entries ≡ insert_entry text_order map.old.entries id value)) }
    ensures err { OnErr result (IsUnchanged map.old map.new) }
    ensures was_ordered { OnOk result (IsOrdered text_order map.old) }
    ensures ordered { OnOk result (IsOrdered text_order map.new) }
{
    map.insert(id?, value)?;
    Ok(())
}

/// Why a policy or a template was not added: want of memory, or its name is there.
#[derive(Debug, Drop, PartialEq, Eq)]
pub enum PolicySetError {
    Memory(AllocError),
    /// The set has a static policy or a template of this name.
    Occupied { id: PolicyID },
}

impl From<AllocError> for PolicySetError {
    ghost use Rattle.std.specs.Prelude.{◌≡◌};
    ghost use Rattle.cedar_policy_store.specs.declared.policy_set.PolicySetError.TheVariants.{Memory};

    ghost from_gives = { λ want error. error ≡ Memory want };

    fn from(want: AllocError) -> PolicySetError {
        PolicySetError::Memory(want)
    }
}

impl<T: Drop> From<AllocFailed<T>> for PolicySetError {
    ghost use Rattle.std.specs.Prelude.{◌≡◌, alloc_error};
    ghost use Rattle.cedar_policy_store.specs.declared.policy_set.PolicySetError.TheVariants.{Memory};

    ghost from_gives = { λ _ error. error ≡ Memory alloc_error };

    fn from(failed: AllocFailed<T>) -> PolicySetError {
        PolicySetError::Memory(AllocError::from(failed))
    }
}

impl fmt::Display for PolicySetError {
    ghost use Rattle.std.proofs.Common.{Some};
    ghost use Rattle.cedar_policy_store.specs.PolicyText.{set_error_text};

    ghost output = { λ error. Some (set_error_text error) };

    fn fmt<W: fmt::Write>(&self, f: &mut fmt::Formatter<W>) -> fmt::Result {
        match self {
            PolicySetError::Memory(_) => f.write_str("want of memory"),
            PolicySetError::Occupied { id } => write!(f, "duplicate template or policy id `{id}`"),
        }
    }
}

impl Error for PolicySetError {}

impl TryClone for PolicySetError {
    fn try_clone(&self) -> Result<PolicySetError, AllocError> {
        match self {
            PolicySetError::Memory(want) => Ok(PolicySetError::Memory(*want)),
            PolicySetError::Occupied { id } => Ok(PolicySetError::Occupied {
                id: id.try_clone()?,
            }),
        }
    }
}

impl Clone for PolicySetError {
    ghost is_clone = { λ x y. y ≡ x };

    fn clone(&self) -> Result<PolicySetError, AllocError> {
        self.try_clone()
    }
}

impl PartialEq for PolicySet {
    ghost use Rattle.cedar_policy_store.specs.contracts.template.TemplateEq.TheImpl.Laws as template;
    ghost use Rattle.std.specs.Cmp.{partial_equiv_from_equiv};
    ghost use Rattle.cedar_policy_store.specs.PolicyMaps.{same_maps_by, same_maps_by_equiv};

    ghost eq = { same_maps_by ⟦<Template as PartialEq>⟧.eq };

    ghost laws = { partial_equiv_from_equiv (same_maps_by_equiv template.lawful.laws) };

    fn eq(&self, other: &Self) -> bool {
        self.policies == other.policies && self.templates == other.templates
    }
}

impl Eq for PolicySet {
    ghost use Rattle.cedar_policy_store.specs.contracts.template.TemplateEq.TheImpl.Laws as template;
    ghost use Rattle.cedar_policy_store.specs.PolicyMaps.{same_maps_by_equiv};

    ghost laws = { same_maps_by_equiv template.lawful.laws };
}

impl TryClone for PolicySet {
    fn try_clone(&self) -> Result<PolicySet, AllocError> {
        let (policies, templates) = beside(self.policies.clone()?, self.templates.clone())?;
        Ok(PolicySet {
            policies,
            templates,
        })
    }
}

impl Clone for PolicySet {
    ghost is_clone = { λ x y. y ≡ x };

    fn clone(&self) -> Result<PolicySet, AllocError> {
        self.try_clone()
    }
}

/// How many policies and templates there are.
impl fmt::Display for PolicySet {
    ghost use Rattle.std.proofs.Common.{Some};
    ghost use Rattle.cedar_policy_store.specs.PolicyText.{set_text};

    ghost output = { λ set. Some (set_text set) };

    fn fmt<W: fmt::Write>(&self, f: &mut fmt::Formatter<W>) -> fmt::Result {
        write!(
            f,
            "{} static policies, {} templates",
            self.policies.len(),
            self.templates.len()
        )
    }
}
