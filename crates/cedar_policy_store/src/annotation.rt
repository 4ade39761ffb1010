//! Annotations: data by key that a policy carries.
ghost use Rattle.std.specs.Prelude.{◌≡◌, ◌↔◌, IsTrue, [], unwrap_or, string_bytes};
ghost use Rattle.std.specs.Option.{option_copied, option_map};
ghost use Rattle.std.specs.FinMap as map;
ghost use Rattle.cedar_expressions.specs.Placed.{marked_place};
ghost use Rattle.cedar_policy_store.specs.TextMap.{map_in};

use cedar_expressions::{AnyId, EscapedText, NodePlace, OwnedText, Place, TryClone};
use std::alloc::{AllocError, Global};
use std::collections::BTreeMap;
use std::collections::btree_map::Iter;
use std::fmt;
use std::marker::Model;

/// The value of an annotation. Equality looks at no place.
#[derive(Debug, Drop, PartialEq, Eq)]
pub struct Annotation {
    value: OwnedText,
    place: NodePlace,
}

impl Annotation {
    /// The annotation with a value, the empty text where there is none, at a place if one is
    /// known. It takes no memory.
    pub fn with_optional_value(
        alloc: Global,
        value: Option<String>,
        place: Option<Place>,
    ) -> Annotation
        ensures value { result.value ≡ unwrap_or (option_map string_bytes value) [] }
        ensures place { marked_place result.place ≡ place }
    {
        let value = match value {
            Some(value) => value,
            None => String::new(alloc),
        };
        Annotation {
            value: OwnedText::from(value),
            place: NodePlace::from(place),
        }
    }

    /// The value.
    pub fn as_str(&self) -> &str
        ensures { result.now ≡ self.now.value }
    {
        self.value.as_str()
    }

    /// Where the annotation stands, if that is known.
    pub fn place(&self) -> Option<Place>
        ensures { result ≡ marked_place self.now.place }
    {
        self.place.get()
    }
}

impl TryClone for Annotation {
    fn try_clone(&self) -> Result<Annotation, AllocError> {
        Ok(Annotation {
            value: self.value.try_clone()?,
            place: self.place,
        })
    }
}

impl Clone for Annotation {
    ghost is_clone = { λ x y. y ≡ x };

    fn clone(&self) -> Result<Annotation, AllocError> {
        self.try_clone()
    }
}

/// The value as it is.
impl fmt::Display for Annotation {
    ghost use Rattle.std.proofs.Common.{Some};

    ghost output = { λ annotation. Some annotation.value };

    fn fmt<W: fmt::Write>(&self, f: &mut fmt::Formatter<W>) -> fmt::Result {
        f.write_str(self.as_str())
    }
}

/// The annotations of a policy, which contracts see as a finite map by key.
#[derive(Debug)]
pub struct Annotations {
    by_key: BTreeMap<AnyId, Annotation>,
}

impl Drop for Annotations {
    fn drop(self) {
        let Annotations { by_key: _ } = self;
    }
}

impl Model for Annotations {
    ghost use Rattle.std.specs.FinMap as map;
    ghost use Rattle.std.specs.BTreeMap.{IsOrdered};
    ghost use Rattle.cedar_policy_store.specs.TextMap.{text_order, map_in};
    ghost use Rattle.std.specs.Coded.{coded_list, coded_ℕ};
    ghost use Rattle.cedar_policy_store.specs.declared.annotation.Annotation.{Annotation};
    ghost use Rattle.cedar_policy_store.specs.contracts.annotation.Annotation as annotation;

    ghost Value = { map.FinMap text_order Annotation };

    ghost coded = { map.code (coded_list coded_ℕ) annotation.the_row.coded };

    ghost view = { λ annotations. map_in annotations.by_key };

    ghost invariant = { λ annotations. IsOrdered text_order annotations.by_key };
}

impl From<BTreeMap<AnyId, Annotation>> for Annotations {
    ghost from_gives = { λ by_key annotations. annotations ≡ map_in by_key };

    fn from(by_key: BTreeMap<AnyId, Annotation>) -> Annotations {
        // That a map's keys ascend is known from its length.
        let _ = by_key.len();
        Annotations { by_key }
    }
}

impl Annotations {
    /// The annotation with a key, if there is one.
    pub fn get(&self, key: &AnyId) -> Option<&Annotation>
        ensures { option_copied result ≡ map.get self.now key.now }
    {
        self.by_key.get(key)
    }

    /// How many annotations there are.
    pub fn len(&self) -> usize
        ensures { result ≡ map.len self.now }
    {
        self.by_key.len()
    }

    /// Whether there is no annotation.
    pub fn is_empty(&self) -> bool
        ensures { IsTrue result ↔ (map.len self.now ≡ 0) }
    {
        self.by_key.is_empty()
    }

    /// The annotations with their keys, in the keys' order.
    pub fn iter(&self) -> Iter<'_, AnyId, Annotation>
        ensures { result ≡ map.entries self.now }
    {
        self.by_key.iter()
    }
}

impl PartialEq for Annotations {
    ghost use Rattle.cedar_policy_store.specs.contracts.annotation.AnnotationEq.TheImpl.Laws as annotation;
    ghost use Rattle.std.specs.Cmp.{partial_equiv_from_equiv};
    ghost use Rattle.cedar_policy_store.specs.TextMap.{same_map_by, same_map_by_equiv};

    ghost eq = { same_map_by ⟦<Annotation as PartialEq>⟧.eq };

    ghost laws = { partial_equiv_from_equiv (same_map_by_equiv annotation.lawful.laws) };

    fn eq(&self, other: &Self) -> bool {
        self.by_key == other.by_key
    }
}

impl Eq for Annotations {
    ghost use Rattle.cedar_policy_store.specs.contracts.annotation.AnnotationEq.TheImpl.Laws as annotation;
    ghost use Rattle.cedar_policy_store.specs.TextMap.{same_map_by_equiv};

    ghost laws = { same_map_by_equiv annotation.lawful.laws };
}

impl TryClone for Annotations {
    fn try_clone(&self) -> Result<Annotations, AllocError> {
        let by_key = self.by_key.clone()?;
        Ok(Annotations::from(by_key))
    }
}

impl Clone for Annotations {
    ghost is_clone = { λ x y. y ≡ x };

    fn clone(&self) -> Result<Annotations, AllocError> {
        self.try_clone()
    }
}

/// Each annotation in the keys' order, as it may be written, with a space behind it: `@id("a") `.
impl fmt::Display for Annotations {
    ghost use Rattle.std.proofs.Common.{Some};
    ghost use Rattle.cedar_policy_store.specs.PolicyText.{annotations_text};

    ghost output = { λ annotations. Some (annotations_text annotations) };

    fn fmt<W: fmt::Write>(&self, f: &mut fmt::Formatter<W>) -> fmt::Result {
        for (key, annotation) in self.iter() {
            write!(f, "@{key}(\"{}\") ", EscapedText::new(annotation.as_str()))?;
        }
        Ok(())
    }
}
