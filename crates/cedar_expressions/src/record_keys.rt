//! The first key of a record that stands twice.
ghost use Rattle.std.specs.Prelude.{◌≡◌, IfOk, IfErr, OnOk, map, false};
ghost use Rattle.cedar_expressions.specs.Keys.{IsRepeatedKey, RefusesKeys, repeats_key};

use crate::{ExpressionConstructionError, RecordError, Text, TryClone};
use std::alloc::{AllocError, Global};
use std::collections::BTreeSet;

/// The first key that was there before, copied, if there is one.
fn repeated_key<T>(alloc: Global, pairs: &[(Text, T)]) -> Result<Option<Text>, AllocError>
    ensures { IfOk result (λ found. IsRepeatedKey found (map (λ p. p.0) pairs.now)) }
{
    let mut seen = BTreeSet::new(alloc);
    for (key, _) in pairs {
        if !seen.insert(key.as_str())? {
            return Ok(Some(key.try_clone()?));
        }
    }
    Ok(None)
}

/// Refuses pairs among whose keys one stands twice.
pub(crate) fn refuse_repeated_key<T>(alloc: Global, pairs: &[(Text, T)]) -> Result<(), RecordError>
    ensures ok { OnOk result (repeats_key (map (λ p. p.0) pairs.now) ≡ false) }
    ensures err { IfErr result (λ error. RefusesKeys error (map (λ p. p.0) pairs.now)) }
{
    match repeated_key(alloc, pairs)? {
        None => Ok(()),
        Some(key) => Err(RecordError::Construction(ExpressionConstructionError::duplicate_key(
            key,
        ))),
    }
}
