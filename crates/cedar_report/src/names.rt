//! Names that the language has, and which of them a word is nearest to.

use cedar_policy_parser::ExtStyles;
use std::alloc::{AllocError, Global};
use strsim::osa_distance;

/// The methods of the language itself, which are in no table.
const OF_LANGUAGE: &[&str] = &[
    "contains",
    "containsAll",
    "containsAny",
    "isEmpty",
    "hasTag",
    "getTag",
];

/// The variables of a condition.
pub const VARIABLES: &[&str] = &["principal", "action", "resource", "context"];

/// The effects of policies.
pub const EFFECTS: &[&str] = &["permit", "forbid"];

/// The words that begin conditions.
pub const CONDITIONS: &[&str] = &["when", "unless"];

/// Longer words are near to no name.
const LONGEST: usize = 64;

/// The methods that a text may call under these styles. Only want of memory refuses it.
pub fn methods_of<'a>(alloc: Global, styles: &'a ExtStyles) -> Result<Vec<&'a str>, AllocError> {
    let mut known = Vec::new(alloc);
    for name in OF_LANGUAGE {
        known.push(*name)?;
    }
    for method in styles.methods() {
        known.push(method.as_str())?;
    }
    Ok(known)
}

/// The functions that a text may call under these styles by an identifier alone, the same.
pub fn functions_of<'a>(alloc: Global, styles: &'a ExtStyles) -> Result<Vec<&'a str>, AllocError> {
    let mut known = Vec::new(alloc);
    for function in styles.functions() {
        if function.as_internal().namespace_components().is_empty() {
            known.push(function.basename().as_str())?;
        }
    }
    Ok(known)
}

/// The name to which a word is nearest, where it is near to one: equal but for capital letters, or
/// with at most a third of its letters changed. Only want of memory refuses it.
pub fn nearest<'a>(
    alloc: Global,
    word: &str,
    names: &[&'a str],
) -> Result<Option<&'a str>, AllocError> {
    if word.len() > LONGEST {
        return Ok(None);
    }
    let mut limit = word.len() / 3;
    let mut found = None;
    for name in names {
        if word.eq_ignore_ascii_case(*name) {
            return Ok(Some(*name));
        }
        let distance = osa_distance(alloc, word, *name)?;
        if distance <= limit && (found.is_none() || distance < limit) {
            limit = distance;
            found = Some(*name);
        }
    }
    Ok(found)
}
