//! What a text may call.

use cedar_expressions::{Id, InternalName, Name, Text, UnreservedId};
use cedar_policy_parser::ExtStyles;
use std::alloc::{AllocError, Global};
use std::collections::BTreeSet;

/// The table of the words behind a call's name: Cedar's own where `cedar` is one of them; else of
/// each `fn:NAME` a function, of each `method:NAME` a method.
pub(crate) fn styles(alloc: Global, words: &str) -> Result<ExtStyles, AllocError> {
    if has_word(words, "cedar") {
        return ExtStyles::cedar(alloc);
    }
    table_named(alloc, words)
}

/// The table of the functions and methods that words name.
fn table_named(alloc: Global, words: &str) -> Result<ExtStyles, AllocError> {
    let mut functions = BTreeSet::new(alloc);
    let mut methods = BTreeSet::new(alloc);
    for word in words.split_whitespace() {
        if let Some(name) = function(alloc, word)? {
            functions.insert(name)?;
        }
        if let Some(id) = method(alloc, word)? {
            methods.insert(id)?;
        }
    }
    Ok(ExtStyles::new(functions, methods))
}

/// What a table has under a name, which may be of several parts.
pub(crate) fn find(alloc: Global, words: &str, text: &str) -> Result<String, AllocError> {
    let styles = styles(alloc, words)?;
    let mut lines = String::new(alloc);
    if let Some(name) = name(alloc, text)? {
        if styles.is_function(&name) {
            lines.push_str("a function")?;
        }
    }
    if let Some(id) = unreserved_id(alloc, text)? {
        if styles.is_method(&id) {
            lines.push_str("a method")?;
        }
    }
    drop(styles);
    Ok(lines)
}

/// Whether a word stands behind a call's name.
pub(crate) fn has_word(words: &str, wanted: &str) -> bool {
    for word in words.split_whitespace() {
        if word == wanted {
            return true;
        }
    }
    false
}

/// The function that a word names.
fn function(alloc: Global, word: &str) -> Result<Option<Name>, AllocError> {
    match word.strip_prefix("fn:") {
        Some(text) => name(alloc, text),
        None => Ok(None),
    }
}

/// The method that a word names.
fn method(alloc: Global, word: &str) -> Result<Option<UnreservedId>, AllocError> {
    match word.strip_prefix("method:") {
        Some(text) => unreserved_id(alloc, text),
        None => Ok(None),
    }
}

/// The name that a text is.
fn name(alloc: Global, text: &str) -> Result<Option<Name>, AllocError> {
    let mut path = Vec::new(alloc);
    for part in text.split("::") {
        match identifier(alloc, part)? {
            Some(id) => path.push(id)?,
            None => return Ok(None),
        }
    }
    match path.pop() {
        Some(last) => Ok(Name::try_from(InternalName::new(last, path)).ok()),
        None => Ok(None),
    }
}

/// The identifier that a text is, if it isn't reserved.
fn unreserved_id(alloc: Global, text: &str) -> Result<Option<UnreservedId>, AllocError> {
    match identifier(alloc, text)? {
        Some(id) => Ok(UnreservedId::try_from(id).ok()),
        None => Ok(None),
    }
}

/// The identifier that a text is.
fn identifier(alloc: Global, text: &str) -> Result<Option<Id>, AllocError> {
    Ok(Id::new(Text::from_str(alloc, text)?))
}
