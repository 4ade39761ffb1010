//! What the words of a run ask for: its command, and the extension functions and methods that a
//! text may call.
//!
//! The words are judged before input is read, and judging takes no memory; the request is made of
//! them once a text is there, and nothing looks at the words after that.
ghost use Rattle.std.specs.Prelude.{◌≡◌, ◌≢◌, ◌↔◌, ℕ, true, false, List, Some, None, IsTrue, IfOk, MatchOption, string_bytes};
ghost use Rattle.std.specs.BTreeSet.{contains};
ghost use Rattle.std.specs.List.{AllByRecursion, list_any};
ghost use Rattle.cedar_expressions.specs.Path.{Path, name_text, is_unreserved_identifier};
ghost use Rattle.cedar_conversion.specs.strict.Table.{table_of};
ghost use Rattle.cedar_command.specs.Request.{AsksFor, AsksForNothing, IsStyle, SpellsName, IsFoundName, IsCut, IsUncut, is_unreserved_name, names_function, word_names_method, styles_of, command_word};

use cedar_expressions::{Id, InternalName, Name, Text, UnreservedId};
use cedar_policy_parser::ExtStyles;
use std::alloc::{AllocError, Global};
use std::collections::BTreeSet;

/// What a run makes of its text.
#[derive(Clone, Copy)]
pub enum Command {
    /// `expr`: an expression.
    Expression,
    /// `policies`: a set of policies.
    Policies,
    /// `format`: a set of policies, laid out anew.
    Format,
}

/// What a run is asked for: what it makes of its text, and what this may call.
#[derive(Drop)]
pub(crate) struct Request {
    pub command: Command,
    pub styles: ExtStyles,
}

/// The request of words that ask for a command.
pub(crate) fn request_of(
    alloc: Global,
    command: Command,
    words: &[String],
) -> Result<Request, AllocError>
    ensures { IfOk result (λ request. (request.command ≡ command)
        × (table_of request.styles ≡ styles_of words.now)) }
{
    Ok(Request {
        command,
        styles: table_named(alloc, words)?,
    })
}

/// The command that the words ask for: its word, with words that name extension functions and
/// methods behind it.
pub fn command_of(words: &[String]) -> Option<Command>
    ensures { MatchOption result (AsksForNothing words.now)
        (λ command. AsksFor command words.now) }
{
    let (word, styles) = words.split_first()?;
    let command = command_named(word.as_str())?;
    if are_styles(styles) {
        Some(command)
    } else {
        None
    }
}

/// The command of a word, if it has one.
fn command_named(word: &str) -> Option<Command>
    ensures { MatchOption result ((command : Command) → word.now ≢ command_word command)
        (λ command. word.now ≡ command_word command) }
{
    match word {
        "expr" => Some(Command::Expression),
        "policies" => Some(Command::Policies),
        "format" => Some(Command::Format),
        _ => None,
    }
}

/// The table of the functions and methods that the words name; a command's word names none.
pub fn table_named(alloc: Global, words: &[String]) -> Result<ExtStyles, AllocError>
    ensures { IfOk result (λ styles. table_of styles ≡ styles_of words.now) }
{
    let functions = functions_of(alloc, words)?;
    Ok(ExtStyles::new(functions, methods_of(alloc, words)?))
}

fn are_styles(words: &[String]) -> bool
    ensures { IsTrue result ↔ AllByRecursion (λ word. IsStyle (string_bytes word)) words.now }
{
    for word in words {
        if !is_style(word.as_str()) {
            return false;
        }
    }
    true
}

/// Whether a word is `fn:` and a name, or `method:` and an identifier.
fn is_style(word: &str) -> bool
    ensures { IsTrue result ↔ IsStyle word.now }
{
    match word.strip_prefix("fn:") {
        Some(name) => is_name(name),
        None => match word.strip_prefix("method:") {
            Some(id) => UnreservedId::is_spelled(id),
            None => false,
        },
    }
}

fn functions_of(alloc: Global, words: &[String]) -> Result<BTreeSet<Name>, AllocError>
    ensures { IfOk result (λ set. (name : Path) → contains ⟦<Name as Ord>⟧.cmp set name
        ≡ list_any (λ word. names_function name (string_bytes word)) words.now) }
{
    let mut functions = BTreeSet::new(alloc);
    for word in words {
        if let Some(name) = function_of(alloc, word.as_str())? {
            functions.insert(name)?;
        }
    }
    Ok(functions)
}

fn methods_of(alloc: Global, words: &[String]) -> Result<BTreeSet<UnreservedId>, AllocError>
    ensures { IfOk result (λ set. (id : List ℕ) → contains ⟦<UnreservedId as Ord>⟧.cmp set id
        ≡ list_any (λ word. word_names_method id (string_bytes word)) words.now) }
{
    let mut methods = BTreeSet::new(alloc);
    for word in words {
        if let Some(id) = method_of(alloc, word.as_str())? {
            methods.insert(id)?;
        }
    }
    Ok(methods)
}

/// The function that a word names.
fn function_of(alloc: Global, word: &str) -> Result<Option<Name>, AllocError>
    ensures { IfOk result (λ found. IsFoundName (λ name. names_function name word.now) found) }
{
    match word.strip_prefix("fn:") {
        Some(text) => name_of(alloc, text),
        None => Ok(None),
    }
}

/// The method that a word names.
fn method_of(alloc: Global, word: &str) -> Result<Option<UnreservedId>, AllocError>
    ensures { IfOk result (λ found. IsFoundName (λ id. word_names_method id word.now) found) }
{
    match word.strip_prefix("method:") {
        Some(text) => id_of(alloc, text),
        None => Ok(None),
    }
}

/// Whether a text is identifiers joined by `::`, none of them reserved.
fn is_name(text: &str) -> bool
    ensures { IsTrue result ↔ SpellsName text.now }
{
    let mut rest = text;
    while let Some((part, behind)) = first_part(rest) {
        if !UnreservedId::is_spelled(part) {
            return false;
        }
        rest = behind;
    }
    UnreservedId::is_spelled(rest)
}

/// The name that a text spells, if it spells one.
fn name_of(alloc: Global, text: &str) -> Result<Option<Name>, AllocError>
    ensures { IfOk result (λ found. MatchOption found (¬ SpellsName text.now)
        (λ name. (is_unreserved_name name ≡ true) × (name_text name ≡ text.now))) }
{
    let mut path = Vec::new(alloc);
    let mut rest = text;
    while let Some((part, behind)) = first_part(rest) {
        let Some(id) = id_of(alloc, part)? else {
            return Ok(None);
        };
        path.push(Id::from(id))?;
        rest = behind;
    }
    match id_of(alloc, rest)? {
        Some(last) => Ok(name_from(path, last)),
        None => Ok(None),
    }
}

/// The name of a last identifier and those before it, of which none is reserved.
fn name_from(path: Vec<Id>, last: UnreservedId) -> Option<Name>
    requires { is_unreserved_name (record { path = path.items; id = last }) ≡ true }
    ensures { result ≡ Some (record { path = path.items; id = last }) }
{
    match Name::try_from(InternalName::new(Id::from(last), path)) {
        Ok(name) => Some(name),
        Err(_) => None,
    }
}

/// The identifier that a text spells, if it spells one that isn't reserved.
fn id_of(alloc: Global, text: &str) -> Result<Option<UnreservedId>, AllocError>
    ensures { IfOk result (λ found. MatchOption found (is_unreserved_identifier text.now ≡ false)
        (λ id. (id ≡ text.now) × (is_unreserved_identifier text.now ≡ true))) }
{
    let text = Text::from_str(alloc, text)?;
    match Id::new(text) {
        Some(id) => Ok(UnreservedId::unless_reserved(id).ok()),
        None => Ok(None),
    }
}

/// What stands before the first colon and what stands behind it, where another one follows it
/// there.
fn first_part(text: &str) -> Option<(&str, &str)>
    ensures { MatchOption result (IsUncut text.now)
        (λ parts. IsCut text.now parts.0.now parts.1.now) }
{
    let (part, behind) = text.split_once(':')?;
    Some((part, behind.strip_prefix(':')?))
}
