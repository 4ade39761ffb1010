//! Mistakes that are told by more than the words beside a token: brackets, strings that are never
//! closed, names near to another one, escapes.

use crate::names::{CONDITIONS, EFFECTS, VARIABLES, functions_of, methods_of, nearest};
use crate::outline::{Outline, closing, sign_before};
use crate::search::Hint;
use crate::sight::Sight;
use crate::tokens::{Tokens, closes, first_line, part};
use cedar_lexer::token::TokenKind;
use cedar_policy_parser::ExtStyles;
use cedar_syntax::err::{ParseError, ToASTErrorKind, UnescapeError};
use std::alloc::{AllocError, Global};

const ESCAPES: &str =
    "escapes are `\\n`, `\\r`, `\\t`, `\\\\`, `\\0`, `\\'`, `\\\"`, `\\x41`, `\\u{1F600}`, and `\\*` in a pattern";

const ENDED_HELP: &str = "`;` belongs behind the `}`: delete it here, and end the policy with `};`";

const ACCESS_HELP: &str =
    "an attribute stands behind one of `principal`, `action`, `resource` and `context`";

const UNICODE_HELP: &str = "write the digits in braces: `\\u{1234}`";

/// A hint at these bytes. Only want of memory refuses it.
pub fn said(
    alloc: Global,
    start: usize,
    end: usize,
    help: &str,
) -> Result<Option<Hint>, AllocError> {
    let help = String::from_str(alloc, help)?;
    Ok(Some(Hint { start, end, help }))
}

/// What the shape of a text says of a fault; `None` where it says nothing. Only want of memory
/// refuses it.
pub fn look_at_shape(
    alloc: Global,
    tokens: &Tokens<'_>,
    outline: &Outline,
    styles: &ExtStyles,
    sight: &Sight<'_>,
) -> Result<Option<Hint>, AllocError> {
    if sight.is_invalid() {
        of_invalid(alloc, tokens, sight)
    } else if sight.is_of_text() {
        of_text(alloc, tokens, outline, sight)
    } else {
        of_tree(alloc, tokens, styles, sight)
    }
}

// What is said of a token, or of the end, that can't stand there.
fn of_text(
    alloc: Global,
    tokens: &Tokens<'_>,
    outline: &Outline,
    sight: &Sight<'_>,
) -> Result<Option<Hint>, AllocError> {
    let index = sight.first;
    if let Some(sign) = sign_of_key(tokens, sight) {
        return said(
            alloc,
            tokens.start(sign),
            tokens.end(sign),
            "write `:` between a record's key and its value",
        );
    }
    let word = tokens.word(index);
    if closes(word) && !outline.closes_open(tokens, index, word) {
        return of_closing(alloc, tokens, outline, sight);
    }
    match outline.open_before(index) {
        Some(open) => of_open(alloc, tokens, sight, open),
        None => Ok(None),
    }
}

// What is said of a bracket that closes none of those that are open.
fn of_closing(
    alloc: Global,
    tokens: &Tokens<'_>,
    outline: &Outline,
    sight: &Sight<'_>,
) -> Result<Option<Hint>, AllocError> {
    let word = tokens.word(sight.first);
    let opened = match outline.open_before(sight.first) {
        Some(open) => tokens.word(open),
        None => "",
    };
    if matches!(opened, "(" | "[") {
        let wanted = closing(opened);
        let help = format!(in alloc;
            "write `{wanted}` for `{word}`: it closes the `{opened}` before"
        )?;
        return said(alloc, sight.start, sight.end, help.as_str());
    }
    if let Some(end) = early_end(tokens, outline, sight) {
        return said(alloc, tokens.start(end), tokens.end(end), ENDED_HELP);
    }
    let help = format!(in alloc; "this `{word}` closes nothing: delete it, or open it before")?;
    said(alloc, sight.start, sight.end, help.as_str())
}

// The `;` straight before a `}`, where that closes the `{` that stood open before the `;`.
fn early_end(tokens: &Tokens<'_>, outline: &Outline, sight: &Sight<'_>) -> Option<usize> {
    let end = sight.first.checked_sub(1)?;
    let open = outline.open_before(end)?;
    let is_early = tokens.word(sight.first) == "}"
        && tokens.word(end) == ";"
        && tokens.word(open) == "{";
    if is_early { Some(end) } else { None }
}

// A `=` between a key and its value, where a `:` could have stood.
fn sign_of_key(tokens: &Tokens<'_>, sight: &Sight<'_>) -> Option<usize> {
    if sight.kinds().contains(&TokenKind::Colon) {
        sign_before(tokens, sight.first, "=")
    } else {
        None
    }
}

// What is said of a string that is never closed, at the place where it begins.
fn of_invalid(
    alloc: Global,
    tokens: &Tokens<'_>,
    sight: &Sight<'_>,
) -> Result<Option<Hint>, AllocError> {
    let line = first_line(part(tokens.text, sight.start, tokens.text.len()));
    if !line.starts_with('"') {
        return Ok(None);
    }
    let end = sight.start.saturating_add(line.trim_end().len());
    said(alloc, sight.start, end, open_string_help(line))
}

// What is said of a string that isn't closed in its line.
fn open_string_help(line: &str) -> &'static str {
    if line.contains("\\\"") {
        "this string is never closed: `\\\"` stands for a quote in it, and `\\\\` for a backslash"
    } else if line.contains('\'') || line.contains('”') || line.contains('“') {
        "this string is never closed: close it by `\"`"
    } else {
        "this string is never closed"
    }
}

// What is said of a token before which a bracket stands open.
fn of_open(
    alloc: Global,
    tokens: &Tokens<'_>,
    sight: &Sight<'_>,
    open: usize,
) -> Result<Option<Hint>, AllocError> {
    let index = sight.first;
    let word = tokens.word(index);
    let opened = tokens.word(open);
    if word == ";" && opened == "{" && tokens.word(index.saturating_add(1)) == "}" {
        return said(alloc, sight.start, sight.end, ENDED_HELP);
    }
    if word == "," && opened == "(" && tokens.word_before(open, 1) == "in" {
        return said(
            alloc,
            tokens.start(open),
            tokens.end(open),
            "a set stands in brackets: `in [.., ..]`",
        );
    }
    let missing = closing(opened);
    if !ends_something(word) || word == missing {
        return Ok(None);
    }
    let behind = tokens.end(index.saturating_sub(1));
    let help = format!(in alloc; "a `{missing}` is missing here")?;
    said(alloc, behind, behind, help.as_str())
}

/// Whether a word, or the text's end, can stand behind no open bracket but its own.
pub fn ends_something(word: &str) -> bool {
    matches!(
        word,
        "" | ";" | ")" | "]" | "}" | "when" | "unless" | "permit" | "forbid"
    )
}

// What is said of a tree that has no value.
fn of_tree(
    alloc: Global,
    tokens: &Tokens<'_>,
    styles: &ExtStyles,
    sight: &Sight<'_>,
) -> Result<Option<Hint>, AllocError> {
    match sight.code {
        "UnknownMethod" => near_name(alloc, tokens, sight, methods_of(alloc, styles)?),
        "UnknownFunction" => near_name(alloc, tokens, sight, functions_of(alloc, styles)?),
        "WrongArity" => placed(alloc, tokens, sight.named),
        "ArbitraryVariable" | "InvalidAccess" => of_variable(alloc, tokens, sight),
        "InvalidEffect" => near_word(alloc, tokens, sight.first, EFFECTS),
        "InvalidCondition" => near_word(alloc, tokens, sight.first, CONDITIONS),
        "Unescape" => of_escape(alloc, tokens, sight),
        _ => Ok(None),
    }
}

// The variable to which a name is nearest, else what could have been meant by it.
fn of_variable(
    alloc: Global,
    tokens: &Tokens<'_>,
    sight: &Sight<'_>,
) -> Result<Option<Hint>, AllocError> {
    if let Some(hint) = near_word(alloc, tokens, sight.first, VARIABLES)? {
        return Ok(Some(hint));
    }
    let (start, end) = (tokens.start(sight.first), tokens.end(sight.first));
    if sight.code == "InvalidAccess" {
        return said(alloc, start, end, ACCESS_HELP);
    }
    let word = tokens.word(sight.first);
    let help = format!(in alloc;
        "a text stands in quotes, `\"{word}\"`, an attribute behind its owner, as `principal.{word}`"
    )?;
    said(alloc, start, end, help.as_str())
}

// A fault at its name, with nothing more to say.
fn placed(
    alloc: Global,
    tokens: &Tokens<'_>,
    index: Option<usize>,
) -> Result<Option<Hint>, AllocError> {
    match index {
        Some(index) => said(alloc, tokens.start(index), tokens.end(index), ""),
        None => Ok(None),
    }
}

// The nearest of some names to that of which a fault speaks, else the place of that one.
fn near_name(
    alloc: Global,
    tokens: &Tokens<'_>,
    sight: &Sight<'_>,
    names: Vec<&str>,
) -> Result<Option<Hint>, AllocError> {
    let Some(index) = sight.named else {
        return Ok(None);
    };
    match near_word(alloc, tokens, index, names.as_slice())? {
        Some(hint) => Ok(Some(hint)),
        None => placed(alloc, tokens, Some(index)),
    }
}

// The nearest of some names to a token, unless it is one of them.
fn near_word(
    alloc: Global,
    tokens: &Tokens<'_>,
    index: usize,
    names: &[&str],
) -> Result<Option<Hint>, AllocError> {
    let word = tokens.word(index);
    match nearest(alloc, word, names)? {
        Some(name) if name != word => {
            let help = format!(in alloc; "write `{name}`")?;
            said(alloc, tokens.start(index), tokens.end(index), help.as_str())
        }
        _ => Ok(None),
    }
}

// The place of a piece of a string that is no escape.
fn of_escape(
    alloc: Global,
    tokens: &Tokens<'_>,
    sight: &Sight<'_>,
) -> Result<Option<Hint>, AllocError> {
    let Some(escape) = escape_of(sight.fault) else {
        return Ok(None);
    };
    let raw = part(escape.input.as_str(), escape.range.start, escape.range.end);
    let whole = part(tokens.text, sight.start, sight.end);
    let Some(front) = bytes_before(whole, escape.input.as_str()) else {
        return Ok(None);
    };
    let start = sight
        .start
        .saturating_add(front)
        .saturating_add(escape.range.start);
    let end = start.saturating_add(raw.len());
    if raw.starts_with("\\u") && !raw.starts_with("\\u{") {
        return said(alloc, start, end, UNICODE_HELP);
    }
    let help = format!(in alloc; "write `\\{raw}` for a backslash; {ESCAPES}")?;
    said(alloc, start, end, help.as_str())
}

// How many bytes stand before a raw text: a quote where all else is the string itself, which isn't
// searched then, since a string has a fault for each escape.
fn bytes_before(whole: &str, raw: &str) -> Option<usize> {
    if whole.len() == raw.len().saturating_add(2) {
        return Some(1);
    }
    match whole.split_once(raw) {
        Some((front, _)) => Some(front.len()),
        None => None,
    }
}

// The piece of a string that a fault tells to be no escape.
fn escape_of(fault: &ParseError) -> Option<&UnescapeError> {
    match fault {
        ParseError::ToCST(_) => None,
        ParseError::ToAST(fault) => match fault.kind() {
            ToASTErrorKind::Unescape(escape) => Some(escape),
            _ => None,
        },
    }
}
