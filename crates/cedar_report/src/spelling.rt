//! Comments and strings that the lexer doesn't see as such, and words between the parentheses of a
//! scope: what is said of a fault of the text before the table is asked.

use crate::outline::Outline;
use crate::search::Hint;
use crate::shapes::said;
use crate::sight::Sight;
use crate::tokens::{Tokens, first_line};
use std::alloc::{AllocError, Global};

const SCOPE_HELP: &str =
    "the scope takes one test a variable: write more in a condition, with `&&` and `||`, or a policy for each";

const COMMENT_HELP: &str = "comments begin with `//` and end with their line";

/// What a comment or a string that the lexer doesn't see as one says of a fault of the text;
/// `None` where there is none.
pub fn look_at_spelling(
    alloc: Global,
    tokens: &Tokens<'_>,
    outline: &Outline,
    sight: &Sight<'_>,
) -> Result<Option<Hint>, AllocError> {
    if let Some(string) = long_string(tokens, sight.first) {
        let start = tokens.start(string);
        let (len, help) = string_help(tokens.word(string));
        return said(alloc, start, start.saturating_add(len), help);
    }
    if is_in_scope(tokens, outline, sight.first) {
        return said(alloc, sight.start, sight.end, SCOPE_HELP);
    }
    if !sight.is_invalid() {
        return Ok(None);
    }
    match comment_before(tokens) {
        Some(comment) => said(
            alloc,
            tokens.start(comment),
            tokens.end(comment.saturating_add(1)),
            COMMENT_HELP,
        ),
        None => Ok(None),
    }
}

// Whether a token is `and` or `or` between the parentheses of a scope.
fn is_in_scope(tokens: &Tokens<'_>, outline: &Outline, index: usize) -> bool {
    if !matches!(tokens.word(index), "and" | "or" | "AND" | "OR") {
        return false;
    }
    match outline.open_before(index) {
        Some(open) => matches!(tokens.word_before(open, 1), "permit" | "forbid"),
        None => false,
    }
}

// The `/` of the last `/*` with no `*/` behind it.
fn comment_before(tokens: &Tokens<'_>) -> Option<usize> {
    let mut found = None;
    for index in 0..tokens.len() {
        let next = index.saturating_add(1);
        if tokens.end(index) == tokens.start(next) {
            match (tokens.word(index), tokens.word(next)) {
                ("/", "*") => found = Some(index),
                ("*", "/") => found = None,
                _ => {}
            }
        }
    }
    found
}

// A string that stands at most three tokens before another and holds a line end.
fn long_string(tokens: &Tokens<'_>, index: usize) -> Option<usize> {
    for back in 1..4usize {
        let word = tokens.word_before(index, back);
        if word.starts_with('"') && word.contains('\n') {
            return index.checked_sub(back);
        }
    }
    None
}

// How much of a string over several lines is shown, and what is said of it.
fn string_help(word: &str) -> (usize, &'static str) {
    let line = first_line(word);
    if line.contains("\\\"") {
        let help =
            "this string goes on behind `\\\"`, which stands for a quote: write `\\\\` for a backslash";
        return (line.len(), help);
    }
    (
        line.len(),
        "this string goes on to the next line: close it by `\"`",
    )
}
