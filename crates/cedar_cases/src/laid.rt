//! The layout: what it gives for a text, and what has to hold of it for each text of policies.

use crate::conversions::same;
use crate::faults::{Told, tell_failure};
use crate::reports::add;
use cedar_lexer::lexer::Lexer;
use cedar_lexer::token::Token;
use cedar_policy_parser::{LayoutOptions, layout_policies};
use cedar_syntax::cst::Policies;
use cedar_syntax::node::Node;
use cedar_text::text_to_cst::parse_policies;
use std::alloc::{AllocError, Global};

/// The widths at which each text of policies is tried.
const WIDTHS: [usize; 4] = [1, 20, 80, 10_000];

/// The text laid out, or its faults, under the usual options but for what the words say: `width:N`
/// and `indent:N`.
pub(crate) fn answer(alloc: Global, words: &str, text: &str) -> Result<String, AllocError> {
    laid_out(alloc, text, &options(words))
}

/// The options that words name.
pub(crate) fn options(words: &str) -> LayoutOptions {
    let mut options = LayoutOptions::default();
    for word in words.split_whitespace() {
        if let Some(width) = number_behind(word, "width:") {
            options.width = width;
        }
        if let Some(indent) = number_behind(word, "indent:") {
            options.indent = indent;
        }
    }
    options
}

fn number_behind(word: &str, name: &str) -> Option<usize> {
    word.strip_prefix(name)?.parse().ok()
}

fn laid_out(alloc: Global, text: &str, options: &LayoutOptions) -> Result<String, AllocError> {
    match layout_policies(alloc, text, options) {
        Ok(laid) => Ok(laid),
        Err(failure) => tell_failure(alloc, Told::Message, failure),
    }
}

/// Puts a line behind those that are there for each width at which a text of policies isn't laid
/// out to one with the same words, comments and tree, which is laid out to itself, or at which one
/// that has no tree has other faults for the layout. (Of texts between which a line `==` stands,
/// each.)
pub(crate) fn lays_out(alloc: Global, lines: &mut String, text: &str) -> Result<(), AllocError> {
    for part in text.split("\n==\n") {
        for width in WIDTHS {
            add_change(alloc, lines, part, width)?;
        }
    }
    Ok(())
}

fn add_change(
    alloc: Global,
    lines: &mut String,
    text: &str,
    width: usize,
) -> Result<(), AllocError> {
    let options = LayoutOptions {
        width,
        ..LayoutOptions::default()
    };
    match change(alloc, text, &options)? {
        Some(told) => {
            let line = format!(in alloc; "laid out at {width} it {told}")?;
            add(lines, line.as_str())
        }
        None => Ok(()),
    }
}

/// What the layout of a text changes, if anything.
fn change(
    alloc: Global,
    text: &str,
    options: &LayoutOptions,
) -> Result<Option<&'static str>, AllocError> {
    let laid = laid_out(alloc, text, options)?;
    let once = parse_policies(alloc, text);
    let twice = parse_policies(alloc, laid.as_str());
    let told = same::<Node<Option<Policies>>>(alloc, once, twice)?;
    if told.as_str() != "the same" {
        return Ok((told != laid).then_some("has another tree, or other faults"));
    }
    if laid_out(alloc, laid.as_str(), options)? != laid {
        return Ok(Some("isn't what it is laid out to"));
    }
    if pieces(alloc, text)? != pieces(alloc, laid.as_str())? {
        return Ok(Some("has other words or comments"));
    }
    Ok((!is_clean(laid.as_str())).then_some("has a line whose end isn't clean"))
}

/// The words and the comments of a text, in lines. A comment is told as below where a line ends
/// between the word before it and it.
fn pieces(alloc: Global, text: &str) -> Result<String, AllocError> {
    let mut lines = String::new(alloc);
    let mut end = 0;
    for answer in Lexer::new(text) {
        if let Ok(token) = answer {
            add_comments(alloc, &mut lines, end, gap(text, end, token.start))?;
            add_word(alloc, &mut lines, &token)?;
            end = token.end;
        }
    }
    add_comments(alloc, &mut lines, end, gap(text, end, text.len()))?;
    Ok(lines)
}

/// What stands between two places of a text.
fn gap(text: &str, start: usize, end: usize) -> &str {
    text.get(start..end).unwrap_or("")
}

fn add_word(alloc: Global, lines: &mut String, token: &Token<'_>) -> Result<(), AllocError> {
    let line = format!(in alloc; "{} {}", token.kind.name(), token.text)?;
    add(lines, line.as_str())
}

/// Puts the comments of a gap, which begins at a place of a text, behind the lines that are there.
fn add_comments(
    alloc: Global,
    lines: &mut String,
    start: usize,
    gap: &str,
) -> Result<(), AllocError> {
    let mut is_below = start == 0;
    for line in gap.split('\n') {
        add_comments_of(alloc, lines, line, is_below)?;
        is_below = true;
    }
    Ok(())
}

/// Puts the comments of a gap's line behind the lines that are there. The first is told as below
/// where a line ended before, and each later one is.
fn add_comments_of(
    alloc: Global,
    lines: &mut String,
    line: &str,
    mut is_below: bool,
) -> Result<(), AllocError> {
    for part in line.split('\r') {
        if let Some((_, comment)) = part.split_once("//") {
            let place = if is_below { "below" } else { "beside" };
            let comment = comment.trim_end_matches(is_blank);
            add(lines, format!(in alloc; "{place} //{comment}")?.as_str())?;
            is_below = true;
        }
    }
    Ok(())
}

fn is_blank(character: char) -> bool {
    matches!(character, ' ' | '\t' | '\u{b}' | '\u{c}')
}

/// Whether no line ends with white space, but within a word, and a line end is the last character.
fn is_clean(text: &str) -> bool {
    let mut end = 0;
    for answer in Lexer::new(text) {
        if let Ok(token) = answer {
            if !ends_cleanly(gap(text, end, token.start)) {
                return false;
            }
            end = token.end;
        }
    }
    ends_cleanly(gap(text, end, text.len())) && (text.is_empty() || text.ends_with('\n'))
}

fn ends_cleanly(gap: &str) -> bool {
    match gap.rsplit_once('\n') {
        Some((lines, _)) => lines.split('\n').all(|line| !line.ends_with(is_blank)),
        None => true,
    }
}
