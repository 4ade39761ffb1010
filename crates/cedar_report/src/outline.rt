//! The brackets of a text and the annotations of its policies, told from its tokens in one pass.

use crate::tokens::{Tokens, closes, opens};
use std::alloc::{AllocError, Global};
use std::collections::HashMap;

/// How many brackets outwards are looked at.
const REACH: usize = 32;

/// An annotation whose key stood before in its policy.
#[derive(Clone, Copy)]
struct Repeat {
    /// its `@`
    at: usize,
    /// the `@` of the first with this key
    first: usize,
}

/// The innermost open bracket before each token, and the annotations that repeat a key.
#[derive(Drop)]
pub struct Outline {
    open: Vec<Option<usize>>,
    repeats: Vec<Repeat>,
}

/// The bracket that closes another.
pub fn closing(word: &str) -> &'static str {
    match word {
        "(" => ")",
        "[" => "]",
        _ => "}",
    }
}

// Whether a policy begins at a token, as far as words tell: at its effect before a `(`, or at an
// annotation with a value.
fn begins_policy(tokens: &Tokens<'_>, index: usize) -> bool {
    match tokens.word(index) {
        "permit" | "forbid" => tokens.word(index.saturating_add(1)) == "(",
        "@" => tokens.word(index.saturating_add(2)) == "(",
        _ => false,
    }
}

impl Outline {
    /// The outline of a text. A bracket that closes another one closes the last that is open. Only
    /// want of memory refuses it.
    pub fn of(alloc: Global, tokens: &Tokens<'_>) -> Result<Outline, AllocError> {
        Ok(Outline {
            open: open_before_each(alloc, tokens)?,
            repeats: repeats(alloc, tokens)?,
        })
    }

    /// The innermost bracket of the policy that is opened before a token and not closed.
    pub fn open_before(&self, index: usize) -> Option<usize> {
        match self.open.get(index) {
            Some(open) => *open,
            None => self.open.last().copied().flatten(),
        }
    }

    /// Whether one of the brackets that stand open before a token is closed by this one.
    pub fn closes_open(&self, tokens: &Tokens<'_>, index: usize, word: &str) -> bool {
        let mut at = index;
        for _ in 0..REACH {
            match self.open_before(at) {
                None => return false,
                Some(open) if closing(tokens.word(open)) == word => return true,
                Some(open) => at = open,
            }
        }
        true
    }

    /// The `@` of the first annotation whose key the one at this token repeats.
    pub fn first_annotation(&self, index: usize) -> Option<usize> {
        let place = self.repeats.partition_point(|repeat| repeat.at < index);
        match self.repeats.get(place) {
            Some(repeat) if repeat.at == index => Some(repeat.first),
            _ => None,
        }
    }
}

// The innermost open bracket before each token, and behind the last.
fn open_before_each(alloc: Global, tokens: &Tokens<'_>) -> Result<Vec<Option<usize>>, AllocError> {
    let mut open = Vec::new(alloc);
    let mut stack = Vec::new(alloc);
    for index in 0..tokens.len() {
        if tokens.word_before(index, 1) == ";" {
            stack.clear();
        }
        open.push(stack.last().copied())?;
        // What the policy before has left open stands open before this one's first word, too.
        if begins_policy(tokens, index) {
            stack.clear();
        }
        let word = tokens.word(index);
        if opens(word) {
            stack.push(index)?;
        } else if closes(word) {
            let _ = stack.pop();
        }
    }
    open.push(stack.last().copied())?;
    Ok(open)
}

// The annotations that repeat a key of their policy.
fn repeats(alloc: Global, tokens: &Tokens<'_>) -> Result<Vec<Repeat>, AllocError> {
    let mut repeats = Vec::new(alloc);
    let mut keys: HashMap<&str, usize> = HashMap::new(alloc);
    for index in 0..tokens.len() {
        match tokens.word(index) {
            ";" if !keys.is_empty() => keys = HashMap::new(alloc),
            "@" => {
                let key = tokens.word(index.saturating_add(1));
                match keys.get(key) {
                    Some(first) => repeats.push(Repeat {
                        at: index,
                        first: *first,
                    })?,
                    None => {
                        keys.insert(key, index)?;
                    }
                }
            }
            _ => {}
        }
    }
    Ok(repeats)
}

/// The last token before `index` that is spelled so, between the same brackets.
pub fn sign_before(tokens: &Tokens<'_>, index: usize, word: &str) -> Option<usize> {
    let mut depth = 0usize;
    for at in (0..index).rev() {
        let here = tokens.word(at);
        if closes(here) {
            depth = depth.saturating_add(1);
        } else if opens(here) {
            depth = depth.checked_sub(1)?;
        } else if depth == 0 && here == word {
            return Some(at);
        }
    }
    None
}
