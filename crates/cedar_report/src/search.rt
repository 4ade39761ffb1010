//! Looks a fault up in the table of mistakes, and fills its hint.

use crate::fit::Clues;
use crate::near::{HERE, Near};
use crate::rows::{Cause, Row, first_row};
use crate::sight::Sight;
use crate::tokens::Tokens;
use std::alloc::{AllocError, Global};

/// What a row says of a fault: where its cause stands, and what to write.
#[derive(Drop)]
pub struct Hint {
    pub start: usize,
    pub end: usize,
    /// empty where there is no more to say than the place
    pub help: String,
}

impl<'t, 'f> Clues<'t, 'f> {
    /// What the table wants to know of a fault.
    pub fn of(tokens: &Tokens<'t>, sight: &Sight<'f>) -> Clues<'t, 'f> {
        Clues {
            code: sight.code,
            kinds: sight.kinds(),
            start: sight.near(tokens),
            operator: near_at(tokens, sight.operator(tokens)),
            name: near_at(tokens, sight.named),
        }
    }
}

// A token with those beside it, where there is one.
fn near_at<'a>(tokens: &Tokens<'a>, index: Option<usize>) -> Option<Near<'a>> {
    match index {
        Some(index) => Some(Near::token(tokens, index)),
        None => None,
    }
}

/// What the table says of a fault; `None` where no row of it fits. Only want of memory refuses it.
pub fn told_by_table(
    alloc: Global,
    tokens: &Tokens<'_>,
    sight: &Sight<'_>,
) -> Result<Option<Hint>, AllocError> {
    let clues = Clues::of(tokens, sight);
    match first_row(&clues) {
        Some(row) => Ok(Some(row_hint(alloc, tokens, sight, &clues, row)?)),
        None => Ok(None),
    }
}

// What a row that fits says of a fault.
fn row_hint(
    alloc: Global,
    tokens: &Tokens<'_>,
    sight: &Sight<'_>,
    clues: &Clues<'_, '_>,
    row: &Row,
) -> Result<Hint, AllocError> {
    let near = clues.near(row.look).copied().unwrap_or(clues.start);
    let (start, end) = match row.cause {
        Cause::Fault => (sight.start, sight.end),
        Cause::Words(from, to) => (tokens.start(near.place(from)), tokens.end(near.place(to))),
        Cause::Behind(place) => (tokens.end(near.place(place)), tokens.end(near.place(place))),
    };
    let help = filled(alloc, row.help, &near)?;
    Ok(Hint { start, end, help })
}

// A hint's text with the words that its signs stand for.
fn filled(alloc: Global, text: &str, near: &Near<'_>) -> Result<String, AllocError> {
    let mut out = String::new(alloc);
    let mut is_sign = false;
    for c in text.chars() {
        if is_sign {
            out.push_str(near.word(place_of(c)))?;
            is_sign = false;
        } else if c == '$' {
            is_sign = true;
        } else {
            out.push(c)?;
        }
    }
    Ok(out)
}

// Where the word that a sign stands for stands among those of a `Near`.
fn place_of(sign: char) -> usize {
    match sign {
        'a' => HERE - 2,
        'b' => HERE - 1,
        'n' => HERE + 1,
        'm' => HERE + 2,
        _ => HERE,
    }
}
