//! The beginnings of a case's text, cut between characters: each is given to the case's call,
//! which accepts it, or refuses it where it has to. So a new case tries its beginnings without
//! another line.
//!
//! Where that is, the case's own lines say, and not the parser (but where a text has a bad place
//! or too large a number: there the shortest beginning that is refused at one of its tokens names
//! the token). The tokens of a beginning are the text's first ones, but for its last, where the
//! cut goes through a token. So a beginning that ends before the token at which the whole text is
//! refused is accepted, or ends too early, behind its last token; one that ends behind that token
//! is refused at it; and a token that was cut in two may be refused itself. These are the places
//! that the parse calls promise where tokens and numbers are valid: one fault stands left of all
//! others, at the first token that no sentence allows. Elsewhere a beginning has to be refused. (A
//! call on a text without a tree, or a run, says nothing of tokens: of its text only the tokens
//! are compared.)

use crate::calls::{answer, reads_trees, refusal};
use cedar_lexer::lexer::Lexer;
use cedar_lexer::token::{Token, TokenKind};
use cedar_syntax::err::{Failure, ParseError, ParseErrors, RawFault};
use std::alloc::{AllocError, Global};

/// How the beginnings of a text went.
#[derive(Drop)]
pub(crate) struct Beginnings {
    pub(crate) tried: u64,
    pub(crate) astray: u64,
    /// What is said of those that went astray.
    pub(crate) told: String,
}

/// What a text is cut into.
#[derive(Drop)]
struct Cut {
    /// The bytes of each token, up to the first place where none begins.
    tokens: Vec<(usize, usize)>,
    /// Whether there is no such place, and each number fits.
    is_valid: bool,
}

/// What is known of a case's text.
#[derive(Drop)]
struct Row {
    whole: Cut,
    /// The bytes of the token at which the text is refused.
    refused: Option<(usize, usize)>,
    /// Whether the case says which token that is, or that there is none; else the shortest
    /// beginning does that is refused at a token of the text.
    is_pinned: bool,
}

/// How a call answers a text.
#[derive(Clone, Copy, PartialEq)]
enum Reply {
    /// The text has a tree.
    Accepted,
    /// The leftmost fault is the token that begins at this byte.
    RefusedAt(usize),
    /// The leftmost fault is the text's end, at this byte.
    EndsAt(usize),
    /// Another fault stands leftmost, or several.
    Unclear,
}

/// Tries all beginnings of a case's text that are shorter than it. (Of two texts, between which a
/// line `==` stands, the first.)
pub(crate) fn try_beginnings(
    alloc: Global,
    section: &str,
    text: &str,
    wanted: &str,
) -> Result<Beginnings, AllocError> {
    let (text, _) = text.split_once("\n==\n").unwrap_or((text, ""));
    let mut row = row_of(alloc, text, wanted)?;
    let mut went = Beginnings {
        tried: 0,
        astray: 0,
        told: String::new(alloc),
    };
    for end in 0..text.len() {
        if let Some(beginning) = text.get(..end) {
            went.add(alloc, section, &mut row, beginning)?;
        }
    }
    drop(row);
    Ok(went)
}

impl Beginnings {
    /// Tries one.
    fn add(
        &mut self,
        alloc: Global,
        section: &str,
        row: &mut Row,
        beginning: &str,
    ) -> Result<(), AllocError> {
        self.tried = self.tried.saturating_add(1);
        let cut = cut_of(alloc, beginning)?;
        let refusal = refusal(alloc, section, beginning)?;
        let is_right = row.begins_with(&cut)
            && (!reads_trees(section) || row.allows(&cut, beginning.len(), &refusal));
        drop((cut, refusal));
        if is_right {
            return Ok(());
        }
        self.astray = self.astray.saturating_add(1);
        let given = answer(alloc, section, beginning)?;
        let told = format!(in alloc;
            "\n\n>> {section}\n{beginning}\nof the case above gives:\n{given}"
        )?;
        self.told.push_str(told.as_str())
    }
}

/// What a text is cut into.
fn cut_of(alloc: Global, text: &str) -> Result<Cut, AllocError> {
    let mut tokens = Vec::new(alloc);
    let mut is_valid = true;
    let mut lexer = Lexer::new(text);
    while let Some(answer) = lexer.next() {
        match answer {
            Ok(token) => {
                is_valid = is_valid && fits(&token);
                tokens.push((token.start, token.end))?;
            }
            Err(_) => is_valid = false,
        }
    }
    Ok(Cut { tokens, is_valid })
}

/// Whether a token is no number, or one that fits.
fn fits(token: &Token<'_>) -> bool {
    token.kind != TokenKind::Number || token.text.parse::<u64>().is_ok()
}

/// What is known of a text of which the case wants these lines.
fn row_of(alloc: Global, text: &str, wanted: &str) -> Result<Row, AllocError> {
    let whole = cut_of(alloc, text)?;
    let mut refused = None;
    if whole.is_valid {
        for line in wanted.lines() {
            refused = leftmost_of(refused, refused_token(line));
        }
    }
    let is_pinned = whole.is_valid;
    Ok(Row {
        whole,
        refused,
        is_pinned,
    })
}

/// The token that a line of a fault names, as in ``3..4: unexpected token `)` ``.
fn refused_token(line: &str) -> Option<(usize, usize)> {
    let (place, message) = line.split_once(": ")?;
    if !message.starts_with("unexpected token `") {
        return None;
    }
    let (start, end) = place.split_once("..")?;
    Some((start.parse().ok()?, end.parse().ok()?))
}

/// The one that begins first.
fn leftmost_of(
    one: Option<(usize, usize)>,
    other: Option<(usize, usize)>,
) -> Option<(usize, usize)> {
    match (one, other) {
        (Some((start, _)), Some((begins, end))) if begins < start => Some((begins, end)),
        (None, other) => other,
        (one, _) => one,
    }
}

impl Row {
    /// Whether a beginning's tokens are the text's first ones, but for the last.
    fn begins_with(&self, cut: &Cut) -> bool {
        match cut.tokens.as_slice().split_last() {
            Some((_, others)) => self.whole.tokens.as_slice().starts_with(others),
            None => true,
        }
    }

    /// Whether a beginning that is cut so may be refused so.
    fn allows(&mut self, cut: &Cut, length: usize, refusal: &Option<Failure>) -> bool {
        let answer = match refusal {
            None => Reply::Accepted,
            Some(Failure::Memory(_)) => return false,
            Some(Failure::Errors(faults)) => answer_of(faults, length),
        };
        if !cut.is_valid {
            return answer != Reply::Accepted;
        }
        match self.refused {
            Some((start, end)) if end <= length => answer == Reply::RefusedAt(start),
            _ => self.may_end(cut.tokens.as_slice(), answer),
        }
    }

    /// Whether a beginning with these tokens, of which the text has each but for the last, may be
    /// answered so.
    fn may_end(&mut self, tokens: &[(usize, usize)], answer: Reply) -> bool {
        let (last, end) = tokens.last().map_or((0, 0), |token| *token);
        match answer {
            Reply::Accepted => true,
            Reply::EndsAt(place) => place == end,
            Reply::RefusedAt(start) => start == last && self.may_refuse(last, end),
            Reply::Unclear => false,
        }
    }

    /// Whether the last token of a beginning may be refused: where it is no token of the text, or
    /// where the case doesn't say at which token the text is refused. From then on it is at this
    /// one, so that a wrong place is told once.
    fn may_refuse(&mut self, start: usize, end: usize) -> bool {
        if !self.whole.tokens.as_slice().contains(&(start, end)) {
            return true;
        }
        self.refused = Some((start, end));
        !self.is_pinned
    }
}

/// How a text of this length is answered that has these faults.
fn answer_of(faults: &ParseErrors, length: usize) -> Reply {
    let ParseError::ToCST(_) = faults.first() else {
        return of_its_tree(faults, length);
    };
    let mut least = usize::MAX;
    let mut answer = Reply::Unclear;
    for fault in faults.iter() {
        let (start, told) = reply_to(fault);
        if start < least {
            answer = told;
        } else if start == least {
            answer = Reply::Unclear;
        }
        least = least.min(start);
    }
    answer
}

/// A text has a tree where all its faults are the tree's, and lie within the text.
fn of_its_tree(faults: &ParseErrors, length: usize) -> Reply {
    for fault in faults.iter() {
        let is_within = match (fault, fault.primary_source_span()) {
            (ParseError::ToAST(_), Some(span)) => span.end() <= length,
            _ => false,
        };
        if !is_within {
            return Reply::Unclear;
        }
    }
    Reply::Accepted
}

/// Where a fault of a text begins, and what it is.
fn reply_to(fault: &ParseError) -> (usize, Reply) {
    let ParseError::ToCST(fault) = fault else {
        return (0, Reply::Unclear);
    };
    match fault.raw() {
        RawFault::UnrecognizedToken { start, .. } => (*start, Reply::RefusedAt(*start)),
        RawFault::UnrecognizedEof { location, .. } => (*location, Reply::EndsAt(*location)),
        RawFault::InvalidToken { location } => (*location, Reply::Unclear),
        RawFault::ExtraToken { start, .. } => (*start, Reply::Unclear),
        RawFault::User { .. } => (0, Reply::Unclear),
    }
}
