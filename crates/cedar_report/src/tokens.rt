//! The tokens of a text by their numbers, up to the first place where none begins.
ghost use Rattle.cedar_report.specs.Parts.{IsPartAt};

use cedar_lexer::lexer::Lexer;
use cedar_lexer::token::Token;
use std::alloc::{AllocError, Global};

/// The tokens of a text.
#[derive(Drop)]
pub struct Tokens<'a> {
    pub text: &'a str,
    tokens: Vec<Token<'a>>,
    /// the byte at which no token begins, where there is one
    pub bad_place: Option<usize>,
}

impl<'a> Tokens<'a> {
    /// The tokens of a text, cut in one pass. Only want of memory refuses it.
    pub fn of(alloc: Global, text: &'a str) -> Result<Tokens<'a>, AllocError> {
        let mut tokens = Vec::new(alloc);
        let mut bad_place = None;
        for token in Lexer::new(text) {
            match token {
                Ok(token) => tokens.push(token)?,
                Err(invalid) => bad_place = Some(invalid.location),
            }
        }
        Ok(Tokens {
            text,
            tokens,
            bad_place,
        })
    }

    /// How many there are.
    pub fn len(&self) -> usize {
        self.tokens.len()
    }

    /// The number of the first token that ends behind a byte; their count where none does.
    pub fn at(&self, offset: usize) -> usize {
        self.tokens.partition_point(|token| token.end <= offset)
    }

    /// The spelling of a token; the empty text past the last.
    pub fn word(&self, index: usize) -> &'a str {
        match self.tokens.get(index) {
            Some(token) => token.text,
            None => "",
        }
    }

    /// The spelling of the token that stands `back` ones before this; the empty text before the
    /// first.
    pub fn word_before(&self, index: usize, back: usize) -> &'a str {
        match index.checked_sub(back) {
            Some(before) => self.word(before),
            None => "",
        }
    }

    /// The byte at which a token starts; the text's end past the last.
    pub fn start(&self, index: usize) -> usize {
        match self.tokens.get(index) {
            Some(token) => token.start,
            None => self.text.len(),
        }
    }

    /// The byte behind a token; the text's end past the last.
    pub fn end(&self, index: usize) -> usize {
        match self.tokens.get(index) {
            Some(token) => token.end,
            None => self.text.len(),
        }
    }

    /// The first token from `from` up to the byte `end` that is spelled so, in no brackets that open
    /// between the two.
    pub fn find(&self, from: usize, end: usize, word: &str) -> Option<usize> {
        let mut depth = 0usize;
        for index in from..self.tokens.len() {
            let here = self.word(index);
            if self.start(index) >= end {
                return None;
            } else if opens(here) {
                depth = depth.saturating_add(1);
            } else if closes(here) {
                depth = depth.saturating_sub(1);
            } else if depth == 0 && here == word {
                return Some(index);
            }
        }
        None
    }
}

/// Whether a token opens a bracket.
pub fn opens(word: &str) -> bool {
    matches!(word, "(" | "[" | "{")
}

/// Whether a token closes a bracket.
pub fn closes(word: &str) -> bool {
    matches!(word, ")" | "]" | "}")
}

/// What stands from one byte up to another; nothing where that is no range of the text.
pub fn part(text: &str, start: usize, end: usize) -> &str
    ensures { IsPartAt text.now start result.now }
{
    match text.get(start..end) {
        Some(part) => part,
        None => "",
    }
}

/// A text up to its first line feed.
pub fn first_line(text: &str) -> &str {
    match text.split_once('\n') {
        Some((line, _)) => line,
        None => text,
    }
}
