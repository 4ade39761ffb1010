//! A token with those beside it, by their spellings.
ghost use Rattle.std.specs.Prelude.{◌≡◌};
ghost use Rattle.cedar_report.specs.Signs.{all_meet};

use crate::sign::Sign;
use crate::tokens::{Tokens, first_line, part};

/// Where the token itself stands among the words of a `Near`.
pub const HERE: usize = 4;

/// A token with four before it and three behind it, by their spellings; the empty text where none
/// stands.
#[derive(Clone, Copy)]
pub struct Near<'a> {
    pub index: usize,
    pub words: [&'a str; 8],
}

impl<'a> Near<'a> {
    /// A token with those beside it.
    pub fn token(tokens: &Tokens<'a>, index: usize) -> Near<'a> {
        Near::around(tokens, index, tokens.word(index))
    }

    /// What stands at a byte where no token begins, up to its line's end, with the tokens before.
    pub fn invalid(tokens: &Tokens<'a>, offset: usize) -> Near<'a> {
        let rest = part(tokens.text, offset, tokens.text.len());
        Near::around(tokens, tokens.len(), first_line(rest))
    }

    fn around(tokens: &Tokens<'a>, index: usize, here: &'a str) -> Near<'a> {
        Near {
            index,
            words: [
                tokens.word_before(index, 4),
                tokens.word_before(index, 3),
                tokens.word_before(index, 2),
                tokens.word_before(index, 1),
                here,
                tokens.word(index.saturating_add(1)),
                tokens.word(index.saturating_add(2)),
                tokens.word(index.saturating_add(3)),
            ],
        }
    }

    /// The spelling at a place; `HERE` is the token's own.
    pub fn word(&self, place: usize) -> &'a str {
        match self.words.get(place) {
            Some(word) => *word,
            None => "",
        }
    }

    /// The number of the token at a place.
    pub fn place(&self, place: usize) -> usize {
        self.index.saturating_add(place).saturating_sub(HERE)
    }

    /// Whether each word is what is asked of it.
    pub fn fits(&self, signs: &[Sign]) -> bool
        ensures { result ≡ all_meet signs.now self.now.words }
    {
        all_meet(signs, &self.words)
    }
}

// Whether each word is what is asked of it.
fn all_meet(signs: &[Sign], words: &[&str]) -> bool
    ensures { result ≡ all_meet signs.now words.now }
{
    for (sign, word) in signs.iter().zip(words.iter()) {
        if !sign.fits(*word) {
            return false;
        }
    }
    true
}
