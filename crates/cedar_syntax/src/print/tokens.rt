//! Writes tokens with one space between two.
ghost use Rattle.std.specs.Prelude.{◌≡◌, [], ◌∷◌, ◌++◌, decimal, replicate};
ghost use Rattle.cedar_syntax.specs.printing.Printed.{Texts, option_texts, quoted_text};
ghost use Rattle.cedar_syntax.specs.printing.Printing.{Prints, texts_behind_mark, in_row, between, option_behind_mark, texts_before_mark, node_texts, pair_texts};

use crate::node::Node;
use cedar_expressions::{Boxed, Items};
use std::fmt;

/// A tree that prints as tokens. `fresh` says whether nothing was printed yet, and so does the
/// answer.
pub trait Tokens {
    ghost tokens: { Self → Texts };

    /// Writes the tokens' texts, one space between two, and before the first unless it is fresh.
    fn write_tokens<W: fmt::Write>(
        &self,
        fresh: bool,
        f: &mut fmt::Formatter<W>,
    ) -> Result<bool, fmt::Error>
    where
        ensures { Prints W.write_str_gives f.old fresh (tokens self.now) result f.new };
}

/// Prints one token.
pub fn write_token<W: fmt::Write>(
    token: &str,
    fresh: bool,
    f: &mut fmt::Formatter<W>,
) -> Result<bool, fmt::Error>
    ensures { Prints W.write_str_gives f.old fresh (token.now ∷ []) result f.new }
{
    if !fresh {
        f.write_str(" ")?;
    }
    f.write_str(token)?;
    Ok(false)
}

/// Prints a number in decimal.
pub fn write_number<W: fmt::Write>(
    number: u64,
    fresh: bool,
    f: &mut fmt::Formatter<W>,
) -> Result<bool, fmt::Error>
    ensures { Prints W.write_str_gives f.old fresh (decimal number ∷ []) result f.new }
{
    if !fresh {
        f.write_str(" ")?;
    }
    write!(f, "{number}")?;
    Ok(false)
}

fn write_all_marked<T: Tokens, W: fmt::Write>(
    mark: &str,
    items: &[T],
    fresh: bool,
    f: &mut fmt::Formatter<W>,
) -> Result<bool, fmt::Error>
    ensures { Prints W.write_str_gives f.old fresh
        (texts_behind_mark mark.now T.tokens items.now) result f.new }
{
    let mut fresh = fresh;
    for item in items {
        fresh = write_token(mark, fresh, f)?;
        fresh = item.write_tokens(fresh, f)?;
    }
    Ok(fresh)
}

/// Prints each item behind the token `mark`.
pub fn write_marked<T: Tokens, W: fmt::Write>(
    mark: &str,
    items: &Items<T>,
    fresh: bool,
    f: &mut fmt::Formatter<W>,
) -> Result<bool, fmt::Error>
    ensures { Prints W.write_str_gives f.old fresh
        (texts_behind_mark mark.now T.tokens items.now) result f.new }
{
    write_all_marked(mark, items.as_slice(), fresh, f)
}

/// Prints the items with the token `mark` between two.
pub fn write_between<T: Tokens, W: fmt::Write>(
    mark: &str,
    items: &Items<T>,
    fresh: bool,
    f: &mut fmt::Formatter<W>,
) -> Result<bool, fmt::Error>
    ensures { Prints W.write_str_gives f.old fresh
        (between mark.now T.tokens items.now) result f.new }
{
    match items.as_slice().split_first() {
        None => Ok(fresh),
        Some((first, rest)) => {
            let fresh = first.write_tokens(fresh, f)?;
            write_all_marked(mark, rest, fresh, f)
        }
    }
}

/// Prints what is there behind the token `mark`.
pub fn write_opt_marked<T: Tokens, W: fmt::Write>(
    mark: &str,
    item: &Option<T>,
    fresh: bool,
    f: &mut fmt::Formatter<W>,
) -> Result<bool, fmt::Error>
    ensures { Prints W.write_str_gives f.old fresh
        (option_behind_mark mark.now T.tokens item.now) result f.new }
{
    match item {
        None => Ok(fresh),
        Some(item) => {
            let fresh = write_token(mark, fresh, f)?;
            item.write_tokens(fresh, f)
        }
    }
}

/// Prints each item before the token `mark`.
pub fn write_followed<T: Tokens, W: fmt::Write>(
    mark: &str,
    items: &Items<T>,
    fresh: bool,
    f: &mut fmt::Formatter<W>,
) -> Result<bool, fmt::Error>
    ensures { Prints W.write_str_gives f.old fresh
        (texts_before_mark mark.now T.tokens items.now) result f.new }
{
    let mut fresh = fresh;
    for item in items.as_slice() {
        fresh = item.write_tokens(fresh, f)?;
        fresh = write_token(mark, fresh, f)?;
    }
    Ok(fresh)
}

/// Prints a text in double quotes.
pub fn write_quoted<W: fmt::Write>(
    text: &str,
    fresh: bool,
    f: &mut fmt::Formatter<W>,
) -> Result<bool, fmt::Error>
    ensures { Prints W.write_str_gives f.old fresh (quoted_text text.now ∷ []) result f.new }
{
    if !fresh {
        f.write_str(" ")?;
    }
    f.write_str("\"")?;
    f.write_str(text)?;
    f.write_str("\"")?;
    Ok(false)
}

/// Prints a token `times` times.
pub fn write_repeated<W: fmt::Write>(
    token: &str,
    times: u8,
    fresh: bool,
    f: &mut fmt::Formatter<W>,
) -> Result<bool, fmt::Error>
    ensures { Prints W.write_str_gives f.old fresh (replicate times token.now) result f.new }
{
    let mut fresh = fresh;
    for _i in 0..times {
        fresh = write_token(token, fresh, f)?;
    }
    Ok(fresh)
}

impl<T: Tokens> Tokens for Option<T> {
    ghost tokens = { option_texts T.tokens };

    fn write_tokens<W: fmt::Write>(
        &self,
        fresh: bool,
        f: &mut fmt::Formatter<W>,
    ) -> Result<bool, fmt::Error> {
        match self {
            None => Ok(fresh),
            Some(value) => value.write_tokens(fresh, f),
        }
    }
}

impl<T: Tokens> Tokens for Node<T> {
    ghost tokens = { node_texts T.tokens };

    fn write_tokens<W: fmt::Write>(
        &self,
        fresh: bool,
        f: &mut fmt::Formatter<W>,
    ) -> Result<bool, fmt::Error> {
        self.node.write_tokens(fresh, f)
    }
}

impl<T: Tokens> Tokens for Boxed<T> {
    ghost tokens = { T.tokens };

    fn write_tokens<W: fmt::Write>(
        &self,
        fresh: bool,
        f: &mut fmt::Formatter<W>,
    ) -> Result<bool, fmt::Error> {
        self.as_ref().write_tokens(fresh, f)
    }
}

impl<A: Tokens, B: Tokens> Tokens for (A, B) {
    ghost tokens = { pair_texts A.tokens B.tokens };

    fn write_tokens<W: fmt::Write>(
        &self,
        fresh: bool,
        f: &mut fmt::Formatter<W>,
    ) -> Result<bool, fmt::Error> {
        let fresh = self.0.write_tokens(fresh, f)?;
        self.1.write_tokens(fresh, f)
    }
}

impl<T: Tokens> Tokens for Items<T> {
    ghost tokens = { in_row T.tokens };

    fn write_tokens<W: fmt::Write>(
        &self,
        fresh: bool,
        f: &mut fmt::Formatter<W>,
    ) -> Result<bool, fmt::Error> {
        let mut fresh = fresh;
        for item in self.as_slice() {
            fresh = item.write_tokens(fresh, f)?;
        }
        Ok(fresh)
    }
}
