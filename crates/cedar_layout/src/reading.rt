//! Reads a text as its words and comments.
ghost use Rattle.std.specs.Prelude.{◌≡◌, ◌≤◌, ◌<◌, ◌++◌, IfOk, IfErr, length, take, drop, slice_index};
ghost use Rattle.std.specs.List.{prefix_len, take_while};
ghost use Rattle.std.specs.Str.{IsCharBoundary};
ghost use Rattle.cedar_lexer.specs.Token.{lexeme_of};
ghost use Rattle.cedar_lexer.specs.Cut.{is_in_line};
ghost use Rattle.cedar_layout.specs.Pieces as spec;
ghost use Rattle.cedar_layout.specs.Read.{pieces_now, standing_now, piece_now, IsNotRead};

use crate::pieces::{Item, SpacedItem};
use crate::standing::{Standing, are_many, behind_byte, is_behind_blank};
use cedar_lexer::lexer::Lexer;
use cedar_lexer::token::{InvalidToken, Token};
use std::alloc::{AllocError, Global};

/// A space, a tab, a vertical tab or a form feed.
fn is_blank_byte(byte: u8) -> bool
    ensures { result ≡ spec.is_blank_byte byte }
{
    byte == b' ' || byte == b'\t' || byte == 11 || byte == 12
}

/// How long the line is that begins here.
fn line_len(text: &[u8]) -> usize
    ensures len { result ≡ prefix_len is_in_line text.now }
    ensures within { result ≤ length text.now }
{
    text.iter()
        .take_while(|b| !(**b == b'\n' || **b == b'\r'))
        .count()
}

/// How long a comment is that begins here, without what is blank at its end.
fn comment_len(text: &[u8]) -> usize
    ensures text { take result text.now ≡ spec.trimmed (take_while is_in_line text.now) }
    ensures within { result ≤ length text.now }
    ensures ends { result < length text.now → slice_index text.now result < 128 }
{
    let mut end = line_len(text);
    while end > 0 && is_blank_byte(text[end - 1]) {
        end -= 1;
    }
    end
}

/// The comment that begins at a place of a text.
fn comment_at<'a>(gap: &'a str, at: usize) -> &'a str
    requires within { at < length gap.now }
    requires slash { slice_index gap.now at ≡ 47 }
    ensures { result.now ≡ spec.trimmed (take_while is_in_line (drop at gap.now)) }
{
    let line = &gap[at..];
    let end = comment_len(line.as_bytes());
    &line[..end]
}

/// A comment on the line of the word before it, or another one.
fn comment_piece<'a>(near: bool, feeds: u8, text: &'a str) -> SpacedItem<'a>
    ensures { piece_now result ≡ spec.comment_piece near feeds text.now }
{
    let blank = are_many(feeds);
    if near {
        SpacedItem {
            blank,
            item: Item::Beside(text),
        }
    } else {
        SpacedItem {
            blank,
            item: Item::Below(text),
        }
    }
}

/// Reads the comment that begins with a byte, if one does.
fn read_byte<'a>(
    gap: &'a str,
    at: usize,
    byte: u8,
    standing: Standing,
    all: &mut Vec<SpacedItem<'a>>,
) -> Result<(), AllocError>
    requires within { at < length gap.now }
    requires byte { byte ≡ slice_index gap.now at }
    ensures { IfOk result (λ _. pieces_now all.new.items ≡ pieces_now all.old.items
        ++ spec.comment_here (standing_now standing) byte (drop at gap.now)) }
{
    match standing {
        Standing::Inside => Ok(()),
        Standing::Outside(near, feeds) => {
            if byte == b'/' {
                all.push(comment_piece(near, feeds, comment_at(gap, at)))?;
            }
            Ok(())
        }
    }
}

/// Reads the comments of what stands between two words, and whether a blank line stands at its
/// end.
fn read_gap<'a>(gap: &'a str, near: bool, all: &mut Vec<SpacedItem<'a>>) -> Result<bool, AllocError>
    ensures pieces { IfOk result (λ _. pieces_now all.new.items
        ≡ pieces_now all.old.items ++ spec.comments_in (spec.outside near 0) gap.now) }
    ensures blank { IfOk result (λ blank. blank
        ≡ spec.is_behind_blank (spec.behind_bytes (spec.outside near 0) gap.now)) }
{
    let mut standing = Standing::Outside(near, 0);
    let bytes = gap.as_bytes();
    let mut at = 0;
    while at < bytes.len() {
        let byte = bytes[at];
        read_byte(gap, at, byte, standing, all)?;
        standing = behind_byte(standing, byte);
        at += 1;
    }
    Ok(is_behind_blank(standing))
}

/// Reads what stands before a token, and its word.
fn read_token<'a>(
    text: &'a str,
    at: usize,
    near: bool,
    token: &Token<'a>,
    all: &mut Vec<SpacedItem<'a>>,
) -> Result<(), AllocError>
    requires begins { IsCharBoundary text.now at }
    requires ends { IsCharBoundary text.now token.now.start }
    requires order { at ≤ token.now.start }
    ensures { IfOk result (λ _. pieces_now all.new.items ≡ pieces_now all.old.items
        ++ spec.token_pieces text.now near at (lexeme_of token.now)) }
{
    let blank = read_gap(&text[at..token.start], near, all)?;
    all.push(SpacedItem {
        blank,
        item: Item::Word(token.kind, token.text),
    })?;
    Ok(())
}

/// Why a text isn't laid out.
#[derive(Debug, Drop)]
pub enum LayoutError {
    /// neither a token nor white space nor a comment begins at this place
    InvalidToken(InvalidToken),
    /// want of memory
    Memory(AllocError),
}

impl From<AllocError> for LayoutError {
    ghost use Rattle.std.specs.Prelude.{◌≡◌, alloc_error};
    ghost use Rattle.cedar_layout.specs.declared.reading.LayoutError.TheVariants as variants;

    ghost from_gives = { λ _ given. given ≡ variants.Memory alloc_error };

    fn from(_: AllocError) -> LayoutError {
        LayoutError::Memory(AllocError)
    }
}

/// The pieces of a text.
pub(crate) fn read<'a>(alloc: Global, text: &'a str) -> Result<Vec<SpacedItem<'a>>, LayoutError>
    ensures reads { IfOk result (λ all. spec.IsReadAs text.now (pieces_now all.items)) }
    ensures refuses { IfErr result (IsNotRead text.now) }
{
    let mut all = Vec::new(alloc);
    let mut at = 0;
    let mut near = false;
    for answer in Lexer::new(text) {
        match answer {
            Ok(token) => {
                read_token(text, at, near, &token, &mut all)?;
                at = token.end;
                near = true;
            }
            Err(bad) => return Err(LayoutError::InvalidToken(bad)),
        }
    }
    read_gap(&text[at..], near, &mut all)?;
    Ok(all)
}
