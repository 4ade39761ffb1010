//! Which parentheses hold one list or one record and nothing else, and which lists numbers and short
//! texts.
ghost use Rattle.std.specs.Prelude.{◌≡◌, IfOk};
ghost use Rattle.cedar_layout.specs.Hugs as spec;
ghost use Rattle.cedar_layout.specs.Read.{item_now, items_now};

use crate::columns::width_of;
use crate::kinds::{closes, is_list, is_paren, is_square, opens};
use crate::pieces::{Item, SpacedItem};
use cedar_lexer::token::TokenKind;
use std::alloc::{AllocError, Global};
use std::collections::VecDeque;

/// What is known of the words from a place on.
#[derive(Drop)]
pub struct Tail {
    /// a bracket closes at once
    pub closing: bool,
    /// a list or a record opens at once, and behind its end another bracket closes at once
    pub sole: bool,
    /// numbers, short texts and what stands between them, and no comment, up to a bracket's end
    pub short: bool,
    /// of each bracket that closes here and opens before: another one closes at once behind it
    pub behind: VecDeque<bool>,
    /// of each word: parentheses open with it that hold one list or one record, or a list that
    /// holds numbers and short texts
    pub hugs: VecDeque<bool>,
}

/// Takes the first flag.
pub(crate) fn next_flag(flags: &mut VecDeque<bool>) -> bool
    ensures flag { result ≡ spec.first_flag flags.old.items }
    ensures rest { flags.new.items ≡ spec.rest_flags flags.old.items }
{
    match flags.pop_front() {
        None => false,
        Some(flag) => flag,
    }
}

/// The first flag, or none.
fn first_flag(flags: &VecDeque<bool>) -> bool
    ensures { result ≡ spec.first_flag flags.now.items }
{
    match flags.front() {
        None => false,
        Some(flag) => *flag,
    }
}

/// A bracket's end puts aside whether another one follows at once, and its beginning takes that
/// back.
fn read_bracket(
    behind: &mut VecDeque<bool>,
    kind: TokenKind,
    closing: bool,
) -> Result<(), AllocError>
    ensures { IfOk result (λ _. behind.new.items
        ≡ spec.behind_kind kind closing behind.old.items) }
{
    if opens(kind) {
        behind.pop_front();
    } else if closes(kind) {
        behind.push_front(closing)?;
    }
    Ok(())
}

/// The widest text, with its quotes, beside which another one stands on the line.
const SHORT: usize = 10;

/// A list's line goes on with it, where it has this text.
fn is_short(kind: TokenKind, text: &str) -> bool
    ensures { result ≡ spec.is_short kind text.now }
{
    match kind {
        TokenKind::Number | TokenKind::Minus | TokenKind::Comma => true,
        TokenKind::StringLit => width_of(text) <= SHORT,
        _ => false,
    }
}

/// What is known from a word on.
fn read_word(tail: &mut Tail, kind: TokenKind, text: &str) -> Result<(), AllocError>
    ensures { IfOk result (λ _. spec.tail_now tail.new
        ≡ spec.before_word kind text.now (spec.tail_now tail.old)) }
{
    let sole = is_list(kind) && first_flag(&tail.behind);
    tail.hugs.push_front(is_paren(kind) && tail.sole || is_square(kind) && tail.short)?;
    read_bracket(&mut tail.behind, kind, tail.closing)?;
    tail.closing = closes(kind);
    tail.short = closes(kind) || tail.short && is_short(kind, text);
    tail.sole = sole;
    Ok(())
}

/// What is known from an item on.
fn read_item(tail: &mut Tail, item: Item<'_>) -> Result<(), AllocError>
    ensures { IfOk result (λ _. spec.tail_now tail.new
        ≡ spec.before_item (item_now item.entry) (spec.tail_now tail.old)) }
{
    match item {
        Item::Word(kind, text) => read_word(tail, kind, text),
        Item::Beside(_) | Item::Below(_) => {
            tail.closing = false;
            tail.sole = false;
            tail.short = false;
            Ok(())
        }
    }
}

/// Of each word of a text, whether parentheses open with it that hold one list or one record, or a
/// list that holds numbers and short texts.
pub(crate) fn hugs(alloc: Global, pieces: &[SpacedItem<'_>]) -> Result<VecDeque<bool>, AllocError>
    ensures { IfOk result (λ hugs. hugs.items ≡ spec.hugs_of (items_now pieces.now)) }
{
    let mut tail = Tail {
        closing: false,
        sole: false,
        short: false,
        behind: VecDeque::new(alloc),
        hugs: VecDeque::with_capacity(alloc, pieces.len())?,
    };
    let mut at = pieces.len();
    while at > 0 {
        at -= 1;
        read_item(&mut tail, pieces[at].item)?;
    }
    let Tail { hugs, .. } = tail;
    Ok(hugs)
}
