//! Writes pieces, with what is decided to stand before each.
ghost use Rattle.std.specs.Prelude.{◌≡◌, ◌++◌, IfOk, replicate, codes};
ghost use Rattle.std.specs.String.{string_bytes};
ghost use Rattle.cedar_layout.specs.Laid as laid;
ghost use Rattle.cedar_layout.specs.Layouts as spec;
ghost use Rattle.cedar_layout.specs.Read.{item_now, piece_now, pieces_now, last_now};
ghost use Rattle.cedar_layout.specs.Style.{style as style_of};

use crate::decisions::{BlankRule, Decision, Form};
use crate::kinds::{first_byte, goes_on};
use crate::options::LayoutOptions;
use crate::pieces::{Item, SpacedItem};
use crate::style::{style, undecided};
use cedar_lexer::token::TokenKind;
use std::alloc::{AllocError, Global};
use std::collections::VecDeque;

/// What stood before an item: nothing yet, a word of this kind, or a comment.
#[derive(Clone, Copy)]
pub enum Last {
    Start,
    Word(TokenKind),
    Comment,
}

/// Whether a blank line is written, where one stood in the text or not.
fn has_blank(rule: BlankRule, blank: bool) -> bool
    ensures { result ≡ spec.has_blank rule blank }
{
    match rule {
        BlankRule::Never => false,
        BlankRule::Kept => blank,
        BlankRule::Always => true,
    }
}

/// So many spaces.
fn write_spaces(out: &mut String, depth: usize) -> Result<(), AllocError>
    ensures { IfOk result (λ _. string_bytes out.new
        ≡ string_bytes out.old ++ replicate depth 32) }
{
    let mut left = depth;
    while left > 0 {
        out.push_str(" ")?;
        left -= 1;
    }
    Ok(())
}

/// A line feed, or two, and then the line's depth.
fn begin_line(out: &mut String, decision: Decision, blank: bool) -> Result<(), AllocError>
    ensures { IfOk result (λ _. string_bytes out.new
        ≡ string_bytes out.old ++ laid.separator_text (spec.begun_line decision blank)) }
{
    if has_blank(decision.rule, blank) {
        out.push_str("\n\n")?;
    } else {
        out.push_str("\n")?;
    }
    write_spaces(out, decision.depth)
}

/// What stands between two words, which may touch or not.
fn between_words(
    out: &mut String,
    decision: Decision,
    blank: bool,
    touching: bool,
) -> Result<(), AllocError>
    ensures { IfOk result (λ _. string_bytes out.new ≡ string_bytes out.old
        ++ laid.separator_text
        (spec.between_words decision.form touching (spec.begun_line decision blank))) }
{
    match decision.form {
        Form::Joined => { if touching { Ok(()) } else { out.push_str(" ") } }
        Form::Apart => out.push_str(" "),
        Form::Broken => begin_line(out, decision, blank),
    }
}

/// What stands before an item.
fn write_separator(
    out: &mut String,
    last: Last,
    decision: Decision,
    blank: bool,
    item: Item<'_>,
) -> Result<(), AllocError>
    ensures { IfOk result (λ _. string_bytes out.new ≡ string_bytes out.old
        ++ laid.separator_text
        (spec.separate (last_now last) decision blank (item_now item.entry))) }
{
    match last {
        Last::Start => Ok(()),
        Last::Word(kind) => match item {
            Item::Word(_, text) => {
                let touching = !goes_on(kind, first_byte(text));
                between_words(out, decision, blank, touching)
            }
            Item::Beside(_) => out.push_str(" "),
            Item::Below(_) => begin_line(out, decision, blank),
        },
        Last::Comment => begin_line(out, decision, blank),
    }
}

/// The text of an item.
fn text_of<'a>(item: Item<'a>) -> &'a str
    ensures { result.now ≡ laid.item_text (item_now item.entry) }
{
    match item {
        Item::Word(_, text) | Item::Beside(text) | Item::Below(text) => text,
    }
}

/// What stands before the next item.
fn then_behind(item: Item<'_>) -> Last
    ensures { last_now result ≡ laid.then_behind (item_now item.entry) }
{
    match item {
        Item::Word(kind, _) => Last::Word(kind),
        Item::Beside(_) | Item::Below(_) => Last::Comment,
    }
}

/// Takes the first decision.
fn next_decision(decisions: &mut VecDeque<Decision>) -> Decision
    ensures decision { result ≡ spec.first_decision decisions.old.items }
    ensures rest { decisions.new.items ≡ spec.rest_decisions decisions.old.items }
{
    match decisions.pop_front() {
        None => undecided(),
        Some(decision) => decision,
    }
}

/// An item behind what stands before it.
fn write_item(
    out: &mut String,
    last: Last,
    decision: Decision,
    blank: bool,
    item: Item<'_>,
) -> Result<(), AllocError>
    ensures { IfOk result (λ _. string_bytes out.new ≡ string_bytes out.old
        ++ (laid.separator_text
        (spec.separate (last_now last) decision blank (item_now item.entry))
        ++ laid.item_text (item_now item.entry))) }
{
    write_separator(out, last, decision, blank, item)?;
    out.push_str(text_of(item))
}

/// Pieces, with what is decided to stand before each, and a line feed.
fn write_pieces(
    alloc: Global,
    pieces: &[SpacedItem<'_>],
    decisions: VecDeque<Decision>,
) -> Result<String, AllocError>
    ensures { IfOk result (λ text. string_bytes text
        ≡ laid.written_text (spec.laid_items laid.start decisions.items (pieces_now pieces.now))) }
{
    let mut out = String::new(alloc);
    let mut left = decisions;
    let mut last = Last::Start;
    for piece in pieces {
        let decision = next_decision(&mut left);
        write_item(&mut out, last, decision, piece.blank, piece.item)?;
        last = then_behind(piece.item);
    }
    out.push_str("\n")?;
    Ok(out)
}

/// The text that the style makes of pieces.
pub(crate) fn write(
    alloc: Global,
    options: LayoutOptions,
    pieces: &[SpacedItem<'_>],
) -> Result<String, AllocError>
    ensures { IfOk result (λ text. string_bytes text
        ≡ spec.laid_out (style_of options) (pieces_now pieces.now)) }
{
    if pieces.is_empty() {
        return Ok(String::new(alloc));
    }
    let decisions = style(alloc, options, pieces)?;
    write_pieces(alloc, pieces, decisions)
}
