//! The words of a text, each with the gap before it.
ghost use Rattle.std.specs.Prelude.{◌≡◌, IfOk};
ghost use Rattle.cedar_layout.specs.Brackets as brackets_spec;
ghost use Rattle.cedar_layout.specs.Spots as spec;
ghost use Rattle.cedar_layout.specs.Read.{items_now};

use crate::brackets::{Bracket, new_bracket};
use crate::columns::width_of;
use crate::gaps::{Behind, Gap, gap_at};
use crate::hugs::{hugs, next_flag};
use crate::kinds::{closes, opens};
use crate::pieces::{Item, SpacedItem};
use cedar_lexer::token::TokenKind;
use std::alloc::{AllocError, Global};
use std::collections::VecDeque;

/// A word, and the gap before it.
#[derive(Clone, Copy)]
pub struct Spot {
    pub kind: TokenKind,
    /// how many columns the word takes
    pub columns: usize,
    /// a comment stands in the gap
    pub commented: bool,
    pub gap: Gap,
}

/// The innermost open bracket.
fn first_bracket(brackets: &VecDeque<Bracket>) -> Option<Bracket>
    ensures { result ≡ brackets_spec.innermost_of brackets.now.items }
{
    brackets.front().copied()
}

/// A bracket opens or closes with a word, or none does.
fn read_bracket(
    brackets: &mut VecDeque<Bracket>,
    before: Option<TokenKind>,
    kind: TokenKind,
    told: bool,
) -> Result<(), AllocError>
    ensures { IfOk result (λ _. brackets.new.items
        ≡ brackets_spec.brackets_behind brackets.old.items before kind told) }
{
    if opens(kind) {
        let bracket = new_bracket(first_bracket(brackets), before, kind, told);
        brackets.push_front(bracket)?;
    } else if closes(kind) {
        brackets.pop_front();
    }
    Ok(())
}

/// The words of a text, each with the gap before it.
pub(crate) fn spots(alloc: Global, pieces: &[SpacedItem<'_>]) -> Result<Vec<Spot>, AllocError>
    ensures { IfOk result (λ spots. spots.items ≡ spec.spots_of (items_now pieces.now)) }
{
    let mut flags = hugs(alloc, pieces)?;
    let mut spots = Vec::with_capacity(alloc, pieces.len())?;
    let mut brackets = VecDeque::new(alloc);
    let mut before = None;
    let mut last = None;
    let mut commented = false;
    let mut led = false;
    for piece in pieces {
        if let Item::Word(kind, text) = piece.item {
            spots.push(Spot {
                kind,
                columns: width_of(text),
                commented,
                gap: gap_at(
                    Behind {
                        bracket: first_bracket(&brackets),
                        before,
                        last,
                        commented,
                        led,
                    },
                    kind,
                    text,
                ),
            })?;
            read_bracket(&mut brackets, before, kind, next_flag(&mut flags))?;
            before = last;
            last = Some(kind);
            led = commented;
            commented = false;
        } else {
            commented = true;
        }
    }
    Ok(spots)
}
