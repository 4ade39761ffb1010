//! The style: at which gaps lines end, and how deep they begin.
ghost use Rattle.std.specs.Prelude.{◌≡◌, IfOk};
ghost use Rattle.cedar_lexer.specs.Words.{TokenText};
ghost use Rattle.cedar_layout.specs.Layouts.{undecided as is_undecided};
ghost use Rattle.cedar_layout.specs.Measures.{words_now};
ghost use Rattle.cedar_layout.specs.Pieces.{word};
ghost use Rattle.cedar_layout.specs.Read.{item_now, items_now};
ghost use Rattle.cedar_layout.specs.Style as spec;

use crate::decisions::{BlankRule, Decision, Form};
use crate::frames::{
    Frame, breaks_level, comment_depth, is_fine, line_begun_at, line_depth, new_frame,
};
use crate::gaps::{Gap, line_gap, line_rule};
use crate::kinds::{closes, opens};
use crate::levels::Level;
use crate::measures::{
    Distance, Measure, MeasuredWord, Words, fits_from, next_measured, ones, plus, stands_before,
    words_measured,
};
use crate::options::LayoutOptions;
use crate::pieces::{Item, SpacedItem};
use crate::spots::{Spot, spots};
use cedar_lexer::token::TokenKind;
use std::alloc::{AllocError, Global};
use std::collections::VecDeque;

/// Lines end at gaps of this level where what follows doesn't fit.
fn is_loose(level: Level) -> bool
    ensures { result ≡ spec.is_loose level }
{
    !level.is_outside(Level::Related) && level.is_outside(Level::Fixed)
}

/// Where the word begins if its line goes on.
fn next_column(column: usize, spot: Spot) -> usize
    ensures { result ≡ spec.next_column column spot }
{
    plus(column, ones(spot.gap.spaced))
}

/// What follows fits, up to where the line can end next.
fn fills(options: LayoutOptions, column: usize, spot: Spot, measure: Measure) -> bool
    ensures { result ≡ spec.fills options column spot measure }
{
    let begin = next_column(column, spot);
    fits_from(options.width, begin, measure.from, measure.ahead.ending)
}

/// An operand that begins in a column doesn't fit up to its end, but would on a line of its own, or
/// can be parted itself.
fn operand_breaks(
    options: LayoutOptions,
    depth: usize,
    column: usize,
    measure: Measure,
    end: Distance,
) -> bool
    ensures { result ≡ spec.operand_breaks options depth column measure end }
{
    !fits_from(options.width, column, measure.from, end)
        && (fits_from(options.width, depth, measure.from, end)
            || stands_before(measure.ahead.packed, end))
}

/// Lines end at a gap of a level because of the operand behind it.
fn operand_breaks_at(
    options: LayoutOptions,
    depth: usize,
    column: usize,
    measure: Measure,
    level: Level,
) -> bool
    ensures { result ≡ spec.operand_breaks_at options depth column measure level }
{
    let ahead = measure.ahead;
    match level {
        Level::Related => operand_breaks(options, depth, column, measure, ahead.related),
        Level::Added => operand_breaks(options, depth, column, measure, ahead.added),
        Level::Multiplied => operand_breaks(options, depth, column, measure, ahead.multiplied),
        Level::Chained => operand_breaks(options, depth, column, measure, ahead.chained),
        _ => false,
    }
}

/// Lines end at the gap because of what follows, in the innermost open bracket or in none.
fn breaks_loosely(
    options: LayoutOptions,
    frame: Option<Frame>,
    column: usize,
    spot: Spot,
    measure: Measure,
) -> bool
    ensures { result ≡ spec.breaks_loosely options frame column spot measure }
{
    match frame {
        None => false,
        Some(inner) => {
            let level = spot.gap.level;
            let depth = line_depth(options, frame, spot.gap);
            let begin = next_column(column, spot);
            !is_fine(inner)
                && is_loose(level)
                && (!fills(options, column, spot, measure)
                    || operand_breaks_at(options, depth, begin, measure, level))
        }
    }
}

/// A line begins at the gap before a word.
fn begins(
    options: LayoutOptions,
    frame: Option<Frame>,
    column: usize,
    spot: Spot,
    measure: Measure,
) -> bool
    ensures { result ≡ spec.begins options frame column spot measure }
{
    spot.commented
        || spot.gap.begins_line
        || breaks_level(frame, spot.gap.level)
        || breaks_loosely(options, frame, column, spot, measure)
}

/// What is decided for a word that begins a line or doesn't, in the innermost open bracket.
fn word_decision(
    options: LayoutOptions,
    frame: Option<Frame>,
    rule: BlankRule,
    begins: bool,
    gap: Gap,
) -> Decision
    ensures { result ≡ spec.word_decision options frame rule begins gap }
{
    if begins {
        Decision {
            form: Form::Broken,
            depth: line_depth(options, frame, gap),
            rule: line_rule(rule, gap),
        }
    } else {
        Decision {
            form: if gap.spaced {
                Form::Apart
            } else {
                Form::Joined
            },
            depth: 0,
            rule: BlankRule::Kept,
        }
    }
}

/// What is decided for a comment on a line of its own.
fn comment_decision(
    options: LayoutOptions,
    frame: Option<Frame>,
    rule: BlankRule,
    gap: Gap,
) -> Decision
    ensures { result ≡ spec.comment_decision options frame rule gap }
{
    Decision {
        form: Form::Broken,
        depth: comment_depth(options, frame, gap),
        rule,
    }
}

/// What holds where a layout decides nothing.
pub(crate) fn undecided() -> Decision
    ensures { result ≡ is_undecided }
{
    Decision {
        form: Form::Apart,
        depth: 0,
        rule: BlankRule::Kept,
    }
}

/// What is known behind an item.
#[derive(Drop)]
pub struct State {
    /// the open brackets, the innermost first
    pub frames: VecDeque<Frame>,
    /// where the line stands
    pub column: usize,
    /// how deep the line began
    pub depth: usize,
    /// what becomes of a blank line before the next item
    pub rule: BlankRule,
}

/// The innermost open bracket.
fn first_frame(frames: &VecDeque<Frame>) -> Option<Frame>
    ensures { result ≡ spec.first_frame frames.now.items }
{
    frames.front().copied()
}

/// A line begins in the innermost bracket.
fn begin_line(
    options: LayoutOptions,
    depth: usize,
    frames: &mut VecDeque<Frame>,
    spot: Spot,
    measure: Measure,
) -> Result<(), AllocError>
    ensures { IfOk result (λ _. frames.new.items
        ≡ spec.line_frames options depth frames.old.items spot measure) }
{
    if let Some(frame) = frames.pop_front() {
        let begun = line_begun_at(options, frame, depth, spot, measure);
        frames.push_front(if spot.gap.closing { frame } else { begun })?;
    }
    Ok(())
}

/// The frame of a bracket that opens in a column of a line.
fn opened_frame(options: LayoutOptions, column: usize, depth: usize, measure: Measure) -> Frame
    ensures { result ≡ spec.opened_frame options column depth measure }
{
    let flat = fits_from(options.width, column, measure.from, measure.whole);
    let inner = plus(depth, options.indent);
    new_frame(flat, depth, inner, plus(inner, options.indent))
}

/// A bracket opens or closes with a word, or none does.
fn read_bracket(
    frames: &mut VecDeque<Frame>,
    kind: TokenKind,
    opened: Frame,
) -> Result<(), AllocError>
    ensures { IfOk result (λ _. frames.new.items
        ≡ spec.frames_behind frames.old.items kind opened) }
{
    if opens(kind) {
        frames.push_front(opened)?;
    } else if closes(kind) {
        frames.pop_front();
    }
    Ok(())
}

/// Where the word begins, on its line or on a new one.
fn begin_word(
    options: LayoutOptions,
    state: &mut State,
    line: bool,
    word: MeasuredWord,
) -> Result<(), AllocError>
    ensures { IfOk result (λ _. spec.state_now state.new
        ≡ spec.at_word options line (spec.state_now state.old) word.spot word.measure) }
{
    if line {
        let depth = line_depth(options, first_frame(&state.frames), word.spot.gap);
        begin_line(options, depth, &mut state.frames, word.spot, word.measure)?;
        state.column = depth;
        state.depth = depth;
    } else {
        state.column = plus(state.column, ones(word.spot.gap.spaced));
    }
    Ok(())
}

/// Behind the word.
fn end_word(
    options: LayoutOptions,
    state: &mut State,
    word: MeasuredWord,
    rule: BlankRule,
) -> Result<(), AllocError>
    ensures { IfOk result (λ _. spec.state_now state.new
        ≡ spec.behind_word options (spec.state_now state.old) word.spot word.measure rule) }
{
    let opened = opened_frame(options, state.column, state.depth, word.measure);
    read_bracket(&mut state.frames, word.spot.kind, opened)?;
    state.column = plus(state.column, word.spot.columns);
    state.rule = rule;
    Ok(())
}

/// What is decided for a word, where this is the rule of the gap that follows.
fn read_word(
    options: LayoutOptions,
    state: &mut State,
    word: MeasuredWord,
    rule: BlankRule,
) -> Result<Decision, AllocError>
    ensures decision { IfOk result (λ decision. decision
        ≡ spec.decided options (spec.state_now state.old) word) }
    ensures state { IfOk result (λ _. spec.state_now state.new
        ≡ spec.past_word options (spec.state_now state.old) word rule) }
{
    let frame = first_frame(&state.frames);
    let line = begins(options, frame, state.column, word.spot, word.measure);
    let decision = word_decision(options, frame, state.rule, line, word.spot.gap);
    begin_word(options, state, line, word)?;
    end_word(options, state, word, rule)?;
    Ok(decision)
}

fn next_gap(words: &Words) -> Gap
    ensures { result ≡ spec.next_gap (words_now words.now) }
{
    match words.spots.front() {
        None => line_gap(BlankRule::Kept),
        Some(spot) => spot.gap,
    }
}

/// What is decided for an item.
fn read_item(
    options: LayoutOptions,
    state: &mut State,
    words: &mut Words,
    item: Item<'_>,
) -> Result<Decision, AllocError>
    ensures decision { IfOk result (λ decision. decision ≡ spec.decision_at options
        (spec.state_now state.old) (item_now item.entry) (words_now words.old)) }
    ensures state { IfOk result (λ _. spec.state_now state.new ≡ spec.state_past options
        (spec.state_now state.old) (item_now item.entry) (words_now words.old)) }
    ensures words { IfOk result (λ _. words_now words.new
        ≡ spec.words_past (item_now item.entry) (words_now words.old)) }
{
    match item {
        Item::Word(_, _) => next_word(options, state, words),
        Item::Beside(_) => Ok(undecided()),
        Item::Below(_) => {
            let gap = next_gap(words);
            let frame = first_frame(&state.frames);
            let decision = comment_decision(options, frame, state.rule, gap);
            state.rule = BlankRule::Kept;
            Ok(decision)
        }
    }
}

/// What is decided for the next word.
fn next_word(
    options: LayoutOptions,
    state: &mut State,
    words: &mut Words,
) -> Result<Decision, AllocError>
    ensures decision { (w : TokenText) → IfOk result (λ decision. decision
        ≡ spec.decision_at options (spec.state_now state.old) (word w) (words_now words.old)) }
    ensures state { (w : TokenText) → IfOk result (λ _. spec.state_now state.new
        ≡ spec.state_past options (spec.state_now state.old) (word w) (words_now words.old)) }
    ensures words { (w : TokenText) → IfOk result (λ _. words_now words.new
        ≡ spec.words_past (word w) (words_now words.old)) }
{
    match next_measured(words) {
        None => Ok(undecided()),
        Some(next) => {
            let gap = next_gap(words);
            read_word(options, state, next, gap.rule)
        }
    }
}

/// What is decided for each item of a text.
fn plan(
    alloc: Global,
    options: LayoutOptions,
    pieces: &[SpacedItem<'_>],
    words: Words,
) -> Result<VecDeque<Decision>, AllocError>
    ensures { IfOk result (λ decisions. decisions.items
        ≡ spec.planned options spec.first_state (items_now pieces.now) (words_now words)) }
{
    let mut decisions = VecDeque::with_capacity(alloc, pieces.len())?;
    let mut state = State {
        frames: VecDeque::new(alloc),
        column: 0,
        depth: 0,
        rule: BlankRule::Kept,
    };
    let mut left = words;
    for piece in pieces {
        let decision = read_item(options, &mut state, &mut left, piece.item)?;
        decisions.push_back(decision)?;
    }
    Ok(decisions)
}

/// What the style decides for each item of a text.
pub(crate) fn style(
    alloc: Global,
    options: LayoutOptions,
    pieces: &[SpacedItem<'_>],
) -> Result<VecDeque<Decision>, AllocError>
    ensures { IfOk result (λ decisions. decisions.items
        ≡ spec.style options (items_now pieces.now)) }
{
    let spots = spots(alloc, pieces)?;
    let words = words_measured(alloc, spots)?;
    plan(alloc, options, pieces, words)
}
