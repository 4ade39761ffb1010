//! What stands between two words: what joins them on a line, and where the line may end.
ghost use Rattle.std.specs.Prelude.{◌≡◌};
ghost use Rattle.cedar_layout.specs.Gaps as spec;

use crate::brackets::{Bracket, is_at_sign};
use crate::decisions::BlankRule;
use crate::kinds::{
    begins_condition, closes, ends_operand, first_byte, goes_on, is_at, is_comma, is_lettered,
    is_paren, is_semicolon, opens,
};
use crate::levels::{Level, level_apart, level_joined};
use cedar_lexer::token::TokenKind;

/// What stands between two words.
#[derive(Clone, Copy)]
pub struct Gap {
    /// a space on a line, or nothing
    pub spaced: bool,
    /// whether a line may end here
    pub level: Level,
    /// a line begins, whatever fits
    pub begins_line: bool,
    /// what becomes of a blank line here
    pub rule: BlankRule,
    /// a bracket closes behind it
    pub closing: bool,
}

/// Two words that follow one another, and what the gap between them depends on.
#[derive(Clone, Copy)]
pub struct Neighbours {
    /// what stands before the two
    pub before: Option<TokenKind>,
    pub last: TokenKind,
    pub next: TokenKind,
    /// a comment stands between the two
    pub leads: bool,
    /// one stands before `last`, and none behind it
    pub led: bool,
}

/// What stands before a word that is read.
#[derive(Clone, Copy)]
pub struct Behind {
    /// the innermost open bracket
    pub bracket: Option<Bracket>,
    /// the two words before
    pub before: Option<TokenKind>,
    pub last: Option<TokenKind>,
    /// a comment stands behind them, and one between them
    pub commented: bool,
    pub led: bool,
}

/// Between two words of a line.
fn word_gap(spaced: bool, level: Level) -> Gap
    ensures { result ≡ spec.word_gap spaced level }
{
    Gap {
        spaced,
        level,
        begins_line: false,
        rule: BlankRule::Kept,
        closing: false,
    }
}

/// Before a word that begins a line.
pub(crate) fn line_gap(rule: BlankRule) -> Gap
    ensures { result ≡ spec.line_gap rule }
{
    Gap {
        spaced: false,
        level: Level::Fixed,
        begins_line: true,
        rule,
        closing: false,
    }
}

/// Inside one of a bracket's ends.
fn end_gap(spaced: bool, level: Level, closing: bool) -> Gap
    ensures { result ≡ spec.end_gap spaced level closing }
{
    Gap {
        spaced,
        level,
        begins_line: false,
        rule: BlankRule::Never,
        closing,
    }
}

/// A `-` behind this is a sign and no difference.
fn is_negation(before: Option<TokenKind>) -> bool
    ensures { result ≡ spec.is_negation before }
{
    match before {
        None => true,
        Some(kind) => !ends_operand(kind),
    }
}

/// Nothing stands behind `last`, where `before` stands before it.
fn holds_next(before: Option<TokenKind>, last: TokenKind) -> bool
    ensures { result ≡ spec.holds_next before last }
{
    match last {
        TokenKind::Dot | TokenKind::ColonColon | TokenKind::At | TokenKind::Bang => true,
        TokenKind::Minus => is_negation(before),
        _ => false,
    }
}

/// Nothing stands before `next`, where `last` stands before it.
fn holds_back(last: TokenKind, next: TokenKind) -> bool
    ensures { result ≡ spec.holds_back last next }
{
    match next {
        TokenKind::Comma
        | TokenKind::Semicolon
        | TokenKind::CloseParen
        | TokenKind::CloseBracket
        | TokenKind::Colon
        | TokenKind::ColonColon
        | TokenKind::Dot => true,
        TokenKind::OpenParen | TokenKind::OpenBracket => ends_operand(last),
        _ => false,
    }
}

/// Between two words of an expression.
fn flat_gap(words: Neighbours) -> Gap
    ensures { result
        ≡ spec.flat_gap words.leads words.led words.before words.last words.next }
{
    let Neighbours { last, next, .. } = words;
    if holds_next(words.before, last) {
        word_gap(false, Level::Fixed)
    } else if holds_back(last, next) {
        word_gap(false, level_joined(last, next))
    } else {
        let leads = words.leads && ends_operand(last);
        word_gap(true, level_apart(leads, words.led, last, next))
    }
}

/// No blank line stands before a condition.
fn outer_rule(next: TokenKind) -> BlankRule
    ensures { result ≡ spec.outer_rule next }
{
    if begins_condition(next) {
        BlankRule::Never
    } else {
        BlankRule::Kept
    }
}

/// Outside of brackets a policy ends, and an annotation, an effect or a condition begins a line.
fn outer_gap(words: Neighbours) -> Gap
    ensures { result ≡ spec.outer_gap words.before words.last words.next }
{
    let Neighbours { last, next, .. } = words;
    if is_semicolon(last) {
        line_gap(BlankRule::Always)
    } else if !is_at(last) && (is_at(next) || is_lettered(next)) {
        line_gap(outer_rule(next))
    } else if is_paren(next) && is_lettered(last) && !is_at_sign(words.before) {
        word_gap(true, Level::Fixed)
    } else {
        let unled = Neighbours {
            leads: false,
            led: false,
            ..words
        };
        word_gap(flat_gap(unled).spaced, Level::Fixed)
    }
}

/// Behind a comma; but behind one that begins its line the next item follows on it.
fn comma_level(led: bool, level: Level) -> Level
    ensures { result ≡ spec.comma_level led level }
{
    if led { Level::Filled } else { level }
}

/// Inside of a bracket that isn't an annotation's; inside of its ends stands a space, or nothing,
/// and behind a comma its lines end at gaps of this level.
fn held_gap(spaced: bool, level: Level, words: Neighbours) -> Gap
    ensures { result ≡ spec.held_gap spaced level
        words.leads words.led words.before words.last words.next }
{
    let Neighbours { last, next, .. } = words;
    if opens(last) && closes(next) {
        end_gap(false, Level::Fixed, true)
    } else if opens(last) || closes(next) {
        end_gap(spaced, Level::Listed, closes(next))
    } else if is_comma(last) {
        word_gap(true, comma_level(words.led, level))
    } else if words.leads && is_comma(next) {
        word_gap(false, Level::Listed)
    } else {
        flat_gap(words)
    }
}

/// Inside of a bracket.
fn inner_gap(bracket: Bracket, words: Neighbours) -> Gap
    ensures { result ≡ spec.inner_gap bracket
        words.leads words.led words.before words.last words.next }
{
    match bracket {
        Bracket::Annotation | Bracket::Sole => { end_gap(false, Level::Fixed, closes(words.next)) }
        Bracket::Body => held_gap(true, Level::Listed, words),
        Bracket::Short => held_gap(false, Level::Packed, words),
        Bracket::Inner => held_gap(false, Level::Listed, words),
    }
}

/// The gap between two words, by the innermost open bracket.
fn gap_between(bracket: Option<Bracket>, words: Neighbours) -> Gap
    ensures { result ≡ spec.gap_between bracket
        words.leads words.led words.before words.last words.next }
{
    match bracket {
        None => outer_gap(words),
        Some(bracket) => inner_gap(bracket, words),
    }
}

/// Words that may not touch stand apart.
fn parted(gap: Gap, glued: bool) -> Gap
    ensures { result ≡ spec.parted gap glued }
{
    Gap {
        spaced: gap.spaced || glued,
        ..gap
    }
}

/// The gap before a word, or before the first. An operator behind a comment begins its line; with
/// another comment behind it its operand begins one too.
pub(crate) fn gap_at(behind: Behind, kind: TokenKind, text: &str) -> Gap
    ensures { result ≡ spec.gap_at behind.bracket behind.commented behind.led behind.before
        behind.last kind text.now }
{
    match behind.last {
        None => word_gap(false, Level::Fixed),
        Some(last) => {
            let words = Neighbours {
                before: behind.before,
                last,
                next: kind,
                leads: behind.commented,
                led: behind.led && !behind.commented,
            };
            let between = gap_between(behind.bracket, words);
            parted(between, goes_on(last, first_byte(text)))
        }
    }
}

/// What becomes of a blank line before a word that begins a line, where this is the rule of what
/// stands before the word and behind the last comment.
pub(crate) fn line_rule(rule: BlankRule, gap: Gap) -> BlankRule
    ensures { result ≡ spec.line_rule rule gap }
{
    if gap.closing || gap.begins_line && is_never(gap.rule) {
        BlankRule::Never
    } else {
        rule
    }
}

fn is_never(rule: BlankRule) -> bool
    ensures { result ≡ spec.is_never rule }
{
    matches!(rule, BlankRule::Never)
}
