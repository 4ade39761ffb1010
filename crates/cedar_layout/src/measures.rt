//! How far it is from each word to the gaps at which its line can end.
ghost use Rattle.std.specs.Prelude.{◌≡◌, IfOk};
ghost use Rattle.cedar_layout.specs.Measures as spec;

use crate::gaps::Gap;
use crate::kinds::{closes, opens};
use crate::levels::Level;
use crate::spots::Spot;
use cedar_lexer::token::TokenKind;
use std::alloc::{AllocError, Global};
use std::collections::VecDeque;

/// From a place to the end of the text, with all of it on one line: so many comments, and so many
/// columns of words and spaces.
#[derive(Clone, Copy)]
pub struct Distance {
    pub comments: usize,
    pub columns: usize,
}

/// What is ahead in a bracket: where the next gap stands that is outside of a level, or the
/// bracket's end, for the levels from `Branched` to `Packed`; and where the line can end first.
#[derive(Clone, Copy)]
pub struct Ahead {
    pub branched: Distance,
    pub disjoined: Distance,
    pub conjoined: Distance,
    pub related: Distance,
    pub added: Distance,
    pub multiplied: Distance,
    pub chained: Distance,
    pub packed: Distance,
    pub ending: Distance,
}

/// Of a word: where it stands, what is ahead of it, and, of an opening bracket, where the line can
/// end first behind all of the bracket.
#[derive(Clone, Copy)]
pub struct Measure {
    pub from: Distance,
    pub ahead: Ahead,
    pub whole: Distance,
}

/// A word, and its measure.
#[derive(Clone, Copy)]
pub struct MeasuredWord {
    pub spot: Spot,
    pub measure: Measure,
}

/// The words of a text, in order, and the measures of those at which a line may begin or a bracket
/// opens.
#[derive(Drop)]
pub struct Words {
    pub spots: VecDeque<Spot>,
    pub measures: VecDeque<Measure>,
}

/// Numbers end at the largest `usize`.
pub(crate) fn plus(a: usize, b: usize) -> usize
    ensures { result ≡ spec.plus a b }
{
    a.saturating_add(b)
}

/// No comment stands from one place to another, and what stands there fits behind a column.
pub(crate) fn fits_from(width: usize, column: usize, from: Distance, to: Distance) -> bool
    ensures { result ≡ spec.fits_from width column from to }
{
    from.comments == to.comments && plus(column, from.columns.saturating_sub(to.columns)) <= width
}

/// Place `a` stands before place `b`.
pub(crate) fn stands_before(a: Distance, b: Distance) -> bool
    ensures { result ≡ spec.stands_before a b }
{
    b.comments < a.comments || a.comments == b.comments && b.columns < a.columns
}

/// What is ahead before a gap that ends at a place.
fn past_gap(gap: Gap, commented: bool, place: Distance, ahead: Ahead) -> Ahead
    ensures { result ≡ spec.past_gap gap commented place ahead }
{
    Ahead {
        branched: nearer(ends_line(gap, Level::Branched), place, ahead.branched),
        disjoined: nearer(ends_line(gap, Level::Disjoined), place, ahead.disjoined),
        conjoined: nearer(ends_line(gap, Level::Conjoined), place, ahead.conjoined),
        related: nearer(ends_line(gap, Level::Related), place, ahead.related),
        added: nearer(ends_line(gap, Level::Added), place, ahead.added),
        multiplied: nearer(ends_line(gap, Level::Multiplied), place, ahead.multiplied),
        chained: nearer(ends_line(gap, Level::Chained), place, ahead.chained),
        packed: nearer(ends_line(gap, Level::Packed), place, ahead.packed),
        ending: nearer(
            ends_line(gap, Level::Fixed) || commented,
            place,
            ahead.ending,
        ),
    }
}

/// A line begins at the gap, or its level is outside of the other one.
fn ends_line(gap: Gap, level: Level) -> bool
    ensures { result ≡ spec.ends_line gap level }
{
    gap.begins_line || gap.level.is_outside(level)
}

/// This place, or what is ahead behind it.
fn nearer(here: bool, place: Distance, ahead: Distance) -> Distance
    ensures { result ≡ spec.nearer here place ahead }
{
    if here { place } else { ahead }
}

/// Nothing is left behind this place.
fn the_end() -> Distance
    ensures { result ≡ spec.the_end }
{
    Distance {
        comments: 0,
        columns: 0,
    }
}

/// Nothing is ahead but the end of the text.
fn end_ahead() -> Ahead
    ensures { result ≡ spec.end_ahead }
{
    Ahead {
        branched: the_end(),
        disjoined: the_end(),
        conjoined: the_end(),
        related: the_end(),
        added: the_end(),
        multiplied: the_end(),
        chained: the_end(),
        packed: the_end(),
        ending: the_end(),
    }
}

/// One or none.
pub(crate) fn ones(one: bool) -> usize
    ensures { result ≡ spec.ones one }
{
    if one { 1 } else { 0 }
}

/// The place before a word that ends at another one.
fn before_text(place: Distance, columns: usize) -> Distance
    ensures { result ≡ spec.before_text place columns }
{
    Distance {
        comments: place.comments,
        columns: plus(place.columns, columns),
    }
}

/// The place before a gap that ends at another one.
fn before_gap(place: Distance, commented: bool, spaced: bool) -> Distance
    ensures { result ≡ spec.before_gap place commented spaced }
{
    Distance {
        comments: plus(place.comments, ones(commented)),
        columns: plus(place.columns, ones(spaced)),
    }
}

/// At an opening bracket is ahead what is ahead behind the bracket; but the line may end in it.
fn at_opening(behind: Option<Ahead>, ahead: Ahead) -> Ahead
    ensures { result ≡ spec.at_opening behind ahead }
{
    match behind {
        None => ahead,
        Some(behind) => Ahead {
            ending: ahead.ending,
            ..behind
        },
    }
}

/// Where the line can end first behind a bracket.
fn whole_of(behind: Option<Ahead>) -> Distance
    ensures { result ≡ spec.whole_of behind }
{
    match behind {
        None => the_end(),
        Some(ahead) => ahead.ending,
    }
}

/// What is ahead of a word, where this is ahead behind it.
fn ahead_at(kind: TokenKind, behind: Option<Ahead>, ahead: Ahead) -> Ahead
    ensures { result ≡ spec.ahead_at kind behind ahead }
{
    if opens(kind) {
        at_opening(behind, ahead)
    } else {
        ahead
    }
}

/// The measure of a word that ends at a place.
fn measure_at(spot: Spot, behind: Option<Ahead>, ahead: Ahead, place: Distance) -> Measure
    ensures { result ≡ spec.measure_at spot behind ahead place }
{
    Measure {
        from: before_text(place, spot.columns),
        ahead: ahead_at(spot.kind, behind, ahead),
        whole: whole_of(behind),
    }
}

/// The place before a word and the gap before it.
fn place_before(spot: Spot, place: Distance) -> Distance
    ensures { result ≡ spec.place_before spot place }
{
    before_gap(
        before_text(place, spot.columns),
        spot.commented,
        spot.gap.spaced,
    )
}

/// What is ahead behind the innermost bracket that has been passed.
fn first_ahead(behind: &VecDeque<Ahead>) -> Option<Ahead>
    ensures { result ≡ spec.first_ahead behind.now.items }
{
    behind.front().copied()
}

/// A bracket's end puts what is ahead behind it aside, and its beginning takes it back.
fn behind_word(
    kind: TokenKind,
    behind: &mut VecDeque<Ahead>,
    ahead: Ahead,
) -> Result<(), AllocError>
    ensures { IfOk result (λ _. behind.new.items ≡ spec.behind_word kind behind.old.items ahead) }
{
    if opens(kind) {
        behind.pop_front();
    } else if closes(kind) {
        behind.push_front(ahead)?;
    }
    Ok(())
}

/// A word's measure is asked for: a line may begin at it, or a bracket opens.
fn is_measured(spot: Spot) -> bool
    ensures { result ≡ spec.is_measured spot }
{
    spot.commented
        || spot.gap.begins_line
        || spot.gap.level.is_outside(Level::Fixed)
        || opens(spot.kind)
}

/// Keeps the measure of a word where it is asked for.
fn keep_measure(measures: &mut VecDeque<Measure>, word: MeasuredWord) -> Result<(), AllocError>
    ensures { IfOk result (λ _. measures.new.items ≡ spec.kept_with word measures.old.items) }
{
    if is_measured(word.spot) {
        measures.push_front(word.measure)?;
    }
    Ok(())
}

/// The measures of words, which are taken from the last word to the first.
fn measures_of(alloc: Global, spots: &[Spot]) -> Result<VecDeque<Measure>, AllocError>
    ensures { IfOk result (λ measures. measures.items
        ≡ spec.kept_measures (spec.words_measured spots.now)) }
{
    let count = spots.iter().filter(|spot| is_measured(**spot)).count();
    let mut measures = VecDeque::with_capacity(alloc, count)?;
    let mut behind = VecDeque::new(alloc);
    let mut place = the_end();
    let mut ahead = end_ahead();
    let mut at = spots.len();
    while at > 0 {
        at -= 1;
        let spot = spots[at];
        let measure = measure_at(spot, first_ahead(&behind), ahead, place);
        keep_measure(&mut measures, MeasuredWord { spot, measure })?;
        behind_word(spot.kind, &mut behind, ahead)?;
        place = place_before(spot, place);
        ahead = past_gap(spot.gap, spot.commented, place, measure.ahead);
    }
    Ok(measures)
}

/// The words with their measures.
pub(crate) fn words_measured(alloc: Global, spots: Vec<Spot>) -> Result<Words, AllocError>
    ensures spots { IfOk result (λ words. words.spots.items ≡ spots.items) }
    ensures measures { IfOk result (λ words. words.measures.items
        ≡ spec.kept_measures (spec.words_measured spots.items)) }
{
    let measures = measures_of(alloc, &spots)?;
    Ok(Words {
        spots: VecDeque::from_vec(spots),
        measures,
    })
}

/// No measure is asked for.
fn no_measure() -> Measure
    ensures { result ≡ spec.no_measure }
{
    Measure {
        from: the_end(),
        ahead: end_ahead(),
        whole: the_end(),
    }
}

/// Takes the measure of a word, where one is kept.
fn next_measure(measures: &mut VecDeque<Measure>, spot: Spot) -> Measure
    ensures measure { result ≡ (spec.measured_by spot measures.old.items).measure }
    ensures rest { measures.new.items ≡ spec.measures_past spot measures.old.items }
{
    if !is_measured(spot) {
        return no_measure();
    }
    match measures.pop_front() {
        None => no_measure(),
        Some(measure) => measure,
    }
}

/// Takes the next word.
pub(crate) fn next_measured(words: &mut Words) -> Option<MeasuredWord>
    ensures word { result ≡ spec.first_word (spec.words_now words.old) }
    ensures rest { spec.words_now words.new ≡ spec.rest_words (spec.words_now words.old) }
{
    match words.spots.pop_front() {
        None => None,
        Some(spot) => {
            let measure = next_measure(&mut words.measures, spot);
            Some(MeasuredWord { spot, measure })
        }
    }
}
