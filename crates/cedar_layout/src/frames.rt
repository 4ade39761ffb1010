//! The open brackets of a line, and how deep lines begin in them.
ghost use Rattle.std.specs.Prelude.{◌≡◌};
ghost use Rattle.cedar_layout.specs.Frames as spec;

use crate::gaps::Gap;
use crate::kinds::is_if;
use crate::levels::Level;
use crate::measures::{Ahead, Measure, fits_from, plus, stands_before};
use crate::options::LayoutOptions;
use crate::spots::Spot;

/// An open bracket.
#[derive(Clone, Copy)]
pub struct Frame {
    /// no line ends in it
    pub flat: bool,
    /// where its end stands, where that begins a line
    pub outer: usize,
    /// where its content stands, where that begins a line
    pub inner: usize,
    /// the gaps of the levels outside of this one end the line
    pub fitting: Level,
    /// how much deeper lines begin before `then` and `else`
    pub branched: usize,
    /// how much deeper lines begin behind `||`
    pub disjoined: usize,
    /// how much deeper lines begin behind `&&`
    pub conjoined: usize,
    /// where lines begin behind a relation, and where nothing else helps
    pub related: usize,
    /// where lines begin behind `+` and `-`
    pub added: usize,
    /// where lines begin behind `*`
    pub multiplied: usize,
    /// where lines begin before a dot, and behind a comment within an operand
    pub chained: usize,
}

/// A bracket in which no line has begun, and where its content goes on.
pub(crate) fn new_frame(flat: bool, outer: usize, inner: usize, deeper: usize) -> Frame
    ensures { result ≡ spec.new_frame flat outer inner deeper }
{
    Frame {
        flat,
        outer,
        inner,
        fitting: Level::Related,
        branched: 0,
        disjoined: 0,
        conjoined: 0,
        related: deeper,
        added: deeper,
        multiplied: deeper,
        chained: deeper,
    }
}

/// How deep a line begins at a gap of a level.
fn depth_of_level(frame: Frame, level: Level) -> usize
    ensures { result ≡ spec.depth_of_level frame level }
{
    match level {
        Level::Listed | Level::Packed => frame.inner,
        Level::Branched => plus(frame.inner, frame.branched),
        Level::Disjoined => plus(frame.inner, frame.disjoined),
        Level::Conjoined => plus(frame.inner, frame.conjoined),
        Level::Related | Level::Filled => frame.related,
        Level::Added => frame.added,
        Level::Multiplied => frame.multiplied,
        Level::Chained | Level::Fixed => frame.chained,
    }
}

/// No line begins further on than lines are long: so the text grows with the words alone, however
/// deep they nest.
fn held_within(options: LayoutOptions, depth: usize) -> usize
    ensures { result ≡ spec.held_within options depth }
{
    if depth < options.width {
        depth
    } else {
        options.width
    }
}

/// How deep a line begins at a gap, in the innermost open bracket or in none.
pub(crate) fn line_depth(options: LayoutOptions, frame: Option<Frame>, gap: Gap) -> usize
    ensures { result ≡ spec.line_depth options frame gap }
{
    match frame {
        None => 0,
        Some(frame) => {
            let depth = if gap.closing {
                frame.outer
            } else {
                depth_of_level(frame, gap.level)
            };
            held_within(options, depth)
        }
    }
}

/// How deep a comment stands in a gap, in the innermost open bracket or in none.
pub(crate) fn comment_depth(options: LayoutOptions, frame: Option<Frame>, gap: Gap) -> usize
    ensures { result ≡ spec.comment_depth options frame gap }
{
    match frame {
        None => 0,
        Some(frame) => {
            let depth = if gap.closing {
                frame.inner
            } else {
                depth_of_level(frame, gap.level)
            };
            held_within(options, depth)
        }
    }
}

/// Behind a gap of a level, at which a line begins: the outermost level whose gaps need not end
/// it.
fn first_fitting(options: LayoutOptions, depth: usize, level: Level, measure: Measure) -> Level
    ensures { result ≡ spec.first_fitting options depth level measure }
{
    let ahead = measure.ahead;
    if level.is_outside(Level::Branched)
        && fits_from(options.width, depth, measure.from, ahead.branched)
    {
        Level::Branched
    } else if level.is_outside(Level::Disjoined)
        && fits_from(options.width, depth, measure.from, ahead.disjoined)
    {
        Level::Disjoined
    } else if level.is_outside(Level::Conjoined)
        && fits_from(options.width, depth, measure.from, ahead.conjoined)
    {
        Level::Conjoined
    } else {
        Level::Related
    }
}

/// One step deeper, or none.
fn step_if(options: LayoutOptions, deeper: bool) -> usize
    ensures { result ≡ spec.step_if options deeper }
{
    if deeper { options.indent } else { 0 }
}

/// `&&` stands one step deeper where a `||` is ahead.
fn conjoined_behind(options: LayoutOptions, measure: Measure, deep: usize) -> usize
    ensures { result ≡ spec.conjoined_behind options measure deep }
{
    let ahead = measure.ahead;
    plus(
        deep,
        step_if(options, stands_before(ahead.conjoined, ahead.disjoined)),
    )
}

/// A frame in which lines begin so much deeper before `then` and `else`, behind `||` and behind `&&`.
fn stepped(frame: Frame, branched: usize, disjoined: usize, conjoined: usize) -> Frame
    ensures { result ≡ spec.stepped frame branched disjoined conjoined }
{
    Frame {
        branched,
        disjoined,
        conjoined,
        ..frame
    }
}

/// Behind a comma or a bracket.
fn stepped_listed(options: LayoutOptions, frame: Frame, spot: Spot, measure: Measure) -> Frame
    ensures { result ≡ spec.stepped_listed options frame spot measure }
{
    let ahead = measure.ahead;
    let disjoined = step_if(options, stands_before(ahead.disjoined, ahead.branched));
    stepped(
        frame,
        step_if(options, !is_if(spot.kind)),
        disjoined,
        conjoined_behind(options, measure, disjoined),
    )
}

/// Before `then` or `else`.
fn stepped_branched(options: LayoutOptions, frame: Frame, measure: Measure) -> Frame
    ensures { result ≡ spec.stepped_branched options frame measure }
{
    let disjoined = plus(frame.branched, options.indent);
    stepped(
        frame,
        frame.branched,
        disjoined,
        conjoined_behind(options, measure, disjoined),
    )
}

/// What the operand that begins with a line goes on deeper than: the lines behind the `&&` or the
/// `||` that is ahead, or this line.
fn operand_base(frame: Frame, depth: usize, ahead: Ahead) -> usize
    ensures { result ≡ spec.operand_base frame depth ahead }
{
    if stands_before(ahead.related, ahead.conjoined) {
        plus(frame.inner, frame.conjoined)
    } else if stands_before(ahead.conjoined, ahead.disjoined) {
        plus(frame.inner, frame.disjoined)
    } else {
        depth
    }
}

/// One step deeper than this where a `+` is ahead.
fn term_base(options: LayoutOptions, ahead: Ahead, base: usize) -> usize
    ensures { result ≡ spec.term_base options ahead base }
{
    plus(
        base,
        step_if(options, stands_before(ahead.multiplied, ahead.added)),
    )
}

/// The frame of a line the base of whose operand is told.
fn stepped_operand(options: LayoutOptions, frame: Frame, base: usize, ahead: Ahead) -> Frame
    ensures { result ≡ spec.stepped_operand options frame base ahead }
{
    let term = term_base(options, ahead, base);
    Frame {
        related: plus(base, options.indent),
        added: plus(base, options.indent),
        multiplied: plus(term, options.indent),
        chained: plus(base, options.indent),
        ..frame
    }
}

/// A line begins so deep behind a gap of a level: which gaps end lines from now on.
fn refitted(
    options: LayoutOptions,
    frame: Frame,
    depth: usize,
    level: Level,
    measure: Measure,
) -> Frame
    ensures { result ≡ spec.refitted options frame depth level measure }
{
    Frame {
        fitting: first_fitting(options, depth, level, measure),
        ..frame
    }
}

/// A line begins behind a relation. Its gaps end lines from now on, as do those outside of it.
fn begun_related(options: LayoutOptions, frame: Frame, depth: usize, measure: Measure) -> Frame
    ensures { result ≡ spec.begun_related options frame depth measure }
{
    let term = term_base(options, measure.ahead, depth);
    Frame {
        fitting: Level::Added,
        added: plus(depth, options.indent),
        multiplied: plus(term, options.indent),
        chained: plus(depth, options.indent),
        ..frame
    }
}

/// A line begins behind `+` or `-`.
fn begun_added(options: LayoutOptions, frame: Frame, depth: usize) -> Frame
    ensures { result ≡ spec.begun_added options frame depth }
{
    Frame {
        fitting: Level::Multiplied,
        multiplied: plus(depth, options.indent),
        chained: plus(depth, options.indent),
        ..frame
    }
}

/// A line begins behind `*`.
fn begun_multiplied(options: LayoutOptions, frame: Frame, depth: usize) -> Frame
    ensures { result ≡ spec.begun_multiplied options frame depth }
{
    Frame {
        fitting: Level::Chained,
        chained: plus(depth, options.indent),
        ..frame
    }
}

/// A line begins before a dot.
fn begun_chained(frame: Frame) -> Frame
    ensures { result ≡ spec.begun_chained frame }
{
    Frame {
        fitting: Level::Packed,
        ..frame
    }
}

/// A line begins with an operand, as deep as what follows goes on from.
fn begun_outer(
    options: LayoutOptions,
    frame: Frame,
    depth: usize,
    level: Level,
    measure: Measure,
) -> Frame
    ensures { result ≡ spec.begun_outer options frame depth level measure }
{
    let base = operand_base(frame, depth, measure.ahead);
    let begun = refitted(options, frame, depth, level, measure);
    stepped_operand(options, begun, base, measure.ahead)
}

/// The frame of a bracket in which a line begins, so deep, with a word.
pub(crate) fn line_begun_at(
    options: LayoutOptions,
    frame: Frame,
    depth: usize,
    spot: Spot,
    measure: Measure,
) -> Frame
    ensures { result ≡ spec.line_begun_at options frame depth spot measure spot.gap.level }
{
    match spot.gap.level {
        Level::Listed => {
            let listed = stepped_listed(options, frame, spot, measure);
            begun_outer(options, listed, depth, Level::Listed, measure)
        }
        Level::Branched => {
            let branched = stepped_branched(options, frame, measure);
            begun_outer(options, branched, depth, Level::Branched, measure)
        }
        Level::Disjoined => begun_outer(options, frame, depth, Level::Disjoined, measure),
        Level::Conjoined => {
            let begun = refitted(options, frame, depth, Level::Conjoined, measure);
            stepped_operand(options, begun, depth, measure.ahead)
        }
        Level::Related => begun_related(options, frame, depth, measure),
        Level::Added => begun_added(options, frame, depth),
        Level::Multiplied => begun_multiplied(options, frame, depth),
        Level::Chained => begun_chained(frame),
        Level::Packed | Level::Filled | Level::Fixed => frame,
    }
}

/// Lines end at the gaps of a level, in the innermost open bracket or in none.
pub(crate) fn breaks_level(frame: Option<Frame>, level: Level) -> bool
    ensures { result ≡ spec.breaks_level frame level }
{
    match frame {
        None => false,
        Some(frame) => !frame.flat && level.is_outside(frame.fitting),
    }
}

/// What the bracket's line holds up to its next gap of an outer level stands on one line, so that
/// none ends at another gap.
pub(crate) fn is_fine(frame: Frame) -> bool
    ensures { result ≡ spec.is_fine frame }
{
    frame.flat || frame.fitting.is_outside(Level::Related)
}
