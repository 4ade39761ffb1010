//! Ranges of a text with their lines and columns.
ghost use Rattle.std.specs.Prelude.{◌≡◌};
ghost use Rattle.cedar_answers.specs.Places.{IsPlaced, extent_range, optional_range, spot_position};

use crate::answer::{ACCEPTED, CedarPosition, CedarRange, NO_MEMORY, NOT_UTF8};
use cedar_report::{Extent, Lines, Spot};
use std::alloc::Global;

/// A position that there isn't.
const NO_POSITION: CedarPosition = CedarPosition {
    line: 0,
    column: 0,
    utf16_column: 0,
};

/// The position of a spot.
fn position_of(spot: Spot) -> CedarPosition
    ensures { result ≡ spot_position spot }
{
    CedarPosition {
        line: spot.line,
        column: spot.column,
        utf16_column: spot.utf16,
    }
}

/// A range with its positions.
pub(crate) fn range_of(extent: Extent) -> CedarRange
    ensures { result ≡ extent_range extent }
{
    CedarRange {
        start: extent.start,
        end: extent.end,
        from: position_of(extent.from),
        to: position_of(extent.to),
    }
}

/// The same; zeros where there is no range.
pub(crate) fn range_or_none(extent: Option<Extent>) -> CedarRange
    ensures { result ≡ optional_range extent }
{
    match extent {
        Some(extent) => range_of(extent),
        None => CedarRange {
            start: 0,
            end: 0,
            from: NO_POSITION,
            to: NO_POSITION,
        },
    }
}

/// What is told of the place of a byte.
#[derive(Clone, Copy)]
pub struct Placed {
    pub status: u32,
    pub position: CedarPosition,
}

/// The place of a byte of a text.
pub fn answer(alloc: Global, text: &[u8], offset: usize) -> Placed
    ensures { IsPlaced text.now offset result.status result.position }
{
    match str::from_utf8(text) {
        Ok(text) => answer_text(alloc, text, offset),
        Err(_) => Placed {
            status: NOT_UTF8,
            position: NO_POSITION,
        },
    }
}

fn answer_text(alloc: Global, text: &str, offset: usize) -> Placed
    ensures { IsPlaced text.now offset result.status result.position }
{
    match Lines::of(alloc, text) {
        Ok(lines) => Placed {
            status: ACCEPTED,
            position: position_of(lines.spot(offset)),
        },
        Err(_) => Placed {
            status: NO_MEMORY,
            position: NO_POSITION,
        },
    }
}
