//! Lays a text of Cedar out over lines within a width, and keeps each of its words and comments.
#![tactic(auto)]

mod brackets;
mod columns;
mod decisions;
mod frames;
mod gaps;
mod hugs;
mod kinds;
pub mod laws;
mod layout;
mod levels;
mod measures;
mod options;
mod pieces;
mod reading;
mod spots;
mod standing;
mod style;
mod writing;

pub use crate::layout::lay_out;
pub use crate::options::{IndentPastWidth, LayoutOptions};
pub use crate::reading::LayoutError;
