//! The faults of a text as people and tools want them: where each stands, what it is, what could
//! have stood there, and what to write instead.
#![tactic(auto)]

mod behind;
mod code;
mod encoding;
mod expected;
mod finding;
mod fit;
mod frame;
mod glyph;
mod human;
mod json_objects;
mod lines;
mod names;
mod near;
mod outline;
mod plain;
mod related;
mod report;
mod rows;
mod search;
mod shapes;
mod sight;
mod sign;
mod spelling;
mod tokens;
mod told;

pub use finding::{Extent, Finding, Related};
pub use human::Palette;
pub use lines::{Lines, Spot};
pub use report::Report;
