//! What holds no expression: literals and the texts of strings, identifiers and names, entities,
//! slots.

pub mod entities;
pub mod literals;
pub mod names;
pub(crate) mod slots;
pub(crate) mod strings;
