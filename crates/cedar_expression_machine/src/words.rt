//! The machines of words: names, entity literals and single identifiers.

pub mod entity;
pub mod ident;
pub mod nodes;
pub mod path;
pub mod state;
