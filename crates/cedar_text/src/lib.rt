//! The loose syntax tree of a text of Cedar, and the first fault, or all, of a text that has none;
//! and how deep such a tree nests at most.
#![tactic(auto)]

mod depth;
pub mod text_to_cst;

pub use crate::depth::nesting;
pub use cedar_syntax::{unescape, util};
