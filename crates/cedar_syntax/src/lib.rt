//! The syntax trees of a text, with the place of each node, and the faults that a text or a tree
//! can have.
#![tactic(auto)]

mod copy;
pub mod cst;
mod depth;
mod dismantle;
pub mod err;
pub mod laws;
pub mod loc;
pub mod node;
mod pieces;
pub mod position;
mod print;
mod slots;
pub mod stack;
pub mod unescape;
pub mod util;

pub use cedar_expressions::{Boxed, Items, OwnedText, Source, Text, TryClone};
