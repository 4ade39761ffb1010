//! Values written as text: expressions, policies and sets as Cedar text that is read as just them.
#![tactic(auto)]

mod calls;
pub mod laws;
mod opening;
mod output;
mod pattern;
mod policy;
mod records;
mod refusal;
mod sets;
mod shape;
mod sort;
mod spacing;
mod todo;
mod values;
mod writer;

pub use refusal::{NotWritable, NotWritten};
pub use values::{expr_to_cedar, policyset_to_cedar, static_policy_to_cedar, template_to_cedar};
