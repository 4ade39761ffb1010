//! Expressions, policies and sets of them as JSON, in the form of Cedar's documentation.
#![tactic(auto)]

mod attributes;
mod chains;
mod function_keys;
mod opening;
mod pattern;
mod policy;
mod refusal;
mod scope;
mod shape;
mod stack;
mod todo;
mod values;
mod writer;

pub use refusal::ToJsonError;
pub use values::{expr_to_json, policyset_to_json, static_policy_to_json, template_to_json};
