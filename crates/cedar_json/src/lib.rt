//! From JSON to expressions, policies and sets of them, and back, in the form of Cedar's
//! documentation.
#![tactic(auto)]

pub mod laws;

pub use cedar_json_writer::{
    ToJsonError, expr_to_json, policyset_to_json, static_policy_to_json, template_to_json,
};
