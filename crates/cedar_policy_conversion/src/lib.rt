//! The conversion of policies and of sets of them, on that of expressions; the traits of trees.
#![tactic(auto)]

mod annotations;
mod conditions;
pub mod cst_to_ast;
mod expressions;
pub mod names;
mod policy_ids;
mod scope;
mod sets;
mod single_primary;
mod templates;
pub mod to_ref_or_refs;
