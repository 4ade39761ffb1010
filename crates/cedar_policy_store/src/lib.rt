//! Policies as they are kept: templates, policies without slots, and sets of both.
#![tactic(auto)]

mod annotation;
mod constraints;
mod effect;
mod held;
mod id_order;
pub mod laws;
mod link;
mod listing;
mod policy_id;
mod policy_set;
mod scope_text;
mod static_policy;
mod template;

pub use annotation::{Annotation, Annotations};
pub use constraints::{
    ActionConstraint, EntityReference, PrincipalConstraint, PrincipalOrResourceConstraint,
    ResourceConstraint,
};
pub use effect::Effect;
pub use link::LinkError;
pub use listing::Policies;
pub use policy_id::PolicyID;
pub use policy_set::{PolicySet, PolicySetError};
pub use static_policy::{NotStatic, RefusedTemplate, StaticPolicy, UnexpectedSlotError};
pub use template::Template;
