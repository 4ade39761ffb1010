//! How policies are read, and how reading goes on behind a fault in them: the machines of their
//! parts, over any machines that read the names, sums and expressions in them.
#![tactic(auto)]

pub mod annotation;
pub mod condition;
pub mod policies;
pub mod policy;
pub mod scope;
pub mod sequence;
