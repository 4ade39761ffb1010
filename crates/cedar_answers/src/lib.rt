//! What the parser tells hosts in C, Rust, Python and Go: a text in, its policies or its faults out,
//! as plain structs that the host reads in place. `cedar_c` gives the calls out.
//!
//! An answer is made in the memory of the host's heap and belongs to the host. Each call answers
//! every text: it neither recurses, aborts nor blocks.
#![tactic(auto)]

mod annotations;
mod answer;
mod entities;
pub mod expressions;
mod faults;
pub mod layouts;
pub mod lines;
mod made;
pub mod places;
pub mod policies;
mod policy;
mod refusals;
mod scope;
mod sets;
mod texts;
pub mod written;

pub use crate::answer::{
    CedarAnnotation, CedarAnswer, CedarEntity, CedarFault, CedarPolicy, CedarPosition, CedarRange,
    CedarRelated, CedarScope,
};
