//! What stands below operators, and above them: chains of one level, `if`, sides of relations,
//! signs; and what a level is alone.

pub(crate) mod chain;
pub(crate) mod conditional;
pub(crate) mod has_side;
pub(crate) mod sides;
pub(crate) mod signs;
pub mod single_child;
