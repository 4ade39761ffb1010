//! What brackets and `if` begin, hold and end.

pub mod conditional;
pub mod lists;
pub mod paren;
pub mod record;
pub mod set;
