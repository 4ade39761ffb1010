//! The machine of expressions: what is begun, what is planned with one token, and what that makes
//! of it. What an operand begins with, what stands behind one, what brackets hold, and how levels
//! of operators are begun and closed stand in folders of their own, a file a construct.

mod behind;
mod brackets;
mod depth;
mod finish;
mod levels;
mod operand;
mod plan;
pub mod spanned;
pub mod start_symbols;
pub mod state;
mod step;
mod whole;
