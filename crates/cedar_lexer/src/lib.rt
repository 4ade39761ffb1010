//! Cuts a Cedar text into its tokens.
#![tactic(auto)]

pub mod laws;
pub mod lexer;
mod scan;
pub mod token;
