//! How names, entity literals, identifiers, expressions, primaries and sums are read: for each a
//! machine that plans what is done with a token, and does it.
#![tactic(auto)]

pub mod expression;
pub mod laws;
pub mod words;
