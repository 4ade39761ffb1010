//! Reads a whole text by one rule of the grammar, token after token: the driver, and what it
//! shares with the machines of the rules.

pub mod class;
pub mod driver;
pub mod expected;
pub mod extent;
pub mod identifier;
pub mod literal;
pub mod mark;
pub mod mending;
pub mod never;
pub mod node_builder;
pub mod place;
pub mod put;
pub mod recovery;
pub mod token_read;
pub mod tokens;
