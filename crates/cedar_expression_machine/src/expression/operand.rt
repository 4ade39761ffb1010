//! What an operand begins with: signs, literals, slots, words.

pub mod begun_words;
pub mod reduce;
pub mod signs;
pub mod slot;
pub mod want;
