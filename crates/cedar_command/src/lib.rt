//! A run of `cedar-parse`, as a library: its words, its streams, what it writes and its status.
#![tactic(auto)]

mod format;
mod policies;
pub mod request;
pub mod run;
pub mod streams;
