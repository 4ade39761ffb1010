//! A run of `cedar`, as a library: its words, its files and streams, what it writes and its status.
#![tactic(auto)]

mod check;
mod command;
pub mod disk;
pub mod ending;
mod format;
mod lines;
mod list;
mod remark;
pub mod request;
pub mod run;
mod serve;
pub mod streams;
pub mod texts;
mod words;
