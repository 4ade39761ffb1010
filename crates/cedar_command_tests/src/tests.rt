//! Runs of the program.
mod arguments;
mod assertions;
mod failing;
mod streams;
