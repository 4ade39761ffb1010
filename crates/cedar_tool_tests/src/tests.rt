//! Runs of `cedar`.
mod assertions;
mod failing;
mod files;
mod runs;
