//! Tests of a run of `cedar`: files and streams that fail, and what is written to files. (What runs
//! write is told by the stored runs of `.ci/runs`.)
#![tactic(auto)]

#[cfg(test)]
mod tests;
