//! Tests of a run of the program: readers and writers that fail, and the process's arguments.
//! (What runs write is told by the cases of `cedar_cases`.)
#![tactic(auto)]

#[cfg(test)]
mod tests;
