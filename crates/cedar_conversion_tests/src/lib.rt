//! Tests of the conversion and of `cedar_policy_parser`: trees that no text gives, parts of trees,
//! what faults hold, names of policies, deep texts, the whole program of docs/LIBRARY.md.
#![tactic(auto)]

#[cfg(test)]
mod tests;
