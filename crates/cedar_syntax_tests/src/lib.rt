//! Tests of the trees, the places, the faults and the values, made by hand.
#![tactic(auto)]

#[cfg(test)]
mod tests;
