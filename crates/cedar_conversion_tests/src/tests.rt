//! Tests of the conversion and of `cedar_policy_parser`: trees that no text gives, parts of trees,
//! what faults hold, names of policies, deep texts, the whole program of docs/LIBRARY.md.
mod assertions;
mod deep;
mod door;
mod example;
mod payloads;
mod places;
mod policies;
mod policy_trees;
mod round_trip;
mod shown;
mod signs;
mod strings;
mod texts;
mod trees;
mod unplaced;
mod words;
