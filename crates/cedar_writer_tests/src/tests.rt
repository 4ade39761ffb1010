//! Tests of the writer: operands of each level, deep values, values that no text means; and the
//! programs of the README and of docs/LIBRARY.md.
mod assertions;
mod deep;
mod levels;
mod programs;
mod refused;
mod refused_policies;
