//! The loose grammar of Cedar, which says what tokens have which tree and which fault where they
//! have none, and the driver that reads a text by the machine of a rule.
#![tactic(auto)]

pub mod laws;
pub mod reading;
