//! The faults of texts and trees, and the lists in which they are told.

mod conjunction;
mod copy_kinds;
pub mod escape;
pub mod expected;
pub mod faults;
mod help;
pub mod literal_parse;
pub mod non_empty;
pub mod parse_errors;
mod say_kinds;
pub mod to_ast;
pub mod to_cst;

pub use escape::{EscapeError, UnescapeError, UnescapeFailure};
pub use expected::{ExpectedTokenConfig, expected_to_string, policy_token_config};
pub use faults::{Failure, ParseError, ParseErrors};
pub use literal_parse::LiteralParseError;
pub use non_empty::NonEmpty;
pub use to_ast::{ToASTError, ToASTErrorKind};
pub use to_cst::{RawFault, ToCSTError};
