//! Hints at what to change where a tree has no value.
ghost use Rattle.std.specs.Prelude.{◌≡◌, IfOk, Some, string_bytes, unwrap_or};
ghost use Rattle.std.specs.Option.{option_map};
ghost use Rattle.cedar_syntax.specs.messages.Help.{kind_help, plain_help, policy_help, expression_help};

use crate::cst::SIGN_LIMIT;
use crate::err::ToASTErrorKind;
use cedar_expressions::{OwnedText, Text};
use std::alloc::{AllocError, Global};

impl ToASTErrorKind {
    /// A hint at what to change, or `None`. Only want of memory refuses it.
    pub fn help(&self, alloc: Global) -> Result<Option<String>, AllocError>
        ensures { IfOk result (λ help.
            option_map (λ text. string_bytes text) help ≡ kind_help self.now) }
    {
        if let ToASTErrorKind::UnaryOpLimit(_) = self {
            let hint = format!(in alloc;
                "cannot chain more than {SIGN_LIMIT} applications of a unary operator"
            )?;
            return Ok(Some(hint));
        }
        match self.hint() {
            Some(hint) => Ok(Some(String::from_str(alloc, hint)?)),
            None => Ok(None),
        }
    }

    // The hints that are there as texts.
    fn hint(&self) -> Option<&str>
        ensures { option_map (λ text. text.now) result ≡ plain_help self.now }
    {
        match self.policy_hint() {
            Some(hint) => Some(hint),
            None => self.expression_hint(),
        }
    }

    // Those of the kinds that a policy's form and its scope have.
    fn policy_hint(&self) -> Option<&str>
        ensures { option_map (λ text. text.now) result ≡ policy_help self.now }
    {
        match self {
            Self::InvalidEffect(_) => Some("a policy begins with `permit` or `forbid`"),
            Self::InvalidCondition(_) => Some("a condition begins with `when` or `unless`"),
            Self::MissingScopeVariable(_)
            | Self::ExtraScopeElement(_)
            | Self::InvalidScopeVariable(_)
            | Self::IncorrectVariable { .. } => {
                Some("the scope has `principal`, `action` and `resource`, in this order")
            }
            Self::InvalidScopeOperator(_) => Some("the scope takes `==`, `in` and `is`"),
            Self::InvalidActionScopeOperator(_) => Some(
                "for the action the scope takes `==` and `in`",
            ),
            Self::IsInActionScope => Some("put the `is` into a `when` condition"),
            Self::IsWithEq => Some("use `is` with `in`, or `==` alone"),
            Self::InvertedIsIn => Some("write `is`, then `in`"),
            Self::TypeConstraints => Some("use `is` in place of `:`"),
            Self::InvalidActionType(_) => Some(
                "the last part of an action's type is `Action`, as in `App::Action::\"view\"`",
            ),
            Self::SlotsInConditionClause(_) => Some("slots stand in the scope alone"),
            Self::WrongNode { suggestion, .. } => as_text(suggestion),
            _ => None,
        }
    }

    // Those of the kinds that an expression has.
    fn expression_hint(&self) -> Option<&str>
        ensures { option_map (λ text. text.now) result ≡ expression_help self.now }
    {
        match self {
            Self::InvalidSingleEq => Some("use `==` to compare two values"),
            Self::ArbitraryVariable(_) => Some(
                "the variables are `principal`, `action`, `resource` and `context`",
            ),
            Self::InvalidSlot(_) => Some("the slots are `?principal` and `?resource`"),
            Self::IntegerLiteralTooLarge(_) => Some("the largest number is 9223372036854775807"),
            Self::InvalidEntityLiteral(_) => Some("an entity is written `User::\"alice\"`"),
            Self::InvalidAttribute(_) => Some("a key is an identifier or a string"),
            Self::InvalidHasRHS(_) => Some(
                "right of `has` stand identifiers joined by `.`, or one string",
            ),
            Self::InvalidIsType { .. } => Some(
                "a type is written without quotes, as `User` or `App::User`",
            ),
            Self::VariableCall(_) => Some("only functions and methods can be called"),
            Self::FunctionCallOnMethod(_) => Some("a method is called on a value, behind a `.`"),
            Self::MethodCallOnFunction(_) => Some(
                "a function is called by its name, with no value before it",
            ),
            Self::UnknownMethod { hint, .. } => {
                as_text_or(hint, "the table of extensions has no method of this name")
            }
            Self::UnknownFunction { hint, .. } => {
                as_text_or(hint, "the table of extensions has no function of this name")
            }
            _ => None,
        }
    }
}

// A text, where one is there.
fn as_text(text: &Option<OwnedText>) -> Option<&str>
    ensures { option_map (λ text. text.now) result ≡ text.now }
{
    match text {
        Some(text) => Some(text.as_str()),
        None => None,
    }
}

// A text, or the other one where none is there.
fn as_text_or<'a>(text: &'a Option<Text>, other: &'a str) -> Option<&'a str>
    ensures { option_map (λ text. text.now) result ≡ Some (unwrap_or text.now other.now) }
{
    match text {
        Some(text) => Some(text.as_str()),
        None => Some(other),
    }
}
