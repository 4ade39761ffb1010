//! What is said of the ways in which a tree can have no value.
ghost use Rattle.std.proofs.Common.{Some};
ghost use Rattle.std.specs.Prelude.{◌≡◌};
ghost use Rattle.std.specs.Fmt.{WritesOnOk};
ghost use Rattle.cedar_syntax.specs.messages.Messages.{kind_message, unnormalized_message, arity_message, arguments_word};

use crate::err::ToASTErrorKind;
use cedar_expressions::Text;
use std::fmt;

impl fmt::Display for ToASTErrorKind {
    ghost output = { λ kind. Some (kind_message kind) };

    fn fmt<W: fmt::Write>(&self, f: &mut fmt::Formatter<W>) -> fmt::Result {
        match self {
            Self::DuplicateTemplateId(id) => write!(
                f,
                "a template with id `{id}` already exists in the policy set"
            ),
            Self::DuplicatePolicyId(id) => {
                write!(
                    f,
                    "a policy with id `{id}` already exists in the policy set"
                )
            }
            Self::ExpectedStaticPolicy(fault) => write!(f, "{fault}"),
            Self::ExpectedTemplate(fault) => write!(f, "{fault}"),
            Self::DuplicateAnnotation(key) => write!(f, "duplicate annotation: @{key}"),
            Self::SlotsInConditionClause(fault) => write!(f, "{fault}"),
            Self::MissingScopeVariable(var) => {
                write!(
                    f,
                    "this policy is missing the `{var}` variable in the scope"
                )
            }
            Self::ExtraScopeElement(element) => {
                let element = element.as_ref();
                write!(
                    f,
                    "this policy has an extra element in the scope: {element}"
                )
            }
            Self::ReservedIdentifier(word) => {
                write!(f, "this identifier is reserved and cannot be used: {word}")
            }
            Self::InvalidIdentifier(text) => write!(f, "invalid identifier: {text}"),
            Self::InvalidSingleEq => f.write_str("'=' is not a valid operator in Cedar"),
            Self::InvalidEffect(word) => write!(f, "invalid policy effect: {word}"),
            Self::InvalidCondition(word) => write!(f, "invalid policy condition: {word}"),
            Self::InvalidScopeVariable(word) => {
                write!(f, "found an invalid variable in the policy scope: {word}")
            }
            Self::IncorrectVariable { expected, got } => write!(
                f,
                "found the variable `{got}` where the variable `{expected}` must be used"
            ),
            Self::InvalidScopeOperator(op) => {
                write!(f, "invalid operator in the policy scope: {op}")
            }
            Self::InvalidActionScopeOperator(op) => {
                write!(f, "invalid operator in the action scope: {op}")
            }
            Self::IsInActionScope => f.write_str("`is` cannot appear in the action scope"),
            Self::IsWithEq => f.write_str("`is` cannot be used together with `==`"),
            Self::InvalidActionType(fault) => write!(f, "{fault}"),
            Self::EmptyClause(Some(word)) => {
                write!(f, "`{word}` condition clause cannot be empty")
            }
            Self::EmptyClause(None) => f.write_str("condition clause cannot be empty"),
            Self::MembershipInvariantViolation => f.write_str(
                "internal invariant violated. Membership chain did not resolve to an expression",
            ),
            Self::InvalidString(text) => write!(f, "invalid string literal: {text}"),
            Self::ArbitraryVariable(name) => write!(f, "invalid variable: {name}"),
            Self::InvalidAttribute(text) => write!(f, "invalid attribute name: {text}"),
            Self::InvalidHasRHS(text) => write!(f, "invalid RHS of a `has` operation: {text}"),
            Self::PathAsAttribute(path) => write!(
                f,
                "`{path}` cannot be used as an attribute as it contains a namespace"
            ),
            Self::FunctionCallOnMethod(id) => write!(f, "`{id}` is a method, not a function"),
            Self::MethodCallOnFunction(id) => write!(f, "`{id}` is a function, not a method"),
            Self::InvalidPattern(text) => write!(
                f,
                "right hand side of a `like` expression must be a pattern literal, but got `{text}`"
            ),
            Self::InvalidIsType { rhs, .. } => write!(
                f,
                "right hand side of an `is` expression must be an entity type name, but got `{rhs}`"
            ),
            Self::WrongNode { expected, got, .. } => write!(f, "expected {expected}, found {got}"),
            Self::AmbiguousOperators => f.write_str(
                "multiple relational operators (>, ==, in, etc.) must be used with parentheses to make ordering explicit",
            ),
            Self::UnsupportedDivision => f.write_str("division is not supported"),
            Self::UnsupportedModulo => f.write_str("remainder/modulo is not supported"),
            Self::ExpressionConstructionError(fault) => write!(f, "{fault}"),
            Self::IntegerLiteralTooLarge(number) => {
                write!(f, "integer literal `{number}` is too large")
            }
            Self::UnaryOpLimit(op) => write!(f, "too many occurrences of `{op}`"),
            Self::VariableCall(var) => write!(f, "`{var}(...)` is not a valid function call"),
            Self::NoMethods(name, method) => write!(
                f,
                "attempted to call `{name}.{method}(...)`, but `{name}` does not have any methods"
            ),
            Self::UnknownMethod { id, .. } => write!(f, "`{id}` is not a valid method"),
            Self::UnknownFunction { id, .. } => write!(f, "`{id}` is not a valid function"),
            Self::InvalidEntityLiteral(text) => write!(f, "invalid entity literal: {text}"),
            Self::ExpressionCall => {
                f.write_str("function calls must be of the form `<name>(arg1, arg2, ...)`")
            }
            Self::InvalidAccess { lhs, field } => write!(
                f,
                "invalid member access `{lhs}.{field}`, `{lhs}` has no fields or methods"
            ),
            Self::InvalidIndex { lhs, field } => write!(
                f,
                "`{lhs}` has no attributes, so it cannot be indexed with `{field}`"
            ),
            Self::NonStringIndex => {
                f.write_str("the contents of an index expression must be a string literal")
            }
            Self::TypeConstraints => f.write_str("type constraints using `:` are not supported"),
            Self::NonNormalizedString { kind, src, .. } => write_unnormalized(kind, src, f),
            Self::EmptyNodeInvariantViolation => f.write_str(
                "internal invariant violated. Parsed data node should not be empty",
            ),
            Self::WrongArity {
                name,
                expected,
                got,
            } => write_arity(name, *expected, *got, f),
            Self::Unescape(fault) => write!(f, "{fault}"),
            Self::WrongEntityArgument(fault) => write!(f, "{fault}"),
            Self::InvalidSlot(text) => write!(f, "`{text}` is not a valid template slot"),
            Self::ReservedNamespace(fault) => write!(f, "{fault}"),
            Self::InvertedIsIn => {
                f.write_str("when `is` and `in` are used together, `is` must come first")
            }
        }
    }
}

// Of what kind a text is that isn't in its normal form, and the text.
fn write_unnormalized<W: fmt::Write>(
    kind: &str,
    src: &Text,
    f: &mut fmt::Formatter<W>,
) -> fmt::Result
    ensures { WritesOnOk W.write_str_gives f.old result
        (unnormalized_message kind.now src.now) f.new }
{
    write!(
        f,
        "`{kind}` needs to be normalized (e.g., whitespace removed): {src}"
    )
}

// How many arguments a call takes, and how many it has.
fn write_arity<W: fmt::Write>(
    name: &str,
    expected: usize,
    got: usize,
    f: &mut fmt::Formatter<W>,
) -> fmt::Result
    ensures { WritesOnOk W.write_str_gives f.old result
        (arity_message name.now expected got) f.new }
{
    let expected_arguments = arguments(expected);
    let got_arguments = arguments(got);
    write!(
        f,
        "call to `{name}` requires exactly {expected} {expected_arguments}, but got {got} {got_arguments}"
    )
}

// The word behind a number of arguments.
fn arguments(count: usize) -> &'static str
    ensures { result.now ≡ arguments_word count }
{
    if count == 1 { "argument" } else { "arguments" }
}
