//! The names of the kinds of faults.
ghost use Rattle.std.specs.Prelude.{◌≡◌};
ghost use Rattle.cedar_report.specs.Codes.{code_of, raw_code, kind_code};

use cedar_syntax::err::{ParseError, RawFault, ToASTErrorKind};

/// The name of a fault's kind.
pub fn code_of(fault: &ParseError) -> &'static str
    ensures { result.now ≡ code_of fault.now }
{
    match fault {
        ParseError::ToCST(fault) => raw_code(fault.raw()),
        ParseError::ToAST(fault) => kind_code(fault.kind()),
    }
}

fn raw_code(fault: &RawFault) -> &'static str
    ensures { result.now ≡ raw_code fault.now }
{
    match fault {
        RawFault::InvalidToken { .. } => "InvalidToken",
        RawFault::UnrecognizedToken { .. } => "UnrecognizedToken",
        RawFault::UnrecognizedEof { .. } => "UnrecognizedEof",
        RawFault::User { .. } => "User",
        RawFault::ExtraToken { .. } => "ExtraToken",
    }
}

fn kind_code(kind: &ToASTErrorKind) -> &'static str
    ensures { result.now ≡ kind_code kind.now }
{
    match kind {
        ToASTErrorKind::DuplicateTemplateId(..) => "DuplicateTemplateId",
        ToASTErrorKind::DuplicatePolicyId(..) => "DuplicatePolicyId",
        ToASTErrorKind::ExpectedStaticPolicy(..) => "ExpectedStaticPolicy",
        ToASTErrorKind::ExpectedTemplate(..) => "ExpectedTemplate",
        ToASTErrorKind::DuplicateAnnotation(..) => "DuplicateAnnotation",
        ToASTErrorKind::SlotsInConditionClause(..) => "SlotsInConditionClause",
        ToASTErrorKind::MissingScopeVariable(..) => "MissingScopeVariable",
        ToASTErrorKind::ExtraScopeElement(..) => "ExtraScopeElement",
        ToASTErrorKind::ReservedIdentifier(..) => "ReservedIdentifier",
        ToASTErrorKind::InvalidIdentifier(..) => "InvalidIdentifier",
        ToASTErrorKind::InvalidSingleEq => "InvalidSingleEq",
        ToASTErrorKind::InvalidEffect(..) => "InvalidEffect",
        ToASTErrorKind::InvalidCondition(..) => "InvalidCondition",
        ToASTErrorKind::InvalidScopeVariable(..) => "InvalidScopeVariable",
        ToASTErrorKind::IncorrectVariable { .. } => "IncorrectVariable",
        ToASTErrorKind::InvalidScopeOperator(..) => "InvalidScopeOperator",
        ToASTErrorKind::InvalidActionScopeOperator(..) => "InvalidActionScopeOperator",
        ToASTErrorKind::IsInActionScope => "IsInActionScope",
        ToASTErrorKind::IsWithEq => "IsWithEq",
        ToASTErrorKind::InvalidActionType(..) => "InvalidActionType",
        ToASTErrorKind::EmptyClause(..) => "EmptyClause",
        ToASTErrorKind::MembershipInvariantViolation => "MembershipInvariantViolation",
        ToASTErrorKind::InvalidString(..) => "InvalidString",
        ToASTErrorKind::ArbitraryVariable(..) => "ArbitraryVariable",
        ToASTErrorKind::InvalidAttribute(..) => "InvalidAttribute",
        ToASTErrorKind::InvalidHasRHS(..) => "InvalidHasRHS",
        ToASTErrorKind::PathAsAttribute(..) => "PathAsAttribute",
        ToASTErrorKind::FunctionCallOnMethod(..) => "FunctionCallOnMethod",
        ToASTErrorKind::MethodCallOnFunction(..) => "MethodCallOnFunction",
        ToASTErrorKind::InvalidPattern(..) => "InvalidPattern",
        ToASTErrorKind::InvalidIsType { .. } => "InvalidIsType",
        ToASTErrorKind::WrongNode { .. } => "WrongNode",
        ToASTErrorKind::AmbiguousOperators => "AmbiguousOperators",
        ToASTErrorKind::UnsupportedDivision => "UnsupportedDivision",
        ToASTErrorKind::UnsupportedModulo => "UnsupportedModulo",
        ToASTErrorKind::ExpressionConstructionError(..) => "ExpressionConstructionError",
        ToASTErrorKind::IntegerLiteralTooLarge(..) => "IntegerLiteralTooLarge",
        ToASTErrorKind::UnaryOpLimit(..) => "UnaryOpLimit",
        ToASTErrorKind::VariableCall(..) => "VariableCall",
        ToASTErrorKind::NoMethods(..) => "NoMethods",
        ToASTErrorKind::UnknownMethod { .. } => "UnknownMethod",
        ToASTErrorKind::UnknownFunction { .. } => "UnknownFunction",
        ToASTErrorKind::InvalidEntityLiteral(..) => "InvalidEntityLiteral",
        ToASTErrorKind::ExpressionCall => "ExpressionCall",
        ToASTErrorKind::InvalidAccess { .. } => "InvalidAccess",
        ToASTErrorKind::InvalidIndex { .. } => "InvalidIndex",
        ToASTErrorKind::NonStringIndex => "NonStringIndex",
        ToASTErrorKind::TypeConstraints => "TypeConstraints",
        ToASTErrorKind::NonNormalizedString { .. } => "NonNormalizedString",
        ToASTErrorKind::EmptyNodeInvariantViolation => "EmptyNodeInvariantViolation",
        ToASTErrorKind::WrongArity { .. } => "WrongArity",
        ToASTErrorKind::Unescape(..) => "Unescape",
        ToASTErrorKind::WrongEntityArgument(..) => "WrongEntityArgument",
        ToASTErrorKind::InvalidSlot(..) => "InvalidSlot",
        ToASTErrorKind::ReservedNamespace(..) => "ReservedNamespace",
        ToASTErrorKind::InvertedIsIn => "InvertedIsIn",
    }
}
