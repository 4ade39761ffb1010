//! Copies of the ways in which a tree can have no value.
ghost use Rattle.std.specs.Prelude.{◌≡◌, IfOk};

use crate::err::ToASTErrorKind;
use cedar_expressions::TryClone;
use std::alloc::AllocError;

impl ToASTErrorKind {
    /// A copy that equals its source.
    pub fn try_clone(&self) -> Result<ToASTErrorKind, AllocError>
        ensures { IfOk result (λ copy. copy ≡ self.now) }
    {
        match self {
            Self::DuplicateTemplateId(id) => Ok(Self::DuplicateTemplateId(id.try_clone()?)),
            Self::DuplicatePolicyId(id) => Ok(Self::DuplicatePolicyId(id.try_clone()?)),
            Self::ExpectedStaticPolicy(fault) => Ok(Self::ExpectedStaticPolicy(*fault)),
            Self::ExpectedTemplate(fault) => Ok(Self::ExpectedTemplate(*fault)),
            Self::DuplicateAnnotation(key) => Ok(Self::DuplicateAnnotation(key.try_clone()?)),
            Self::SlotsInConditionClause(fault) => Ok(Self::SlotsInConditionClause(*fault)),
            Self::MissingScopeVariable(var) => Ok(Self::MissingScopeVariable(*var)),
            Self::ExtraScopeElement(element) => Ok(Self::ExtraScopeElement(element.try_clone()?)),
            Self::ReservedIdentifier(word) => Ok(Self::ReservedIdentifier(word.try_clone()?)),
            Self::InvalidIdentifier(text) => Ok(Self::InvalidIdentifier(text.try_clone()?)),
            Self::InvalidSingleEq => Ok(Self::InvalidSingleEq),
            Self::InvalidEffect(word) => Ok(Self::InvalidEffect(word.try_clone()?)),
            Self::InvalidCondition(word) => Ok(Self::InvalidCondition(word.try_clone()?)),
            Self::InvalidScopeVariable(word) => Ok(Self::InvalidScopeVariable(word.try_clone()?)),
            Self::IncorrectVariable { expected, got } => Ok(Self::IncorrectVariable {
                expected: *expected,
                got: *got,
            }),
            Self::InvalidScopeOperator(op) => Ok(Self::InvalidScopeOperator(*op)),
            Self::InvalidActionScopeOperator(op) => Ok(Self::InvalidActionScopeOperator(*op)),
            Self::IsInActionScope => Ok(Self::IsInActionScope),
            Self::IsWithEq => Ok(Self::IsWithEq),
            Self::InvalidActionType(fault) => Ok(Self::InvalidActionType(fault.try_clone()?)),
            Self::EmptyClause(word) => Ok(Self::EmptyClause(word.try_clone()?)),
            Self::MembershipInvariantViolation => Ok(Self::MembershipInvariantViolation),
            Self::InvalidString(text) => Ok(Self::InvalidString(text.try_clone()?)),
            Self::ArbitraryVariable(name) => Ok(Self::ArbitraryVariable(name.try_clone()?)),
            Self::InvalidAttribute(text) => Ok(Self::InvalidAttribute(text.try_clone()?)),
            Self::InvalidHasRHS(text) => Ok(Self::InvalidHasRHS(text.try_clone()?)),
            Self::PathAsAttribute(path) => Ok(Self::PathAsAttribute(path.try_clone()?)),
            Self::FunctionCallOnMethod(id) => Ok(Self::FunctionCallOnMethod(id.try_clone()?)),
            Self::MethodCallOnFunction(id) => Ok(Self::MethodCallOnFunction(id.try_clone()?)),
            Self::InvalidPattern(text) => Ok(Self::InvalidPattern(text.try_clone()?)),
            Self::InvalidIsType { lhs, rhs } => {
                let (lhs, rhs) = both(lhs, rhs)?;
                Ok(Self::InvalidIsType { lhs, rhs })
            }
            Self::WrongNode {
                expected,
                got,
                suggestion,
            } => {
                let (got, suggestion) = both(got, suggestion)?;
                Ok(Self::WrongNode {
                    expected: *expected,
                    got,
                    suggestion,
                })
            }
            Self::AmbiguousOperators => Ok(Self::AmbiguousOperators),
            Self::UnsupportedDivision => Ok(Self::UnsupportedDivision),
            Self::UnsupportedModulo => Ok(Self::UnsupportedModulo),
            Self::ExpressionConstructionError(fault) => {
                Ok(Self::ExpressionConstructionError(fault.try_clone()?))
            }
            Self::IntegerLiteralTooLarge(number) => Ok(Self::IntegerLiteralTooLarge(*number)),
            Self::UnaryOpLimit(op) => Ok(Self::UnaryOpLimit(*op)),
            Self::VariableCall(var) => Ok(Self::VariableCall(*var)),
            Self::NoMethods(name, method) => {
                let (name, method) = both(name, method)?;
                Ok(Self::NoMethods(name, method))
            }
            Self::UnknownMethod { id, hint } => {
                let (id, hint) = both(id, hint)?;
                Ok(Self::UnknownMethod { id, hint })
            }
            Self::UnknownFunction { id, hint } => {
                let (id, hint) = both(id, hint)?;
                Ok(Self::UnknownFunction { id, hint })
            }
            Self::InvalidEntityLiteral(text) => Ok(Self::InvalidEntityLiteral(text.try_clone()?)),
            Self::ExpressionCall => Ok(Self::ExpressionCall),
            Self::InvalidAccess { lhs, field } => {
                let (lhs, field) = both(lhs, field)?;
                Ok(Self::InvalidAccess { lhs, field })
            }
            Self::InvalidIndex { lhs, field } => {
                let (lhs, field) = both(lhs, field)?;
                Ok(Self::InvalidIndex { lhs, field })
            }
            Self::NonStringIndex => Ok(Self::NonStringIndex),
            Self::TypeConstraints => Ok(Self::TypeConstraints),
            Self::NonNormalizedString {
                kind,
                src,
                normalized_src,
            } => {
                let (src, normalized_src) = both(src, normalized_src)?;
                Ok(Self::NonNormalizedString {
                    kind: *kind,
                    src,
                    normalized_src,
                })
            }
            Self::EmptyNodeInvariantViolation => Ok(Self::EmptyNodeInvariantViolation),
            Self::WrongArity {
                name,
                expected,
                got,
            } => Ok(Self::WrongArity {
                name: *name,
                expected: *expected,
                got: *got,
            }),
            Self::Unescape(fault) => Ok(Self::Unescape(fault.try_clone()?)),
            Self::WrongEntityArgument(fault) => Ok(Self::WrongEntityArgument(*fault)),
            Self::InvalidSlot(text) => Ok(Self::InvalidSlot(text.try_clone()?)),
            Self::ReservedNamespace(fault) => Ok(Self::ReservedNamespace(fault.try_clone()?)),
            Self::InvertedIsIn => Ok(Self::InvertedIsIn),
        }
    }
}

// Copies of two values.
fn both<A: TryClone + Drop, B: TryClone + Drop>(first: &A, second: &B) -> Result<(A, B), AllocError>
    ensures { IfOk result (λ copies. copies ≡ (first.now, second.now)) }
{
    let first = first.try_clone()?;
    Ok((first, second.try_clone()?))
}

impl TryClone for ToASTErrorKind {
    fn try_clone(&self) -> Result<ToASTErrorKind, AllocError> {
        ToASTErrorKind::try_clone(self)
    }
}

impl Clone for ToASTErrorKind {
    ghost is_clone = { λ kind copy. copy ≡ kind };

    fn clone(&self) -> Result<ToASTErrorKind, AllocError> {
        ToASTErrorKind::try_clone(self)
    }
}
