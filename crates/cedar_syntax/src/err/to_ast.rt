//! Why a tree has no value.
ghost use Rattle.std.specs.Prelude.{◌≡◌, IfOk, string_bytes};
ghost use Rattle.std.specs.Option.{option_map};
ghost use Rattle.std.proofs.Common.{Some};

use crate::copy::expressions::beside;
use crate::cst::{Ident, RelOp, VariableDef};
use crate::err::UnescapeError;
use crate::err::parse_errors::{
    ExpectedStaticPolicy, ExpectedTemplate, InvalidActionType, Ref, SlotsInConditionClause,
    WrongEntityArgument,
};
use crate::loc::{Loc, SourceSpan};
use cedar_expressions::{
    AnyId, Boxed, ExpressionConstructionError, Name, OwnedText, ReservedNameError, Slot, Text,
    TryClone, UnaryOp, UnreservedId, Var,
};
use cedar_policy_store::PolicyID;
use either::Either;
use std::alloc::{AllocError, Global};
use std::error::Error;
use std::fmt;

/// The ways in which a tree can have no value.
#[derive(Debug, Drop, PartialEq, Eq)]
pub enum ToASTErrorKind {
    /// a template with the name of another one; no conversion gives it
    DuplicateTemplateId(PolicyID),
    /// a policy with the name of another one; no conversion gives it
    DuplicatePolicyId(PolicyID),
    /// a template where a policy without slots was wanted
    ExpectedStaticPolicy(ExpectedStaticPolicy),
    /// a policy without slots where a template was wanted; no conversion gives it
    ExpectedTemplate(ExpectedTemplate),
    /// an annotation whose key an earlier one has
    DuplicateAnnotation(AnyId),
    /// a slot in a condition
    SlotsInConditionClause(SlotsInConditionClause),
    /// a scope that ends before this variable
    MissingScopeVariable(Var),
    /// a fourth element of a scope, or a later one
    ExtraScopeElement(Boxed<VariableDef>),
    /// a word where it can't be an identifier
    ReservedIdentifier(Ident),
    /// a text that no identifier is spelled as
    InvalidIdentifier(Text),
    /// `=` where `==` was meant
    InvalidSingleEq,
    /// a policy's first word that is neither `permit` nor `forbid`
    InvalidEffect(Ident),
    /// a condition's word that is neither `when` nor `unless`
    InvalidCondition(Ident),
    /// a scope's word that is none of its three variables
    InvalidScopeVariable(Ident),
    /// a variable of the scope in another's place
    IncorrectVariable {
        expected: Var,
        got: Var,
    },
    /// an operator that the scope can't have
    InvalidScopeOperator(RelOp),
    /// an operator that the scope can't have for the action
    InvalidActionScopeOperator(RelOp),
    /// `is` for the action
    IsInActionScope,
    /// `is` and `==` side by side
    IsWithEq,
    /// entities for the action whose type isn't an action's
    InvalidActionType(InvalidActionType),
    /// a condition with nothing in it, and its word
    EmptyClause(Option<Ident>),
    /// accesses that make no expression; no conversion gives it
    MembershipInvariantViolation,
    /// a string that no text is written as, or no string where one was wanted
    InvalidString(Text),
    /// a name that is no variable
    ArbitraryVariable(Text),
    /// a record's key that is no attribute
    InvalidAttribute(Text),
    /// what can't stand right of `has`
    InvalidHasRHS(Text),
    /// a path where an attribute was wanted
    PathAsAttribute(Text),
    /// a method that is called as a function
    FunctionCallOnMethod(UnreservedId),
    /// a function that is called as a method
    MethodCallOnFunction(UnreservedId),
    /// what can't stand right of `like`
    InvalidPattern(Text),
    /// what can't stand right of `is`, with the left side
    InvalidIsType {
        lhs: Text,
        rhs: Text,
    },
    /// another form than the scope can have there
    WrongNode {
        expected: &'static str,
        got: OwnedText,
        suggestion: Option<OwnedText>,
    },
    /// two or more operators of a relation side by side
    AmbiguousOperators,
    /// `/`
    UnsupportedDivision,
    /// `%`
    UnsupportedModulo,
    /// a record that has a key twice
    ExpressionConstructionError(ExpressionConstructionError),
    /// a number past the largest that an expression can have
    IntegerLiteralTooLarge(u64),
    /// more signs before an operand than may stand there
    UnaryOpLimit(UnaryOp),
    /// a variable that is called
    VariableCall(Var),
    /// a method that is called on a name
    NoMethods(Name, UnreservedId),
    /// a method that isn't known
    UnknownMethod {
        id: UnreservedId,
        hint: Option<Text>,
    },
    /// a function that isn't known
    UnknownFunction {
        id: Name,
        hint: Option<Text>,
    },
    /// an entity with braces
    InvalidEntityLiteral(Text),
    /// an expression that is called
    ExpressionCall,
    /// a field of a name
    InvalidAccess {
        lhs: Name,
        field: Text,
    },
    /// an index of a name
    InvalidIndex {
        lhs: Name,
        field: Text,
    },
    /// an index that is no string; no conversion gives it
    NonStringIndex,
    /// a type behind `:` in the scope
    TypeConstraints,
    /// a text that isn't in its one normal form; no conversion gives it
    NonNormalizedString {
        kind: &'static str,
        src: Text,
        normalized_src: Text,
    },
    /// a node has nothing in it
    EmptyNodeInvariantViolation,
    /// a call with another number of arguments than it takes
    WrongArity {
        name: &'static str,
        expected: usize,
        got: usize,
    },
    /// a piece of a string that is no escape
    Unescape(UnescapeError),
    /// another kind of reference than the scope can have there
    WrongEntityArgument(WrongEntityArgument),
    /// a slot that is neither `?principal` nor `?resource`
    InvalidSlot(Text),
    /// a name that holds `__cedar`
    ReservedNamespace(ReservedNameError),
    /// `in` before `is`
    InvertedIsIn,
}

impl ToASTErrorKind {
    ghost use Rattle.either.specs.declared.Either.TheVariants.{Left, Right};

    /// Another form of node than `expected`, which the words `got` name, and a hint. It takes no
    /// memory.
    pub fn wrong_node(
        expected: &'static str,
        got: String,
        suggestion: Option<String>,
    ) -> ToASTErrorKind
        ensures { result ≡ ToASTErrorKind.WrongNode expected.entry (string_bytes got)
            (option_map (λ text. string_bytes text) suggestion) }
    {
        let suggestion = match suggestion {
            Some(text) => Some(OwnedText::from(text)),
            None => None,
        };
        ToASTErrorKind::WrongNode {
            expected,
            got: OwnedText::from(got),
            suggestion,
        }
    }

    /// A call of `name`, which takes `expected` arguments, with `got` of them.
    pub fn wrong_arity(name: &'static str, expected: usize, got: usize) -> ToASTErrorKind
        ensures { result ≡ ToASTErrorKind.WrongArity name.entry expected got }
    {
        ToASTErrorKind::WrongArity {
            name,
            expected,
            got,
        }
    }

    /// A slot in a condition with the word `clause_type`.
    pub fn slots_in_condition_clause(slot: Slot, clause_type: &'static str) -> ToASTErrorKind
        ensures { result ≡ ToASTErrorKind.SlotsInConditionClause
            (record { slot = slot; clause_type = clause_type.entry }) }
    {
        ToASTErrorKind::from(SlotsInConditionClause { slot, clause_type })
    }

    /// A template with this slot where a policy without slots was wanted.
    pub fn expected_static_policy(slot: Slot) -> ToASTErrorKind
        ensures { result ≡ ToASTErrorKind.ExpectedStaticPolicy (record { slot = slot }) }
    {
        ToASTErrorKind::from(ExpectedStaticPolicy { slot })
    }

    /// A policy without slots where a template was wanted.
    pub fn expected_template() -> ToASTErrorKind
        ensures { result ≡ ToASTErrorKind.ExpectedTemplate (record {}) }
    {
        ToASTErrorKind::from(ExpectedTemplate {})
    }

    /// `got` in the scope where only `expected` can stand.
    pub fn wrong_entity_argument_one_expected(expected: Ref, got: Ref) -> ToASTErrorKind
        ensures { result ≡ ToASTErrorKind.WrongEntityArgument
            (record { expected = Left expected; got = got }) }
    {
        ToASTErrorKind::from(WrongEntityArgument {
            expected: Either::Left(expected),
            got,
        })
    }

    /// `got` in the scope where `first` or `second` can stand.
    pub fn wrong_entity_argument_two_expected(first: Ref, second: Ref, got: Ref) -> ToASTErrorKind
        ensures { result ≡ ToASTErrorKind.WrongEntityArgument
            (record { expected = Right (first, second); got = got }) }
    {
        ToASTErrorKind::from(WrongEntityArgument {
            expected: Either::Right((first, second)),
            got,
        })
    }
}

impl From<UnescapeError> for ToASTErrorKind {
    ghost use Rattle.cedar_syntax.specs.declared.err.to_ast.ToASTErrorKind.TheVariants as kind;

    ghost from_gives = { λ fault made. made ≡ kind.Unescape fault };

    fn from(fault: UnescapeError) -> ToASTErrorKind {
        ToASTErrorKind::Unescape(fault)
    }
}

impl From<ExpressionConstructionError> for ToASTErrorKind {
    ghost use Rattle.cedar_syntax.specs.declared.err.to_ast.ToASTErrorKind.TheVariants as kind;

    ghost from_gives = { λ fault made. made ≡ kind.ExpressionConstructionError fault };

    fn from(fault: ExpressionConstructionError) -> ToASTErrorKind {
        ToASTErrorKind::ExpressionConstructionError(fault)
    }
}

impl From<ReservedNameError> for ToASTErrorKind {
    ghost use Rattle.cedar_syntax.specs.declared.err.to_ast.ToASTErrorKind.TheVariants as kind;

    ghost from_gives = { λ fault made. made ≡ kind.ReservedNamespace fault };

    fn from(fault: ReservedNameError) -> ToASTErrorKind {
        ToASTErrorKind::ReservedNamespace(fault)
    }
}

impl From<ExpectedStaticPolicy> for ToASTErrorKind {
    ghost use Rattle.cedar_syntax.specs.declared.err.to_ast.ToASTErrorKind.TheVariants as kind;

    ghost from_gives = { λ fault made. made ≡ kind.ExpectedStaticPolicy fault };

    fn from(fault: ExpectedStaticPolicy) -> ToASTErrorKind {
        ToASTErrorKind::ExpectedStaticPolicy(fault)
    }
}

impl From<ExpectedTemplate> for ToASTErrorKind {
    ghost use Rattle.cedar_syntax.specs.declared.err.to_ast.ToASTErrorKind.TheVariants as kind;

    ghost from_gives = { λ fault made. made ≡ kind.ExpectedTemplate fault };

    fn from(fault: ExpectedTemplate) -> ToASTErrorKind {
        ToASTErrorKind::ExpectedTemplate(fault)
    }
}

impl From<SlotsInConditionClause> for ToASTErrorKind {
    ghost use Rattle.cedar_syntax.specs.declared.err.to_ast.ToASTErrorKind.TheVariants as kind;

    ghost from_gives = { λ fault made. made ≡ kind.SlotsInConditionClause fault };

    fn from(fault: SlotsInConditionClause) -> ToASTErrorKind {
        ToASTErrorKind::SlotsInConditionClause(fault)
    }
}

impl From<InvalidActionType> for ToASTErrorKind {
    ghost use Rattle.cedar_syntax.specs.declared.err.to_ast.ToASTErrorKind.TheVariants as kind;

    ghost from_gives = { λ fault made. made ≡ kind.InvalidActionType fault };

    fn from(fault: InvalidActionType) -> ToASTErrorKind {
        ToASTErrorKind::InvalidActionType(fault)
    }
}

impl From<WrongEntityArgument> for ToASTErrorKind {
    ghost use Rattle.cedar_syntax.specs.declared.err.to_ast.ToASTErrorKind.TheVariants as kind;

    ghost from_gives = { λ fault made. made ≡ kind.WrongEntityArgument fault };

    fn from(fault: WrongEntityArgument) -> ToASTErrorKind {
        ToASTErrorKind::WrongEntityArgument(fault)
    }
}

impl Error for ToASTErrorKind {}

/// Why a tree has no value, and the place of the node that hinders it.
#[derive(Debug, PartialEq, Eq)]
pub struct ToASTError {
    pub kind: ToASTErrorKind,
    pub loc: Option<Loc>,
}

/// A fault is dropped in a frame of its own, so that what lets faults go has one call there and no
/// case for each kind.
impl Drop for ToASTError {
    #[inline(never)]
    fn drop(self) {
        let ToASTError { kind, loc: _ } = self;
        drop(kind);
    }
}

impl ToASTError {
    ghost use Rattle.cedar_syntax.specs.messages.Help.{kind_help};
    ghost use Rattle.cedar_syntax.specs.faults.ToASTError.{span_of_ast};

    /// The fault `kind` at the place `loc`.
    pub fn new(kind: ToASTErrorKind, loc: Option<Loc>) -> ToASTError
        ensures { result ≡ record { kind = kind; loc = loc } }
    {
        ToASTError { kind, loc }
    }

    /// What hinders the value.
    pub fn kind(&self) -> &ToASTErrorKind
        ensures { result.now ≡ self.now.kind }
    {
        &self.kind
    }

    /// The bytes of the place, or `None` where the fault has none.
    pub fn span(&self) -> Option<SourceSpan>
        ensures { result ≡ span_of_ast self.now }
    {
        self.loc.as_ref().map(|loc| loc.span)
    }

    /// A hint at what to change, or `None`. Only want of memory refuses it.
    pub fn help(&self, alloc: Global) -> Result<Option<String>, AllocError>
        ensures { IfOk result (λ help.
            option_map (λ text. string_bytes text) help ≡ kind_help self.now.kind) }
    {
        self.kind.help(alloc)
    }

    /// A copy that equals its source, place included.
    pub fn try_clone(&self) -> Result<ToASTError, AllocError>
        ensures { IfOk result (λ copy. copy ≡ self.now) }
    {
        let kind = self.kind.try_clone()?;
        let (kind, loc) = beside(kind, self.loc.try_clone())?;
        Ok(ToASTError { kind, loc })
    }
}

impl TryClone for ToASTError {
    fn try_clone(&self) -> Result<ToASTError, AllocError> {
        ToASTError::try_clone(self)
    }
}

impl Clone for ToASTError {
    ghost is_clone = { λ fault copy. copy ≡ fault };

    fn clone(&self) -> Result<ToASTError, AllocError> {
        ToASTError::try_clone(self)
    }
}

impl fmt::Display for ToASTError {
    ghost use Rattle.cedar_syntax.specs.messages.Messages.{kind_message};

    ghost output = { λ fault. Some (kind_message fault.kind) };

    fn fmt<W: fmt::Write>(&self, f: &mut fmt::Formatter<W>) -> fmt::Result {
        write!(f, "{}", self.kind)
    }
}

impl Error for ToASTError {}
