//! What each kind of fault of a tree says, and the hints.
use super::assertions::{copies, holds, holds_for, made, refusal, says_and_copies, shows};
use super::builder::long;
use super::faults::three_faults;
use super::names::{entity, id, internal_name, name, text};
use cedar_expressions::{
    AnyId, Boxed, ExpressionConstructionError, Name, ReservedNameError, Slot, SlotId, UnaryOp,
    UnreservedId, Var,
};
use cedar_policy_store::{PolicyID, UnexpectedSlotError};
use cedar_syntax::cst::{Ident, RelOp, VariableDef};
use cedar_syntax::err::parse_errors::{
    ExpectedStaticPolicy, ExpectedTemplate, InvalidActionType, Ref, SlotsInConditionClause,
    WrongEntityArgument,
};
use cedar_syntax::err::{LiteralParseError, NonEmpty, ToASTError, ToASTErrorKind};
use cedar_syntax::node::Node;
use either::Either;
use std::process::Abort;

/// The kinds that hold no text of their own, and what they say.
const KINDS: [(ToASTErrorKind, &str); 28] = [
    (
        ToASTErrorKind::MissingScopeVariable(Var::Action),
        "this policy is missing the `action` variable in the scope",
    ),
    (
        ToASTErrorKind::ReservedIdentifier(Ident::Has),
        "this identifier is reserved and cannot be used: has",
    ),
    (
        ToASTErrorKind::InvalidSingleEq,
        "'=' is not a valid operator in Cedar",
    ),
    (
        ToASTErrorKind::InvalidEffect(Ident::When),
        "invalid policy effect: when",
    ),
    (
        ToASTErrorKind::InvalidCondition(Ident::Permit),
        "invalid policy condition: permit",
    ),
    (
        ToASTErrorKind::InvalidScopeVariable(Ident::Context),
        "found an invalid variable in the policy scope: context",
    ),
    (
        ToASTErrorKind::IncorrectVariable {
            expected: Var::Principal,
            got: Var::Resource,
        },
        "found the variable `resource` where the variable `principal` must be used",
    ),
    (
        ToASTErrorKind::InvalidScopeOperator(RelOp::Less),
        "invalid operator in the policy scope: <",
    ),
    (
        ToASTErrorKind::InvalidActionScopeOperator(RelOp::GreaterEq),
        "invalid operator in the action scope: >=",
    ),
    (
        ToASTErrorKind::IsInActionScope,
        "`is` cannot appear in the action scope",
    ),
    (
        ToASTErrorKind::IsWithEq,
        "`is` cannot be used together with `==`",
    ),
    (
        ToASTErrorKind::EmptyClause(Some(Ident::Unless)),
        "`unless` condition clause cannot be empty",
    ),
    (
        ToASTErrorKind::EmptyClause(None),
        "condition clause cannot be empty",
    ),
    (
        ToASTErrorKind::MembershipInvariantViolation,
        "internal invariant violated. Membership chain did not resolve to an expression",
    ),
    (
        ToASTErrorKind::AmbiguousOperators,
        "multiple relational operators (>, ==, in, etc.) must be used with parentheses to make ordering explicit",
    ),
    (
        ToASTErrorKind::UnsupportedDivision,
        "division is not supported",
    ),
    (
        ToASTErrorKind::UnsupportedModulo,
        "remainder/modulo is not supported",
    ),
    (
        ToASTErrorKind::IntegerLiteralTooLarge(9223372036854775808),
        "integer literal `9223372036854775808` is too large",
    ),
    (
        ToASTErrorKind::UnaryOpLimit(UnaryOp::Not),
        "too many occurrences of `!`",
    ),
    (
        ToASTErrorKind::UnaryOpLimit(UnaryOp::Neg),
        "too many occurrences of `-`",
    ),
    (
        ToASTErrorKind::VariableCall(Var::Context),
        "`context(...)` is not a valid function call",
    ),
    (
        ToASTErrorKind::ExpressionCall,
        "function calls must be of the form `<name>(arg1, arg2, ...)`",
    ),
    (
        ToASTErrorKind::NonStringIndex,
        "the contents of an index expression must be a string literal",
    ),
    (
        ToASTErrorKind::TypeConstraints,
        "type constraints using `:` are not supported",
    ),
    (
        ToASTErrorKind::EmptyNodeInvariantViolation,
        "internal invariant violated. Parsed data node should not be empty",
    ),
    (
        ToASTErrorKind::WrongArity {
            name: "contains",
            expected: 1,
            got: 0,
        },
        "call to `contains` requires exactly 1 argument, but got 0 arguments",
    ),
    (
        ToASTErrorKind::WrongArity {
            name: "isEmpty",
            expected: 0,
            got: 1,
        },
        "call to `isEmpty` requires exactly 0 arguments, but got 1 argument",
    ),
    (
        ToASTErrorKind::InvertedIsIn,
        "when `is` and `in` are used together, `is` must come first",
    ),
];

#[test]
fn kinds_without_a_text_say_what_is_wrong(rt: HostRuntime) {
    for (kind, message) in &KINDS {
        shows(&rt, kind, message);
    }
}

#[test]
fn kinds_with_a_text_say_what_is_wrong(rt: HostRuntime) {
    let string = ToASTErrorKind::InvalidString(text(&rt, "1"));
    says_and_copies(&rt, string, "invalid string literal: 1");
    let identifier = ToASTErrorKind::InvalidIdentifier(text(&rt, "a-b"));
    says_and_copies(&rt, identifier, "invalid identifier: a-b");
    let variable = ToASTErrorKind::ArbitraryVariable(text(&rt, "a::b"));
    says_and_copies(&rt, variable, "invalid variable: a::b");
    let attribute = ToASTErrorKind::InvalidAttribute(text(&rt, "1"));
    says_and_copies(&rt, attribute, "invalid attribute name: 1");
    let right = ToASTErrorKind::InvalidHasRHS(text(&rt, "a . b"));
    says_and_copies(&rt, right, "invalid RHS of a `has` operation: a . b");
    let entity = ToASTErrorKind::InvalidEntityLiteral(text(&rt, "A :: { }"));
    says_and_copies(&rt, entity, "invalid entity literal: A :: { }");
    let slot = ToASTErrorKind::InvalidSlot(text(&rt, "?action"));
    says_and_copies(&rt, slot, "`?action` is not a valid template slot");
}

#[test]
fn right_sides_are_told(rt: HostRuntime) {
    says_and_copies(
        &rt,
        ToASTErrorKind::PathAsAttribute(text(&rt, "a::b")),
        "`a::b` cannot be used as an attribute as it contains a namespace",
    );
    says_and_copies(
        &rt,
        ToASTErrorKind::InvalidPattern(text(&rt, "1")),
        "right hand side of a `like` expression must be a pattern literal, but got `1`",
    );
    let side = ToASTErrorKind::InvalidIsType {
        lhs: text(&rt, "principal"),
        rhs: text(&rt, "\"User\""),
    };
    says_and_copies(
        &rt,
        side,
        "right hand side of an `is` expression must be an entity type name, but got `\"User\"`",
    );
    let form = ToASTErrorKind::NonNormalizedString {
        kind: "Name",
        src: text(&rt, "a :: b"),
        normalized_src: text(&rt, "a::b"),
    };
    says_and_copies(
        &rt,
        form,
        "`Name` needs to be normalized (e.g., whitespace removed): a :: b",
    );
}

/// An identifier that isn't reserved.
pub(super) fn method(rt: &(impl Abort + AllocGlobal), word: &str) -> UnreservedId {
    made(rt, UnreservedId::try_from(id(rt, word)))
}

/// A name of one part.
pub(super) fn function(rt: &(impl Abort + AllocGlobal), word: &str) -> Name {
    Name::from(method(rt, word))
}

#[test]
fn calls_are_told(rt: HostRuntime) {
    let called = ToASTErrorKind::FunctionCallOnMethod(method(&rt, "lessThan"));
    says_and_copies(&rt, called, "`lessThan` is a method, not a function");
    let called = ToASTErrorKind::MethodCallOnFunction(method(&rt, "ip"));
    says_and_copies(&rt, called, "`ip` is a function, not a method");
    let called = ToASTErrorKind::NoMethods(name(&rt, "a", "b"), method(&rt, "f"));
    says_and_copies(
        &rt,
        called,
        "attempted to call `a::b.f(...)`, but `a::b` does not have any methods",
    );
    let unknown = ToASTErrorKind::UnknownMethod {
        id: method(&rt, "f"),
        hint: None,
    };
    says_and_copies(&rt, unknown, "`f` is not a valid method");
    let unknown = ToASTErrorKind::UnknownFunction {
        id: name(&rt, "a", "f"),
        hint: None,
    };
    says_and_copies(&rt, unknown, "`a::f` is not a valid function");
}

#[test]
fn accesses_are_told(rt: HostRuntime) {
    let access = ToASTErrorKind::InvalidAccess {
        lhs: function(&rt, "a"),
        field: text(&rt, "b"),
    };
    says_and_copies(
        &rt,
        access,
        "invalid member access `a.b`, `a` has no fields or methods",
    );
    let index = ToASTErrorKind::InvalidIndex {
        lhs: function(&rt, "a"),
        field: text(&rt, "b"),
    };
    says_and_copies(
        &rt,
        index,
        "`a` has no attributes, so it cannot be indexed with `b`",
    );
}

/// The refusal of a name that holds `__cedar`.
fn reserved(rt: &(impl Abort + AllocGlobal)) -> ReservedNameError {
    refusal(rt, Name::try_from(internal_name(rt, "a", "__cedar")))
}

#[test]
fn refusals_of_values_are_told(rt: HostRuntime) {
    let twice = ExpressionConstructionError::duplicate_key(text(&rt, "a"));
    says_and_copies(
        &rt,
        ToASTErrorKind::from(twice),
        "duplicate key `a` in record",
    );
    says_and_copies(
        &rt,
        ToASTErrorKind::from(reserved(&rt)),
        "the name `a::__cedar` is reserved: it holds `__cedar`",
    );
    let key = AnyId::new(text(&rt, "if")).expect(&rt, "no identifier");
    says_and_copies(
        &rt,
        ToASTErrorKind::DuplicateAnnotation(key),
        "duplicate annotation: @if",
    );
}

/// The name of a policy.
fn policy_id(rt: &(impl Abort + AllocGlobal), name: &str) -> PolicyID {
    PolicyID::new(made(rt, String::from_str(rt.alloc(), name)))
}

#[test]
fn names_that_are_taken_are_told(rt: HostRuntime) {
    says_and_copies(
        &rt,
        ToASTErrorKind::DuplicateTemplateId(policy_id(&rt, "policy0")),
        "a template with id `policy0` already exists in the policy set",
    );
    says_and_copies(
        &rt,
        ToASTErrorKind::DuplicatePolicyId(policy_id(&rt, "policy0")),
        "a policy with id `policy0` already exists in the policy set",
    );
    let found = ExpectedStaticPolicy::from(UnexpectedSlotError::FoundSlot(PRINCIPAL_SLOT));
    holds(&rt, found.slot == PRINCIPAL_SLOT);
}

/// The element of a scope that is this word alone.
fn element(word: Ident) -> VariableDef {
    VariableDef {
        variable: Node::with_maybe_source_loc(Some(word), None),
        unused_type_name: None,
        entity_type: None,
        ineq: None,
    }
}

/// A slot without a place.
const PRINCIPAL_SLOT: Slot = Slot {
    id: SlotId::Principal,
    place: None,
};

#[test]
fn policies_and_templates_are_told(rt: HostRuntime) {
    let extra = made(&rt, Boxed::new(rt.alloc(), element(Ident::Context)));
    says_and_copies(
        &rt,
        ToASTErrorKind::ExtraScopeElement(extra),
        "this policy has an extra element in the scope: context",
    );
    says_and_copies(
        &rt,
        ToASTErrorKind::expected_static_policy(PRINCIPAL_SLOT),
        "expected a static policy, got a template containing the slot ?principal",
    );
    says_and_copies(
        &rt,
        ToASTErrorKind::expected_template(),
        "expected a template, got a static policy",
    );
    says_and_copies(
        &rt,
        ToASTErrorKind::slots_in_condition_clause(PRINCIPAL_SLOT, "when"),
        "found template slot ?principal in a `when` clause",
    );
    says_and_copies(
        &rt,
        ToASTErrorKind::wrong_arity("hasTag", 1, 2),
        "call to `hasTag` requires exactly 1 argument, but got 2 arguments",
    );
}

/// So many entities that are no actions.
fn no_actions(rt: &(impl Abort + AllocGlobal), count: usize) -> ToASTErrorKind {
    let mut euids = NonEmpty::new(rt.alloc(), entity(rt));
    for _ in 1..count {
        made(rt, euids.push(entity(rt)));
    }
    ToASTErrorKind::from(InvalidActionType { euids })
}

#[test]
fn entities_that_are_no_actions_are_told(rt: HostRuntime) {
    says_and_copies(
        &rt,
        no_actions(&rt, 1),
        "expected an entity uid with type `Action` but got `App::User::\"a\\\"b\"`",
    );
    says_and_copies(
        &rt,
        no_actions(&rt, 2),
        "expected entity uids with type `Action` but got `App::User::\"a\\\"b\"` and `App::User::\"a\\\"b\"`",
    );
    says_and_copies(
        &rt,
        no_actions(&rt, 3),
        "expected entity uids with type `Action` but got `App::User::\"a\\\"b\"`, `App::User::\"a\\\"b\"`, and `App::User::\"a\\\"b\"`",
    );
}

#[test]
fn what_the_scope_cannot_have_is_told(rt: HostRuntime) {
    says_and_copies(
        &rt,
        ToASTErrorKind::wrong_entity_argument_one_expected(Ref::Single, Ref::Set),
        "expected single entity uid, found set of entity uids",
    );
    says_and_copies(
        &rt,
        ToASTErrorKind::wrong_entity_argument_two_expected(Ref::Single, Ref::Template, Ref::Set),
        "expected single entity uid or template slot, found set of entity uids",
    );
    says_and_copies(
        &rt,
        ToASTErrorKind::wrong_entity_argument_one_expected(Ref::Template, Ref::Single),
        "expected template slot, found single entity uid",
    );
    let found = made(
        &rt,
        String::from_str(rt.alloc(), "?resource instead of ?principal"),
    );
    says_and_copies(
        &rt,
        ToASTErrorKind::wrong_node("an entity uid or matching template slot", found, None),
        "expected an entity uid or matching template slot, found ?resource instead of ?principal",
    );
}

#[test]
fn faults_of_trees_that_are_types_are_copied(rt: HostRuntime) {
    let slot = PRINCIPAL_SLOT;
    copies(&rt, ExpectedStaticPolicy { slot });
    copies(&rt, ExpectedTemplate {});
    let clause_type = "unless";
    copies(&rt, SlotsInConditionClause { slot, clause_type });
    let euids = NonEmpty::new(rt.alloc(), entity(&rt));
    copies(&rt, InvalidActionType { euids });
    copies(&rt, Ref::Template);
    let expected = Either::Right((Ref::Single, Ref::Set));
    let got = Ref::Template;
    copies(&rt, WrongEntityArgument { expected, got });
}

#[test]
fn what_is_no_literal_is_told(rt: HostRuntime) {
    let faults = LiteralParseError::from(three_faults(&rt));
    says_and_copies(
        &rt,
        faults,
        "integer literal `18446744073709551615` is too large",
    );
    let expression = LiteralParseError::InvalidLiteral(long(&rt, 7));
    says_and_copies(&rt, expression, "invalid literal: 7");
}

/// The hint of a fault is this one; where none is wanted, there is none.
fn is_hinted(rt: &(impl Abort + AllocGlobal), kind: ToASTErrorKind, wanted: &str) {
    let fault = ToASTError::new(kind, None);
    let help = made(rt, fault.help(rt.alloc()));
    match &help {
        Some(hint) => holds_for(rt, hint.as_str() == wanted, &fault),
        None => holds_for(rt, wanted.is_empty(), &fault),
    }
    drop((fault, help));
}

#[test]
fn hints_say_what_to_change(rt: HostRuntime) {
    is_hinted(
        &rt,
        ToASTErrorKind::UnaryOpLimit(UnaryOp::Not),
        "cannot chain more than 8 applications of a unary operator",
    );
    is_hinted(&rt, ToASTErrorKind::UnsupportedDivision, "");
    let found = made(&rt, String::from_str(rt.alloc(), "name `a`"));
    let hint = made(&rt, String::from_str(rt.alloc(), "use another"));
    is_hinted(
        &rt,
        ToASTErrorKind::wrong_node("an entity uid", found, Some(hint)),
        "use another",
    );
}

#[test]
fn an_unknown_function_is_hinted(rt: HostRuntime) {
    let id = function(&rt, "f");
    let hint = None;
    is_hinted(
        &rt,
        ToASTErrorKind::UnknownFunction { id, hint },
        "the table of extensions has no function of this name",
    );
    let (id, hint) = (function(&rt, "f"), Some(text(&rt, "use another")));
    let unknown = ToASTErrorKind::UnknownFunction { id, hint };
    is_hinted(&rt, unknown, "use another");
}
