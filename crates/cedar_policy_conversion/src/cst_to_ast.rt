//! Converts placed trees to values.
//!
//! In each conversion a node with nothing in it that has to be read is
//! `EmptyNodeInvariantViolation` at its place; no tree that a text gives has one.
ghost use Rattle.std.specs.Prelude.{◌≡◌, string_bytes};
ghost use Rattle.std.specs.Option.{option_copied};
ghost use Rattle.cedar_policy_store.specs.PlaceFree.{set_meaning};
ghost use Rattle.cedar_policy_conversion.specs.AnnotationKeys.{GivesByKey, GivesPair, annotation_outcome, annotations_outcome};
ghost use Rattle.cedar_policy_conversion.specs.GeneratedIds.{remaining_nodes, named_outcome};
ghost use Rattle.cedar_policy_conversion.specs.Policies.{placed_outcome, set_parts, template_parts, template_outcome, either_parts, either_outcome, static_outcome, policies_outcome};
ghost use Rattle.cedar_policy_conversion.specs.References.{referent_outcome, single_entity, entity_or_slot, one_or_multiple};
ghost use Rattle.cedar_policy_conversion.specs.Scope.{scope_outcome};
ghost use Rattle.cedar_syntax.specs.trees.Forms.{located, expr_form, member_form, primary_form};
ghost use Rattle.cedar_conversion.specs.outcome.Conversion.{value_outcome};
ghost use Rattle.cedar_conversion.specs.parts.Entities.{entity_outcome};
ghost use Rattle.cedar_conversion.specs.parts.Literals.{lone_literal, string_outcome};
ghost use Rattle.cedar_conversion.specs.parts.Names.{any_ident as any_outcome, valid_ident as valid_outcome};
ghost use Rattle.cedar_conversion.specs.outcome.Seen.{Gives, itself};
ghost use Rattle.cedar_conversion.specs.strict.Table.{table_of};

use crate::annotations::{annotations, kv_pair};
use crate::expressions::expression;
use crate::names::{any_ident, valid_ident};
pub use crate::policy_ids::{GeneratedPolicyIds, policy_id};
pub use crate::scope::Scope;
use crate::scope::scope_of;
use crate::sets::{own_policy_set, policy_set};
use crate::templates::{static_or_template, static_policy, template};
pub use crate::to_ref_or_refs::OneOrMultipleRefs;
use crate::to_ref_or_refs::{SingleEntity, to_ref_or_refs};
use cedar_conversion::answer::failure::told;
use cedar_conversion::answer::special::empty_node;
use cedar_conversion::answer::wanted::string_literal;
use cedar_conversion::leaves::entities::entity_of;
use cedar_conversion::leaves::literals::literal_of;
pub use cedar_conversion::styles::ExtStyles;
use cedar_expressions::{AnyId, EntityUID, ExprBuilderInfallibleBuild, Id, Var};
use cedar_policy_store::{EntityReference, PolicyID, PolicySet, StaticPolicy, Template};
use cedar_syntax::cst::{
    Annotation, Expr, Ident, Literal, Member, Policies, Policy, PolicyImpl, Primary, Ref,
};
use cedar_syntax::err::Failure;
use cedar_syntax::loc::Loc;
use cedar_syntax::node::Node;
use either::Either;
use std::alloc::Global;
use std::collections::BTreeMap;

/// The conversion of an expression's tree.
pub trait ExprAst {
    /// The expression that the tree stands for, made by the builder, or all faults that hinder it,
    /// in the order of Cedar's `cst_to_ast`. Or it is `Failure::Memory`.
    ///
    /// Names: `ArbitraryVariable` for one that is no variable, `ReservedIdentifier`,
    /// `InvalidIdentifier` and `ReservedNamespace` for what no name may hold. Operators:
    /// `AmbiguousOperators` for more than one in a relation, `InvalidSingleEq`,
    /// `UnsupportedDivision`, `UnsupportedModulo`, `UnaryOpLimit` for more signs than the limit.
    /// Literals: `IntegerLiteralTooLarge`, `Unescape` for each bad escape, `InvalidString`,
    /// `InvalidSlot`, `InvalidEntityLiteral`. Right of `has`: `InvalidHasRHS`, `PathAsAttribute`,
    /// and `ReservedIdentifier` for a truth value; of `like`: `InvalidPattern`; of `is`:
    /// `InvalidIsType`. Records: `InvalidAttribute`, `PathAsAttribute`, `ReservedIdentifier` for a
    /// truth value, and `ExpressionConstructionError` for a key that stands again. Calls and
    /// accesses: `VariableCall`, `ExpressionCall`, `UnknownFunction`, `UnknownMethod`,
    /// `FunctionCallOnMethod`, `MethodCallOnFunction`, `NoMethods`, `WrongArity`, `InvalidAccess`,
    /// `InvalidIndex`, and `InvalidString` for an index that is no bare string.
    fn to_expr<B: ExprBuilderInfallibleBuild>(
        &self,
        alloc: Global,
        styles: &ExtStyles,
    ) -> Result<B::Expr, Failure>;

    /// The entity that the tree is, right of an operator of the scope, in parentheses or not.
    ///
    /// A slot or a set is `WrongEntityArgument`, any other form `WrongNode`, each at its bytes;
    /// what is wrong with the entity is told as `RefAst::to_ref` does. Or it is `Failure::Memory`.
    fn to_ref(&self, alloc: Global, var: Var) -> Result<EntityUID, Failure>;

    /// The entity that the tree is, or the slot of the variable. Another slot is `WrongNode`, a
    /// set `WrongEntityArgument`; all else as for `to_ref`.
    fn to_ref_or_slot(&self, alloc: Global, var: Var) -> Result<EntityReference, Failure>;

    /// The entity that the tree is, or the entities of a set, whose items' faults stand one behind
    /// another. A slot, and a set in the set, is `WrongEntityArgument`; all else as for `to_ref`.
    fn to_refs(&self, alloc: Global, var: Var) -> Result<OneOrMultipleRefs, Failure>;
}

impl ExprAst for Node<Option<Expr>> {
    fn to_expr<B: ExprBuilderInfallibleBuild>(
        &self,
        alloc: Global,
        styles: &ExtStyles,
    ) -> Result<B::Expr, Failure>
        ensures { Gives B.meaning result (value_outcome (table_of styles.now)
            (located expr_form self.now)) }
    {
        told(expression::<B>(alloc, styles, self))
    }

    fn to_ref(&self, alloc: Global, var: Var) -> Result<EntityUID, Failure>
        ensures { Gives single_entity.single result (referent_outcome single_entity var self.now) }
    {
        let SingleEntity(uid) = told(to_ref_or_refs::<SingleEntity>(alloc, var, self))?;
        Ok(uid)
    }

    fn to_ref_or_slot(&self, alloc: Global, var: Var) -> Result<EntityReference, Failure>
        ensures { Gives itself result (referent_outcome entity_or_slot var self.now) }
    {
        told(to_ref_or_refs::<EntityReference>(alloc, var, self))
    }

    fn to_refs(&self, alloc: Global, var: Var) -> Result<OneOrMultipleRefs, Failure>
        ensures { Gives itself result (referent_outcome one_or_multiple var self.now) }
    {
        told(to_ref_or_refs::<OneOrMultipleRefs>(alloc, var, self))
    }
}

/// The conversion of an identifier.
pub trait IdentAst {
    /// The identifier, where a name may hold it. One of the nine reserved words is
    /// `ReservedIdentifier`; a text by hand that no name may hold, and `Ident::Invalid`, is
    /// `InvalidIdentifier`, each at the node's bytes. Or it is `Failure::Memory`.
    fn to_valid_ident(&self, alloc: Global) -> Result<Id, Failure>;

    /// Any identifier, the words that no name may hold too. A text by hand that is spelled as no
    /// identifier, and `Ident::Invalid`, is `InvalidIdentifier`. Or it is `Failure::Memory`.
    fn to_any_ident(&self, alloc: Global) -> Result<AnyId, Failure>;
}

impl IdentAst for Node<Option<Ident>> {
    fn to_valid_ident(&self, alloc: Global) -> Result<Id, Failure>
        ensures { Gives itself result (valid_outcome self.now) }
    {
        valid_ident(alloc, self)
    }

    fn to_any_ident(&self, alloc: Global) -> Result<AnyId, Failure>
        ensures { Gives itself result (any_outcome self.now) }
    {
        any_ident(alloc, self)
    }
}

/// A member that may be a literal.
pub trait MemberAst {
    /// The literal that a member is, if it is a literal and no more. It takes no memory.
    fn to_lit(&self) -> Option<&Literal>;
}

impl MemberAst for Node<Option<Member>> {
    fn to_lit(&self) -> Option<&Literal>
        ensures { option_copied result ≡ lone_literal (located member_form self.now) }
    {
        literal_of(self)
    }
}

/// A primary that may be a string.
pub trait PrimaryAst {
    /// What a string stands for, its escapes read. Each bad escape is `Unescape`, a number that is
    /// too large `IntegerLiteralTooLarge`, any other primary `InvalidString`, each at the bytes of
    /// the innermost node that is looked at. Or it is `Failure::Memory`.
    fn to_string_literal<B: ExprBuilderInfallibleBuild>(
        &self,
        alloc: Global,
    ) -> Result<String, Failure>;
}

impl PrimaryAst for Node<Option<Primary>> {
    fn to_string_literal<B: ExprBuilderInfallibleBuild>(
        &self,
        alloc: Global,
    ) -> Result<String, Failure>
        ensures { Gives string_bytes result (string_outcome (located primary_form self.now)) }
    {
        Ok(told(string_literal::<B>(alloc, self))?.into_string()?)
    }
}

/// The conversion of an entity.
pub trait RefAst {
    /// The entity that is meant: a path, `::` and a string. The form with braces is
    /// `InvalidEntityLiteral`; what is wrong with the path and with the text stands one behind
    /// another: `ReservedIdentifier`, `InvalidIdentifier`, `ReservedNamespace`, then `Unescape` or
    /// `InvalidString`. Or it is `Failure::Memory`.
    fn to_ref(&self, alloc: Global) -> Result<EntityUID, Failure>;
}

impl RefAst for Node<Option<Ref>> {
    fn to_ref(&self, alloc: Global) -> Result<EntityUID, Failure>
        ensures { Gives itself result (entity_outcome self.now) }
    {
        told(entity_of(alloc, self))
    }
}

/// The conversion of an annotation.
pub trait AnnotationAst {
    /// The key, and what `f` makes of the text and the place. A condition: `f` may be called on
    /// every text and place.
    ///
    /// A key is refused as `IdentAst::to_any_ident` does, each bad escape of the text is
    /// `Unescape`, a `Str::Invalid` by hand `InvalidString`; both parts' faults stand one behind
    /// another. Or it is `Failure::Memory`.
    fn to_kv_pair<T: Drop, F: Fn(Option<String>, Option<&Loc>) -> T>(
        &self,
        alloc: Global,
        f: F,
    ) -> Result<(AnyId, T), Failure>
        requires { F.IsAlwaysCallable f };
}

impl AnnotationAst for Node<Option<Annotation>> {
    fn to_kv_pair<T: Drop, F: Fn(Option<String>, Option<&Loc>) -> T>(
        &self,
        alloc: Global,
        f: F,
    ) -> Result<(AnyId, T), Failure>
        requires { F.IsAlwaysCallable f }
        ensures { GivesPair F.Fn f result (annotation_outcome self.now) }
    {
        told(kv_pair::<T, F>(alloc, self, &f))
    }
}

/// The conversion of a policy's scope and annotations.
pub trait PolicyImplAst {
    /// What is asked of the principal, the action and the resource, in this order, or all faults
    /// of them.
    ///
    /// Each element's first refusal is told: `InvalidScopeVariable` or `IncorrectVariable` for its
    /// word, `TypeConstraints` for a name behind `:`, `InvalidScopeOperator`,
    /// `InvalidActionScopeOperator` or `InvalidSingleEq` for its operator, `IsWithEq`,
    /// `InvertedIsIn` or `IsInActionScope` for an `is` that may not stand there, `InvalidIsType`
    /// or what `to_expr` tells for the type behind `is`, `InvalidActionType`, and what `to_ref`,
    /// `to_ref_or_slot` and `to_refs` tell. A missing element is `MissingScopeVariable` at the end
    /// of what stands before it, each one too many `ExtraScopeElement`. Or it is
    /// `Failure::Memory`.
    fn extract_scope(&self, alloc: Global, styles: &ExtStyles) -> Result<Scope, Failure>;

    /// What `f` makes of each annotation, by its key. A condition: `f` may be called on every text
    /// and place.
    ///
    /// An annotation whose key an earlier one that converts has is `DuplicateAnnotation` at its
    /// bytes; all else as for `to_kv_pair`, one annotation behind another.
    fn get_ast_annotations<T: Drop, F: Fn(Option<String>, Option<&Loc>) -> T>(
        &self,
        alloc: Global,
        f: F,
    ) -> Result<BTreeMap<AnyId, T>, Failure>
        requires { F.IsAlwaysCallable f };
}

impl PolicyImplAst for PolicyImpl {
    fn extract_scope(&self, alloc: Global, styles: &ExtStyles) -> Result<Scope, Failure>
        ensures { Gives itself result (scope_outcome (table_of styles.now) self.now) }
    {
        told(scope_of(alloc, styles, &self.effect.loc, self.variables.as_slice()))
    }

    fn get_ast_annotations<T: Drop, F: Fn(Option<String>, Option<&Loc>) -> T>(
        &self,
        alloc: Global,
        f: F,
    ) -> Result<BTreeMap<AnyId, T>, Failure>
        requires { F.IsAlwaysCallable f }
        ensures { GivesByKey F.Fn f result (annotations_outcome self.now.annotations) }
    {
        told(annotations::<T, F>(alloc, self.annotations.as_slice(), &f))
    }
}

/// The conversion of a policy.
pub trait PolicyAst {
    /// The template that the tree stands for, of a static policy too, or all faults that hinder
    /// it: those of the effect (`InvalidEffect`), of each annotation, of the scope
    /// (`PolicyImplAst::extract_scope`), and of each condition, one behind another.
    ///
    /// A condition's word is `when` or `unless`, else it is `InvalidCondition`; without an
    /// expression it is `EmptyClause`; its expression is refused as `ExprAst::to_expr` does; and
    /// each slot in one that converts is `SlotsInConditionClause`, at the slot's bytes, or at the
    /// condition's where those don't lie within them. Or it is `Failure::Memory`.
    fn to_template(
        &self,
        alloc: Global,
        id: PolicyID,
        styles: &ExtStyles,
    ) -> Result<Template, Failure>;

    /// The same.
    fn to_policy_template(
        &self,
        alloc: Global,
        id: PolicyID,
        styles: &ExtStyles,
    ) -> Result<Template, Failure>;

    /// A static policy, or a template where a slot stands in its scope. It is refused as
    /// `to_template` is.
    ///
    ///     match tree.to_policy_or_template(alloc, PolicyID::new(name), styles)? {
    ///         Either::Left(policy) => writeln!(out, "static: {policy}")?,
    ///         Either::Right(template) => writeln!(out, "a template: {template}")?,
    ///     }
    fn to_policy_or_template(
        &self,
        alloc: Global,
        id: PolicyID,
        styles: &ExtStyles,
    ) -> Result<Either<StaticPolicy, Template>, Failure>;

    /// The static policy that the tree stands for. A template is `ExpectedStaticPolicy` alone, at
    /// its first slot's bytes, inside the policy or not, or at the policy's where the slot has none
    /// that are a range. Where
    /// `to_template` is refused, so is this, with one `ExpectedStaticPolicy` more behind those
    /// faults for each `SlotsInConditionClause` among them, at the same bytes.
    fn to_policy(
        &self,
        alloc: Global,
        id: PolicyID,
        styles: &ExtStyles,
    ) -> Result<StaticPolicy, Failure>;
}

impl PolicyAst for Node<Option<Policy>> {
    fn to_template(
        &self,
        alloc: Global,
        id: PolicyID,
        styles: &ExtStyles,
    ) -> Result<Template, Failure>
        ensures { Gives template_parts result
            (template_outcome (table_of styles.now) id self.now) }
    {
        told(template(alloc, styles, id, self))
    }

    fn to_policy_template(
        &self,
        alloc: Global,
        id: PolicyID,
        styles: &ExtStyles,
    ) -> Result<Template, Failure>
        ensures { Gives template_parts result
            (template_outcome (table_of styles.now) id self.now) }
    {
        told(template(alloc, styles, id, self))
    }

    fn to_policy_or_template(
        &self,
        alloc: Global,
        id: PolicyID,
        styles: &ExtStyles,
    ) -> Result<Either<StaticPolicy, Template>, Failure>
        ensures { Gives either_parts result
            (either_outcome (table_of styles.now) id self.now) }
    {
        told(static_or_template(alloc, styles, id, self))
    }

    fn to_policy(
        &self,
        alloc: Global,
        id: PolicyID,
        styles: &ExtStyles,
    ) -> Result<StaticPolicy, Failure>
        ensures { Gives template_parts result
            (static_outcome (table_of styles.now) id self.now) }
    {
        told(static_policy(alloc, styles, id, self))
    }
}

/// The conversion of a set of policies.
pub trait PoliciesAst {
    /// Each policy with its name: `policy` and how many stand before it, in plain decimal.
    fn with_generated_policyids(&self, alloc: Global) -> Result<GeneratedPolicyIds<'_>, Failure>;

    /// The set that the tree stands for: static policies and templates, named `policy0`, `policy1`
    /// and so on, each with the places of its parts. It is refused with the faults of each policy,
    /// as `PolicyAst::to_template` tells them, one policy behind another. Or it is
    /// `Failure::Memory`.
    fn to_policyset(&self, alloc: Global, styles: &ExtStyles) -> Result<PolicySet, Failure>;

    /// The same of a tree by value: each policy's tree is dropped as soon as it is converted, so
    /// that tree and set never stand whole beside one another.
    fn into_policyset(self, alloc: Global, styles: &ExtStyles) -> Result<PolicySet, Failure>;
}

impl PoliciesAst for Node<Option<Policies>> {
    fn with_generated_policyids(&self, alloc: Global) -> Result<GeneratedPolicyIds<'_>, Failure>
        ensures { Gives remaining_nodes result (named_outcome self.now) }
    {
        match &self.node {
            Some(policies) => Ok(GeneratedPolicyIds::new(alloc, policies.0.as_slice())),
            None => Err(Failure::from(empty_node(alloc, &self.loc))),
        }
    }

    fn to_policyset(&self, alloc: Global, styles: &ExtStyles) -> Result<PolicySet, Failure>
        ensures meant { Gives set_meaning result
            (policies_outcome (table_of styles.now) self.now) }
        ensures placed { Gives set_parts result
            (placed_outcome (table_of styles.now) self.now) }
    {
        told(policy_set(alloc, styles, self))
    }

    fn into_policyset(self, alloc: Global, styles: &ExtStyles) -> Result<PolicySet, Failure>
        ensures meant { Gives set_meaning result
            (policies_outcome (table_of styles.now) self) }
        ensures placed { Gives set_parts result
            (placed_outcome (table_of styles.now) self) }
    {
        told(own_policy_set(alloc, styles, self))
    }
}
