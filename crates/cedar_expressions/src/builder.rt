//! The calls by which an expression is made, and what each means.
ghost use Rattle.std.specs.Prelude.{◌≡◌, None, Option, IfOk, IfErr, map, false};
ghost use Rattle.cedar_expressions.specs.Value as v;
ghost use Rattle.cedar_expressions.specs.Keys.{repeats_key, RefusesKeys};

use crate::{AddOp, EntityType, Literal, Name, PatternElem, Place, RecordError, SlotId, Text, Var};
use std::alloc::{AllocError, Global};

/// Makes expressions: each call makes one node, and takes the builder with its place.
pub trait ExprBuilderInfallibleBuild: Drop {
    /// What is made.
    type Expr: Drop;

    ghost use Rattle.cedar_expressions.specs.Value.{Value};
    ghost use Rattle.cedar_expressions.specs.declared.place.Place.{Place as NodesPlace};

    /// The calls that made an expression; of the places of its nodes a slot's alone.
    ghost meaning: { Self.Expr → Value };

    /// Where the node will stand that the builder makes.
    ghost node_place: { Self → Option NodesPlace };

    /// A builder without a place. It keeps the allocator.
    fn new(alloc: Global) -> Self
        ensures { node_place result ≡ None };

    /// The builder with a place for the node that it makes.
    fn with_maybe_source_loc(self, place: Option<Place>) -> Self
        ensures { node_place result ≡ place };

    /// A constant.
    fn val(self, literal: Literal) -> Result<Self::Expr, AllocError>
        ensures { IfOk result (λ e. meaning e ≡ v.val literal) };

    /// A variable.
    fn var(self, var: Var) -> Result<Self::Expr, AllocError>
        ensures { IfOk result (λ e. meaning e ≡ v.var var) };

    /// A slot of a template, which stands at the builder's place.
    fn slot(self, slot: SlotId) -> Result<Self::Expr, AllocError>
        ensures { IfOk result (λ e. meaning e
            ≡ v.slot (record { id = slot; place = node_place self })) };

    /// `if guard then consequent else alternative`.
    fn ite(
        self,
        guard: Self::Expr,
        consequent: Self::Expr,
        alternative: Self::Expr,
    ) -> Result<Self::Expr, AllocError>
        ensures { IfOk result (λ e. meaning e ≡ v.ite (meaning guard) (meaning consequent)
            (meaning alternative)) };

    /// `!inner`.
    fn not(self, inner: Self::Expr) -> Result<Self::Expr, AllocError>
        ensures { IfOk result (λ e. meaning e ≡ v.not (meaning inner)) };

    /// `-inner`.
    fn neg(self, inner: Self::Expr) -> Result<Self::Expr, AllocError>
        ensures { IfOk result (λ e. meaning e ≡ v.neg (meaning inner)) };

    /// `left && right`.
    fn and(self, left: Self::Expr, right: Self::Expr) -> Result<Self::Expr, AllocError>
        ensures { IfOk result (λ e. meaning e ≡ v.and (meaning left) (meaning right)) };

    /// A first operand and later ones, joined by `||`.
    fn or_nary(self, first: Self::Expr, rest: Vec<Self::Expr>) -> Result<Self::Expr, AllocError>
        ensures { IfOk result (λ e. meaning e ≡ v.or_nary (meaning first)
            (v.values (map meaning rest.items))) };

    /// A first operand and later ones, joined by `&&`.
    fn and_naryl(self, first: Self::Expr, rest: Vec<Self::Expr>) -> Result<Self::Expr, AllocError>
        ensures { IfOk result (λ e. meaning e ≡ v.and_naryl (meaning first)
            (v.values (map meaning rest.items))) };

    /// A first operand and later ones, each behind its `+` or `-`.
    fn add_nary(
        self,
        first: Self::Expr,
        rest: Vec<(AddOp, Self::Expr)>,
    ) -> Result<Self::Expr, AllocError>
        ensures { IfOk result (λ e. meaning e ≡ v.add_nary (meaning first)
            (v.terms (map (λ t. (t.0, meaning t.1)) rest.items))) };

    /// A first operand and later ones, joined by `*`.
    fn mul_nary(self, first: Self::Expr, rest: Vec<Self::Expr>) -> Result<Self::Expr, AllocError>
        ensures { IfOk result (λ e. meaning e ≡ v.mul_nary (meaning first)
            (v.values (map meaning rest.items))) };

    /// `left < right`.
    fn less(self, left: Self::Expr, right: Self::Expr) -> Result<Self::Expr, AllocError>
        ensures { IfOk result (λ e. meaning e ≡ v.less (meaning left) (meaning right)) };

    /// `left <= right`.
    fn lesseq(self, left: Self::Expr, right: Self::Expr) -> Result<Self::Expr, AllocError>
        ensures { IfOk result (λ e. meaning e ≡ v.lesseq (meaning left) (meaning right)) };

    /// `left > right`.
    fn greater(self, left: Self::Expr, right: Self::Expr) -> Result<Self::Expr, AllocError>
        ensures { IfOk result (λ e. meaning e ≡ v.greater (meaning left) (meaning right)) };

    /// `left >= right`.
    fn greatereq(self, left: Self::Expr, right: Self::Expr) -> Result<Self::Expr, AllocError>
        ensures { IfOk result (λ e. meaning e ≡ v.greatereq (meaning left) (meaning right)) };

    /// `left == right`.
    fn is_eq(self, left: Self::Expr, right: Self::Expr) -> Result<Self::Expr, AllocError>
        ensures { IfOk result (λ e. meaning e ≡ v.is_eq (meaning left) (meaning right)) };

    /// `left != right`.
    fn noteq(self, left: Self::Expr, right: Self::Expr) -> Result<Self::Expr, AllocError>
        ensures { IfOk result (λ e. meaning e ≡ v.noteq (meaning left) (meaning right)) };

    /// `left in right`.
    fn is_in(self, left: Self::Expr, right: Self::Expr) -> Result<Self::Expr, AllocError>
        ensures { IfOk result (λ e. meaning e ≡ v.is_in (meaning left) (meaning right)) };

    /// Whether a text has the form of a pattern: `expr like pattern`.
    fn like(self, expr: Self::Expr, pattern: Vec<PatternElem>) -> Result<Self::Expr, AllocError>
        ensures { IfOk result (λ e. meaning e ≡ v.like (meaning expr) pattern.items) };

    /// `expr is entity_type`.
    fn is_entity_type(
        self,
        expr: Self::Expr,
        entity_type: EntityType,
    ) -> Result<Self::Expr, AllocError>
        ensures { IfOk result (λ e. meaning e ≡ v.is_entity_type (meaning expr) entity_type) };

    /// `expr is entity_type in entity`.
    fn is_in_entity_type(
        self,
        expr: Self::Expr,
        entity_type: EntityType,
        entity: Self::Expr,
    ) -> Result<Self::Expr, AllocError>
        ensures { IfOk result (λ e. meaning e ≡ v.is_in_entity_type (meaning expr) entity_type
            (meaning entity)) };

    /// `expr has first.rest`: attributes within attributes.
    fn extended_has_attr(
        self,
        expr: Self::Expr,
        first: Text,
        rest: Vec<Text>,
    ) -> Result<Self::Expr, AllocError>
        ensures { IfOk result (λ e. meaning e ≡ v.extended_has_attr
            (meaning expr) first rest.items) };

    /// `expr.attr`.
    fn get_attr(self, expr: Self::Expr, attr: Text) -> Result<Self::Expr, AllocError>
        ensures { IfOk result (λ e. meaning e ≡ v.get_attr (meaning expr) attr) };

    /// `set.contains(element)`.
    fn contains(self, set: Self::Expr, element: Self::Expr) -> Result<Self::Expr, AllocError>
        ensures { IfOk result (λ e. meaning e ≡ v.contains (meaning set) (meaning element)) };

    /// `set.containsAll(other)`.
    fn contains_all(self, set: Self::Expr, other: Self::Expr) -> Result<Self::Expr, AllocError>
        ensures { IfOk result (λ e. meaning e ≡ v.contains_all (meaning set) (meaning other)) };

    /// `set.containsAny(other)`.
    fn contains_any(self, set: Self::Expr, other: Self::Expr) -> Result<Self::Expr, AllocError>
        ensures { IfOk result (λ e. meaning e ≡ v.contains_any (meaning set) (meaning other)) };

    /// `set.isEmpty()`.
    fn is_empty(self, set: Self::Expr) -> Result<Self::Expr, AllocError>
        ensures { IfOk result (λ e. meaning e ≡ v.is_empty (meaning set)) };

    /// `entity.getTag(tag)`.
    fn get_tag(self, entity: Self::Expr, tag: Self::Expr) -> Result<Self::Expr, AllocError>
        ensures { IfOk result (λ e. meaning e ≡ v.get_tag (meaning entity) (meaning tag)) };

    /// `entity.hasTag(tag)`.
    fn has_tag(self, entity: Self::Expr, tag: Self::Expr) -> Result<Self::Expr, AllocError>
        ensures { IfOk result (λ e. meaning e ≡ v.has_tag (meaning entity) (meaning tag)) };

    /// A call of an extension function.
    fn call_extension_fn(
        self,
        function: Name,
        args: Vec<Self::Expr>,
    ) -> Result<Self::Expr, AllocError>
        ensures { IfOk result (λ e. meaning e ≡ v.call_extension_fn function
            (v.values (map meaning args.items))) };

    /// A set of elements.
    fn set(self, elements: Vec<Self::Expr>) -> Result<Self::Expr, AllocError>
        ensures { IfOk result (λ e. meaning e ≡ v.set (v.values (map meaning elements.items))) };

    /// A record of its pairs, in the order in which they stand. It is refused, want of memory
    /// aside, exactly where a key is there twice.
    fn record(self, pairs: Vec<(Text, Self::Expr)>) -> Result<Self::Expr, RecordError>
        ensures ok { IfOk result
            (λ e. (meaning e ≡ v.«record» (v.fields (map (λ p. (p.0, meaning p.1)) pairs.items)))
            × (repeats_key (map (λ p. p.0) pairs.items) ≡ false)) }
        ensures err { IfErr result (λ error. RefusesKeys error (map (λ p. p.0) pairs.items)) };
}
