//! The builder that makes an `Expr`, each node at the builder's place.
ghost use Rattle.std.specs.Prelude.{◌≡◌, None, IfOk, IfErr, map, false};
ghost use Rattle.cedar_expressions.specs.Value as v;
ghost use Rattle.cedar_expressions.specs.Keys.{repeats_key, RefusesKeys};
ghost use Rattle.cedar_expressions.specs.Placed.{place_of, builders_place};
ghost use Rattle.cedar_expressions.specs.Meaning.{expr_meaning, unary_call, binary_call, nary_call, list_call};

use crate::record_keys::refuse_repeated_key;
use crate::{
    AddOp, BinaryCall, BinaryOp, Boxed, EntityType, Expr, ExprBuilderInfallibleBuild, ExprKind,
    Items, ListCall, Literal, Name, NaryOp, PatternElem, Place, RecordError, SlotId, Text,
    UnaryCall, UnaryOp, Var,
};
use std::alloc::{AllocError, Global};
use std::marker::PhantomData;

/// Makes `Expr`s. The marker stands for data of the nodes; only `()`, no data, has the calls.
#[derive(Debug, Drop)]
pub struct ExprBuilder<T> {
    alloc: Global,
    place: Option<Place>,
    marker: PhantomData<T>,
}

impl ExprBuilder<()> {
    /// The node of a kind, at the builder's place.
    fn node(self, kind: ExprKind) -> Expr
        ensures { result ≡ record { kind = kind; place = record { place = builders_place self } } }
    {
        Expr::at(kind, self.place)
    }

    fn to_box(&self, part: Expr) -> Result<Boxed<Expr>, AllocError>
        ensures { IfOk result (λ boxed. boxed ≡ part) }
    {
        Boxed::new(self.alloc, part)
    }

    #[tactic(auto, unfolding(crate::specs::Meaning::expr_meaning))]
    fn binary(self, call: BinaryCall, parts: (Expr, Expr)) -> Result<Expr, AllocError>
        ensures value { IfOk result (λ e. expr_meaning e ≡ binary_call call (expr_meaning parts.0)
            (expr_meaning parts.1)) }
        ensures place { IfOk result (λ e. place_of e ≡ builders_place self) }
    {
        let parts = Boxed::new(self.alloc, parts)?;
        Ok(self.node(ExprKind::Binary(call, parts)))
    }

    #[tactic(auto, unfolding(crate::specs::Meaning::expr_meaning))]
    fn unary(self, call: UnaryCall, operand: Expr) -> Result<Expr, AllocError>
        ensures value { IfOk result (λ e. expr_meaning e ≡ unary_call call
            (expr_meaning operand)) }
        ensures place { IfOk result (λ e. place_of e ≡ builders_place self) }
    {
        let operand = self.to_box(operand)?;
        Ok(self.node(ExprKind::Unary(call, operand)))
    }

    #[tactic(auto, unfolding(crate::specs::Meaning::expr_meaning))]
    fn nary(self, op: NaryOp, first: Expr, rest: Vec<Expr>) -> Result<Expr, AllocError>
        ensures value { IfOk result (λ e. expr_meaning e ≡ nary_call op (expr_meaning first)
            (v.values (map expr_meaning rest.items))) }
        ensures place { IfOk result (λ e. place_of e ≡ builders_place self) }
    {
        let first = self.to_box(first)?;
        Ok(self.node(ExprKind::Nary(op, first, Items::from(rest))))
    }

    #[tactic(auto, unfolding(crate::specs::Meaning::expr_meaning))]
    fn list(self, call: ListCall, items: Vec<Expr>) -> Expr
        ensures value { expr_meaning result
            ≡ list_call call (v.values (map expr_meaning items.items)) }
        ensures place { place_of result ≡ builders_place self }
    {
        self.node(ExprKind::List(call, Items::from(items)))
    }

    #[tactic(auto, unfolding(crate::specs::Meaning::expr_meaning))]
    fn record_node(self, pairs: Vec<(Text, Expr)>) -> Expr
        ensures value { expr_meaning result
            ≡ v.«record» (v.fields (map (λ p. (p.0, expr_meaning p.1)) pairs.items)) }
        ensures place { place_of result ≡ builders_place self }
    {
        self.node(ExprKind::Record(Items::from(pairs)))
    }
}

impl ExprBuilderInfallibleBuild for ExprBuilder<()> {
    type Expr = Expr;

    ghost meaning = { expr_meaning };

    ghost node_place = { builders_place };

    fn new(alloc: Global) -> ExprBuilder<()> {
        ExprBuilder {
            alloc,
            place: None,
            marker: PhantomData,
        }
    }

    fn with_maybe_source_loc(self, place: Option<Place>) -> ExprBuilder<()> {
        ExprBuilder {
            alloc: self.alloc,
            place,
            marker: PhantomData,
        }
    }

    #[tactic(auto, unfolding(crate::specs::Meaning::expr_meaning))]
    fn val(self, literal: Literal) -> Result<Expr, AllocError>
        ensures value { IfOk result (λ e. expr_meaning e ≡ v.val literal) }
        ensures place { IfOk result (λ e. place_of e ≡ builders_place self) }
    {
        Ok(self.node(ExprKind::Val(literal)))
    }

    #[tactic(auto, unfolding(crate::specs::Meaning::expr_meaning))]
    fn var(self, var: Var) -> Result<Expr, AllocError>
        ensures value { IfOk result (λ e. expr_meaning e ≡ v.var var) }
        ensures place { IfOk result (λ e. place_of e ≡ builders_place self) }
    {
        Ok(self.node(ExprKind::Var(var)))
    }

    #[tactic(auto, unfolding(crate::specs::Meaning::expr_meaning))]
    fn slot(self, slot: SlotId) -> Result<Expr, AllocError>
        ensures value { IfOk result (λ e. expr_meaning e
            ≡ v.slot (record { id = slot; place = builders_place self })) }
        ensures place { IfOk result (λ e. place_of e ≡ builders_place self) }
    {
        Ok(self.node(ExprKind::Slot(slot)))
    }

    #[tactic(auto, unfolding(crate::specs::Meaning::expr_meaning))]
    fn ite(self, guard: Expr, consequent: Expr, alternative: Expr) -> Result<Expr, AllocError>
        ensures value { IfOk result (λ e. expr_meaning e ≡ v.ite (expr_meaning guard)
            (expr_meaning consequent) (expr_meaning alternative)) }
        ensures place { IfOk result (λ e. place_of e ≡ builders_place self) }
    {
        let parts = Boxed::new(self.alloc, (guard, consequent, alternative))?;
        Ok(self.node(ExprKind::Ite(parts)))
    }

    fn not(self, inner: Expr) -> Result<Expr, AllocError>
        ensures value { IfOk result (λ e. expr_meaning e ≡ v.not (expr_meaning inner)) }
        ensures place { IfOk result (λ e. place_of e ≡ builders_place self) }
    {
        self.unary(UnaryCall::Op(UnaryOp::Not), inner)
    }

    fn neg(self, inner: Expr) -> Result<Expr, AllocError>
        ensures value { IfOk result (λ e. expr_meaning e ≡ v.neg (expr_meaning inner)) }
        ensures place { IfOk result (λ e. place_of e ≡ builders_place self) }
    {
        self.unary(UnaryCall::Op(UnaryOp::Neg), inner)
    }

    fn and(self, left: Expr, right: Expr) -> Result<Expr, AllocError>
        ensures value { IfOk result (λ e. expr_meaning e ≡ v.and (expr_meaning left)
            (expr_meaning right)) }
        ensures place { IfOk result (λ e. place_of e ≡ builders_place self) }
    {
        self.binary(BinaryCall::Op(BinaryOp::And), (left, right))
    }

    fn or_nary(self, first: Expr, rest: Vec<Expr>) -> Result<Expr, AllocError>
        ensures value { IfOk result (λ e. expr_meaning e ≡ v.or_nary (expr_meaning first)
            (v.values (map expr_meaning rest.items))) }
        ensures place { IfOk result (λ e. place_of e ≡ builders_place self) }
    {
        self.nary(NaryOp::Or, first, rest)
    }

    fn and_naryl(self, first: Expr, rest: Vec<Expr>) -> Result<Expr, AllocError>
        ensures value { IfOk result (λ e. expr_meaning e ≡ v.and_naryl (expr_meaning first)
            (v.values (map expr_meaning rest.items))) }
        ensures place { IfOk result (λ e. place_of e ≡ builders_place self) }
    {
        self.nary(NaryOp::And, first, rest)
    }

    #[tactic(auto, unfolding(crate::specs::Meaning::expr_meaning))]
    fn add_nary(self, first: Expr, rest: Vec<(AddOp, Expr)>) -> Result<Expr, AllocError>
        ensures value { IfOk result (λ e. expr_meaning e ≡ v.add_nary (expr_meaning first)
            (v.terms (map (λ t. (t.0, expr_meaning t.1)) rest.items))) }
        ensures place { IfOk result (λ e. place_of e ≡ builders_place self) }
    {
        let first = self.to_box(first)?;
        Ok(self.node(ExprKind::Sum(first, Items::from(rest))))
    }

    fn mul_nary(self, first: Expr, rest: Vec<Expr>) -> Result<Expr, AllocError>
        ensures value { IfOk result (λ e. expr_meaning e ≡ v.mul_nary (expr_meaning first)
            (v.values (map expr_meaning rest.items))) }
        ensures place { IfOk result (λ e. place_of e ≡ builders_place self) }
    {
        self.nary(NaryOp::Mul, first, rest)
    }

    fn less(self, left: Expr, right: Expr) -> Result<Expr, AllocError>
        ensures value { IfOk result (λ e. expr_meaning e ≡ v.less (expr_meaning left)
            (expr_meaning right)) }
        ensures place { IfOk result (λ e. place_of e ≡ builders_place self) }
    {
        self.binary(BinaryCall::Op(BinaryOp::Less), (left, right))
    }

    fn lesseq(self, left: Expr, right: Expr) -> Result<Expr, AllocError>
        ensures value { IfOk result (λ e. expr_meaning e ≡ v.lesseq (expr_meaning left)
            (expr_meaning right)) }
        ensures place { IfOk result (λ e. place_of e ≡ builders_place self) }
    {
        self.binary(BinaryCall::Op(BinaryOp::LessEq), (left, right))
    }

    fn greater(self, left: Expr, right: Expr) -> Result<Expr, AllocError>
        ensures value { IfOk result (λ e. expr_meaning e ≡ v.greater (expr_meaning left)
            (expr_meaning right)) }
        ensures place { IfOk result (λ e. place_of e ≡ builders_place self) }
    {
        self.binary(BinaryCall::Op(BinaryOp::Greater), (left, right))
    }

    fn greatereq(self, left: Expr, right: Expr) -> Result<Expr, AllocError>
        ensures value { IfOk result (λ e. expr_meaning e ≡ v.greatereq (expr_meaning left)
            (expr_meaning right)) }
        ensures place { IfOk result (λ e. place_of e ≡ builders_place self) }
    {
        self.binary(BinaryCall::Op(BinaryOp::GreaterEq), (left, right))
    }

    fn is_eq(self, left: Expr, right: Expr) -> Result<Expr, AllocError>
        ensures value { IfOk result (λ e. expr_meaning e ≡ v.is_eq (expr_meaning left)
            (expr_meaning right)) }
        ensures place { IfOk result (λ e. place_of e ≡ builders_place self) }
    {
        self.binary(BinaryCall::Op(BinaryOp::Eq), (left, right))
    }

    fn noteq(self, left: Expr, right: Expr) -> Result<Expr, AllocError>
        ensures value { IfOk result (λ e. expr_meaning e ≡ v.noteq (expr_meaning left)
            (expr_meaning right)) }
        ensures place { IfOk result (λ e. place_of e ≡ builders_place self) }
    {
        self.binary(BinaryCall::Op(BinaryOp::NotEq), (left, right))
    }

    fn is_in(self, left: Expr, right: Expr) -> Result<Expr, AllocError>
        ensures value { IfOk result (λ e. expr_meaning e ≡ v.is_in (expr_meaning left)
            (expr_meaning right)) }
        ensures place { IfOk result (λ e. place_of e ≡ builders_place self) }
    {
        self.binary(BinaryCall::Op(BinaryOp::In), (left, right))
    }

    fn like(self, expr: Expr, pattern: Vec<PatternElem>) -> Result<Expr, AllocError>
        ensures value { IfOk result (λ e. expr_meaning e ≡ v.like
            (expr_meaning expr) pattern.items) }
        ensures place { IfOk result (λ e. place_of e ≡ builders_place self) }
    {
        self.unary(UnaryCall::Like(Items::from(pattern)), expr)
    }

    fn is_entity_type(self, expr: Expr, entity_type: EntityType) -> Result<Expr, AllocError>
        ensures value { IfOk result (λ e. expr_meaning e ≡ v.is_entity_type
            (expr_meaning expr) entity_type) }
        ensures place { IfOk result (λ e. place_of e ≡ builders_place self) }
    {
        self.unary(UnaryCall::Is(entity_type), expr)
    }

    fn is_in_entity_type(
        self,
        expr: Expr,
        entity_type: EntityType,
        entity: Expr,
    ) -> Result<Expr, AllocError>
        ensures value { IfOk result (λ e. expr_meaning e ≡ v.is_in_entity_type
            (expr_meaning expr) entity_type (expr_meaning entity)) }
        ensures place { IfOk result (λ e. place_of e ≡ builders_place self) }
    {
        self.binary(BinaryCall::IsIn(entity_type), (expr, entity))
    }

    fn extended_has_attr(self, expr: Expr, first: Text, rest: Vec<Text>) -> Result<Expr, AllocError>
        ensures value { IfOk result (λ e. expr_meaning e ≡ v.extended_has_attr
            (expr_meaning expr) first rest.items) }
        ensures place { IfOk result (λ e. place_of e ≡ builders_place self) }
    {
        self.unary(UnaryCall::ExtendedHasAttr(first, Items::from(rest)), expr)
    }

    fn get_attr(self, expr: Expr, attr: Text) -> Result<Expr, AllocError>
        ensures value { IfOk result (λ e. expr_meaning e ≡ v.get_attr (expr_meaning expr) attr) }
        ensures place { IfOk result (λ e. place_of e ≡ builders_place self) }
    {
        self.unary(UnaryCall::GetAttr(attr), expr)
    }

    fn contains(self, set: Expr, element: Expr) -> Result<Expr, AllocError>
        ensures value { IfOk result (λ e. expr_meaning e ≡ v.contains (expr_meaning set)
            (expr_meaning element)) }
        ensures place { IfOk result (λ e. place_of e ≡ builders_place self) }
    {
        self.binary(BinaryCall::Op(BinaryOp::Contains), (set, element))
    }

    fn contains_all(self, set: Expr, other: Expr) -> Result<Expr, AllocError>
        ensures value { IfOk result (λ e. expr_meaning e ≡ v.contains_all (expr_meaning set)
            (expr_meaning other)) }
        ensures place { IfOk result (λ e. place_of e ≡ builders_place self) }
    {
        self.binary(BinaryCall::Op(BinaryOp::ContainsAll), (set, other))
    }

    fn contains_any(self, set: Expr, other: Expr) -> Result<Expr, AllocError>
        ensures value { IfOk result (λ e. expr_meaning e ≡ v.contains_any (expr_meaning set)
            (expr_meaning other)) }
        ensures place { IfOk result (λ e. place_of e ≡ builders_place self) }
    {
        self.binary(BinaryCall::Op(BinaryOp::ContainsAny), (set, other))
    }

    fn is_empty(self, set: Expr) -> Result<Expr, AllocError>
        ensures value { IfOk result (λ e. expr_meaning e ≡ v.is_empty (expr_meaning set)) }
        ensures place { IfOk result (λ e. place_of e ≡ builders_place self) }
    {
        self.unary(UnaryCall::IsEmpty, set)
    }

    fn get_tag(self, entity: Expr, tag: Expr) -> Result<Expr, AllocError>
        ensures value { IfOk result (λ e. expr_meaning e ≡ v.get_tag (expr_meaning entity)
            (expr_meaning tag)) }
        ensures place { IfOk result (λ e. place_of e ≡ builders_place self) }
    {
        self.binary(BinaryCall::Op(BinaryOp::GetTag), (entity, tag))
    }

    fn has_tag(self, entity: Expr, tag: Expr) -> Result<Expr, AllocError>
        ensures value { IfOk result (λ e. expr_meaning e ≡ v.has_tag (expr_meaning entity)
            (expr_meaning tag)) }
        ensures place { IfOk result (λ e. place_of e ≡ builders_place self) }
    {
        self.binary(BinaryCall::Op(BinaryOp::HasTag), (entity, tag))
    }

    fn call_extension_fn(self, function: Name, args: Vec<Expr>) -> Result<Expr, AllocError>
        ensures value { IfOk result (λ e. expr_meaning e ≡ v.call_extension_fn function
            (v.values (map expr_meaning args.items))) }
        ensures place { IfOk result (λ e. place_of e ≡ builders_place self) }
    {
        Ok(self.list(ListCall::Extension(function), args))
    }

    fn set(self, elements: Vec<Expr>) -> Result<Expr, AllocError>
        ensures value { IfOk result (λ e. expr_meaning e ≡ v.set
            (v.values (map expr_meaning elements.items))) }
        ensures place { IfOk result (λ e. place_of e ≡ builders_place self) }
    {
        Ok(self.list(ListCall::Set, elements))
    }

    fn record(self, pairs: Vec<(Text, Expr)>) -> Result<Expr, RecordError>
        ensures ok { IfOk result
            (λ e. (expr_meaning e ≡ v.«record»
            (v.fields (map (λ p. (p.0, expr_meaning p.1)) pairs.items)))
            × (repeats_key (map (λ p. p.0) pairs.items) ≡ false)) }
        ensures err { IfErr result (λ error. RefusesKeys error (map (λ p. p.0) pairs.items)) }
        ensures place { IfOk result (λ e. place_of e ≡ builders_place self) }
    {
        refuse_repeated_key(self.alloc, pairs.as_slice())?;
        Ok(self.record_node(pairs))
    }
}
