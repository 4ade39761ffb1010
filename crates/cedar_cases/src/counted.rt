//! A second builder, which counts the calls of another that make an expression.
ghost use Rattle.std.specs.Prelude.{◌≡◌, IfOk, IfErr, IsOkAnd, IsErrAnd, map, false};
ghost use Rattle.cedar_expressions.specs.Value as v;
ghost use Rattle.cedar_expressions.specs.Keys.{repeats_key, RefusesKeys};

use cedar_expressions::{
    AddOp, EntityType, ExprBuilderInfallibleBuild, Literal, Name, PatternElem, Place, RecordError,
    SlotId, Text, Var,
};
use std::alloc::{AllocError, Global};

/// An expression with the number of builder calls that made it.
#[derive(Drop)]
pub struct Counted<E> {
    expr: E,
    nodes: usize,
}

impl<E: Drop> Counted<E> {
    /// What was made by one call of parts that have so many nodes together.
    fn over<F>(parts: usize, made: Result<E, F>) -> Result<Counted<E>, F>
        ensures ok { IfOk result (λ c. IsOkAnd made (λ e. c.expr ≡ e)) }
        ensures err { IfErr result (λ f. IsErrAnd made (λ g. g ≡ f)) }
    {
        match made {
            Ok(expr) => Ok(Counted {
                expr,
                nodes: parts.saturating_add(1),
            }),
            Err(error) => Err(error),
        }
    }

    /// How many builder calls made the expression, `usize::MAX` if there were more.
    pub fn nodes(&self) -> usize
        ensures { result ≡ self.now.nodes }
    {
        self.nodes
    }
}

/// What is held, beside what was made.
fn beside<A: Drop, B, E>(held: A, made: Result<B, E>) -> Result<(A, B), E>
    ensures { IfOk result (λ both. IsOkAnd made (λ one. both ≡ (held, one))) }
{
    let made = made?;
    Ok((held, made))
}

/// Makes what a builder makes, and counts the calls.
#[derive(Drop)]
pub struct CountingBuilder<B> {
    alloc: Global,
    inner: B,
}

/// The expressions of a list, and how many nodes they have together.
fn split_items<B: ExprBuilderInfallibleBuild>(
    alloc: Global,
    items: Vec<Counted<B::Expr>>,
) -> Result<(Vec<B::Expr>, usize), AllocError>
    ensures { IfOk result (λ parts.
        map B.meaning parts.0.items ≡ map (λ c. B.meaning c.expr) items.items) }
{
    let mut exprs = Vec::new(alloc);
    let mut nodes = 0usize;
    for item in items {
        nodes = nodes.saturating_add(item.nodes);
        exprs.push(item.expr)?;
    }
    Ok((exprs, nodes))
}

/// The same of the later operands of a sum.
fn split_terms<B: ExprBuilderInfallibleBuild>(
    alloc: Global,
    terms: Vec<(AddOp, Counted<B::Expr>)>,
) -> Result<(Vec<(AddOp, B::Expr)>, usize), AllocError>
    ensures { IfOk result (λ parts. v.terms (map (λ t. (t.0, B.meaning t.1)) parts.0.items)
        ≡ v.terms (map (λ t. (t.0, B.meaning t.1.expr)) terms.items)) }
{
    let mut exprs = Vec::new(alloc);
    let mut nodes = 0usize;
    for (op, item) in terms {
        nodes = nodes.saturating_add(item.nodes);
        exprs.push((op, item.expr))?;
    }
    Ok((exprs, nodes))
}

/// The same of the pairs of a record, with their keys.
fn split_pairs<B: ExprBuilderInfallibleBuild>(
    alloc: Global,
    pairs: Vec<(Text, Counted<B::Expr>)>,
) -> Result<(Vec<(Text, B::Expr)>, usize), AllocError>
    ensures fields { IfOk result (λ parts. v.fields (map (λ p. (p.0, B.meaning p.1)) parts.0.items)
        ≡ v.fields (map (λ p. (p.0, B.meaning p.1.expr)) pairs.items)) }
    ensures keys { IfOk result (λ parts.
        map (λ p. p.0) parts.0.items ≡ map (λ p. p.0) pairs.items) }
{
    let mut exprs = Vec::new(alloc);
    let mut nodes = 0usize;
    for (key, item) in pairs {
        nodes = nodes.saturating_add(item.nodes);
        exprs.push((key, item.expr))?;
    }
    Ok((exprs, nodes))
}

impl<B: ExprBuilderInfallibleBuild> ExprBuilderInfallibleBuild for CountingBuilder<B> {
    type Expr = Counted<B::Expr>;

    ghost meaning = { λ counted. B.meaning counted.expr };

    ghost node_place = { λ builder. B.node_place builder.inner };

    fn new(alloc: Global) -> CountingBuilder<B> {
        CountingBuilder {
            alloc,
            inner: B::new(alloc),
        }
    }

    fn with_maybe_source_loc(self, place: Option<Place>) -> CountingBuilder<B> {
        CountingBuilder {
            alloc: self.alloc,
            inner: self.inner.with_maybe_source_loc(place),
        }
    }

    fn val(self, literal: Literal) -> Result<Counted<B::Expr>, AllocError> {
        Counted::over(0, self.inner.val(literal))
    }

    fn var(self, var: Var) -> Result<Counted<B::Expr>, AllocError> {
        Counted::over(0, self.inner.var(var))
    }

    fn slot(self, slot: SlotId) -> Result<Counted<B::Expr>, AllocError> {
        Counted::over(0, self.inner.slot(slot))
    }

    fn ite(
        self,
        guard: Counted<B::Expr>,
        consequent: Counted<B::Expr>,
        alternative: Counted<B::Expr>,
    ) -> Result<Counted<B::Expr>, AllocError> {
        let branches = consequent.nodes.saturating_add(alternative.nodes);
        let nodes = guard.nodes.saturating_add(branches);
        let made = self
            .inner
            .ite(guard.expr, consequent.expr, alternative.expr);
        Counted::over(nodes, made)
    }

    fn not(self, inner: Counted<B::Expr>) -> Result<Counted<B::Expr>, AllocError> {
        Counted::over(inner.nodes, self.inner.not(inner.expr))
    }

    fn neg(self, inner: Counted<B::Expr>) -> Result<Counted<B::Expr>, AllocError> {
        Counted::over(inner.nodes, self.inner.neg(inner.expr))
    }

    fn and(
        self,
        left: Counted<B::Expr>,
        right: Counted<B::Expr>,
    ) -> Result<Counted<B::Expr>, AllocError> {
        let nodes = left.nodes.saturating_add(right.nodes);
        Counted::over(nodes, self.inner.and(left.expr, right.expr))
    }

    fn or_nary(
        self,
        first: Counted<B::Expr>,
        rest: Vec<Counted<B::Expr>>,
    ) -> Result<Counted<B::Expr>, AllocError>
        ensures { IfOk result (λ e. B.meaning e.expr ≡ v.or_nary (B.meaning first.expr)
            (v.values (map (λ c. B.meaning c.expr) rest.items))) }
    {
        let (first, (rest, nodes)) = beside(first, split_items::<B>(self.alloc, rest))?;
        let nodes = nodes.saturating_add(first.nodes);
        Counted::over(nodes, self.inner.or_nary(first.expr, rest))
    }

    fn and_naryl(
        self,
        first: Counted<B::Expr>,
        rest: Vec<Counted<B::Expr>>,
    ) -> Result<Counted<B::Expr>, AllocError>
        ensures { IfOk result (λ e. B.meaning e.expr ≡ v.and_naryl (B.meaning first.expr)
            (v.values (map (λ c. B.meaning c.expr) rest.items))) }
    {
        let (first, (rest, nodes)) = beside(first, split_items::<B>(self.alloc, rest))?;
        let nodes = nodes.saturating_add(first.nodes);
        Counted::over(nodes, self.inner.and_naryl(first.expr, rest))
    }

    fn add_nary(
        self,
        first: Counted<B::Expr>,
        rest: Vec<(AddOp, Counted<B::Expr>)>,
    ) -> Result<Counted<B::Expr>, AllocError>
        ensures { IfOk result (λ e. B.meaning e.expr ≡ v.add_nary (B.meaning first.expr)
            (v.terms (map (λ t. (t.0, B.meaning t.1.expr)) rest.items))) }
    {
        let (first, (rest, nodes)) = beside(first, split_terms::<B>(self.alloc, rest))?;
        let nodes = nodes.saturating_add(first.nodes);
        Counted::over(nodes, self.inner.add_nary(first.expr, rest))
    }

    fn mul_nary(
        self,
        first: Counted<B::Expr>,
        rest: Vec<Counted<B::Expr>>,
    ) -> Result<Counted<B::Expr>, AllocError>
        ensures { IfOk result (λ e. B.meaning e.expr ≡ v.mul_nary (B.meaning first.expr)
            (v.values (map (λ c. B.meaning c.expr) rest.items))) }
    {
        let (first, (rest, nodes)) = beside(first, split_items::<B>(self.alloc, rest))?;
        let nodes = nodes.saturating_add(first.nodes);
        Counted::over(nodes, self.inner.mul_nary(first.expr, rest))
    }

    fn less(
        self,
        left: Counted<B::Expr>,
        right: Counted<B::Expr>,
    ) -> Result<Counted<B::Expr>, AllocError> {
        let nodes = left.nodes.saturating_add(right.nodes);
        Counted::over(nodes, self.inner.less(left.expr, right.expr))
    }

    fn lesseq(
        self,
        left: Counted<B::Expr>,
        right: Counted<B::Expr>,
    ) -> Result<Counted<B::Expr>, AllocError> {
        let nodes = left.nodes.saturating_add(right.nodes);
        Counted::over(nodes, self.inner.lesseq(left.expr, right.expr))
    }

    fn greater(
        self,
        left: Counted<B::Expr>,
        right: Counted<B::Expr>,
    ) -> Result<Counted<B::Expr>, AllocError> {
        let nodes = left.nodes.saturating_add(right.nodes);
        Counted::over(nodes, self.inner.greater(left.expr, right.expr))
    }

    fn greatereq(
        self,
        left: Counted<B::Expr>,
        right: Counted<B::Expr>,
    ) -> Result<Counted<B::Expr>, AllocError> {
        let nodes = left.nodes.saturating_add(right.nodes);
        Counted::over(nodes, self.inner.greatereq(left.expr, right.expr))
    }

    fn is_eq(
        self,
        left: Counted<B::Expr>,
        right: Counted<B::Expr>,
    ) -> Result<Counted<B::Expr>, AllocError> {
        let nodes = left.nodes.saturating_add(right.nodes);
        Counted::over(nodes, self.inner.is_eq(left.expr, right.expr))
    }

    fn noteq(
        self,
        left: Counted<B::Expr>,
        right: Counted<B::Expr>,
    ) -> Result<Counted<B::Expr>, AllocError> {
        let nodes = left.nodes.saturating_add(right.nodes);
        Counted::over(nodes, self.inner.noteq(left.expr, right.expr))
    }

    fn is_in(
        self,
        left: Counted<B::Expr>,
        right: Counted<B::Expr>,
    ) -> Result<Counted<B::Expr>, AllocError> {
        let nodes = left.nodes.saturating_add(right.nodes);
        Counted::over(nodes, self.inner.is_in(left.expr, right.expr))
    }

    fn like(
        self,
        expr: Counted<B::Expr>,
        pattern: Vec<PatternElem>,
    ) -> Result<Counted<B::Expr>, AllocError> {
        Counted::over(expr.nodes, self.inner.like(expr.expr, pattern))
    }

    fn is_entity_type(
        self,
        expr: Counted<B::Expr>,
        entity_type: EntityType,
    ) -> Result<Counted<B::Expr>, AllocError> {
        Counted::over(
            expr.nodes,
            self.inner.is_entity_type(expr.expr, entity_type),
        )
    }

    fn is_in_entity_type(
        self,
        expr: Counted<B::Expr>,
        entity_type: EntityType,
        entity: Counted<B::Expr>,
    ) -> Result<Counted<B::Expr>, AllocError> {
        let nodes = expr.nodes.saturating_add(entity.nodes);
        Counted::over(
            nodes,
            self.inner
                .is_in_entity_type(expr.expr, entity_type, entity.expr),
        )
    }

    fn extended_has_attr(
        self,
        expr: Counted<B::Expr>,
        first: Text,
        rest: Vec<Text>,
    ) -> Result<Counted<B::Expr>, AllocError> {
        Counted::over(
            expr.nodes,
            self.inner.extended_has_attr(expr.expr, first, rest),
        )
    }

    fn get_attr(self, expr: Counted<B::Expr>, attr: Text) -> Result<Counted<B::Expr>, AllocError> {
        Counted::over(expr.nodes, self.inner.get_attr(expr.expr, attr))
    }

    fn contains(
        self,
        set: Counted<B::Expr>,
        element: Counted<B::Expr>,
    ) -> Result<Counted<B::Expr>, AllocError> {
        let nodes = set.nodes.saturating_add(element.nodes);
        Counted::over(nodes, self.inner.contains(set.expr, element.expr))
    }

    fn contains_all(
        self,
        set: Counted<B::Expr>,
        other: Counted<B::Expr>,
    ) -> Result<Counted<B::Expr>, AllocError> {
        let nodes = set.nodes.saturating_add(other.nodes);
        Counted::over(nodes, self.inner.contains_all(set.expr, other.expr))
    }

    fn contains_any(
        self,
        set: Counted<B::Expr>,
        other: Counted<B::Expr>,
    ) -> Result<Counted<B::Expr>, AllocError> {
        let nodes = set.nodes.saturating_add(other.nodes);
        Counted::over(nodes, self.inner.contains_any(set.expr, other.expr))
    }

    fn is_empty(self, set: Counted<B::Expr>) -> Result<Counted<B::Expr>, AllocError> {
        Counted::over(set.nodes, self.inner.is_empty(set.expr))
    }

    fn get_tag(
        self,
        entity: Counted<B::Expr>,
        tag: Counted<B::Expr>,
    ) -> Result<Counted<B::Expr>, AllocError> {
        let nodes = entity.nodes.saturating_add(tag.nodes);
        Counted::over(nodes, self.inner.get_tag(entity.expr, tag.expr))
    }

    fn has_tag(
        self,
        entity: Counted<B::Expr>,
        tag: Counted<B::Expr>,
    ) -> Result<Counted<B::Expr>, AllocError> {
        let nodes = entity.nodes.saturating_add(tag.nodes);
        Counted::over(nodes, self.inner.has_tag(entity.expr, tag.expr))
    }

    fn call_extension_fn(
        self,
        function: Name,
        args: Vec<Counted<B::Expr>>,
    ) -> Result<Counted<B::Expr>, AllocError>
        ensures { IfOk result (λ e. B.meaning e.expr ≡ v.call_extension_fn function
            (v.values (map (λ c. B.meaning c.expr) args.items))) }
    {
        let (args, nodes) = split_items::<B>(self.alloc, args)?;
        Counted::over(nodes, self.inner.call_extension_fn(function, args))
    }

    fn set(self, elements: Vec<Counted<B::Expr>>) -> Result<Counted<B::Expr>, AllocError>
        ensures { IfOk result (λ e. B.meaning e.expr ≡ v.set
            (v.values (map (λ c. B.meaning c.expr) elements.items))) }
    {
        let (elements, nodes) = split_items::<B>(self.alloc, elements)?;
        Counted::over(nodes, self.inner.set(elements))
    }

    fn record(self, pairs: Vec<(Text, Counted<B::Expr>)>) -> Result<Counted<B::Expr>, RecordError>
        ensures ok { IfOk result (λ e.
            (B.meaning e.expr
            ≡ v.«record» (v.fields (map (λ p. (p.0, B.meaning p.1.expr)) pairs.items)))
            × (repeats_key (map (λ p. p.0) pairs.items) ≡ false)) }
        ensures err { IfErr result (λ error. RefusesKeys error (map (λ p. p.0) pairs.items)) }
    {
        let (pairs, nodes) = split_pairs::<B>(self.alloc, pairs)?;
        Counted::over(nodes, self.inner.record(pairs))
    }
}
