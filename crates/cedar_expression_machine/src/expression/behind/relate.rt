//! Closes a relation with its last sum: its left side is taken out of the state.
ghost use Rattle.std.specs.Prelude.{◌≡◌, None, Some, IfOk, OnOk, IsSome, IsTrue};
ghost use Rattle.cedar_expression_machine.specs.declared.expression.state.PendingRelation.TheVariants as left;
ghost use Rattle.cedar_expression_machine.specs.machines.Closing.{made_common, node_of, relation_with_sum};
ghost use Rattle.cedar_expression_machine.specs.machines.ExpressionModes.{IsCommon, IsSided, IsWithin};

use crate::expression::state::{Chain, PendingOperators, PendingRelation, Spanned};
use cedar_expressions::{Boxed, Items};
use cedar_grammar::never;
use cedar_grammar::reading::extent::join_extents;
use cedar_grammar::reading::node_builder::NodeBuilder;
use cedar_syntax::cst::{Add, Relation};
use cedar_syntax::node::Node;
use std::alloc::AllocError;

/// A tree as a node in memory of its own. It is of any type, so that the proof doesn't see what is
/// dropped.
fn boxed_node<T: Drop>(
    builder: NodeBuilder<'_>,
    item: Spanned<T>,
) -> Result<Boxed<Node<Option<T>>>, AllocError>
    ensures { IfOk result (λ boxed. boxed ≡ node_of builder.entry.source.now item) }
{
    Boxed::new(builder.alloc, item.into_node(builder)?)
}

/// A node and a tree behind it, each in memory of its own, of any types too.
fn boxes<A: Drop, B: Drop>(
    builder: NodeBuilder<'_>,
    first: Node<Option<A>>,
    second: Spanned<B>,
) -> Result<(Boxed<Node<Option<A>>>, Boxed<Node<Option<B>>>), AllocError>
    ensures { IfOk result (λ both. both ≡ (first, node_of builder.entry.source.now second)) }
{
    let second = boxed_node(builder, second)?;
    let first = Boxed::new(builder.alloc, first)?;
    Ok((first, second))
}

impl PendingOperators {
    /// The left side that is begun, taken out.
    #[inline(always)]
    fn take_left(&mut self) -> PendingRelation
        requires { IsSome self.old.relation }
        ensures left { self.old.relation ≡ Some result }
        ensures after { self.new ≡ record self.old { relation = None } }
    {
        match self.relation.take() {
            Some(left) => left.into_inner(),
            None => never!(),
        }
    }

    /// Whether comparisons are begun.
    #[inline(always)]
    pub fn is_common(&self) -> bool
        ensures { IsTrue result → IsCommon self.now.relation }
    {
        match &self.relation {
            Some(left) => matches!(left.as_ref(), PendingRelation::Common(_)),
            None => false,
        }
    }

    /// Comparisons whose last sum is read, taken out.
    #[inline(always)]
    pub fn take_common(&mut self) -> Spanned<Relation>
        requires { IsCommon self.old.relation }
        ensures tree { (p : _) → self.old.relation ≡ Some (left.Common p)
            → result ≡ made_common p.chain }
        ensures after { self.new ≡ record self.old { relation = None } }
    {
        match self.take_left() {
            PendingRelation::Common(begun) => {
                let Chain {
                    initial,
                    extended,
                    extent,
                } = begun.chain;
                Spanned {
                    tree: Relation::Common { initial, extended },
                    extent,
                }
            }
            _ => never!(),
        }
    }

    /// Comparisons and their last sum.
    #[inline(never)]
    fn close_common(
        &mut self,
        builder: NodeBuilder<'_>,
        item: Spanned<Add>,
    ) -> Result<Spanned<Relation>, AllocError>
        requires { IsCommon self.old.relation }
        ensures closed { IfOk result (λ relation. relation
            ≡ relation_with_sum builder.entry.source.now self.old.relation item) }
        ensures after { OnOk result (self.new ≡ record self.old { relation = None }) }
    {
        match self.take_left() {
            PendingRelation::Common(mut begun) => {
                begun.link(builder, item)?;
                let Chain {
                    initial,
                    extended,
                    extent,
                } = begun.chain;
                Ok(Spanned {
                    tree: Relation::Common { initial, extended },
                    extent,
                })
            }
            _ => never!(),
        }
    }

    /// `has`, `like` or `is` and its right side.
    #[inline(never)]
    fn close_side(
        &mut self,
        builder: NodeBuilder<'_>,
        item: Spanned<Add>,
    ) -> Result<Spanned<Relation>, AllocError>
        requires { IsSided self.old.relation }
        ensures closed { IfOk result (λ relation. relation
            ≡ relation_with_sum builder.entry.source.now self.old.relation item) }
        ensures after { OnOk result (self.new ≡ record self.old { relation = None }) }
    {
        let item_extent = item.extent;
        let right = boxed_node(builder, item)?;
        let (tree, before) = match self.take_left() {
            PendingRelation::Has(left) => (
                Relation::Has {
                    target: left.tree,
                    field: right,
                },
                left.extent,
            ),
            PendingRelation::Like(left) => (
                Relation::Like {
                    target: left.tree,
                    pattern: right,
                },
                left.extent,
            ),
            PendingRelation::Is(left) => (
                Relation::IsIn {
                    target: left.tree,
                    entity_type: right,
                    in_entity: None,
                },
                left.extent,
            ),
            PendingRelation::Common(_) | PendingRelation::IsIn { .. } => never!(),
        };
        Ok(Spanned {
            tree,
            extent: join_extents(before, item_extent),
        })
    }

    /// `is`, a type, and what is behind `in`.
    #[inline(never)]
    fn close_is_in(
        &mut self,
        builder: NodeBuilder<'_>,
        item: Spanned<Add>,
    ) -> Result<Spanned<Relation>, AllocError>
        requires { IsWithin self.old.relation }
        ensures closed { IfOk result (λ relation. relation
            ≡ relation_with_sum builder.entry.source.now self.old.relation item) }
        ensures after { OnOk result (self.new ≡ record self.old { relation = None }) }
    {
        match self.take_left() {
            PendingRelation::IsIn {
                target,
                entity_type,
                extent,
            } => {
                let extent = join_extents(extent, item.extent);
                let (entity_type, entity) = boxes(builder, entity_type, item)?;
                let tree = Relation::IsIn {
                    target,
                    entity_type,
                    in_entity: Some(entity),
                };
                Ok(Spanned { tree, extent })
            }
            _ => never!(),
        }
    }

    /// A sum alone as a relation.
    #[inline(never)]
    fn close_first(
        builder: NodeBuilder<'_>,
        item: Spanned<Add>,
    ) -> Result<Spanned<Relation>, AllocError>
        ensures { IfOk result (λ relation. relation ≡ relation_with_sum builder.entry.source.now
            None item) }
    {
        let loc = builder.loc_at(item.extent)?;
        let extent = item.extent;
        let initial = Node {
            node: Some(item.tree),
            loc,
        };
        let extended = Items::new(builder.alloc);
        Ok(Spanned {
            tree: Relation::Common { initial, extended },
            extent,
        })
    }

    /// The relation that ends with this sum.
    #[inline(always)]
    pub fn relate(
        &mut self,
        builder: NodeBuilder<'_>,
        item: Spanned<Add>,
    ) -> Result<Spanned<Relation>, AllocError>
        ensures closed { IfOk result (λ closed. closed
            ≡ relation_with_sum builder.entry.source.now self.old.relation item) }
        ensures after { OnOk result (self.new ≡ record self.old { relation = None }) }
    {
        match &self.relation {
            None => PendingOperators::close_first(builder, item),
            Some(left) => match left.as_ref() {
                PendingRelation::Common(_) => self.close_common(builder, item),
                PendingRelation::Has(_) | PendingRelation::Like(_) | PendingRelation::Is(_) =>
                    self.close_side(builder, item),
                PendingRelation::IsIn { .. } => self.close_is_in(builder, item),
            },
        }
    }
}
