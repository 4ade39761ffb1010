//! One level of operators: its operands so far, and one more.
ghost use Rattle.std.specs.Prelude.{◌≡◌, Some, None, IfOk, OnOk};
ghost use Rattle.cedar_expression_machine.specs.machines.Closing.{begun_at, marked_chain, onward, pending, pending_with, plain_chain, plain_with};

use crate::expression::state::{Chain, OperatorAt, PendingChain, Spanned};
use cedar_expressions::{Boxed, Items};
use cedar_grammar::reading::extent::{Extent, join_extents};
use cedar_grammar::reading::node_builder::NodeBuilder;
use cedar_syntax::loc::Loc;
use cedar_syntax::node::Node;
use std::alloc::{AllocError, Global};

impl<T: Drop, I: Drop> Chain<T, I> {
    /// One operand alone, at this place.
    #[inline(always)]
    fn begin(alloc: Global, item: Spanned<T>, loc: Option<Loc>) -> Chain<T, I>
        ensures { result ≡ begun_at item loc }
    {
        Chain {
            extent: item.extent,
            initial: Node {
                node: Some(item.tree),
                loc,
            },
            extended: Items::new(alloc),
        }
    }
}

impl<T: Drop, O: Drop + Copy> PendingChain<T, O> {
    /// One more operand.
    #[inline(always)]
    pub fn link(&mut self, builder: NodeBuilder<'_>, item: Spanned<T>) -> Result<(), AllocError>
        ensures chain { OnOk result (self.new.chain ≡ marked_chain builder.entry.source.now
            (Some self.old) item) }
    {
        let loc = builder.loc_at(item.extent)?;
        self.chain.extent = join_extents(self.chain.extent, item.extent);
        let node = Node {
            node: Some(item.tree),
            loc,
        };
        self.chain.extended.push((self.op, node))
    }

    /// One more operand, and the operator behind it.
    #[inline(always)]
    pub fn push(
        &mut self,
        builder: NodeBuilder<'_>,
        item: Spanned<T>,
        mark: OperatorAt<O>,
    ) -> Result<(), AllocError>
        ensures { OnOk result
            (self.new ≡ pending (marked_chain builder.entry.source.now
            (Some self.old) item) mark.op mark.extent) }
    {
        self.link(builder, item)?;
        self.chain.extent = join_extents(self.chain.extent, Some(mark.extent));
        self.op = mark.op;
        Ok(())
    }
}

/// One operand alone, and the operator behind it.
#[inline(always)]
pub fn begin_pending<T: Drop, O: Drop + Copy>(
    alloc: Global,
    item: Spanned<T>,
    loc: Option<Loc>,
    mark: OperatorAt<O>,
) -> PendingChain<T, O>
    ensures { result ≡ pending (begun_at item loc) mark.op mark.extent }
{
    PendingChain {
        op: mark.op,
        chain: Chain {
            extent: join_extents(item.extent, Some(mark.extent)),
            initial: Node {
                node: Some(item.tree),
                loc,
            },
            extended: Items::new(alloc),
        },
    }
}

/// One more operand and the operator behind it, at a level that may not be begun.
#[inline(always)]
pub fn push_pending<T: Drop, O: Drop + Copy>(
    builder: NodeBuilder<'_>,
    slot: &mut Option<Boxed<PendingChain<T, O>>>,
    item: Spanned<T>,
    mark: OperatorAt<O>,
) -> Result<(), AllocError>
    ensures { OnOk result
        (slot.new ≡ Some (pending
        (marked_chain builder.entry.source.now slot.old item) mark.op mark.extent)) }
{
    match slot {
        Some(level) => level.as_mut().push(builder, item, mark),
        None => {
            let loc = builder.loc_at(item.extent)?;
            let begun = begin_pending(builder.alloc, item, loc, mark);
            *slot = Some(Boxed::new(builder.alloc, begun)?);
            Ok(())
        }
    }
}

/// The level's chain with its last operand.
#[inline(always)]
pub fn close_pending<T: Drop, O: Drop + Copy>(
    builder: NodeBuilder<'_>,
    begun: &mut Option<Boxed<PendingChain<T, O>>>,
    item: Spanned<T>,
) -> Result<Chain<T, (O, Node<Option<T>>)>, AllocError>
    ensures chain { IfOk result (λ chain. chain ≡ marked_chain builder.entry.source.now begun.old
        item) }
    ensures after { OnOk result (begun.new ≡ None) }
{
    match begun.take() {
        Some(mut level) => {
            level.as_mut().link(builder, item)?;
            Ok(level.into_inner().chain)
        }
        None => {
            let loc = builder.loc_at(item.extent)?;
            Ok(Chain::begin(builder.alloc, item, loc))
        }
    }
}

/// One more operand, a node already, and the operator behind it, at a level that may not be begun.
#[inline(always)]
pub fn push_plain_node<T: Drop>(
    alloc: Global,
    slot: &mut Option<Boxed<Chain<T, Node<Option<T>>>>>,
    node: Node<Option<T>>,
    extent: Option<Extent>,
) -> Result<(), AllocError>
    ensures { OnOk result (slot.new ≡ Some (plain_with slot.old node extent)) }
{
    match slot {
        Some(level) => {
            let chain = level.as_mut();
            chain.extent = join_extents(chain.extent, extent);
            chain.extended.push(node)
        }
        None => {
            let chain = Chain {
                initial: node,
                extended: Items::new(alloc),
                extent,
            };
            *slot = Some(Boxed::new(alloc, chain)?);
            Ok(())
        }
    }
}
