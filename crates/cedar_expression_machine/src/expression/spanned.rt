//! Trees that aren't nodes yet.
ghost use Rattle.std.specs.Prelude.{◌≡◌, IfOk};
ghost use Rattle.cedar_expression_machine.specs.machines.Closing.{node_of};

use crate::expression::state::Spanned;
use cedar_grammar::reading::node_builder::NodeBuilder;
use cedar_syntax::node::Node;
use std::alloc::AllocError;

impl<T: Drop> Spanned<T> {
    /// The tree as a node, at its bytes.
    #[inline(always)]
    pub fn into_node(self, builder: NodeBuilder<'_>) -> Result<Node<Option<T>>, AllocError>
        ensures { IfOk result (λ node. node ≡ node_of builder.entry.source.now self) }
    {
        let Spanned { tree, extent } = self;
        builder.node_at(extent, tree)
    }
}
