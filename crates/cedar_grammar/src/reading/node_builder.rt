//! What nodes are made with.
ghost use Rattle.std.specs.Prelude.{◌≡◌, IfOk};
ghost use Rattle.cedar_grammar.specs.grammar.Place.{loc_at, node_at};

use crate::reading::extent::Extent;
use crate::reading::place;
use cedar_expressions::Source;
use cedar_syntax::loc::Loc;
use cedar_syntax::node::Node;
use std::alloc::{AllocError, Global};

/// What nodes are made with: where memory comes from, and the source that each place carries.
#[derive(Drop, Clone, Copy)]
pub struct NodeBuilder<'a> {
    pub alloc: Global,
    pub source: &'a Source,
}

impl NodeBuilder<'_> {
    /// The place of these bytes of the source.
    #[inline(always)]
    pub fn loc_at(self, extent: Option<Extent>) -> Result<Option<Loc>, AllocError>
        ensures { IfOk result (λ loc. loc ≡ loc_at self.entry.source.now extent) }
    {
        place::loc_at(self.source, extent)
    }

    /// A tree as a node, at the bytes of the source that it takes.
    #[inline(always)]
    pub fn node_at<T: Drop>(
        self,
        extent: Option<Extent>,
        tree: T,
    ) -> Result<Node<Option<T>>, AllocError>
        ensures { IfOk result (λ node. node ≡ node_at self.entry.source.now extent tree) }
    {
        place::node_at(self.source, extent, tree)
    }
}
