//! How deep an expression may nest, which decides how it is dropped.
ghost use Rattle.std.specs.Prelude.{◌≡◌, true};
ghost use Rattle.std.specs.Cmp.Rules.{comparing};
ghost use Rattle.std.proofs.Common.{rules};

use std::marker::Model;

/// Whether an expression may nest deeper than calls may go. Contracts don't see it: it decides how
/// much stack a drop takes, and nothing else. So all are equal.
#[derive(Debug, Drop)]
pub struct Depth {
    may_be_deep: bool,
}

impl Model for Depth {
    ghost use base.Stored.{coded_unit};

    ghost Value = { Unit {0} };

    ghost coded = { coded_unit };

    ghost view = { λ _. tt };
}

impl Depth {
    /// Whether it may be.
    #[inline(always)]
    pub fn new(may_be_deep: bool) -> Depth {
        Depth { may_be_deep }
    }

    /// Whether it may be.
    #[inline(always)]
    pub fn may_be_deep(&self) -> bool {
        self.may_be_deep
    }

    /// The same again.
    #[inline(always)]
    pub fn copy(&self) -> Depth {
        Depth {
            may_be_deep: self.may_be_deep,
        }
    }
}

impl PartialEq for Depth {
    ghost eq = { λ _ _. true };

    ghost laws = { Prim.search (comparing, rules) };

    fn eq(&self, _other: &Self) -> bool {
        true
    }
}

impl Eq for Depth {
    ghost laws = { Prim.search rules };
}
