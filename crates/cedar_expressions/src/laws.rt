//! Laws of values: what equality of expressions looks at.
ghost use Rattle.std.specs.Prelude.{◌≡◌, ◌↔◌, IsTrue};
ghost use Rattle.cedar_expressions.specs.Meaning.{unplaced};

use crate::Expr;

/// Two expressions are equal exactly if their values are, places aside.
pub fn equal_expressions()
    ensures { (x y : Expr) → IsTrue (⟦<Expr as PartialEq>⟧.eq x y) ↔ (unplaced x ≡ unplaced y) }
{}
