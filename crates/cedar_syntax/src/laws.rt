//! Laws of the definitions: the limit of signs, the order of places. Each is a function that does
//! nothing: its contract is the law.
ghost use Rattle.std.specs.Prelude.{◌≡◌};
ghost use Rattle.std.specs.Cmp.Lexicographic.{slice_cmp};
ghost use Rattle.std.specs.Ordering.{nat_cmp, ordering_then};
ghost use Rattle.cedar_syntax.specs.declared.cst.TheConstants.{SIGN_LIMIT};
ghost use Rattle.cedar_syntax.specs.tokens.Signs.{sign_limit};
ghost use Rattle.cedar_syntax.specs.places.Span.{Span};

use crate::loc::{Loc, SourceSpan};
use crate::position::Position;

/// So many signs before an operand are counted by the code as by the definitions.
pub fn one_sign_limit()
    ensures { SIGN_LIMIT ≡ sign_limit }
{}

/// Ranges are ordered by where they begin, then by their length; places by their range, then by
/// the bytes of their text; lines and columns by the line first.
pub fn places_in_order()
    ensures ranges { (a b : Span) → ⟦<SourceSpan as Ord>⟧.cmp a b
        ≡ ordering_then (nat_cmp a.offset b.offset) (nat_cmp a.len b.len) }
    ensures places { (a b : Loc) → ⟦<Loc as Ord>⟧.cmp a b
        ≡ ordering_then (⟦<SourceSpan as Ord>⟧.cmp a.span b.span) (slice_cmp nat_cmp a.src b.src) }
    ensures positions { (a b : Position) → ⟦<Position as Ord>⟧.cmp a b
        ≡ ordering_then (nat_cmp a.line b.line) (nat_cmp a.column b.column) }
{}
