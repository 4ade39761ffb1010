//! Laws of the pieces of a raw text. Each is a function that does nothing: its contract is the
//! law.
ghost use Rattle.std.specs.Prelude.{◌≡◌, ℕ, List};
ghost use Rattle.cedar_syntax.specs.strings.Piece.{Placed, IsLaidOut};

/// A raw text is laid out of pieces in exactly one way.
pub fn one_layout()
    ensures some { (raw : List ℕ) → (ps : List Placed) × IsLaidOut raw ps }
    ensures one { (raw : List ℕ) (ps qs : List Placed) → IsLaidOut raw ps → IsLaidOut raw qs → ps
        ≡ qs }
{}
