//! Lays a text out.
ghost use Rattle.std.specs.Prelude.{◌≡◌, ◌⊎◌, ◌++◌, [], ℕ, List, IfOk, IfErr, codes, string_bytes};
ghost use Rattle.cedar_lexer.specs.Cut.{Cuts};
ghost use Rattle.cedar_lexer.specs.Token.{Lexeme};
ghost use Rattle.cedar_lexer.specs.Words.{words_of};
ghost use Rattle.cedar_layout.specs.Ends.{EndCleanly};
ghost use Rattle.cedar_layout.specs.Entries.{entries_of};
ghost use Rattle.cedar_layout.specs.Layouts.{laid_out};
ghost use Rattle.cedar_layout.specs.Pieces.{SpacedItem, IsReadAs, items_of};
ghost use Rattle.cedar_layout.specs.Read.{IsNotRead};
ghost use Rattle.cedar_layout.specs.Style.{style as style_of};
ghost use Rattle.cedar_layout.specs.Widths.{KeepsWidth};

use crate::options::LayoutOptions;
use crate::reading::{LayoutError, read};
use crate::writing::write;
use std::alloc::Global;

/// A text's words and comments over lines, as the style of these options has them.
///
/// The answer has the same words and, between the same words, the same comments, and a call on it
/// gives the same bytes. No word passes the width where its line could have ended before it;
/// comments aren't counted, so a comment beside a word may pass it. No line ends with a space, a
/// tab, a vertical tab or a form feed, but within a word; other white space of Unicode may stay at
/// a comment's end. A line feed ends the last line.
///
/// It needs no grammar: each text that cuts into tokens is laid out. Any other is refused with its
/// bad place, or it is `LayoutError::Memory`.
///
/// The style is this library's own: the crate that it ports has no formatter.
pub fn lay_out(alloc: Global, text: &str, options: &LayoutOptions) -> Result<String, LayoutError>
    ensures laid { IfOk result (λ out. (ps : List SpacedItem) × IsReadAs text.now ps
        × (string_bytes out ≡ laid_out (style_of options.now) ps)) }
    ensures cuts { IfOk result (λ out. (us : List Lexeme) × Cuts (string_bytes out) us) }
    ensures words { IfOk result (λ out. (ts us : List Lexeme) → Cuts text.now ts
        → Cuts (string_bytes out) us → words_of us ≡ words_of ts) }
    ensures entries { IfOk result (λ out. (ts us : List Lexeme) (cut : Cuts text.now ts)
        (again : Cuts (string_bytes out) us) → entries_of again ≡ entries_of cut) }
    ensures items { IfOk result (λ out. (ps qs : List SpacedItem) → IsReadAs text.now ps
        → IsReadAs (string_bytes out) qs → items_of qs ≡ items_of ps) }
    ensures stays { IfOk result (λ out. (qs : List SpacedItem) → IsReadAs (string_bytes out) qs
        → laid_out (style_of options.now) qs ≡ string_bytes out) }
    ensures clean { IfOk result (λ out. (us : List Lexeme) → Cuts (string_bytes out) us
        → EndCleanly (string_bytes out) 0 us) }
    ensures ended { IfOk result (λ out. (string_bytes out ≡ [])
        ⊎ ((front : List ℕ) × (string_bytes out ≡ front ++ codes "\n"))) }
    ensures width { IfOk result (λ out. (ps : List SpacedItem) → IsReadAs text.now ps
        → KeepsWidth options.now.width ps (string_bytes out)) }
    ensures refuses { IfErr result (IsNotRead text.now) }
{
    let pieces = read(alloc, text)?;
    let out = write(alloc, *options, &pieces)?;
    Ok(out)
}
