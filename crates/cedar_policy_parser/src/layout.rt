//! The text of policies laid out over lines, with each of its comments.
ghost use Rattle.std.specs.Prelude.{List, IfOk, IfErr, string_bytes};
ghost use Rattle.cedar_lexer.specs.Cut.{Cuts};
ghost use Rattle.cedar_lexer.specs.Token.{Lexeme};
ghost use Rattle.cedar_layout.specs.Pieces.{SpacedItem, IsReadAs};
ghost use Rattle.cedar_layout.specs.Widths.{KeepsWidth};
ghost use Rattle.cedar_grammar.specs.faults.Leftmost.{HasLeftmost, NumbersFit};
ghost use Rattle.cedar_grammar.specs.faults.MendedFaults.{IsMendedRefusal, PoliciesBefore};
ghost use Rattle.cedar_grammar.specs.grammar.LoosePolicies.{ReadsPolicies};
ghost use Rattle.cedar_policy_parser.specs.meaning.LaidOut.{EndsItsLines, IsLeftAlone, Keeps, LaysOut};

use crate::policy_laws::same_words_are_the_same_policies;
use cedar_layout::{LayoutError, LayoutOptions, lay_out};
use cedar_syntax::err::Failure;
use cedar_text::text_to_cst::parse_policies;
use std::alloc::Global;

/// The text laid out over lines, as wide and as far indented as the options say: the same words,
/// and between the same words the same comments. So it has the same tree, places aside, and under
/// every table it means what `text` means, or nothing where `text` means nothing. A call on the
/// answer under the same options gives the same bytes.
///
///     let lines = layout_policies(alloc, text, &LayoutOptions { width: 80, indent: 2 })?;
///
/// No word of the answer passes the width where its line could have ended before it; comments
/// aren't counted, so a comment beside a word may pass it. No line ends with a space, a tab, a
/// vertical tab or a form feed, but within a string; other white space of Unicode may stay at a
/// comment's end. The answer is empty or ends with a line feed.
///
/// It answers a text exactly where `parse_policies` answers a tree, whether that means something
/// or not. Any other text is refused with the faults of `parse_policies`, each at its bytes of the
/// text. Or it is `Failure::Memory`.
///
/// The style is this library's own, near that of Cedar's command line.
pub fn layout_policies(
    alloc: Global,
    text: &str,
    options: &LayoutOptions,
) -> Result<String, Failure>
    ensures lays_out { LaysOut options.now text.now result }
    ensures keeps { IfOk result (λ out. Keeps text.now (string_bytes out)) }
    ensures again { IfOk result (λ out. IsLeftAlone options.now out) }
    ensures lines { IfOk result (λ out. EndsItsLines (string_bytes out)) }
    ensures width { IfOk result (λ out. (ps : List SpacedItem) → IsReadAs text.now ps
        → KeepsWidth options.now.width ps (string_bytes out)) }
    ensures refused { IfErr result
        (λ f. IsMendedRefusal ReadsPolicies PoliciesBefore text.now f) }
    ensures leftmost { (ts : List Lexeme) → Cuts text.now ts → NumbersFit ts
        → IfErr result (λ f. HasLeftmost ReadsPolicies text.now ts f) }
{
    same_words_are_the_same_policies();
    let tree = parse_policies(alloc, text)?;
    drop(tree);
    match lay_out(alloc, text, options) {
        Ok(lines) => Ok(lines),
        Err(LayoutError::Memory(error)) => Err(Failure::Memory(error)),
        Err(LayoutError::InvalidToken(_)) => unreachable!(),
    }
}
