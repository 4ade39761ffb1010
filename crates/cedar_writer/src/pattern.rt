//! Patterns as they stand between the quotes of a string: as texts, with stars between.
ghost use Rattle.std.specs.Prelude.{◌≡◌, ◌++◌, ◌∷◌, [], IfOk, OnOk};
ghost use Rattle.std.specs.String.{string_bytes};
ghost use Rattle.std.specs.Str.{encode_utf8_all};
ghost use Rattle.cedar_expressions.specs.Escapes.{escaped_text, escaped_elem, escaped_pattern};
ghost use Rattle.cedar_writer.specs.Writable.{IsWritablePattern};

use cedar_expressions::{PatternElem, push_escaped};
use std::alloc::AllocError;

/// Writes a pattern as it stands between the quotes of a string that means it.
pub fn push_pattern(out: &mut String, elems: &[PatternElem]) -> Result<(), AllocError>
    ensures written { IfOk result (λ _. string_bytes out.new
        ≡ string_bytes out.old ++ escaped_pattern elems.now) }
    ensures writable { IfOk result (λ _. IsWritablePattern elems.now) }
{
    // The characters behind the last star, which are escaped as those of a text are.
    let mut plain = String::new(*out.allocator());
    for elem in elems {
        push_elem(out, &mut plain, *elem)?;
    }
    push_escaped(out, plain.as_str())
}

/// One part more: a star that is no wildcard has a backslash.
fn push_elem(out: &mut String, plain: &mut String, elem: PatternElem) -> Result<(), AllocError>
    ensures written { IfOk result (λ _.
        string_bytes out.new ++ escaped_text (string_bytes plain.new)
        ≡ (string_bytes out.old ++ escaped_text (string_bytes plain.old))
        ++ encode_utf8_all (escaped_elem elem)) }
    ensures writable { IsWritablePattern (elem ∷ []) }
{
    match elem {
        PatternElem::Wildcard => push_star(out, plain, "*"),
        PatternElem::Char(c) => if c == '*' {
            push_star(out, plain, "\\*")
        } else {
            plain.push(c)
        },
    }
}

/// Writes the characters before a star, and the star.
fn push_star(out: &mut String, plain: &mut String, star: &str) -> Result<(), AllocError>
    ensures written { OnOk result (string_bytes out.new
        ≡ (string_bytes out.old ++ escaped_text (string_bytes plain.old)) ++ star.now) }
    ensures plain { OnOk result (string_bytes plain.new ≡ []) }
{
    push_escaped(out, plain.as_str())?;
    plain.clear();
    out.push_str(star)
}
