//! The other places that belong to a fault: an open bracket, the first of two annotations.
ghost use Rattle.std.specs.Prelude.{IfOk};
ghost use Rattle.cedar_report.specs.Findings.{AreRelatedSeen};

use crate::finding::{Extent, Related};
use crate::lines::Lines;
use crate::outline::{Outline, closing};
use crate::shapes::ends_something;
use crate::sight::Sight;
use crate::tokens::Tokens;
use std::alloc::{AllocError, Global};

/// The other places that belong to a fault, each with its lines and columns. Only want of memory
/// refuses it.
pub fn other_places(
    alloc: Global,
    lines: &Lines<'_>,
    tokens: &Tokens<'_>,
    outline: &Outline,
    sight: &Sight<'_>,
) -> Result<Vec<Related>, AllocError>
    ensures { IfOk result (λ found. AreRelatedSeen lines.now.text.now found.items) }
{
    let mut found = Vec::new(alloc);
    if sight.is_of_text() && !sight.is_invalid() {
        if let Some(open) = open_of_end(tokens, outline, sight) {
            let word = tokens.word(open);
            found.push(Related {
                extent: Extent::of(lines, tokens.start(open), tokens.end(open)),
                text: format!(in alloc; "`{word}` opened here")?,
            })?;
        }
    } else if sight.code == "DuplicateAnnotation" {
        if let Some(at) = outline.first_annotation(sight.first) {
            let key = tokens.word(at.saturating_add(1));
            found.push(Related {
                extent: Extent::of(lines, tokens.start(at), tokens.end(at.saturating_add(1))),
                text: format!(in alloc; "the first `@{key}` is here")?,
            })?;
        }
    }
    Ok(found)
}

// The bracket that stands open where a token ends something, or closes another one.
fn open_of_end(tokens: &Tokens<'_>, outline: &Outline, sight: &Sight<'_>) -> Option<usize> {
    let word = tokens.word(sight.first);
    if !ends_something(word) {
        return None;
    }
    let open = outline.open_before(sight.first)?;
    if closing(tokens.word(open)) == word {
        None
    } else {
        Some(open)
    }
}
