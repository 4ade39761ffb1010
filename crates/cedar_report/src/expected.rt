//! What could have stood where a parse stopped: by name where that is little, else by classes.

use cedar_lexer::token::TokenKind;
use std::alloc::{AllocError, Global};

/// How many kinds are told by name.
const NAMED: usize = 6;

/// What is said of many kinds: their classes, and the others by name. `None` of few, and where no
/// operator and no value could have stood.
pub fn by_class(alloc: Global, kinds: &[TokenKind]) -> Result<Option<String>, AllocError> {
    if kinds.len() <= NAMED {
        return Ok(None);
    }
    let begins = kinds.contains(&TokenKind::StringLit) && kinds.contains(&TokenKind::Bang);
    let goes_on = kinds.contains(&TokenKind::EqEq) || kinds.contains(&TokenKind::AndAnd);
    if !begins && !goes_on {
        return Ok(None);
    }
    let mut parts = Vec::new(alloc);
    if begins {
        parts.push(String::from_str(alloc, "a value")?)?;
    } else {
        parts.push(String::from_str(alloc, "an operator")?)?;
    }
    for kind in kinds {
        if !is_told_by_class(*kind, begins) {
            parts.push(shown(alloc, *kind)?)?;
        }
    }
    Ok(Some(listed(alloc, parts.as_slice())?))
}

// Whether a kind belongs to the class that is told.
fn is_told_by_class(kind: TokenKind, begins: bool) -> bool {
    if begins {
        !matches!(
            kind,
            TokenKind::CloseParen | TokenKind::CloseBrace | TokenKind::CloseBracket
        )
    } else {
        !matches!(
            kind,
            TokenKind::CloseParen
                | TokenKind::CloseBrace
                | TokenKind::CloseBracket
                | TokenKind::Comma
                | TokenKind::Semicolon
                | TokenKind::Colon
                | TokenKind::Then
                | TokenKind::Else
        )
    }
}

// A kind's name in backquotes.
fn shown(alloc: Global, kind: TokenKind) -> Result<String, AllocError> {
    let name = match kind {
        TokenKind::Then => "then",
        TokenKind::Else => "else",
        _ => kind.name(),
    };
    let name = name.strip_prefix("\"").unwrap_or(name);
    let name = name.strip_suffix("\"").unwrap_or(name);
    format!(in alloc; "`{name}`")
}

// `expected a`, `expected a or b`, `expected a, b or c`.
fn listed(alloc: Global, parts: &[String]) -> Result<String, AllocError> {
    let mut out = String::from_str(alloc, "expected ")?;
    let last = parts.len().saturating_sub(1);
    for (index, part) in parts.iter().enumerate() {
        if index > 0 && index == last {
            out.push_str(" or ")?;
        } else if index > 0 {
            out.push_str(", ")?;
        }
        out.push_str(part.as_str())?;
    }
    Ok(out)
}
