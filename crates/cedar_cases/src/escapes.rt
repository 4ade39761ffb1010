//! How a case writes what can't be seen, or is long: behind a `$`, which Cedar has no use for.

use std::alloc::{AllocError, Global};

/// What an escape stands for.
#[derive(Clone, Copy)]
enum Piece<'a> {
    Nothing,
    Character(char),
    Repeated(usize, &'a str),
}

/// The text that a line of a case stands for: `$n` a line's end, `$r` a carriage return, `$t` a
/// tab, `$u{e9}` a character, `$$` a dollar, `$500{[ }` five hundred times `[ `; a `$` at the
/// line's end stands for nothing, so that spaces before it, or an empty line, can be seen. `None`
/// where a `$` stands before anything else.
pub(crate) fn unescape(alloc: Global, line: &str) -> Result<Option<String>, AllocError> {
    let mut text = String::new(alloc);
    let mut rest = line;
    // Each turn passes a `$`, so there are not more of them than bytes.
    for _ in 0..line.len() {
        let Some((front, behind)) = rest.split_once('$') else {
            break;
        };
        text.push_str(front)?;
        let Some((piece, others)) = escape(behind) else {
            return Ok(None);
        };
        add(&mut text, piece)?;
        rest = others;
    }
    text.push_str(rest)?;
    Ok(Some(text))
}

/// Puts what an escape stands for behind a text.
fn add(text: &mut String, piece: Piece<'_>) -> Result<(), AllocError> {
    match piece {
        Piece::Nothing => Ok(()),
        Piece::Character(character) => text.push(character),
        Piece::Repeated(times, part) => {
            for _ in 0..times {
                text.push_str(part)?;
            }
            Ok(())
        }
    }
}

/// What is written behind a `$`, if it is an escape, and what stands behind that.
fn escape(behind: &str) -> Option<(Piece<'_>, &str)> {
    if behind.is_empty() {
        return Some((Piece::Nothing, behind));
    }
    for (name, character) in &[("n", '\n'), ("r", '\r'), ("t", '\t'), ("$", '$')] {
        if let Some(others) = behind.strip_prefix(*name) {
            return Some((Piece::Character(*character), others));
        }
    }
    let (front, others) = behind.split_once('}')?;
    let (name, inside) = front.split_once('{')?;
    if name == "u" {
        let character = char::from_u32(u32::from_str_radix(inside, 16).ok()?)?;
        return Some((Piece::Character(character), others));
    }
    Some((Piece::Repeated(name.parse().ok()?, inside), others))
}
