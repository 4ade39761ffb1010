//! Runs of the program: what a run with some words writes, and its status.

use crate::escapes::unescape;
use crate::reports::add;
use cedar_command::run::run;
use cedar_command::streams::{Input, Output};
use std::alloc::{AllocError, Global};

/// What a run with the words behind the call's name writes of a text; then a line with its status,
/// and what it says on the stream of errors. Between two words stands one space; in a word and in
/// the text escapes stand for what they do in a case, and in the text the character U+FFFD for the
/// byte 0xff, which is in no text.
pub(crate) fn answer(alloc: Global, words: &str, text: &str) -> Result<String, AllocError> {
    let words = split(alloc, words)?;
    let bytes = bytes_of(alloc, text)?;
    let mut input = Input::new(bytes.as_slice());
    let mut out = Output::new(Vec::new(alloc));
    let mut err = Output::new(Vec::new(alloc));
    let status = run(alloc, words.as_slice(), &mut input, &mut out, &mut err);
    drop(words);
    let mut lines = text_of(alloc, out.into_writer())?;
    let said = text_of(alloc, err.into_writer())?;
    lines.push_str(format!(in alloc; "status {status}")?.as_str())?;
    if !said.is_empty() {
        add(&mut lines, said.as_str())?;
    }
    Ok(lines)
}

/// The words.
fn split(alloc: Global, words: &str) -> Result<Vec<String>, AllocError> {
    let mut split = Vec::new(alloc);
    if words.is_empty() {
        return Ok(split);
    }
    for word in words.split(' ') {
        match unescape(alloc, word)? {
            Some(word) => split.push(word)?,
            None => split.push(String::from_str(alloc, "no such escape")?)?,
        }
    }
    Ok(split)
}

/// The bytes that a text stands for.
fn bytes_of(alloc: Global, text: &str) -> Result<Vec<u8>, AllocError> {
    let mut bytes = Vec::new(alloc);
    for part in text.split('\u{fffd}') {
        bytes.extend_from_slice(part.as_bytes())?;
        bytes.push(0xff)?;
    }
    bytes.pop();
    Ok(bytes)
}

/// What was written, as a text.
fn text_of(alloc: Global, bytes: Vec<u8>) -> Result<String, AllocError> {
    match String::from_utf8(bytes) {
        Ok(text) => Ok(text),
        Err(_) => String::from_str(alloc, "what was written isn't UTF-8"),
    }
}
