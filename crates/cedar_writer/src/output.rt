//! A line of words that is being written.
ghost use Rattle.std.specs.Prelude.{◌≡◌, [], ◌∷◌, ◌++◌, ℕ, OnOk, IfOk, slice_index, cond, string_bytes, decimal};
ghost use Rattle.std.specs.Str.{IsUtf8};
ghost use Rattle.cedar_writer.specs.Spacing.{is_joined, line_start, space_behind, ended};
ghost use Rattle.cedar_writer.specs.Writable.{IsWritableName, IsWritablePattern};
ghost use Rattle.cedar_writer.specs.WrittenWords.{word_kinds, kind_in, alone, dot, identifier_words, marked_words, name_words, text_words, pattern_words, number_words, key_words};
ghost use Rattle.cedar_writer.specs.machines.Lines.{line_edge};
ghost use Rattle.cedar_writer.specs.machines.Outputs.{edge_seen, Adds};

use crate::pattern::push_pattern;
use crate::spacing::is_joined;
use cedar_expressions::{Name, PatternElem, Text, UnreservedId, push_escaped};
use cedar_lexer::token::TokenKind;
use std::alloc::{AllocError, Global};
use std::fmt::Write;

/// A line of words, and the kinds of the two that stand last.
#[derive(Drop)]
pub struct Output {
    text: String,
    before: TokenKind,
    last: TokenKind,
}

impl Output {
    /// No word; it takes no memory.
    pub fn new(alloc: Global) -> Output
        ensures text { string_bytes result.text ≡ [] }
        ensures edge { edge_seen result ≡ line_start }
    {
        Output {
            text: String::new(alloc),
            before: TokenKind::OpenParen,
            last: TokenKind::OpenParen,
        }
    }

    /// The line.
    pub fn into_string(self) -> String
        ensures { string_bytes result ≡ string_bytes self.text }
    {
        let Output {
            text,
            before: _,
            last: _,
        } = self;
        text
    }

    /// The line with a line feed behind it, if there is anything.
    pub fn into_lines(self) -> Result<String, AllocError>
        ensures { IfOk result (λ lines. string_bytes lines ≡ ended (string_bytes self.text)) }
    {
        let mut text = self.into_string();
        if !text.is_empty() {
            text.push('\n')?;
        }
        Ok(text)
    }

    /// Begins a word of a kind and with a first byte: where it stands apart, writes a space, or
    /// ends the line.
    fn begin(&mut self, kind: TokenKind, first: u8) -> Result<(), AllocError>
        ensures text { OnOk result (string_bytes self.new.text ≡ string_bytes self.old.text
            ++ cond (is_joined (edge_seen self.old) kind first) [] (space_behind self.old.last)) }
        ensures edge { OnOk result (edge_seen self.new ≡ line_edge self.old.last kind) }
    {
        if !is_joined(self.before, self.last, kind, first) {
            push_space(&mut self.text, self.last)?;
        }
        self.before = self.last;
        self.last = kind;
        Ok(())
    }

    /// Writes a token of a kind with its text.
    pub fn word(&mut self, kind: TokenKind, text: &str) -> Result<(), AllocError>
        ensures { OnOk result (Adds self.old self.new (alone kind text.now)) }
    {
        self.begin(kind, first_byte(text))?;
        self.text.push_str(text)
    }

    /// Writes an identifier.
    pub fn identifier(&mut self, id: &str) -> Result<(), AllocError>
        ensures { OnOk result (Adds self.old self.new (identifier_words id.now)) }
    {
        self.word(identifier_kind(id), id)
    }

    /// Writes a string that stands for a text.
    pub fn string(&mut self, text: &str) -> Result<(), AllocError>
        ensures words { OnOk result (Adds self.old self.new (text_words text.now)) }
        ensures writable { IsUtf8 text.now }
    {
        self.begin(TokenKind::StringLit, b'"')?;
        self.text.push('"')?;
        push_escaped(&mut self.text, text)?;
        self.text.push('"')
    }

    /// Writes a string that stands for a pattern.
    pub fn pattern(&mut self, elems: &[PatternElem]) -> Result<(), AllocError>
        ensures words { OnOk result (Adds self.old self.new (pattern_words elems.now)) }
        ensures writable { OnOk result (IsWritablePattern elems.now) }
    {
        self.begin(TokenKind::StringLit, b'"')?;
        self.text.push('"')?;
        push_pattern(&mut self.text, elems)?;
        self.text.push('"')
    }

    /// Writes a number.
    pub fn number(&mut self, number: u64) -> Result<(), AllocError>
        ensures { OnOk result (Adds self.old self.new (number_words number)) }
    {
        self.begin(TokenKind::Number, b'0')?;
        push_number(&mut self.text, number)
    }

    /// Writes a key: an identifier, else a string.
    pub fn key(&mut self, text: &str) -> Result<(), AllocError>
        ensures words { OnOk result (Adds self.old self.new (key_words text.now)) }
        ensures writable { IsUtf8 text.now }
    {
        if UnreservedId::is_spelled(text) {
            self.identifier(text)
        } else {
            self.string(text)
        }
    }

    /// Writes a name.
    pub fn name(&mut self, name: &Name) -> Result<(), AllocError>
        ensures words { OnOk result (Adds self.old self.new (name_words name.now)) }
        ensures writable { OnOk result (IsWritableName name.now) }
    {
        let internal = name.as_internal();
        for id in internal.namespace_components() {
            self.identifier(id.as_str())?;
            self.word(TokenKind::ColonColon, "::")?;
        }
        self.identifier(internal.basename().as_str())
    }

    /// Writes identifiers with dots between.
    pub fn attributes(&mut self, first: &str, rest: &[Text]) -> Result<(), AllocError>
        ensures { OnOk result (Adds self.old self.new
            (marked_words (identifier_words first.now) dot rest.now)) }
    {
        self.identifier(first)?;
        for id in rest {
            self.word(TokenKind::Dot, ".")?;
            self.identifier(id.as_str())?;
        }
        Ok(())
    }
}

/// What stands between a word and the next, where they stand apart.
fn push_space(out: &mut String, last: TokenKind) -> Result<(), AllocError>
    ensures { OnOk result (string_bytes out.new ≡ string_bytes out.old ++ space_behind last) }
{
    match last {
        TokenKind::Semicolon => out.push('\n'),
        _ => out.push(' '),
    }
}

/// The first byte of a text, or 0 where it has none.
fn first_byte(text: &str) -> u8
    ensures { result ≡ slice_index text.now 0 }
{
    match text.as_bytes().first() {
        Some(byte) => *byte,
        None => 0,
    }
}

/// The kind of token that an identifier is: a word of the language, or none.
pub fn identifier_kind(id: &str) -> TokenKind
    ensures { result ≡ kind_in word_kinds id.now }
{
    match id {
        "principal" => TokenKind::Principal,
        "action" => TokenKind::Action,
        "resource" => TokenKind::Resource,
        "context" => TokenKind::Context,
        "permit" => TokenKind::Permit,
        "forbid" => TokenKind::Forbid,
        "when" => TokenKind::When,
        "unless" => TokenKind::Unless,
        _ => TokenKind::Identifier,
    }
}

fn push_number(out: &mut String, number: u64) -> Result<(), AllocError>
    ensures { OnOk result (string_bytes out.new ≡ string_bytes out.old ++ decimal number) }
{
    match write!(out, "{number}") {
        Ok(()) => Ok(()),
        Err(_) => Err(AllocError),
    }
}
