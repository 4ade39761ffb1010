//! Identifiers: any, those that are no reserved word, and those that may stand in a name.
ghost use Rattle.std.specs.Prelude.{◌≡◌, ◌&&◌, MatchOption, MatchResult, false, true};
ghost use Rattle.std.specs.List.{list_all};
ghost use Rattle.cedar_expressions.specs.Path.{begins_identifier, continues_identifier, is_identifier, is_reserved_word, is_valid_identifier, is_reserved_namespace, is_unreserved_identifier};

use crate::{Text, TryClone};
use std::alloc::{AllocError, Global};
use std::fmt;
use std::marker::Model;

/// A text of an identifier's spelling: a letter or `_`, and then letters, digits and `_`. The
/// words of the language are such texts too.
#[derive(Debug, Drop, PartialEq, Eq, PartialOrd, Ord, Hash)]
pub struct AnyId {
    text: Text,
}

impl Model for AnyId {
    ghost use Rattle.std.specs.Prelude.{List, ℕ, ◌≡◌, true};
    ghost use Rattle.std.specs.Coded.{coded_list, coded_ℕ};
    ghost use Rattle.cedar_expressions.specs.Path.{is_identifier};

    ghost Value = { List ℕ };

    ghost coded = { coded_list coded_ℕ };

    ghost view = { λ fields. fields.text };

    ghost invariant = { λ fields. is_identifier fields.text ≡ true };

    ghost inverse = { λ text. record { text = text } };
}

impl AnyId {
    /// The text as an identifier, or `None` where it isn't spelled as one.
    pub fn new(text: Text) -> Option<AnyId>
        ensures { MatchOption result (is_identifier text ≡ false)
            (λ id. (id ≡ text) × (is_identifier text ≡ true)) }
    {
        if is_spelled_as_identifier(text.as_str()) {
            Some(AnyId { text })
        } else {
            None
        }
    }

    /// The text of the identifier.
    pub fn as_str(&self) -> &str
        ensures same { result.now ≡ self.now }
        ensures spelled { is_identifier self.now ≡ true }
    {
        self.text.as_str()
    }

    /// The text, moved out.
    pub fn into_text(self) -> Text
        ensures { result ≡ self }
    {
        let AnyId { text } = self;
        text
    }
}

/// An identifier that a name may hold: none of `if`, `true`, `false`, `then`, `else`, `in`, `is`,
/// `has`, `like`.
#[derive(Debug, Drop, PartialEq, Eq, PartialOrd, Ord, Hash)]
pub struct Id {
    text: Text,
}

impl Model for Id {
    ghost use Rattle.std.specs.Prelude.{List, ℕ, ◌≡◌, true};
    ghost use Rattle.std.specs.Coded.{coded_list, coded_ℕ};
    ghost use Rattle.cedar_expressions.specs.Path.{is_valid_identifier};

    ghost Value = { List ℕ };

    ghost coded = { coded_list coded_ℕ };

    ghost view = { λ fields. fields.text };

    ghost invariant = { λ fields. is_valid_identifier fields.text ≡ true };

    ghost inverse = { λ text. record { text = text } };
}

impl Id {
    /// The text as an identifier, or `None` where it isn't spelled as one or is a reserved word.
    pub fn new(text: Text) -> Option<Id>
        ensures { MatchOption result (is_valid_identifier text ≡ false)
            (λ id. (id ≡ text) × (is_valid_identifier text ≡ true)) }
    {
        if is_spelled_as_identifier(text.as_str()) && !is_word(text.as_str()) {
            Some(Id { text })
        } else {
            None
        }
    }

    /// The text of the identifier.
    pub fn as_str(&self) -> &str
        ensures same { result.now ≡ self.now }
        ensures valid { is_valid_identifier self.now ≡ true }
    {
        self.text.as_str()
    }

    /// Where the text's memory comes from.
    pub fn alloc(&self) -> Global {
        self.text.alloc()
    }

    /// Whether this is the reserved `__cedar`.
    pub fn is_reserved(&self) -> bool
        ensures { result ≡ is_reserved_namespace self.now }
    {
        is_reserved_namespace(self.text.as_str())
    }

    /// The text, moved out.
    pub fn into_text(self) -> Text
        ensures { result ≡ self }
    {
        let Id { text } = self;
        text
    }
}

/// An identifier that a field, a method or a part of a name may be: an `Id` but `__cedar`.
#[derive(Debug, Drop, PartialEq, Eq, PartialOrd, Ord, Hash)]
pub struct UnreservedId {
    text: Text,
}

impl Model for UnreservedId {
    ghost use Rattle.std.specs.Prelude.{List, ℕ, ◌≡◌, true};
    ghost use Rattle.std.specs.Coded.{coded_list, coded_ℕ};
    ghost use Rattle.cedar_expressions.specs.Path.{is_unreserved_identifier};

    ghost Value = { List ℕ };

    ghost coded = { coded_list coded_ℕ };

    ghost view = { λ fields. fields.text };

    ghost invariant = { λ fields. is_unreserved_identifier fields.text ≡ true };

    ghost inverse = { λ text. record { text = text } };
}

impl From<UnreservedId> for Id {
    ghost from_gives = { λ unreserved id. id ≡ unreserved };

    fn from(unreserved: UnreservedId) -> Id {
        let UnreservedId { text } = unreserved;
        Id { text }
    }
}

impl UnreservedId {
    /// Whether a text is spelled as one; it takes no memory.
    pub fn is_spelled(text: &str) -> bool
        ensures { result ≡ is_unreserved_identifier text.now }
    {
        is_spelled_as_identifier(text) && !is_word(text) && !is_reserved_namespace(text)
    }

    /// The identifier, or the same one back where it is `__cedar`.
    pub fn unless_reserved(id: Id) -> Result<UnreservedId, Id>
        ensures { MatchResult result (λ unreserved. (unreserved ≡ id)
            × (is_reserved_namespace id ≡ false)) (λ back. (back ≡ id)
            × (is_reserved_namespace id ≡ true)) }
    {
        if id.is_reserved() {
            Err(id)
        } else {
            let Id { text } = id;
            Ok(UnreservedId { text })
        }
    }

    /// The text of the identifier.
    pub fn as_str(&self) -> &str
        ensures same { result.now ≡ self.now }
        ensures unreserved { is_unreserved_identifier self.now ≡ true }
    {
        self.text.as_str()
    }

    /// Where the text's memory comes from.
    pub fn alloc(&self) -> Global {
        self.text.alloc()
    }

    /// The text, moved out.
    pub fn into_text(self) -> Text
        ensures { result ≡ self }
    {
        let UnreservedId { text } = self;
        text
    }
}

/// Whether a text is spelled as an identifier.
fn is_spelled_as_identifier(text: &str) -> bool
    ensures { result ≡ is_identifier text.now }
{
    match text.as_bytes().split_first() {
        None => false,
        Some((first, rest)) => begins(*first) && all_continue(rest),
    }
}

/// Whether an identifier may go on with each of the bytes.
fn all_continue(bytes: &[u8]) -> bool
    ensures { result ≡ list_all continues_identifier bytes.now }
{
    bytes.iter().all(|byte| continues(*byte))
}

/// Whether an identifier may begin with a byte.
fn begins(byte: u8) -> bool
    ensures { result ≡ begins_identifier byte }
{
    byte.is_ascii_alphabetic() || byte == b'_'
}

/// Whether an identifier may go on with a byte.
fn continues(byte: u8) -> bool
    ensures { result ≡ continues_identifier byte }
{
    byte.is_ascii_alphanumeric() || byte == b'_'
}

/// Whether a text is one of the nine reserved words.
fn is_word(text: &str) -> bool
    ensures { result ≡ is_reserved_word text.now }
{
    match text.len() {
        2 => matches!(text, "if" | "in" | "is"),
        3 => text == "has",
        4 => matches!(text, "true" | "then" | "else" | "like"),
        5 => text == "false",
        _ => false,
    }
}

/// Whether a text is the identifier that is kept for the language's own names.
fn is_reserved_namespace(text: &str) -> bool
    ensures { result ≡ is_reserved_namespace text.now }
{
    text == "__cedar"
}

impl fmt::Display for AnyId {
    ghost use Rattle.std.proofs.Common.{Some};

    ghost output = { λ id. Some id };

    fn fmt<W: fmt::Write>(&self, f: &mut fmt::Formatter<W>) -> fmt::Result {
        f.write_str(self.as_str())
    }
}

impl fmt::Display for Id {
    ghost use Rattle.std.proofs.Common.{Some};

    ghost output = { λ id. Some id };

    fn fmt<W: fmt::Write>(&self, f: &mut fmt::Formatter<W>) -> fmt::Result {
        f.write_str(self.as_str())
    }
}

impl fmt::Display for UnreservedId {
    ghost use Rattle.std.proofs.Common.{Some};

    ghost output = { λ id. Some id };

    fn fmt<W: fmt::Write>(&self, f: &mut fmt::Formatter<W>) -> fmt::Result {
        f.write_str(self.as_str())
    }
}

impl TryClone for AnyId {
    fn try_clone(&self) -> Result<AnyId, AllocError> {
        Ok(AnyId {
            text: self.text.try_clone()?,
        })
    }
}

impl Clone for AnyId {
    ghost is_clone = { λ x y. y ≡ x };

    fn clone(&self) -> Result<AnyId, AllocError> {
        self.try_clone()
    }
}

impl TryClone for Id {
    fn try_clone(&self) -> Result<Id, AllocError> {
        Ok(Id {
            text: self.text.try_clone()?,
        })
    }
}

impl Clone for Id {
    ghost is_clone = { λ x y. y ≡ x };

    fn clone(&self) -> Result<Id, AllocError> {
        self.try_clone()
    }
}

impl TryClone for UnreservedId {
    fn try_clone(&self) -> Result<UnreservedId, AllocError> {
        Ok(UnreservedId {
            text: self.text.try_clone()?,
        })
    }
}

impl Clone for UnreservedId {
    ghost is_clone = { λ x y. y ≡ x };

    fn clone(&self) -> Result<UnreservedId, AllocError> {
        self.try_clone()
    }
}
