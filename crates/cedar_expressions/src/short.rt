//! A text that is short enough to stand in the value itself.
ghost use Rattle.std.specs.Prelude.{◌≡◌, [], IfSome};

use std::marker::Model;
use std::str;

/// A text of at most 22 bytes: with their number and the tag of an enum they take no more room
/// than a `String`, which takes memory beside.
#[derive(Drop)]
pub(crate) struct ShortText {
    len: u8,
    bytes: [u8; 22],
}

impl Model for ShortText {
    ghost use Rattle.std.specs.Prelude.{◌≤◌, List, ℕ, take, IsUtf8};
    ghost use Rattle.std.specs.Coded.{coded_list, coded_ℕ};

    ghost Value = { List ℕ };

    ghost coded = { coded_list coded_ℕ };

    ghost view = { λ short. take short.len short.bytes };

    ghost invariant = { λ short. (short.len ≤ 22) × ∥ IsUtf8 (take short.len short.bytes) ∥₁ };
}

impl ShortText {
    /// No byte.
    pub(crate) fn new() -> ShortText
        ensures { result ≡ [] }
    {
        ShortText {
            len: 0,
            bytes: [0; 22],
        }
    }

    /// A copy of a text, where it is short enough.
    pub(crate) fn from_str(text: &str) -> Option<ShortText>
        ensures { IfSome result (λ short. short ≡ text.now) }
    {
        let len = text.len();
        if len > 22 {
            return None;
        }
        let mut bytes = [0; 22];
        bytes[..len].copy_from_slice(text.as_bytes());
        Some(ShortText {
            len: len as u8,
            bytes,
        })
    }

    /// The same text once more.
    pub(crate) fn copy(&self) -> ShortText
        ensures { result ≡ self.now }
    {
        ShortText {
            len: self.len,
            bytes: self.bytes,
        }
    }

    /// The text, lent.
    pub(crate) fn as_str(&self) -> &str
        ensures { result.now ≡ self.now }
    {
        unsafe { str::from_utf8_unchecked(&self.bytes[..usize::from(self.len)]) }
    }
}
