//! A text that contracts see as its bytes. Most words and names are short, and a tree holds one
//! for each of them: so a short one stands in the value, as large as a `String` is, and takes no
//! memory.
ghost use Rattle.std.specs.Prelude.{◌≡◌, IfOk, nat_eq, length, ◌↔◌, IsTrue, [], string_bytes};
ghost use Rattle.std.specs.Cmp.Lexicographic.{pointwise, slice_cmp, nat_list_eq_equiv, nat_list_cmp_total, texts_ties, texts_po};
ghost use Rattle.std.specs.Cmp;
ghost use Rattle.std.specs.Ordering.{nat_cmp};
ghost use Rattle.std.specs.Hash as fed;
ghost use Rattle.std.specs.Cmp.Rules.{hashing};
ghost use Rattle.std.proofs.Common.{rules, Some, refl};

use crate::short::ShortText;
use std::alloc::{AllocError, Global};
use std::cmp::Ordering;
use std::fmt;
use std::hash::{Hash, Hasher};
use std::marker::Model;
use std::rc::RcStr;

/// Where the bytes of a text stand.
#[derive(Drop)]
pub(crate) enum Kept {
    /// In the value itself.
    Short(ShortText),
    /// In memory that is shared by a count.
    Shared(RcStr),
}

/// A text that contracts see as its bytes. One of at most 22 bytes takes no memory beside the
/// value, and a copy of a longer one takes none.
#[derive(Drop)]
pub struct Text {
    alloc: Global,
    kept: Kept,
}

impl Model for Text {
    ghost use Rattle.std.specs.Prelude.{List, ℕ};
    ghost use Rattle.std.specs.Coded.{coded_list, coded_ℕ};
    ghost use Rattle.cedar_expressions.specs.Kept.{kept_bytes};

    ghost Value = { List ℕ };

    ghost coded = { coded_list coded_ℕ };

    ghost view = { λ owner. kept_bytes owner.kept };
}

impl Text {
    /// No byte; it takes no memory.
    pub fn new(alloc: Global) -> Text
        ensures { result ≡ [] }
    {
        Text {
            alloc,
            kept: Kept::Short(ShortText::new()),
        }
    }

    /// A copy of a text.
    pub fn from_str(alloc: Global, text: &str) -> Result<Text, AllocError>
        ensures { IfOk result (λ copy. copy ≡ text.now) }
    {
        let kept = match ShortText::from_str(text) {
            Some(short) => Kept::Short(short),
            None => Kept::Shared(RcStr::from_str(alloc, text)?),
        };
        Ok(Text { alloc, kept })
    }

    /// The text of a `String`.
    pub fn from_string(text: String) -> Result<Text, AllocError>
        ensures { IfOk result (λ same. same ≡ string_bytes text) }
    {
        let alloc = *text.allocator();
        let kept = match ShortText::from_str(text.as_str()) {
            Some(short) => Kept::Short(short),
            None => Kept::Shared(RcStr::from_string(text)?),
        };
        Ok(Text { alloc, kept })
    }

    /// The text, lent.
    pub fn as_str(&self) -> &str
        ensures { result.now ≡ self.now }
    {
        match &self.kept {
            Kept::Short(short) => short.as_str(),
            Kept::Shared(shared) => shared.as_str(),
        }
    }

    /// How many bytes the text has.
    pub fn len(&self) -> usize
        ensures { result ≡ length self.now }
    {
        self.as_str().len()
    }

    /// Whether the text has no byte.
    pub fn is_empty(&self) -> bool
        ensures { IsTrue result ↔ (self.now ≡ []) }
    {
        self.as_str().is_empty()
    }

    /// Where the text's memory comes from.
    pub fn alloc(&self) -> Global {
        self.alloc
    }

    /// A `String` of the text.
    pub fn into_string(self) -> Result<String, AllocError>
        ensures { IfOk result (λ string. string_bytes string ≡ self) }
    {
        String::from_str(self.alloc, self.as_str())
    }

    /// The same text once more.
    pub fn share(&self) -> Result<Text, AllocError>
        ensures { IfOk result (λ other. other ≡ self.now) }
    {
        let kept = match &self.kept {
            Kept::Short(short) => Kept::Short(short.copy()),
            Kept::Shared(shared) => Kept::Shared(shared.clone()?),
        };
        Ok(Text {
            alloc: self.alloc,
            kept,
        })
    }
}

impl fmt::Debug for Text {
    fn fmt<W: fmt::Write>(&self, f: &mut fmt::Formatter<W>) -> fmt::Result {
        fmt::Debug::fmt(self.as_str(), f)
    }
}

impl PartialEq for Text {
    ghost eq = { pointwise nat_eq };

    ghost laws = { Cmp.partial_equiv_from_equiv nat_list_eq_equiv };

    fn eq(&self, other: &Self) -> bool {
        self.as_str() == other.as_str()
    }
}

impl Eq for Text {
    ghost laws = { nat_list_eq_equiv };
}

impl PartialOrd for Text {
    ghost partial_cmp = { λ x y. Some (slice_cmp nat_cmp x y) };

    ghost laws = { texts_po };

    fn partial_cmp(&self, other: &Self) -> Option<Ordering> {
        Some(self.cmp(other))
    }
}

impl Ord for Text {
    ghost cmp = { slice_cmp nat_cmp };

    ghost total = { nat_list_cmp_total };

    ghost matches_partial_cmp = { λ x y. refl };

    ghost matches_eq = { texts_ties };

    fn cmp(&self, other: &Self) -> Ordering {
        self.as_str().cmp(other.as_str())
    }
}

impl Hash for Text {
    ghost hash_input = { fed.str };

    ghost respects_eq = { Prim.search (hashing, rules) };

    fn hash<H: Hasher>(&self, state: &mut H) {
        self.as_str().hash(state);
    }
}

impl fmt::Display for Text {
    ghost output = { λ text. Some text };

    fn fmt<W: fmt::Write>(&self, f: &mut fmt::Formatter<W>) -> fmt::Result {
        f.write_str(self.as_str())
    }
}

impl Clone for Text {
    ghost is_clone = { λ x y. y ≡ x };

    fn clone(&self) -> Result<Text, AllocError> {
        self.share()
    }
}
