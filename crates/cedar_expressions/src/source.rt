//! A text that is shared by a count, which contracts see as its bytes.
ghost use Rattle.std.specs.Prelude.{◌≡◌, IfOk, nat_eq, length, ◌↔◌, IsTrue, []};
ghost use Rattle.std.specs.Cmp.Lexicographic.{pointwise, slice_cmp, nat_list_eq_equiv, nat_list_cmp_total, texts_ties, texts_po};
ghost use Rattle.std.specs.Cmp;
ghost use Rattle.std.specs.Rc.{rc_str_bytes};
ghost use Rattle.std.specs.Ordering.{nat_cmp};
ghost use Rattle.std.specs.Hash as fed;
ghost use Rattle.std.specs.Cmp.Rules.{hashing};
ghost use Rattle.std.proofs.Common.{rules, Some, refl};

use std::alloc::{AllocError, Global};
use std::cmp::Ordering;
use std::fmt;
use std::hash::{Hash, Hasher};
use std::marker::Model;
use std::rc::RcStr;

/// A shared text that contracts see as its bytes.
#[derive(Debug, Drop)]
pub struct Source {
    text: RcStr,
}

impl Model for Source {
    ghost use Rattle.std.specs.Prelude.{List, ℕ};
    ghost use Rattle.std.specs.Rc.{rc_str_bytes};
    ghost use Rattle.std.specs.Coded.{coded_list, coded_ℕ};

    ghost Value = { List ℕ };

    ghost coded = { coded_list coded_ℕ };

    ghost view = { λ owner. rc_str_bytes owner.text };
}

impl Source {
    /// A copy of a text.
    pub fn from_str(alloc: Global, text: &str) -> Result<Source, AllocError>
        ensures { IfOk result (λ copy. copy ≡ text.now) }
    {
        Ok(Source {
            text: RcStr::from_str(alloc, text)?,
        })
    }

    /// The text, lent.
    pub fn as_str(&self) -> &str
        ensures { result.now ≡ self.now }
    {
        self.text.as_str()
    }

    /// How many bytes the text has.
    pub fn len(&self) -> usize
        ensures { result ≡ length self.now }
    {
        self.as_str().len()
    }

    /// Whether the text has no byte.
    pub fn is_empty(&self) -> bool
        ensures { IsTrue result ↔ (self.now ≡ []) }
    {
        self.as_str().is_empty()
    }

    /// The same text once more, by a shared count.
    pub fn share(&self) -> Result<Source, AllocError>
        ensures { IfOk result (λ other. other ≡ self.now) }
    {
        Ok(Source {
            text: self.text.clone()?,
        })
    }

    /// The `RcStr` inside; it takes no memory.
    pub fn into_rc_str(self) -> RcStr
        ensures { rc_str_bytes result ≡ self }
    {
        let Source { text } = self;
        text
    }
}

impl From<RcStr> for Source {
    ghost from_gives = { λ shared text. text ≡ rc_str_bytes shared };

    fn from(text: RcStr) -> Source {
        Source { text }
    }
}

impl PartialEq for Source {
    ghost eq = { pointwise nat_eq };

    ghost laws = { Cmp.partial_equiv_from_equiv nat_list_eq_equiv };

    fn eq(&self, other: &Self) -> bool {
        self.as_str() == other.as_str()
    }
}

impl Eq for Source {
    ghost laws = { nat_list_eq_equiv };
}

impl PartialOrd for Source {
    ghost partial_cmp = { λ x y. Some (slice_cmp nat_cmp x y) };

    ghost laws = { texts_po };

    fn partial_cmp(&self, other: &Self) -> Option<Ordering> {
        Some(self.cmp(other))
    }
}

impl Ord for Source {
    ghost cmp = { slice_cmp nat_cmp };

    ghost total = { nat_list_cmp_total };

    ghost matches_partial_cmp = { λ x y. refl };

    ghost matches_eq = { texts_ties };

    fn cmp(&self, other: &Self) -> Ordering {
        self.as_str().cmp(other.as_str())
    }
}

impl Hash for Source {
    ghost hash_input = { fed.str };

    ghost respects_eq = { Prim.search (hashing, rules) };

    fn hash<H: Hasher>(&self, state: &mut H) {
        self.as_str().hash(state);
    }
}

impl fmt::Display for Source {
    ghost output = { λ text. Some text };

    fn fmt<W: fmt::Write>(&self, f: &mut fmt::Formatter<W>) -> fmt::Result {
        f.write_str(self.as_str())
    }
}

impl Clone for Source {
    ghost is_clone = { λ x y. y ≡ x };

    fn clone(&self) -> Result<Source, AllocError> {
        self.share()
    }
}
