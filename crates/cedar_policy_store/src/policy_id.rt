//! The names of policies within a set.
ghost use Rattle.std.specs.Prelude.{◌≡◌, string_bytes};

use cedar_expressions::{OwnedText, TryClone};
use std::alloc::{AllocError, Global};
use std::fmt;
use std::marker::Model;

/// The name of a policy or a template within a set: any text.
#[derive(Debug, Drop, PartialEq, Eq, PartialOrd, Ord, Hash)]
pub struct PolicyID {
    text: OwnedText,
}

impl Model for PolicyID {
    ghost use Rattle.std.specs.Prelude.{List, ℕ};
    ghost use Rattle.std.specs.Coded.{coded_list, coded_ℕ};

    ghost Value = { List ℕ };

    ghost coded = { coded_list coded_ℕ };

    ghost view = { λ fields. fields.text };

    ghost inverse = { λ text. record { text = text } };
}

impl PolicyID {
    /// The name with a text; it takes no memory.
    pub fn new(text: String) -> PolicyID
        ensures { result ≡ string_bytes text }
    {
        PolicyID {
            text: OwnedText::from(text),
        }
    }

    /// The text of the name.
    pub fn as_str(&self) -> &str
        ensures { result.now ≡ self.now }
    {
        self.text.as_str()
    }

    /// Where the text's memory comes from.
    pub fn alloc(&self) -> Global {
        self.text.alloc()
    }

    /// The text, moved out; it takes no memory.
    pub fn into_string(self) -> String
        ensures { string_bytes result ≡ self }
    {
        let PolicyID { text } = self;
        text.into_string()
    }
}

impl TryClone for PolicyID {
    fn try_clone(&self) -> Result<PolicyID, AllocError> {
        Ok(PolicyID {
            text: self.text.try_clone()?,
        })
    }
}

impl Clone for PolicyID {
    ghost is_clone = { λ x y. y ≡ x };

    fn clone(&self) -> Result<PolicyID, AllocError> {
        self.try_clone()
    }
}

/// The text as it is.
impl fmt::Display for PolicyID {
    ghost use Rattle.std.proofs.Common.{Some};

    ghost output = { λ id. Some id };

    fn fmt<W: fmt::Write>(&self, f: &mut fmt::Formatter<W>) -> fmt::Result {
        f.write_str(self.as_str())
    }
}
