//! The escape faults of one raw text.
ghost use Rattle.std.specs.Prelude.{◌≡◌, ◌∷◌, ◌++◌, [], OnOk, MatchOption, Ok, Err};
ghost use Rattle.std.specs.Option.{ForSome};

use crate::err::{EscapeError, NonEmpty, UnescapeError, UnescapeFailure};
use cedar_expressions::Source;
use std::alloc::{AllocError, Global};

/// The faults found so far. They share one copy of the raw text, made at the first.
#[derive(Drop)]
pub struct Faults<'a> {
    alloc: Global,
    raw: &'a str,
    found: Option<NonEmpty<UnescapeError>>,
    ghost shared: { ForSome found (λ faults. faults.head.input ≡ raw.now) },
}

impl<'a> Faults<'a> {
    ghost use Rattle.cedar_syntax.specs.strings.EscapeFaults.{found_faults, fault_between};

    /// No fault yet; it takes no memory.
    pub fn new(alloc: Global, raw: &'a str) -> Faults<'a>
        ensures found { found_faults result ≡ [] }
        ensures raw { result.raw.now ≡ raw.now }
    {
        Faults {
            alloc,
            raw,
            found: None,
        }
    }

    /// Adds a fault at the bytes from `start` to `end`.
    pub fn add(&mut self, kind: EscapeError, start: usize, end: usize) -> Result<(), AllocError>
        ensures raw { self.new.raw.now ≡ self.old.raw.now }
        ensures ok { OnOk result (found_faults self.new
            ≡ found_faults self.old ++ fault_between self.old.raw.now kind start end ∷ []) }
    {
        match &mut self.found {
            None => {
                let input = Source::from_str(self.alloc, self.raw)?;
                let fault = UnescapeError::in_source(kind, input, start..end);
                self.found = Some(NonEmpty::new(self.alloc, fault));
            }
            Some(found) => {
                let input = found.head.input.share()?;
                found.push(UnescapeError::in_source(kind, input, start..end))?;
            }
        }
        Ok(())
    }

    /// What was read, if there is no fault, and else the faults.
    pub fn or<T: Drop>(self, read: T) -> Result<T, UnescapeFailure>
        ensures { MatchOption self.entry.found (result ≡ Ok read)
            (λ found. result ≡ Err (UnescapeFailure.Errors found)) }
    {
        let Faults {
            alloc: _,
            raw: _,
            found,
        } = self;
        match found {
            None => Ok(read),
            Some(found) => Err(UnescapeFailure::Errors(found)),
        }
    }
}
