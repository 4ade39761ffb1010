//! How the cases of a file went.

use std::alloc::{AllocError, Global};
use std::fmt;

/// How the cases of a file went.
#[derive(Drop)]
pub(crate) struct Verdict {
    agreeing: u64,
    differing: u64,
    /// What is said of the cases that don't agree.
    told: String,
}

impl Verdict {
    pub(crate) fn new(alloc: Global) -> Verdict {
        Verdict {
            agreeing: 0,
            differing: 0,
            told: String::new(alloc),
        }
    }

    /// Compares what a case gives with what it wants.
    pub(crate) fn compare(
        &mut self,
        case: &str,
        wanted: &str,
        given: &str,
    ) -> Result<(), AllocError> {
        if given == wanted {
            self.agreeing = self.agreeing.saturating_add(1);
            return Ok(());
        }
        self.differing = self.differing.saturating_add(1);
        self.told.push_str("\n\n>> ")?;
        self.told.push_str(case)?;
        self.told.push_str("\nwanted:\n")?;
        self.told.push_str(wanted)?;
        self.told.push_str("\ngiven:\n")?;
        self.told.push_str(given)
    }
}

impl fmt::Display for Verdict {
    fn fmt<W: fmt::Write>(&self, f: &mut fmt::Formatter<W>) -> fmt::Result {
        write!(f, "{} agree", self.agreeing)?;
        if self.told.is_empty() {
            return Ok(());
        }
        write!(f, "; {} differ{}", self.differing, self.told)
    }
}
