//! Whole texts, and what each is laid out as.

use crate::kept::{judge_kept, laid};
use crate::verdict::Verdict;
use cedar_layout::LayoutOptions;
use std::alloc::{AllocError, Global};

/// Judges one text: as it has to be laid out, and what is kept of it at other widths.
pub(crate) fn judge_file(alloc: Global, before: &str, after: &str) -> Result<Verdict, AllocError> {
    let mut verdict = Verdict::new(alloc);
    let given = laid(alloc, before, &LayoutOptions::default())?;
    verdict.compare(before, after, given.as_str())?;
    judge_kept(alloc, &mut verdict, before, before)?;
    Ok(verdict)
}
