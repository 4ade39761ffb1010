//! Copies that can be refused memory.
ghost use Rattle.std.specs.Prelude.{◌≡◌, IfOk};

use crate::{Boxed, Items, OwnedText, Source, Text};
use std::alloc::AllocError;

/// A copy that equals its source, places included.
pub trait TryClone {
    /// The copy, or want of memory.
    fn try_clone(&self) -> Result<Self, AllocError>
    where
        Self: Sized,
        ensures { IfOk result (λ copy. copy ≡ self.now) };
}

impl TryClone for Text {
    fn try_clone(&self) -> Result<Text, AllocError> {
        self.share()
    }
}

impl TryClone for OwnedText {
    fn try_clone(&self) -> Result<OwnedText, AllocError> {
        OwnedText::from_str(self.alloc(), self.as_str())
    }
}

impl TryClone for Source {
    fn try_clone(&self) -> Result<Source, AllocError> {
        self.share()
    }
}

impl<T: TryClone> TryClone for Option<T> {
    fn try_clone(&self) -> Result<Option<T>, AllocError> {
        match self {
            None => Ok(None),
            Some(value) => Ok(Some(value.try_clone()?)),
        }
    }
}

impl<T: TryClone + Drop> TryClone for Boxed<T> {
    fn try_clone(&self) -> Result<Boxed<T>, AllocError> {
        Boxed::new(self.alloc(), self.as_ref().try_clone()?)
    }
}

impl<A: TryClone + Drop, B: TryClone + Drop> TryClone for (A, B) {
    fn try_clone(&self) -> Result<(A, B), AllocError> {
        let first = self.0.try_clone()?;
        Ok((first, self.1.try_clone()?))
    }
}

impl<T: TryClone + Drop> TryClone for Items<T> {
    fn try_clone(&self) -> Result<Items<T>, AllocError> {
        let mut copies = Items::new(self.alloc());
        for item in self.as_slice() {
            copies.push(item.try_clone()?)?;
        }
        Ok(copies)
    }
}
