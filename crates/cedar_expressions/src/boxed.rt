//! A value in memory of its own, which contracts see as the value.
ghost use Rattle.std.specs.Prelude.{◌≡◌, IfOk};

use std::alloc::{AllocError, Global};
use std::hash::{Hash, Hasher};
use std::marker::Model;

/// A `Box` that contracts see as its value.
#[derive(Debug)]
pub struct Boxed<T> {
    inner: Box<T>,
}

impl<T> Model for Boxed<T> {
    ghost Value = { T };

    ghost coded = { T.code };

    ghost view = { λ boxed. boxed.inner.value };
}

impl<T> Boxed<T> {
    ghost use Rattle.std.specs.Borrow.{sem};
    ghost use Rattle.cedar_expressions.specs.Lending.{lends_boxed};

    /// The value, lent.
    pub fn as_ref(&self) -> &T
        ensures { result.now ≡ self.now }
    {
        &self.inner
    }

    /// The value, lent to be changed where it is.
    pub fn as_mut(&mut self) -> &mut T
        ensures* writes_back { sem 𝓛 (lends_boxed T.row self.entry result) }
        ensures value { result.now ≡ self.old }
    {
        self.inner.as_mut()
    }

    /// The value, moved out.
    pub fn into_inner(self) -> T
        ensures { result ≡ self }
    {
        let Boxed { inner } = self;
        Box::into_inner(inner)
    }

    /// The `Box` inside; it takes no memory.
    pub fn into_box(self) -> Box<T>
        ensures { result.value ≡ self }
    {
        let Boxed { inner } = self;
        inner
    }

    /// Where the value's memory comes from.
    pub fn alloc(&self) -> Global {
        *Box::allocator(&self.inner)
    }
}

impl<T: Drop> Boxed<T> {
    /// Puts a value into memory of its own.
    #[inline(always)]
    pub fn new(alloc: Global, value: T) -> Result<Boxed<T>, AllocError>
        ensures { IfOk result (λ boxed. boxed ≡ value) }
    {
        match Box::new(alloc, value) {
            Ok(inner) => Ok(Boxed { inner }),
            Err(refused) => {
                drop(refused);
                Err(AllocError)
            }
        }
    }
}

/// The value is dropped in a frame of its own, so that what holds a box takes no room for what is
/// in it.
impl<T: Drop> Drop for Boxed<T> {
    #[inline(never)]
    fn drop(self) {
        let Boxed { inner } = self;
        let _ = Box::into_inner(inner);
    }
}

impl<T> From<Box<T>> for Boxed<T> {
    ghost from_gives = { λ inner boxed. boxed ≡ inner.value };

    fn from(inner: Box<T>) -> Boxed<T> {
        Boxed { inner }
    }
}

impl<T: PartialEq> PartialEq for Boxed<T> {
    ghost eq = { T.eq };

    ghost laws = { T.laws };

    fn eq(&self, other: &Self) -> bool {
        self.as_ref() == other.as_ref()
    }
}

impl<T: Eq> Eq for Boxed<T> {
    ghost laws = { T.Eq.laws };
}

impl<T: Hash> Hash for Boxed<T> {
    ghost hash_input = { T.hash_input };

    ghost respects_eq = { T.respects_eq };

    fn hash<H: Hasher>(&self, state: &mut H) {
        self.as_ref().hash(state);
    }
}

impl<T: Clone> Clone for Boxed<T> {
    ghost is_clone = { T.is_clone };

    fn clone(&self) -> Result<Boxed<T>, AllocError> {
        Ok(Boxed {
            inner: self.inner.clone()?,
        })
    }
}
