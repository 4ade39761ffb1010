//! A list of one element or more.
ghost use Rattle.std.specs.Prelude.{◌≡◌, [], ◌∷◌, ◌++◌, length, min, slice_get, OnOk, OnErr, IfOk};
ghost use Rattle.std.specs.Option.{option_copied};
ghost use Rattle.std.specs.Iterator.{YieldsFirst, YieldsFirstRef, item_count};
ghost use Rattle.cedar_syntax.specs.faults.NonEmpty.{list_of, remaining_items, remaining_elements};

use cedar_expressions::{Items, TryClone};
use std::alloc::{AllocError, Global};
use std::{mem, vec};

/// One element or more, in order: `head`, then those of `tail`.
#[derive(Debug, Drop, PartialEq, Eq)]
pub struct NonEmpty<T> {
    pub head: T,
    pub tail: Items<T>,
}

impl<T> NonEmpty<T> {
    /// One element alone; it takes no memory.
    pub fn new(alloc: Global, head: T) -> NonEmpty<T>
        ensures { list_of result ≡ head ∷ [] }
    {
        NonEmpty {
            head,
            tail: Items::new(alloc),
        }
    }

    /// The first element.
    pub fn first(&self) -> &T
        ensures { result.now ≡ self.now.head }
    {
        &self.head
    }

    /// How many elements there are, or `usize::MAX` where their count doesn't fit.
    pub fn len(&self) -> usize
        ensures { result ≡ min (length (list_of self.now)) usize.MAX }
    {
        self.tail.len().saturating_add(1)
    }

    /// The element at `index`, counted from 0, or `None` past the last.
    pub fn get(&self, index: usize) -> Option<&T>
        ensures { option_copied result ≡ slice_get (list_of self.now) index }
    {
        match index.checked_sub(1) {
            None => Some(self.first()),
            Some(index) => self.tail.as_slice().get(index),
        }
    }

    /// The elements in order, lent.
    pub fn iter(&self) -> Iter<'_, T>
        ensures { remaining_items result ≡ list_of self.now }
    {
        Iter {
            first: Some(self.first()),
            rest: self.tail.as_slice(),
        }
    }
}

impl<T: Drop> NonEmpty<T> {
    /// Adds an element at the end, or leaves the list as it was.
    pub fn push(&mut self, item: T) -> Result<(), AllocError>
        ensures ok { OnOk result (list_of self.new ≡ list_of self.old ++ item ∷ []) }
        ensures err { OnErr result (self.new ≡ self.old) }
    {
        self.tail.push(item)
    }

    /// Adds the elements of another list after those that are there, or leaves this list as it
    /// was.
    pub fn append(&mut self, more: NonEmpty<T>) -> Result<(), AllocError>
        ensures ok { OnOk result (list_of self.new ≡ list_of self.old ++ list_of more) }
        ensures err { OnErr result (self.new ≡ self.old) }
    {
        let NonEmpty { head, tail } = more;
        let empty = Items::new(self.tail.alloc());
        let mut items = mem::replace(&mut self.tail, empty).into_vec();
        let outcome = push_all(&mut items, head, tail.into_vec());
        self.tail = Items::from(items);
        outcome
    }
}

// Adds one element and then others at the end, or leaves the list as it was.
fn push_all<T: Drop>(items: &mut Vec<T>, head: T, mut tail: Vec<T>) -> Result<(), AllocError>
    ensures ok { OnOk result (items.new.items ≡ items.old.items ++ head ∷ tail.items) }
    ensures err { OnErr result (items.new.items ≡ items.old.items) }
{
    items.push(head)?;
    match items.append(&mut tail) {
        Ok(()) => Ok(()),
        Err(error) => {
            items.pop();
            Err(error)
        }
    }
}

impl<T: TryClone + Drop> NonEmpty<T> {
    /// A copy that equals its source.
    pub fn try_clone(&self) -> Result<NonEmpty<T>, AllocError>
        ensures { IfOk result (λ copy. copy ≡ self.now) }
    {
        let head = self.head.try_clone()?;
        Ok(NonEmpty {
            head,
            tail: self.tail.try_clone()?,
        })
    }
}

impl<T: TryClone + Drop> TryClone for NonEmpty<T> {
    fn try_clone(&self) -> Result<NonEmpty<T>, AllocError> {
        NonEmpty::try_clone(self)
    }
}

impl<T: TryClone + Drop> Clone for NonEmpty<T> {
    ghost is_clone = { λ list copy. copy ≡ list };

    fn clone(&self) -> Result<NonEmpty<T>, AllocError> {
        NonEmpty::try_clone(self)
    }
}

/// The elements of a `NonEmpty` in order, lent.
#[derive(Drop)]
pub struct Iter<'a, T> {
    first: Option<&'a T>,
    rest: &'a [T],
}

impl<'a, T> Iterator for Iter<'a, T> {
    type Item = &'a T;

    ghost next_gives = { YieldsFirstRef remaining_items };

    ghost remaining = { item_count remaining_items };

    fn next(&mut self) -> Option<&'a T> {
        if let Some(first) = self.first.take() {
            return Some(first);
        }
        let (first, rest) = self.rest.split_first()?;
        self.rest = rest;
        Some(first)
    }
}

/// The elements of a `NonEmpty` in order, moved out.
#[derive(Drop)]
pub struct IntoIter<T> {
    first: Option<T>,
    rest: vec::IntoIter<T>,
}

impl<T: Drop> Iterator for IntoIter<T> {
    type Item = T;

    ghost next_gives = { YieldsFirst remaining_elements };

    ghost remaining = { item_count remaining_elements };

    fn next(&mut self) -> Option<T> {
        if let Some(first) = self.first.take() {
            return Some(first);
        }
        self.rest.next()
    }
}

impl<T: Drop> IntoIterator for NonEmpty<T> {
    type Item = T;

    type IntoIter = IntoIter<T>;

    ghost into_iter_gives = { λ list items. remaining_elements items ≡ list_of list };

    fn into_iter(self) -> IntoIter<T> {
        let NonEmpty { head, tail } = self;
        IntoIter {
            first: Some(head),
            rest: tail.into_vec().into_iter(),
        }
    }
}

impl<'a, T> IntoIterator for &'a NonEmpty<T> {
    type Item = &'a T;

    type IntoIter = Iter<'a, T>;

    ghost into_iter_gives = { λ list items. remaining_items items ≡ list_of list.now };

    fn into_iter(self) -> Iter<'a, T> {
        self.iter()
    }
}
