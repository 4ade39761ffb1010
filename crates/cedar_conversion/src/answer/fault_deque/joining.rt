//! Lists of faults put one behind another, and told in one.
ghost use Rattle.std.specs.Prelude.{◌≡◌, ◌+◌, ◌<◌, ◌≤◌, ◌++◌, ◌∷◌, length, reverse, IfOk, OnOk};
ghost use Rattle.std.specs.Vec.{vec_len, vec_capacity};
ghost use Rattle.cedar_syntax.specs.faults.ParseErrors.{faults_of};
ghost use Rattle.cedar_conversion.specs.outcome.Causes.{preceded, faults_in_order};

use super::FaultDeque;
use cedar_expressions::Items;
use cedar_syntax::err::{NonEmpty, ParseError, ParseErrors};
use std::alloc::{AllocError, Global};
use std::mem;

/// These in the other order, in the same memory.
fn reversed(items: Vec<ParseError>) -> Vec<ParseError>
    ensures items { result.items ≡ reverse items.items }
    ensures len { vec_len result ≡ vec_len items }
    ensures capacity { vec_capacity result ≡ vec_capacity items }
{
    let mut items = items;
    items.as_mut_slice().reverse();
    items
}

/// A first fault, and the others behind it, for which there is room.
fn chained(first: ParseError, rest: Vec<ParseError>, faults: ParseErrors) -> ParseErrors
    requires { vec_len rest + length (faults_of faults) ≤ vec_capacity rest }
    ensures { result ≡ preceded (first ∷ rest.items) faults }
{
    let NonEmpty { head, tail } = faults.into_non_empty();
    let mut all = rest;
    let mut tail = tail.into_vec();
    drop(all.push(head));
    drop(all.append(&mut tail));
    let faults = NonEmpty {
        head: first,
        tail: Items::from(all),
    };
    ParseErrors { faults }
}

/// Puts a list before those that come earlier, and makes room for `room` more.
fn put_ahead(
    earlier: Vec<ParseError>,
    few: FaultDeque,
    room: usize,
) -> Result<Vec<ParseError>, AllocError>
    ensures items { IfOk result (λ all.
        reverse all.items ≡ faults_of (faults_in_order few) ++ reverse earlier.items) }
    ensures room { IfOk result (λ all. vec_len all + room ≤ vec_capacity all) }
{
    let FaultDeque {
        earlier: mut earliest,
        faults,
    } = few;
    let NonEmpty { head, tail } = faults.into_non_empty();
    let mut all = earlier;
    all.append(&mut reversed(tail.into_vec()))?;
    all.push(head)?;
    all.append(&mut earliest)?;
    all.reserve(room)?;
    Ok(all)
}

/// The same list, with room for so many more where it isn't empty.
fn with_room(earlier: Vec<ParseError>, room: usize) -> Result<Vec<ParseError>, AllocError>
    ensures items { IfOk result (λ all. all.items ≡ earlier.items) }
    ensures room { IfOk result (λ all. 0 < vec_len all
        → vec_len all + room ≤ vec_capacity all) }
{
    let mut all = earlier;
    if !all.is_empty() {
        all.reserve(room)?;
    }
    Ok(all)
}

/// How many faults a list has.
fn count(faults: &ParseErrors) -> Result<usize, AllocError>
    ensures { IfOk result (λ n. n ≡ length (faults_of faults.now)) }
{
    faults.faults.tail.len().checked_add(1).ok_or(AllocError)
}

impl FaultDeque {
    /// These faults; it takes no memory.
    pub fn new(alloc: Global, faults: ParseErrors) -> FaultDeque
        ensures { faults_in_order result ≡ faults }
    {
        FaultDeque {
            earlier: Vec::new(alloc),
            faults,
        }
    }

    /// All in one list; it takes no memory.
    pub fn in_order(self) -> ParseErrors
        ensures { result ≡ faults_in_order self }
    {
        let FaultDeque { earlier, faults } = self;
        let mut earlier = earlier;
        match earlier.pop() {
            None => faults,
            Some(first) => chained(first, reversed(earlier), faults),
        }
    }

    /// Whether there are fewer of them than of the others.
    pub fn is_shorter(&self, other: &FaultDeque) -> bool {
        let others = other.earlier.len().saturating_add(other.faults.len());
        self.earlier.len().saturating_add(self.faults.len()) < others
    }

    /// Those that come earlier, which leave it.
    fn take_earlier(&mut self) -> Vec<ParseError>
        ensures earlier { result ≡ self.old.earlier }
        ensures rest { self.new.faults ≡ self.old.faults }
        ensures none { vec_len self.new.earlier ≡ 0 }
    {
        let none = Vec::new(self.faults.faults.tail.alloc());
        mem::replace(&mut self.earlier, none)
    }

    /// Puts others before these, or leaves no faults that count.
    pub fn put_before(&mut self, few: FaultDeque) -> Result<(), AllocError>
        ensures { OnOk result (faults_of (faults_in_order self.new)
            ≡ faults_of (faults_in_order few) ++ faults_of (faults_in_order self.old)) }
    {
        let room = count(&self.faults)?;
        let earlier = self.take_earlier();
        self.earlier = put_ahead(earlier, few, room)?;
        Ok(())
    }

    /// Puts others behind these, or leaves no faults that count.
    pub fn put_behind(&mut self, few: FaultDeque) -> Result<(), AllocError>
        ensures { OnOk result (faults_of (faults_in_order self.new)
            ≡ faults_of (faults_in_order self.old) ++ faults_of (faults_in_order few)) }
    {
        let earlier = self.take_earlier();
        self.faults.extend(few.in_order())?;
        let room = count(&self.faults)?;
        self.earlier = with_room(earlier, room)?;
        Ok(())
    }
}
