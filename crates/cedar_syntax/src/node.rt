//! A value with its place.
ghost use Rattle.std.specs.Prelude.{◌≡◌, Some, None, Ok, Err, IfOk, IfErr, IsErr, IsNone, IsOkAnd, MatchOption};
ghost use Rattle.std.specs.Option.{option_copied};
ghost use Rattle.std.specs.Cmp.{on_per, on_equiv, on_po, on_total};

use crate::copy::expressions::beside;
use crate::err::{Failure, ParseErrors, ToASTError, ToASTErrorKind};
use crate::loc::Loc;
use cedar_expressions::TryClone;
use std::alloc::{AllocError, Global};
use std::cmp::Ordering;
use std::error::Error;
use std::fmt;
use std::hash::{Hash, Hasher};

/// A value and its place. Comparisons and hashes look at the value alone.
#[derive(Debug)]
pub struct Node<T> {
    pub node: T,
    pub loc: Option<Loc>,
}

/// What holds a node drops it by one call, and has no case for each form of what is in it.
impl<T: Drop> Drop for Node<T> {
    fn drop(self) {
        let Node { node: _, loc: _ } = self;
    }
}

impl<T> Node<T> {
    /// A value at a place.
    pub fn with_source_loc(node: T, loc: Loc) -> Node<T>
        ensures { result ≡ record { node = node; loc = Some loc } }
    {
        Node {
            node,
            loc: Some(loc),
        }
    }

    /// A value, at a place if there is one.
    pub fn with_maybe_source_loc(node: T, loc: Option<Loc>) -> Node<T>
        ensures { result ≡ record { node = node; loc = loc } }
    {
        Self { node, loc }
    }

    /// A value without a place.
    pub fn new(node: T) -> Node<T>
        ensures { result ≡ record { node = node; loc = None } }
    {
        Node { node, loc: None }
    }

    /// What `f` makes of the value, at the same place.
    pub fn map<R, F: FnOnce(T) -> R>(self, f: F) -> Node<R>
        requires { F.pre f self.node }
        ensures value { F.post f self.node result.node }
        ensures place { result.loc ≡ self.loc }
    {
        let Node { node, loc } = self;
        Node { node: f(node), loc }
    }

    /// The value, lent, at the same place.
    pub fn as_ref(&self) -> Result<Node<&T>, AllocError>
        ensures value { IfOk result (λ lent. lent.node.now ≡ self.now.node) }
        ensures place { IfOk result (λ lent. lent.loc ≡ self.now.loc) }
    {
        let place = self.loc.try_clone()?;
        Ok(Node::with_maybe_source_loc(&self.node, place))
    }

    /// The value, lent to be written, at the same place. What the node holds once it was written
    /// isn't stated.
    pub fn as_mut(&mut self) -> Result<Node<&mut T>, AllocError>
        ensures value { IfOk result (λ lent. lent.node.now ≡ self.old.node) }
        ensures place { IfOk result (λ lent. lent.loc ≡ self.old.loc) }
    {
        let place = self.loc.try_clone()?;
        Ok(Node::with_maybe_source_loc(&mut self.node, place))
    }

    /// The value and its place.
    #[inline(always)]
    pub fn into_inner(self) -> (T, Option<Loc>)
        ensures { result ≡ (self.node, self.loc) }
    {
        let Node { node, loc } = self;
        (node, loc)
    }

    /// The fault `kind` at this node's place.
    pub fn to_ast_err(&self, kind: ToASTErrorKind) -> Result<ToASTError, AllocError>
        ensures { IfOk result (λ fault. fault ≡ record { kind = kind; loc = self.now.loc }) }
    {
        let (kind, loc) = beside(kind, self.loc.try_clone())?;
        Ok(ToASTError::new(kind, loc))
    }

    /// The place.
    pub fn loc(&self) -> Option<&Loc>
        ensures { option_copied result ≡ self.now.loc }
    {
        self.loc.as_ref()
    }
}

impl<T: TryClone + Drop> Node<T> {
    /// A copy that equals its source, place included.
    pub fn try_clone(&self) -> Result<Node<T>, AllocError>
        ensures { IfOk result (λ copy. copy ≡ self.now) }
    {
        TryClone::try_clone(self)
    }
}

impl<'a, T: Clone> Node<&'a T> {
    /// A clone of the value, at the same place. A clone of that type has to equal its source.
    pub fn cloned(self) -> Result<Node<T>, AllocError>
        requires { (copy : _) → T.is_clone self.node.now copy → copy ≡ self.node.now }
        ensures { IfOk result (λ owned.
            owned ≡ record { node = self.entry.node.now; loc = self.entry.loc }) }
    {
        let Node { node, loc } = self;
        Ok(Node::with_maybe_source_loc(node.clone()?, loc))
    }
}

impl<'a, T: Copy> Node<&'a T> {
    /// A copy of the value, at the same place.
    pub fn copied(self) -> Node<T>
        ensures { result ≡ record { node = self.entry.node.now; loc = self.entry.loc } }
    {
        let Node { node, loc } = self;
        Node { node: *node, loc }
    }
}

/// What a node that may be empty holds.
impl<T> Node<Option<T>> {
    ghost use Rattle.cedar_syntax.specs.trees.Node.{IsLentIn, empty_fault, IsRefusedWith};

    /// The value, or `None` where the node is empty.
    pub fn as_inner(&self) -> Option<&T>
        ensures { option_copied result ≡ self.now.node }
    {
        self.node.as_ref()
    }

    /// The value, lent, at the same place, or `None` where the node is empty.
    pub fn collapse(&self) -> Result<Option<Node<&T>>, AllocError>
        ensures { IfOk result (IsLentIn self.now) }
    {
        match &self.node {
            None => Ok(None),
            Some(value) => {
                let place = self.loc.try_clone()?;
                Ok(Some(Node::with_maybe_source_loc(value, place)))
            }
        }
    }

    /// What `f` makes of the value and its place, or `None` where the node is empty or `f` answers
    /// that.
    pub fn apply<R, F: FnOnce(&T, Option<&Loc>) -> Option<R>>(&self, f: F) -> Option<R>
        requires { F.IsAlwaysCallable f }
        ensures { MatchOption self.now.node (result ≡ None) (λ value. (node : _) × (loc : _)
            × (node.now ≡ value) × (option_copied loc ≡ self.now.loc) × F.post f node loc result) }
    {
        match &self.node {
            None => None,
            Some(node) => f(node, self.loc.as_ref()),
        }
    }

    /// What `f` makes of the value and its place, or `None` where the node is empty or `f` answers
    /// that.
    pub fn into_apply<R, F: FnOnce(T, Option<Loc>) -> Option<R>>(self, f: F) -> Option<R>
        requires { F.IsAlwaysCallable f }
        ensures { MatchOption self.node (result ≡ None) (λ value. F.post f value self.loc result) }
    {
        let Node { node, loc } = self;
        match node {
            None => None,
            Some(node) => f(node, loc),
        }
    }

    /// The value; it takes no memory. An empty node is refused with `EmptyNodeInvariantViolation`
    /// at its place, or for want of memory.
    pub fn try_as_inner(&self, alloc: Global) -> Result<&T, Failure>
        ensures outcome { MatchOption self.now.node
            (IfErr result (IsRefusedWith (empty_fault self.now.loc)))
            (λ value. IsOkAnd result (λ lent. lent.now ≡ value)) }
        ensures empty { IsNone self.now.node → IsErr result }
    {
        match &self.node {
            Some(value) => Ok(value),
            None => {
                let fault = self.to_ast_err(ToASTErrorKind::EmptyNodeInvariantViolation)?;
                Err(Failure::Errors(ParseErrors::from_ast(alloc, fault)))
            }
        }
    }

    /// The value; it takes no memory. An empty node is refused with `EmptyNodeInvariantViolation`
    /// at its place.
    pub fn try_into_inner(self) -> Result<T, ToASTError>
        ensures { MatchOption self.node (result ≡ Err (empty_fault self.loc))
            (λ value. result ≡ Ok value) }
    {
        let Node { node, loc } = self;
        match node {
            Some(value) => Ok(value),
            None => Err(ToASTError::new(ToASTErrorKind::EmptyNodeInvariantViolation, loc)),
        }
    }
}

/// The value's own text.
impl<T: fmt::Display> fmt::Display for Node<T> {
    ghost output = { λ node. T.output node.node };

    ghost styled_output = { λ node style. T.styled_output node.node style };

    fn fmt<W: fmt::Write>(&self, f: &mut fmt::Formatter<W>) -> fmt::Result {
        self.node.fmt(f)
    }
}

impl<T: Error> Error for Node<T> {}

impl<T: Clone> Clone for Node<T> {
    ghost is_clone = { λ node copy. T.is_clone node.node copy.node × (copy.loc ≡ node.loc) };

    fn clone(&self) -> Result<Node<T>, AllocError> {
        let place = self.loc.try_clone()?;
        Ok(Node::with_maybe_source_loc(self.node.clone()?, place))
    }
}

impl<T: PartialEq> PartialEq for Node<T> {
    ghost eq = { λ a b. T.eq a.node b.node };

    ghost laws = { on_per (λ a. a.node) T.laws };

    fn eq(&self, other: &Self) -> bool {
        self.node == other.node
    }
}

impl<T: Eq> Eq for Node<T> {
    ghost laws = { on_equiv (λ a. a.node) T.Eq.laws };
}

impl<T: PartialOrd> PartialOrd for Node<T> {
    ghost partial_cmp = { λ a b. T.partial_cmp a.node b.node };

    ghost laws = { on_po (λ a. a.node) T.PartialOrd.laws };

    fn partial_cmp(&self, other: &Self) -> Option<Ordering> {
        self.node.partial_cmp(&other.node)
    }
}

impl<T: Ord> Ord for Node<T> {
    ghost cmp = { λ a b. T.cmp a.node b.node };

    ghost total = { on_total (λ a. a.node) T.total };

    ghost matches_partial_cmp = { λ a b. T.matches_partial_cmp a.node b.node };

    ghost matches_eq = { λ a b. T.matches_eq a.node b.node };

    fn cmp(&self, other: &Self) -> Ordering {
        self.node.cmp(&other.node)
    }
}

impl<T: Hash> Hash for Node<T> {
    ghost hash_input = { λ a. T.hash_input a.node };

    ghost respects_eq = { λ a b. T.respects_eq a.node b.node };

    fn hash<H: Hasher>(&self, state: &mut H) {
        self.node.hash(state);
    }
}

impl<T: TryClone + Drop> TryClone for Node<T> {
    fn try_clone(&self) -> Result<Node<T>, AllocError> {
        let loc = self.loc.try_clone()?;
        Ok(Node {
            node: self.node.try_clone()?,
            loc,
        })
    }
}
