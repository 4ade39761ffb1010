//! Stacks: what an explicit list holds of a walk that isn't done.
ghost use Rattle.std.specs.Prelude.{◌≡◌, [], ◌∷◌, IfOk, OnOk, OnErr, MatchOption};

use std::alloc::{AllocError, Global};
use std::marker::Model;

/// How many elements of a walk wait at once, but for long lists and deep walks.
const ROOM: usize = 16;

/// A stack that contracts see as the list of its elements, the newest first.
#[derive(Drop)]
pub(crate) struct Stack<T> {
    items: Vec<T>,
}

impl<T> Model for Stack<T> {
    ghost use Rattle.std.specs.Prelude.{List, reverse};
    ghost use Rattle.std.specs.Coded.{coded_list};

    ghost Value = { List T };

    ghost coded = { coded_list T.code };

    ghost view = { λ stack. reverse stack.items.items };
}

impl<T> Stack<T> {
    /// No element, and room for those of most walks.
    pub(crate) fn with_room(alloc: Global) -> Result<Stack<T>, AllocError>
        ensures { IfOk result (λ stack. stack ≡ []) }
    {
        Ok(Stack {
            items: Vec::with_capacity(alloc, ROOM)?,
        })
    }

    /// Takes the newest element, if there is one.
    pub(crate) fn pop(&mut self) -> Option<T>
        ensures { MatchOption result ((self.old ≡ []) × (self.new ≡ []))
            (λ item. self.old ≡ item ∷ self.new) }
    {
        self.items.pop()
    }
}

impl<T: Drop> Stack<T> {
    /// One element more; after want of memory the stack is as it was.
    #[inline(always)]
    pub(crate) fn push(&mut self, item: T) -> Result<(), AllocError>
        ensures ok { OnOk result (self.new ≡ item ∷ self.old) }
        ensures err { OnErr result (self.new ≡ self.old) }
    {
        self.items.reserve(1)?;
        self.items.push_reserved(item);
        Ok(())
    }
}
