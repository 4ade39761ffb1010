//! Values put in the place of others, and nodes taken out of theirs.
ghost use Rattle.std.specs.Prelude.{◌≡◌, None};

use cedar_syntax::node::Node;
use std::mem;

/// Puts a value in the place of another, which is let go here. What letting go of a large state
/// takes is so proved of no caller.
#[inline(always)]
pub fn put<T: Drop>(place: &mut T, value: T)
    ensures { place.new ≡ value }
{
    *place = value;
}

/// A node taken out of its place, where an empty one stays.
#[inline(always)]
pub fn take_node<T>(place: &mut Node<Option<T>>) -> Node<Option<T>>
    ensures node { result ≡ place.old }
    ensures after { place.new ≡ record { node = None; loc = None } }
{
    mem::replace(
        place,
        Node {
            node: None,
            loc: None,
        },
    )
}
