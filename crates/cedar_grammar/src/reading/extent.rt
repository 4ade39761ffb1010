//! The bytes of a form that has begun and hasn't ended.
ghost use Rattle.std.specs.Prelude.{◌≡◌};
ghost use Rattle.cedar_grammar.specs.grammar.Place.{joint_extent};

/// From the first byte of some tokens to the end of their last.
#[derive(Drop, Clone, Copy)]
pub struct Extent {
    pub start: usize,
    pub end: usize,
}

/// From the start of the first to the end of the second.
pub fn join_extents(first: Option<Extent>, second: Option<Extent>) -> Option<Extent>
    ensures { result ≡ joint_extent first second }
{
    match (first, second) {
        (None, second) => second,
        (first, None) => first,
        (Some(first), Some(second)) => Some(Extent {
            start: first.start,
            end: second.end,
        }),
    }
}
