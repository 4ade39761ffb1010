//! A place in what stands between two words, where that is read byte by byte.
ghost use Rattle.std.specs.Prelude.{◌≡◌};
ghost use Rattle.cedar_layout.specs.Pieces as spec;
ghost use Rattle.cedar_layout.specs.Read.{standing_now};

/// A place in what stands between two words.
#[derive(Clone, Copy)]
pub enum Standing {
    /// in a comment
    Inside,
    /// in none: whether it is on the line of the word before, and behind how many line feeds,
    /// counted up to two
    Outside(bool, u8),
}

fn one_feed_more(feeds: u8) -> u8
    ensures { result ≡ spec.one_feed_more feeds }
{
    if feeds == 0 { 1 } else { 2 }
}

/// The place behind one more byte.
pub(crate) fn behind_byte(standing: Standing, byte: u8) -> Standing
    ensures { standing_now result ≡ spec.behind_byte (standing_now standing) byte }
{
    match standing {
        Standing::Inside => {
            if byte == b'\n' {
                Standing::Outside(false, 1)
            } else if byte == b'\r' {
                Standing::Outside(false, 0)
            } else {
                Standing::Inside
            }
        }
        Standing::Outside(near, feeds) => {
            if byte == b'/' {
                Standing::Inside
            } else if byte == b'\n' {
                Standing::Outside(false, one_feed_more(feeds))
            } else {
                Standing::Outside(near, feeds)
            }
        }
    }
}

/// Two line feeds or more are a blank line.
pub(crate) fn are_many(feeds: u8) -> bool
    ensures { result ≡ spec.are_many feeds }
{
    !(feeds == 0 || feeds == 1)
}

/// Whether a blank line stands straight before the place.
pub(crate) fn is_behind_blank(standing: Standing) -> bool
    ensures { result ≡ spec.is_behind_blank (standing_now standing) }
{
    match standing {
        Standing::Inside => false,
        Standing::Outside(_, feeds) => are_many(feeds),
    }
}
