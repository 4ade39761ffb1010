//! Places as the crates below know them: their bytes, without the text.
ghost use Rattle.std.specs.Prelude.{◌≡◌};
ghost use Rattle.std.specs.Option.{option_map};
ghost use Rattle.cedar_conversion.specs.outcome.Places.{bytes_of};
ghost use Rattle.cedar_conversion.specs.machines.Views.{lent_bytes};

use cedar_expressions::Place;
use cedar_syntax::loc::Loc;

/// The bytes of a place that is lent.
pub fn bytes_at(loc: Option<&Loc>) -> Option<Place>
    ensures { result ≡ lent_bytes loc.entry }
{
    match loc {
        Some(loc) => Some(Place {
            offset: loc.span.offset(),
            length: loc.span.len(),
        }),
        None => None,
    }
}

/// The bytes of a place.
pub fn bytes_of(loc: &Option<Loc>) -> Option<Place>
    ensures { result ≡ option_map bytes_of loc.now }
{
    bytes_at(loc.as_ref())
}
