//! Which row of the table a fault is told by: the first that fits.
ghost use Rattle.std.specs.Prelude.{◌≡◌};
ghost use Rattle.std.specs.Option.{option_copied};
ghost use Rattle.cedar_report.specs.Rows.{row_fits, first_that, near_looked, is_near, can_stand, does_stand};

use crate::near::Near;
use crate::rows::{Look, Row};
use crate::sign::is_one_of;
use cedar_lexer::token::TokenKind;

/// What the rows of the table are compared with.
#[derive(Clone, Copy)]
pub struct Clues<'t, 'f> {
    pub code: &'static str,
    pub kinds: &'f [TokenKind],
    /// the token at the fault's first byte, with those beside it
    pub start: Near<'t>,
    pub operator: Option<Near<'t>>,
    pub name: Option<Near<'t>>,
}

impl<'t> Clues<'t, '_> {
    /// The token that a row looks at, with those beside it.
    pub fn near(&self, look: Look) -> Option<&Near<'t>>
        ensures { option_copied result ≡ near_looked look self.now }
    {
        match look {
            Look::Start => Some(&self.start),
            Look::Operator => self.operator.as_ref(),
            Look::Name => self.name.as_ref(),
        }
    }
}

/// The first row that fits, or `None` where none does.
pub fn look_up<'r>(rows: &'r [Row], clues: &Clues<'_, '_>) -> Option<&'r Row>
    ensures { option_copied result
        ≡ first_that (row_fits ⟦<TokenKind as PartialEq>⟧.eq clues.now) rows.now }
{
    for row in rows {
        if row.fits(clues) {
            return Some(row);
        }
    }
    None
}

impl Row {
    /// Whether a fault is the mistake of this row.
    pub fn fits(&self, clues: &Clues<'_, '_>) -> bool
        ensures { result ≡ row_fits ⟦<TokenKind as PartialEq>⟧.eq clues.now self.now }
    {
        is_one_of(clues.code, self.codes)
            && can_stand(clues.kinds, self.expects)
            && !does_stand(clues.kinds, self.lacks)
            && self.is_near(clues)
    }

    // Whether the words beside the token that it looks at are what it asks.
    fn is_near(&self, clues: &Clues<'_, '_>) -> bool
        ensures { result ≡ is_near self.now (near_looked self.now.look clues.now) }
    {
        match clues.near(self.look) {
            Some(near) => near.fits(self.near),
            None => false,
        }
    }
}

// Whether a kind is among these; no kind always is.
fn can_stand(kinds: &[TokenKind], kind: Option<TokenKind>) -> bool
    ensures { result ≡ can_stand ⟦<TokenKind as PartialEq>⟧.eq kinds.now kind }
{
    match kind {
        None => true,
        Some(kind) => kinds.contains(&kind),
    }
}

// Whether a kind is among these; no kind never is.
fn does_stand(kinds: &[TokenKind], kind: Option<TokenKind>) -> bool
    ensures { result ≡ does_stand ⟦<TokenKind as PartialEq>⟧.eq kinds.now kind }
{
    match kind {
        None => false,
        Some(kind) => kinds.contains(&kind),
    }
}
