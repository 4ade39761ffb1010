//! Where a line may end in a bracket.
ghost use Rattle.std.specs.Prelude.{◌≡◌};
ghost use Rattle.cedar_layout.specs.Levels as spec;

use cedar_lexer::token::TokenKind;

/// Where a line may end: at all gaps of a level or at none, the outermost level first; at those
/// that are packed or filled where what follows doesn't fit.
#[derive(Clone, Copy)]
pub enum Level {
    /// inside a bracket's ends, and behind a comma
    Listed,
    /// before `then` and `else`
    Branched,
    /// behind `||`
    Disjoined,
    /// behind `&&`
    Conjoined,
    /// behind a relation
    Related,
    /// behind `+` and `-`
    Added,
    /// behind `*`
    Multiplied,
    /// before the dot of a call on a call's answer
    Chained,
    /// behind a comma between numbers and short texts
    Packed,
    /// where nothing else helps: before a list or a record behind a relation, behind `has`, `like`,
    /// `is`, `if`, `then`, `else` and a key, and behind an operator that begins its line
    Filled,
    /// a line ends here only behind a comment
    Fixed,
}

impl Level {
    ghost use Rattle.std.specs.Prelude.{◌≡◌, nat_lt};
    ghost use Rattle.cedar_layout.specs.Levels.{rank as rank_of};

    fn rank(self) -> u8
        ensures { result ≡ rank_of self }
    {
        match self {
            Level::Listed => 0,
            Level::Branched => 1,
            Level::Disjoined => 2,
            Level::Conjoined => 3,
            Level::Related => 4,
            Level::Added => 5,
            Level::Multiplied => 6,
            Level::Chained => 7,
            Level::Packed => 8,
            Level::Filled => 9,
            Level::Fixed => 10,
        }
    }

    /// Whether its gaps end lines sooner than those of another level.
    pub(crate) fn is_outside(self, other: Level) -> bool
        ensures { result ≡ nat_lt (rank_of self) (rank_of other) }
    {
        self.rank() < other.rank()
    }
}

/// The level of the gap at an operator.
fn operator_level(kind: TokenKind) -> Level
    ensures { result ≡ spec.operator_level kind }
{
    match kind {
        TokenKind::OrOr => Level::Disjoined,
        TokenKind::AndAnd => Level::Conjoined,
        TokenKind::EqEq
        | TokenKind::NotEq
        | TokenKind::Less
        | TokenKind::LessEq
        | TokenKind::GreaterEq
        | TokenKind::Greater
        | TokenKind::Eq
        | TokenKind::In => Level::Related,
        TokenKind::Plus | TokenKind::Minus => Level::Added,
        TokenKind::Star | TokenKind::Slash | TokenKind::Percent => Level::Multiplied,
        TokenKind::Has | TokenKind::Like | TokenKind::Is => Level::Filled,
        _ => Level::Fixed,
    }
}

/// The level of the gap behind a word before an operand.
fn word_level(kind: TokenKind) -> Level
    ensures { result ≡ spec.word_level kind }
{
    match kind {
        TokenKind::If | TokenKind::Then | TokenKind::Else | TokenKind::Colon => Level::Filled,
        _ => operator_level(kind),
    }
}

/// Behind an operator; but a list or a record stands on the line of its relation.
fn before_operand(level: Level, next: TokenKind) -> Level
    ensures { result ≡ spec.before_operand level next }
{
    match (level, next) {
        (Level::Related, TokenKind::OpenBracket | TokenKind::OpenBrace) => Level::Filled,
        _ => level,
    }
}

/// Behind an operator that begins its line its operand follows on it.
fn behind_led(level: Level) -> Level
    ensures { result ≡ spec.behind_led level }
{
    match level {
        Level::Fixed => Level::Fixed,
        _ => Level::Filled,
    }
}

/// The level of the gap behind a word.
fn level_behind(led: bool, last: TokenKind, next: TokenKind) -> Level
    ensures { result ≡ spec.level_behind led last next }
{
    let level = before_operand(word_level(last), next);
    if led { behind_led(level) } else { level }
}

/// The level of a gap before a word that isn't an operator behind a comment.
fn plain_level(led: bool, last: TokenKind, next: TokenKind) -> Level
    ensures { result ≡ spec.plain_level led last next }
{
    match next {
        TokenKind::Then | TokenKind::Else => Level::Branched,
        _ => level_behind(led, last, next),
    }
}

/// An operator that begins its line does so at its own level.
fn led_level(level: Level, plain: Level) -> Level
    ensures { result ≡ spec.led_level level plain }
{
    match level {
        Level::Fixed => plain,
        _ => level,
    }
}

/// The level of a gap between words that stand a space apart. An operator leads its line in the
/// place of ending it where a comment stands before it: `leads` says this of `next`, `led` of
/// `last`.
pub(crate) fn level_apart(leads: bool, led: bool, last: TokenKind, next: TokenKind) -> Level
    ensures { result ≡ spec.level_apart leads led last next }
{
    let plain = plain_level(led, last, next);
    if leads {
        led_level(operator_level(next), plain)
    } else {
        plain
    }
}

/// The level of a gap between words with nothing between them.
pub(crate) fn level_joined(last: TokenKind, next: TokenKind) -> Level
    ensures { result ≡ spec.level_joined last next }
{
    match (last, next) {
        (TokenKind::CloseParen, TokenKind::Dot) => Level::Chained,
        _ => Level::Fixed,
    }
}
