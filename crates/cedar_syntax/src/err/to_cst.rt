//! Why a text has no tree.
ghost use Rattle.std.specs.Prelude.{◌≡◌, IfOk, map, string_bytes};
ghost use Rattle.std.specs.Option.{option_copied, option_map};
ghost use Rattle.std.specs.Rc.{rc_str_bytes};
ghost use Rattle.std.proofs.Common.{Some};
ghost use Rattle.cedar_lexer.specs.Names.{kind_name};

use crate::err::expected::{expected_to_string, policy_token_config};
use crate::loc::{Loc, SourceSpan};
use crate::node::Node;
use cedar_expressions::{Items, Source, Text, TryClone};
use cedar_lexer::token::TokenKind;
use std::alloc::{AllocError, Global};
use std::error::Error;
use std::fmt;
use std::rc::RcStr;

/// What stopped a parse of a text. Places are bytes of the text, `expected` holds the kinds of
/// token that could have stood there.
#[derive(Debug, Drop)]
pub enum RawFault {
    /// at `location` neither a token nor white space nor a comment begins
    InvalidToken {
        location: usize,
    },
    /// the token at `start..end` can't stand there
    UnrecognizedToken {
        start: usize,
        end: usize,
        token: Text,
        expected: Items<TokenKind>,
    },
    /// the text ends too early, at `location`
    UnrecognizedEof {
        location: usize,
        expected: Items<TokenKind>,
    },
    /// a fault in the parser's own words
    User {
        error: Node<Text>,
    },
    /// the token at `start..end` stands after the end of a whole form; no parse of this crate
    /// gives it
    ExtraToken {
        start: usize,
        end: usize,
        token: Text,
    },
}

impl RawFault {
    ghost use Rattle.cedar_syntax.specs.faults.RawFault.{variant_number, byte_range, text_of, expected_of, own_words_place};

    /// A copy that equals its source, places included.
    pub fn try_clone(&self) -> Result<RawFault, AllocError>
        ensures { IfOk result (λ copy. copy ≡ self.now) }
    {
        match self {
            RawFault::InvalidToken { location } => Ok(RawFault::InvalidToken {
                location: *location,
            }),
            RawFault::UnrecognizedToken {
                start,
                end,
                token,
                expected,
            } => {
                let token = token.try_clone()?;
                Ok(RawFault::UnrecognizedToken {
                    start: *start,
                    end: *end,
                    token,
                    expected: copy_kinds(expected)?,
                })
            }
            RawFault::UnrecognizedEof { location, expected } => Ok(RawFault::UnrecognizedEof {
                location: *location,
                expected: copy_kinds(expected)?,
            }),
            RawFault::User { error } => Ok(RawFault::User {
                error: error.try_clone()?,
            }),
            RawFault::ExtraToken { start, end, token } => Ok(RawFault::ExtraToken {
                start: *start,
                end: *end,
                token: token.try_clone()?,
            }),
        }
    }

    /// The kinds of token that could have stood there; none but where a token or the end was
    /// refused.
    pub fn expected_kinds(&self) -> &[TokenKind]
        ensures { result.now ≡ expected_of self.now }
    {
        match self {
            RawFault::UnrecognizedToken { expected, .. } => expected.as_slice(),
            RawFault::UnrecognizedEof { expected, .. } => expected.as_slice(),
            _ => &[],
        }
    }

    // Which of the five it is.
    fn number(&self) -> u8
        ensures { result ≡ variant_number self.now }
    {
        match self {
            RawFault::InvalidToken { .. } => 0,
            RawFault::UnrecognizedToken { .. } => 1,
            RawFault::UnrecognizedEof { .. } => 2,
            RawFault::User { .. } => 3,
            RawFault::ExtraToken { .. } => 4,
        }
    }

    // From where to where, in bytes; 0 to 0 in the parser's own words.
    fn bytes(&self) -> (usize, usize)
        ensures { result ≡ byte_range self.now }
    {
        match self {
            RawFault::InvalidToken { location } => (*location, *location),
            RawFault::UnrecognizedToken { start, end, .. } => (*start, *end),
            RawFault::UnrecognizedEof { location, .. } => (*location, *location),
            RawFault::User { .. } => (0, 0),
            RawFault::ExtraToken { start, end, .. } => (*start, *end),
        }
    }

    // The token, or the parser's own words.
    fn text(&self) -> &str
        ensures { result.now ≡ text_of self.now }
    {
        match self {
            RawFault::UnrecognizedToken { token, .. } => token.as_str(),
            RawFault::User { error } => error.node.as_str(),
            RawFault::ExtraToken { token, .. } => token.as_str(),
            _ => "",
        }
    }

    // The place of the parser's own words.
    fn place(&self) -> Option<&Loc>
        ensures { option_copied result ≡ own_words_place self.now }
    {
        match self {
            RawFault::User { error } => error.loc.as_ref(),
            _ => None,
        }
    }
}

// The names under which these kinds are recorded.
fn names_of(alloc: Global, kinds: &[TokenKind]) -> Result<Vec<&'static str>, AllocError>
    ensures { IfOk result (λ names. map (λ name. name.now) names.items ≡ map kind_name kinds.now) }
{
    let mut names = Vec::with_capacity(alloc, kinds.len())?;
    for kind in kinds {
        names.push(kind.name())?;
    }
    Ok(names)
}

// The same kinds, in memory of their own.
fn copy_kinds(kinds: &Items<TokenKind>) -> Result<Items<TokenKind>, AllocError>
    ensures { IfOk result (λ copy. copy ≡ kinds.now) }
{
    let copies = Vec::from_slice(kinds.alloc(), kinds.as_slice())?;
    Ok(Items::from(copies))
}

/// Looks at the place of the parser's own words too, which a node leaves out.
impl PartialEq for RawFault {
    ghost use Rattle.cedar_syntax.specs.faults.RawFault.{variant_number, byte_range, text_of, expected_of, own_words_place};
    ghost use Rattle.cedar_syntax.specs.contracts.loc.LocEq.TheImpl.Laws as place;
    ghost use Rattle.cedar_lexer.specs.contracts.token.TokenKindEq.TheImpl.Laws as kind;
    ghost use Rattle.std.specs.Prelude.{nat_eq};
    ghost use Rattle.std.specs.Ordering.{on, eq_of_both};
    ghost use Rattle.std.specs.Cmp.{on_equiv, and_equiv, partial_equiv_from_equiv, nat_eq_equiv};
    ghost use Rattle.std.specs.Cmp.Lexicographic.{pointwise, lists_equiv, options_equiv, nat_list_eq_equiv};

    ghost eq = { eq_of_both (on variant_number nat_eq)
        (eq_of_both (on (λ fault. (byte_range fault).0) nat_eq)
        (eq_of_both (on (λ fault. (byte_range fault).1) nat_eq)
        (eq_of_both (on text_of (pointwise nat_eq))
        (eq_of_both (on expected_of (pointwise ⟦<TokenKind as PartialEq>⟧.eq))
        (on own_words_place ⟦<Option<Loc> as PartialEq>⟧.eq))))) };

    ghost laws = { partial_equiv_from_equiv (and_equiv (on_equiv variant_number nat_eq_equiv)
        (and_equiv (on_equiv (λ fault. (byte_range fault).0) nat_eq_equiv)
        (and_equiv (on_equiv (λ fault. (byte_range fault).1) nat_eq_equiv)
        (and_equiv (on_equiv text_of nat_list_eq_equiv)
        (and_equiv (on_equiv expected_of (lists_equiv kind.lawful.laws))
        (on_equiv own_words_place (options_equiv place.lawful.laws))))))) };

    fn eq(&self, other: &Self) -> bool {
        let (start, end) = self.bytes();
        let (other_start, other_end) = other.bytes();
        self.number() == other.number()
            && start == other_start
            && end == other_end
            && self.text() == other.text()
            && self.expected_kinds() == other.expected_kinds()
            && self.place() == other.place()
    }
}

impl Eq for RawFault {
    ghost use Rattle.cedar_syntax.specs.faults.RawFault.{variant_number, byte_range, text_of, expected_of, own_words_place};
    ghost use Rattle.cedar_syntax.specs.contracts.loc.LocEq.TheImpl.Laws as place;
    ghost use Rattle.cedar_lexer.specs.contracts.token.TokenKindEq.TheImpl.Laws as kind;
    ghost use Rattle.std.specs.Cmp.{on_equiv, and_equiv, nat_eq_equiv};
    ghost use Rattle.std.specs.Cmp.Lexicographic.{lists_equiv, options_equiv, nat_list_eq_equiv};

    ghost laws = { and_equiv (on_equiv variant_number nat_eq_equiv)
        (and_equiv (on_equiv (λ fault. (byte_range fault).0) nat_eq_equiv)
        (and_equiv (on_equiv (λ fault. (byte_range fault).1) nat_eq_equiv)
        (and_equiv (on_equiv text_of nat_list_eq_equiv)
        (and_equiv (on_equiv expected_of (lists_equiv kind.lawful.laws))
        (on_equiv own_words_place (options_equiv place.lawful.laws)))))) };
}

impl TryClone for RawFault {
    fn try_clone(&self) -> Result<RawFault, AllocError> {
        RawFault::try_clone(self)
    }
}

impl Clone for RawFault {
    ghost is_clone = { λ fault copy. copy ≡ fault };

    fn clone(&self) -> Result<RawFault, AllocError> {
        RawFault::try_clone(self)
    }
}

/// What stopped a parse, and the whole text.
#[derive(Debug, PartialEq, Eq)]
pub struct ToCSTError {
    pub raw: RawFault,
    pub src: Source,
}

/// What holds a fault drops it by one call, and has no case for each kind.
impl Drop for ToCSTError {
    fn drop(self) {
        let ToCSTError { raw: _, src: _ } = self;
    }
}

impl ToCSTError {
    ghost use Rattle.cedar_syntax.specs.messages.Kept.{SaysExpected, policy_rules};
    ghost use Rattle.cedar_syntax.specs.messages.Messages.{raw_help};
    ghost use Rattle.cedar_syntax.specs.faults.RawFault.{expected_of, span_of_raw};

    /// The fault `raw` of the text `src`.
    pub fn new(raw: RawFault, src: RcStr) -> ToCSTError
        ensures { result ≡ record { raw = raw; src = rc_str_bytes src } }
    {
        ToCSTError {
            raw,
            src: Source::from(src),
        }
    }

    /// What stopped the parse.
    pub fn raw(&self) -> &RawFault
        ensures { result.now ≡ self.now.raw }
    {
        &self.raw
    }

    /// Where the parse stopped: a refused token's bytes, no bytes at an invalid token or the end,
    /// the place of the parser's own words. `None` where these have none.
    pub fn primary_source_span(&self) -> Option<SourceSpan>
        ensures { result ≡ span_of_raw self.now.raw }
    {
        match &self.raw {
            RawFault::InvalidToken { location } => Some(SourceSpan::between(*location, *location)),
            RawFault::UnrecognizedToken { start, end, .. } => {
                Some(SourceSpan::between(*start, *end))
            }
            RawFault::UnrecognizedEof { location, .. } => {
                Some(SourceSpan::between(*location, *location))
            }
            RawFault::User { error } => error.loc.as_ref().map(|loc| loc.span),
            RawFault::ExtraToken { start, end, .. } => Some(SourceSpan::between(*start, *end)),
        }
    }

    /// The kinds of token that could have stood there; none but where a token or the end was
    /// refused.
    pub fn expected_kinds(&self) -> &[TokenKind]
        ensures { result.now ≡ expected_of self.now.raw }
    {
        self.raw.expected_kinds()
    }

    /// What could have stood where the parse stopped, in Cedar's own words for tokens, or `None`
    /// where that says nothing. Only want of memory refuses it.
    pub fn label(&self, alloc: Global) -> Result<Option<String>, AllocError>
        ensures { IfOk result (λ label. SaysExpected policy_rules
            (map kind_name (expected_of self.now.raw))
            (option_map (λ text. string_bytes text) label)) }
    {
        let names = names_of(alloc, self.expected_kinds())?;
        let config = policy_token_config(alloc)?;
        expected_to_string(alloc, names.as_slice(), &config)
    }

    /// A hint at what to change: at an invalid token by the character that stands there, else
    /// `None`. Only want of memory refuses it.
    pub fn help(&self, alloc: Global) -> Result<Option<String>, AllocError>
        ensures { IfOk result (λ help.
            option_map (λ text. string_bytes text) help ≡ raw_help self.now.src self.now.raw) }
    {
        let RawFault::InvalidToken { location } = &self.raw else {
            return Ok(None);
        };
        match self.src.as_str().as_bytes().get(*location) {
            Some(b'"') => Ok(Some(String::from_str(
                alloc,
                "try checking that all strings are closed properly",
            )?)),
            Some(b'\'') => Ok(Some(String::from_str(
                alloc,
                "strings must use double quotes, not single quotes",
            )?)),
            _ => Ok(None),
        }
    }

    /// A copy that equals its source, over the same shared text.
    pub fn try_clone(&self) -> Result<ToCSTError, AllocError>
        ensures { IfOk result (λ copy. copy ≡ self.now) }
    {
        let raw = self.raw.try_clone()?;
        Ok(ToCSTError {
            raw,
            src: self.src.share()?,
        })
    }
}

impl TryClone for ToCSTError {
    fn try_clone(&self) -> Result<ToCSTError, AllocError> {
        ToCSTError::try_clone(self)
    }
}

impl Clone for ToCSTError {
    ghost is_clone = { λ fault copy. copy ≡ fault };

    fn clone(&self) -> Result<ToCSTError, AllocError> {
        ToCSTError::try_clone(self)
    }
}

impl fmt::Display for ToCSTError {
    ghost use Rattle.cedar_syntax.specs.messages.Messages.{raw_message};

    ghost output = { λ fault. Some (raw_message fault.raw) };

    fn fmt<W: fmt::Write>(&self, f: &mut fmt::Formatter<W>) -> fmt::Result {
        match &self.raw {
            RawFault::InvalidToken { .. } => f.write_str("invalid token"),
            RawFault::UnrecognizedToken { token, .. } => write!(f, "unexpected token `{token}`"),
            RawFault::UnrecognizedEof { .. } => f.write_str("unexpected end of input"),
            RawFault::User { error } => f.write_str(error.node.as_str()),
            RawFault::ExtraToken { token, .. } => write!(f, "extra token `{token}`"),
        }
    }
}

impl Error for ToCSTError {}
