//! What is looked at to find a fault's hint: its kind, and the words beside its token.
ghost use Rattle.std.specs.Prelude.{◌≡◌};
ghost use Rattle.cedar_report.specs.Findings.{kinds_expected};

use crate::code::code_of;
use crate::near::Near;
use crate::tokens::Tokens;
use cedar_lexer::token::TokenKind;
use cedar_syntax::err::{ParseError, RawFault, ToASTErrorKind};

/// A fault with what is looked at.
#[derive(Clone, Copy)]
pub struct Sight<'a> {
    /// the name of its kind
    pub code: &'static str,
    pub fault: &'a ParseError,
    /// its bytes
    pub start: usize,
    pub end: usize,
    /// the token at its first byte; their count where none begins there
    pub first: usize,
    /// the token of the name that the fault speaks of
    pub named: Option<usize>,
}

impl<'a> Sight<'a> {
    /// A fault that stands at these bytes. Of faults with one range the names are told in turn:
    /// `chain` is where the one before began, and its name's token.
    pub fn of(
        tokens: &Tokens<'_>,
        fault: &'a ParseError,
        bytes: (usize, usize),
        chain: Option<(usize, usize)>,
    ) -> Sight<'a>
        ensures start { result.start ≡ bytes.0 }
        ensures end { result.end ≡ bytes.1 }
    {
        let (start, end) = bytes;
        let first = if is_invalid(fault) {
            tokens.len()
        } else {
            tokens.at(start)
        };
        let from = match chain {
            Some((before, name)) if before == start => name.saturating_add(1),
            _ => first,
        };
        Sight {
            code: code_of(fault),
            fault,
            start,
            end,
            first,
            named: named(tokens, fault, from, end),
        }
    }

    /// The kinds that could have stood where the fault stands.
    pub fn kinds(&self) -> &'a [TokenKind] {
        kinds_of(self.fault)
    }

    /// Whether no token begins where the fault stands.
    pub fn is_invalid(&self) -> bool {
        is_invalid(self.fault)
    }

    /// Whether the text has no tree.
    pub fn is_of_text(&self) -> bool {
        matches!(self.fault, ParseError::ToCST(_))
    }

    /// The token at the fault's first byte with those beside it, or what stands at a bad place.
    pub fn near<'t>(&self, tokens: &Tokens<'t>) -> Near<'t> {
        if self.is_invalid() {
            Near::invalid(tokens, self.start)
        } else {
            Near::token(tokens, self.first)
        }
    }

    /// The token of the operator that the fault speaks of, within the fault's bytes.
    pub fn operator(&self, tokens: &Tokens<'_>) -> Option<usize> {
        match self.code {
            "InvalidSingleEq" => tokens.find(self.first, self.end, "="),
            "UnsupportedDivision" => tokens.find(self.first, self.end, "/"),
            "UnsupportedModulo" => tokens.find(self.first, self.end, "%"),
            _ => None,
        }
    }
}

// The token of the name that a fault speaks of: called by it, from a token up to a byte, and not in
// another call's arguments.
fn named(tokens: &Tokens<'_>, fault: &ParseError, from: usize, end: usize) -> Option<usize> {
    let (name, is_method) = name_of(fault)?;
    let mut at = from;
    for _ in from..tokens.len() {
        let index = tokens.find(at, end, name)?;
        at = index.saturating_add(1);
        let is_behind_dot = tokens.word_before(index, 1) == ".";
        if tokens.word(at) == "(" && is_behind_dot == is_method {
            return Some(index);
        }
    }
    None
}

/// The kinds that could have stood where a fault stands.
pub fn kinds_of(fault: &ParseError) -> &[TokenKind]
    ensures { result.now ≡ kinds_expected fault.now }
{
    match fault {
        ParseError::ToCST(fault) => fault.expected_kinds(),
        ParseError::ToAST(_) => &[],
    }
}

fn is_invalid(fault: &ParseError) -> bool {
    match fault {
        ParseError::ToCST(fault) => matches!(fault.raw(), RawFault::InvalidToken { .. }),
        ParseError::ToAST(_) => false,
    }
}

// The name that a fault speaks of, and whether it is called as a method.
fn name_of(fault: &ParseError) -> Option<(&str, bool)> {
    match fault {
        ParseError::ToCST(_) => None,
        ParseError::ToAST(fault) => name_of_kind(fault.kind()),
    }
}

fn name_of_kind(kind: &ToASTErrorKind) -> Option<(&str, bool)> {
    match kind {
        ToASTErrorKind::UnknownMethod { id, .. } => Some((id.as_str(), true)),
        ToASTErrorKind::MethodCallOnFunction(id) => Some((id.as_str(), true)),
        ToASTErrorKind::NoMethods(_, id) => Some((id.as_str(), true)),
        ToASTErrorKind::FunctionCallOnMethod(id) => Some((id.as_str(), false)),
        ToASTErrorKind::UnknownFunction { id, .. } => Some((id.basename().as_str(), false)),
        ToASTErrorKind::WrongArity { name, .. } => Some((*name, true)),
        _ => None,
    }
}
