//! What the parser and the conversion make of tokens and of raw texts.
use super::assertions::{agrees, holds, made, refusal, says};
use super::faults::in_text;
use super::names::text;
use super::places::{POLICY, place};
use cedar_expressions::{Items, PatternElem, Source, Text};
use cedar_grammar::reading::driver::{failure, large_number, next_token};
use cedar_grammar::reading::extent::Extent;
use cedar_grammar::reading::identifier::as_ident;
use cedar_grammar::reading::mending::FromRawFault;
use cedar_grammar::reading::place::{loc_at, node_at};
use cedar_lexer::lexer::Lexer;
use cedar_lexer::token::{Token, TokenKind};
use cedar_syntax::cst::Ident;
use cedar_syntax::err::{ParseError, RawFault};
use cedar_syntax::loc::SourceSpan;
use cedar_syntax::node::Node;
use cedar_syntax::stack::Stack;
use cedar_syntax::unescape::{to_pattern, to_unescaped_string};
use std::process::Abort;

#[test]
fn tokens_are_read_as_identifiers(rt: HostRuntime) {
    let word = made(&rt, as_ident(rt.alloc(), TokenKind::Identifier, "a"));
    agrees(&rt, word, Some(Ident::Ident(text(&rt, "a"))), "a");
    let word = made(&rt, as_ident(rt.alloc(), TokenKind::If, "if"));
    agrees(&rt, word, Some(Ident::If), "if");
    let number = made(&rt, as_ident(rt.alloc(), TokenKind::Number, "1"));
    agrees(&rt, number, None, "1");
}

/// The policy's text, shared.
fn source(rt: &(impl Abort + AllocGlobal)) -> Source {
    made(rt, Source::from_str(rt.alloc(), POLICY))
}

/// Bytes of the policy.
const BYTES: Extent = Extent { start: 43, end: 49 };

#[test]
fn bytes_of_a_source_are_a_place(rt: HostRuntime) {
    let source = source(&rt);
    let loc = made(&rt, loc_at(&source, Some(BYTES)));
    agrees(&rt, loc, Some(place(&rt, 43, 49)), "a place");
    agrees(&rt, made(&rt, loc_at(&source, None)), None, "no place");
    let node = made(&rt, node_at(&source, Some(BYTES), 7));
    let (value, loc) = node.into_inner();
    holds(&rt, value == Some(7));
    agrees(&rt, loc, Some(place(&rt, 43, 49)), "the place of a node");
    drop(source);
}

#[test]
fn a_stack_gives_its_newest_element(rt: HostRuntime) {
    let mut stack = Stack::new(rt.alloc());
    made(&rt, stack.push(1));
    made(&rt, stack.push(2));
    holds(&rt, stack.top().copied() == Some(2));
    holds(&rt, stack.pop() == Some(2));
    holds(&rt, stack.pop() == Some(1));
    holds(&rt, stack.pop().is_none());
    drop(stack);
}

/// Whether it is a number.
fn is_number(token: Option<Token<'_>>) -> bool {
    match token {
        Some(token) => token.kind == TokenKind::Number,
        None => false,
    }
}

#[test]
fn tokens_are_handed_on_and_a_bad_place_is_refused(rt: HostRuntime) {
    let source = made(&rt, Source::from_str(rt.alloc(), "1 ~"));
    let mut lexer = Lexer::new("1 ~");
    let token = made(&rt, next_token(rt.alloc(), &source, &mut lexer));
    holds(&rt, is_number(token));
    let refused = refusal(&rt, next_token(rt.alloc(), &source, &mut lexer));
    says(&rt, refused, "invalid token");
    let end = made(&rt, next_token(rt.alloc(), &source, &mut lexer));
    holds(&rt, end.is_none());
    drop(source);
}

#[test]
fn a_number_past_64_bits_is_told_at_its_place(rt: HostRuntime) {
    let source = source(&rt);
    let token = Token {
        kind: TokenKind::Number,
        start: 43,
        end: 49,
        text: "a == b",
    };
    let told = made(&rt, large_number(rt.alloc(), &source, &token));
    let error = Node::with_source_loc(text(&rt, TOO_LARGE), place(&rt, 43, 49));
    agrees(&rt, told, RawFault::User { error }, "too large");
    let told = made(&rt, large_number(rt.alloc(), &source, &token));
    says(&rt, failure(rt.alloc(), &source, told), TOO_LARGE);
    drop(source);
}

/// No token begins at byte 3.
fn bad_place() -> RawFault {
    RawFault::InvalidToken { location: 3 }
}

#[test]
fn a_fault_is_told_of_its_text(rt: HostRuntime) {
    let source = source(&rt);
    let told = made(&rt, ParseError::from_raw(&source, bad_place()));
    let wanted = ParseError::from(in_text(&rt, bad_place(), POLICY));
    agrees(&rt, told, wanted, "a fault of the policy");
    drop(source);
}

/// What is said of such a number.
const TOO_LARGE: &str = "integer parse error: number too large to fit in target type";

#[test]
fn raw_texts_are_unescaped(rt: HostRuntime) {
    let read = made(&rt, to_unescaped_string(rt.alloc(), "a\\n\\u{e9}"));
    let read = made(&rt, Text::from_string(read));
    agrees(&rt, read, text(&rt, "a\né"), "a text");
    let refused = refusal(&rt, to_unescaped_string(rt.alloc(), "a\\*"));
    says(&rt, refused, "the input `\\*` is not a valid escape");
}

#[test]
fn raw_texts_are_read_as_patterns(rt: HostRuntime) {
    let read = made(&rt, to_pattern(rt.alloc(), "*\\*"));
    let mut wanted = Items::new(rt.alloc());
    made(&rt, wanted.push(PatternElem::Wildcard));
    made(&rt, wanted.push(PatternElem::Char('*')));
    agrees(&rt, Items::from(read), wanted, "a pattern");
    let refused = refusal(&rt, to_pattern(rt.alloc(), "a\\q"));
    says(&rt, refused, "the input `\\q` is not a valid escape");
}
