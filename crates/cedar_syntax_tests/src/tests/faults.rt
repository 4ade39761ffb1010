//! Faults of escapes, of texts and of trees, alone, in lists and joined.
use super::assertions::{agrees, copies, equal, holds, made, refusal, says, says_and_copies};
use super::names::text;
use super::places::{POLICY, place};
use cedar_expressions::{Items, Source};
use cedar_lexer::token::TokenKind;
use cedar_syntax::err::{
    EscapeError, Failure, NonEmpty, ParseError, ParseErrors, RawFault, ToASTError, ToASTErrorKind,
    ToCSTError, UnescapeError, UnescapeFailure,
};
use cedar_syntax::loc::SourceSpan;
use cedar_syntax::node::Node;
use cedar_syntax::util::{flatten_tuple_2, flatten_tuple_3, flatten_tuple_4};
use std::alloc::AllocError;
use std::process::Abort;
use std::rc::RcStr;

/// A raw text with two faults.
const RAW: &str = "abc\\*\\bdef";

/// The message of its first fault.
const FIRST_MESSAGE: &str = "the input `\\*` is not a valid escape";

/// The fault of the escape `\*`.
fn first_escape(rt: &(impl Abort + AllocGlobal)) -> UnescapeError {
    let raw = made(rt, String::from_str(rt.alloc(), RAW));
    let kind = EscapeError::InvalidEscape;
    made(rt, UnescapeError::new(rt.alloc(), kind, raw, 3..5))
}

/// Both faults in order.
fn both_escapes(rt: &(impl Abort + AllocGlobal)) -> NonEmpty<UnescapeError> {
    let raw = made(rt, Source::from_str(rt.alloc(), RAW));
    let second = UnescapeError::in_source(EscapeError::InvalidEscape, raw, 5..7);
    let mut faults = NonEmpty::new(rt.alloc(), first_escape(rt));
    made(rt, faults.push(second));
    faults
}

/// Whether the fault is of that kind, in the raw text, and of two bytes from this one on.
fn is_in_raw(fault: &UnescapeError, start: usize) -> bool {
    let range = fault.range();
    fault.kind() == EscapeError::InvalidEscape
        && range.start == start
        && range.len() == 2
        && fault.input() == RAW
}

/// Both faults tell their piece.
fn tell_their_piece(rt: &impl Abort, faults: &NonEmpty<UnescapeError>) {
    holds(rt, faults.len() == 2);
    for (fault, start) in faults.iter().zip(&[3, 5]) {
        holds(rt, is_in_raw(fault, *start));
    }
}

#[test]
fn escape_faults_tell_their_piece(rt: HostRuntime) {
    let faults = both_escapes(&rt);
    tell_their_piece(&rt, &faults);
    drop(faults);
    let kind = ToASTErrorKind::from(first_escape(&rt));
    says(&rt, kind, FIRST_MESSAGE);
}

#[test]
fn escape_faults_are_copied(rt: HostRuntime) {
    copies(&rt, EscapeError::LoneSlash);
    says_and_copies(&rt, first_escape(&rt), FIRST_MESSAGE);
    copies(&rt, both_escapes(&rt));
    let failure = UnescapeFailure::from(both_escapes(&rt));
    says_and_copies(&rt, failure, FIRST_MESSAGE);
}

#[test]
fn want_of_memory_is_told(rt: HostRuntime) {
    says(&rt, UnescapeFailure::from(AllocError), "want of memory");
    says(&rt, Failure::from(AllocError), "want of memory");
}

/// What is wrong with a text, as its fault.
pub(super) fn in_text(rt: &(impl Abort + AllocGlobal), raw: RawFault, text: &str) -> ToCSTError {
    ToCSTError::new(raw, made(rt, RcStr::from_str(rt.alloc(), text)))
}

/// The fault of a text that ends early.
fn early_end(rt: &(impl Abort + AllocGlobal)) -> ToCSTError {
    let mut expected = Items::new(rt.alloc());
    made(rt, expected.push(TokenKind::Identifier));
    let raw = RawFault::UnrecognizedEof {
        location: 4,
        expected,
    };
    in_text(rt, raw, "1 + ")
}

/// The fault of a token that can't stand there.
fn stray_token(rt: &(impl Abort + AllocGlobal)) -> ToCSTError {
    let raw = RawFault::UnrecognizedToken {
        start: 0,
        end: 1,
        token: text(rt, ")"),
        expected: Items::new(rt.alloc()),
    };
    in_text(rt, raw, ") ~")
}

/// The fault of a token that stands behind the end of a text.
fn extra_token(rt: &(impl Abort + AllocGlobal)) -> ToCSTError {
    let raw = RawFault::ExtraToken {
        start: 2,
        end: 3,
        token: text(rt, "2"),
    };
    in_text(rt, raw, "1 2")
}

/// A fault of the user's from this byte to the third.
fn too_large(rt: &(impl Abort + AllocGlobal), start: usize) -> RawFault {
    RawFault::User {
        error: Node::with_source_loc(text(rt, "too large"), place(rt, start, 3)),
    }
}

/// The fault is at this place, expects these kinds and says this.
fn is_told(
    rt: &(impl Abort + AllocGlobal),
    fault: ToCSTError,
    (start, end): (usize, usize),
    expected: &[TokenKind],
    message: &str,
) {
    let span = SourceSpan::between(start, end);
    holds(rt, fault.primary_source_span() == Some(span));
    holds(rt, fault.expected_kinds() == expected);
    says_and_copies(rt, fault, message);
}

#[test]
fn faults_of_texts_have_their_place_and_message(rt: HostRuntime) {
    let kinds = [TokenKind::Identifier];
    is_told(
        &rt,
        early_end(&rt),
        (4, 4),
        &kinds,
        "unexpected end of input",
    );
    is_told(&rt, stray_token(&rt), (0, 1), &[], "unexpected token `)`");
    is_told(&rt, extra_token(&rt), (2, 3), &[], "extra token `2`");
    let invalid = in_text(&rt, RawFault::InvalidToken { location: 2 }, "1 ~");
    is_told(&rt, invalid, (2, 2), &[], "invalid token");
    let large = in_text(&rt, too_large(&rt, 1), POLICY);
    is_told(&rt, large, (1, 3), &[], "too large");
}

#[test]
fn raw_faults_are_equal_at_one_place_alone(rt: HostRuntime) {
    copies(&rt, too_large(&rt, 0));
    holds(&rt, !equal(too_large(&rt, 0), too_large(&rt, 1)));
}

/// The fault of a number that is too large, from this byte to the tenth.
fn large_number(rt: &(impl Abort + AllocGlobal), start: usize) -> ToASTError {
    let kind = ToASTErrorKind::IntegerLiteralTooLarge(18446744073709551615);
    ToASTError::new(kind, Some(place(rt, start, 10)))
}

/// A number that is too large, the end of a text, and another such number, each made another way.
pub(super) fn three_faults(rt: &(impl Abort + AllocGlobal)) -> ParseErrors {
    let mut faults = ParseErrors::from_ast(rt.alloc(), large_number(rt, 3));
    let second = ParseErrors::from_cst(rt.alloc(), early_end(rt));
    made(rt, faults.extend(second));
    let last = ParseErrors::from_parse_error(rt.alloc(), ParseError::from(large_number(rt, 9)));
    made(rt, faults.extend(last));
    faults
}

/// What a list of them says: what its first fault says.
const LARGE: &str = "integer literal `18446744073709551615` is too large";

/// Whether the fault's place begins at this byte.
fn starts_at(fault: &ParseError, start: usize) -> bool {
    match fault.primary_source_span() {
        Some(span) => span.offset() == start,
        None => false,
    }
}

/// The three faults stand there, in this order.
fn stand_in_order(rt: &impl Abort, faults: &ParseErrors) {
    holds(rt, faults.len() == 3);
    for (fault, start) in faults.iter().zip(&[3, 4, 9]) {
        holds(rt, starts_at(fault, *start));
    }
}

/// There are three faults to iterate over, of which the first is the one that it is read as.
fn have_a_first(rt: &impl Abort, faults: &ParseErrors) {
    holds(rt, faults.iter().count() == 3);
    holds(rt, faults.get(0) == Some(faults.first()));
    holds(rt, faults.get(3).is_none());
}

/// Whether the last of the faults, which are handed on one by one, begins at this byte.
fn ends_at(faults: ParseErrors, start: usize) -> bool {
    let last = faults.into_iter().last();
    let ends = match &last {
        Some(fault) => starts_at(fault, start),
        None => false,
    };
    drop(last);
    ends
}

#[test]
fn a_list_of_faults_keeps_their_order(rt: HostRuntime) {
    holds(&rt, ends_at(three_faults(&rt), 9));
    let faults = three_faults(&rt);
    stand_in_order(&rt, &faults);
    have_a_first(&rt, &faults);
    says(&rt, faults, LARGE);
}

#[test]
fn faults_of_trees_are_copied(rt: HostRuntime) {
    copies(&rt, large_number(&rt, 3));
    copies(&rt, ParseError::from(large_number(&rt, 3)));
    copies(&rt, three_faults(&rt));
    says_and_copies(&rt, Failure::from(three_faults(&rt)), LARGE);
}

/// This is told beside a fault; nothing where the empty text is wanted.
fn is_told_beside(rt: &impl Abort, told: Result<Option<String>, AllocError>, wanted: &str) {
    let told = made(rt, told);
    match &told {
        Some(text) => holds(rt, text.as_str() == wanted),
        None => holds(rt, wanted.is_empty()),
    }
    drop(told);
}

/// The fault of a quote of the wrong kind.
fn single_quote(rt: &(impl Abort + AllocGlobal)) -> ToCSTError {
    in_text(rt, RawFault::InvalidToken { location: 0 }, "'a'")
}

const QUOTE_HELP: &str = "strings must use double quotes, not single quotes";

#[test]
fn faults_of_texts_tell_their_label_and_their_hint(rt: HostRuntime) {
    let early = early_end(&rt);
    is_told_beside(&rt, early.label(rt.alloc()), "expected identifier");
    is_told_beside(&rt, early.help(rt.alloc()), "");
    drop(early);
    let quote = single_quote(&rt);
    is_told_beside(&rt, quote.label(rt.alloc()), "");
    is_told_beside(&rt, quote.help(rt.alloc()), QUOTE_HELP);
    drop(quote);
}

#[test]
fn faults_tell_the_label_and_the_hint_of_what_they_hold(rt: HostRuntime) {
    let early = ParseError::from(early_end(&rt));
    is_told_beside(&rt, early.label(rt.alloc()), "expected identifier");
    is_told_beside(&rt, early.help(rt.alloc()), "");
    drop(early);
    let quote = ParseError::from(single_quote(&rt));
    is_told_beside(&rt, quote.help(rt.alloc()), QUOTE_HELP);
    drop(quote);
    let large = ParseError::from(large_number(&rt, 3));
    is_told_beside(&rt, large.label(rt.alloc()), "");
    is_told_beside(
        &rt,
        large.help(rt.alloc()),
        "the largest number is 9223372036854775807",
    );
    drop(large);
}

/// Whether the fault is of ambiguous operators at 43..49.
fn is_of_that_node(told: &ToASTError) -> bool {
    *told.kind() == ToASTErrorKind::AmbiguousOperators
        && told.span() == Some(SourceSpan::between(43, 49))
}

#[test]
fn a_node_tells_a_fault_at_its_place(rt: HostRuntime) {
    let node = Node::with_source_loc(7, place(&rt, 43, 49));
    let told = made(&rt, node.to_ast_err(ToASTErrorKind::AmbiguousOperators));
    holds(&rt, is_of_that_node(&told));
    drop((node, told));
}

#[test]
fn lists_are_put_one_after_another(rt: HostRuntime) {
    let mut numbers = NonEmpty::new(rt.alloc(), 1);
    made(&rt, numbers.push(2));
    let mut more = NonEmpty::new(rt.alloc(), 3);
    made(&rt, more.push(4));
    made(&rt, numbers.append(more));
    holds(&rt, numbers.iter().eq([1, 2, 3, 4].iter()));
    drop(numbers);
}

/// A part that fails with a fault for each number, or is the value 7 where there is none.
fn part(rt: &(impl Abort + AllocGlobal), numbers: &[u64]) -> Result<u8, Failure> {
    let Some((first, others)) = numbers.split_first() else {
        return Ok(7);
    };
    let mut faults = ParseErrors::from_parse_error(rt.alloc(), fault(*first));
    for number in others {
        made(rt, faults.as_mut().push(fault(*number)));
    }
    Err(Failure::Errors(faults))
}

/// A fault that has this number.
fn fault(number: u64) -> ParseError {
    ParseError::ToAST(ToASTError::new(ToASTErrorKind::IntegerLiteralTooLarge(number), None))
}

/// The faults of two parts, and those of both.
const JOINED: [(&[u64], &[u64], &[u64]); 4] = [
    (&[1], &[], &[1]),
    (&[], &[2], &[2]),
    (&[1], &[2], &[1, 2]),
    (&[1, 2], &[3, 4], &[1, 2, 3, 4]),
];

#[test]
fn failing_parts_tell_all_their_faults_in_order(rt: HostRuntime) {
    for (first, second, both) in &JOINED {
        let told = flatten_tuple_2(part(&rt, first), part(&rt, second)).err();
        agrees(&rt, told, part(&rt, both).err(), "parts joined");
    }
}

/// The answer is want of memory.
fn wants<T: Drop>(rt: &impl Abort, joined: Result<T, Failure>) {
    let failure = refusal(rt, joined);
    holds(rt, matches!(failure, Failure::Memory(_)));
    drop(failure);
}

#[test]
fn values_are_joined_and_want_of_memory_is_the_answer(rt: HostRuntime) {
    let joined = flatten_tuple_2(part(&rt, &[]), part(&rt, &[]));
    holds(&rt, made(&rt, joined) == (7, 7));
    wants(&rt, flatten_tuple_2(part(&rt, &[1]), wants_memory()));
    wants(&rt, flatten_tuple_2(wants_memory(), part(&rt, &[1])));
}

#[test]
fn three_and_four_parts_are_joined(rt: HostRuntime) {
    let told = flatten_tuple_3(part(&rt, &[1]), part(&rt, &[]), part(&rt, &[2, 3])).err();
    agrees(&rt, told, part(&rt, &[1, 2, 3]).err(), "three parts");
    let last = part(&rt, &[3]);
    let told = flatten_tuple_4(part(&rt, &[1]), part(&rt, &[]), part(&rt, &[2]), last).err();
    agrees(&rt, told, part(&rt, &[1, 2, 3]).err(), "four parts");
    let (one, another) = (part(&rt, &[]), part(&rt, &[]));
    wants(&rt, flatten_tuple_3(part(&rt, &[1]), wants_memory(), one));
    wants(
        &rt,
        flatten_tuple_4(another, part(&rt, &[1]), part(&rt, &[2]), wants_memory()),
    );
}

#[test]
fn three_and_four_values_are_joined(rt: HostRuntime) {
    let three = flatten_tuple_3(part(&rt, &[]), part(&rt, &[]), part(&rt, &[]));
    holds(&rt, made(&rt, three) == (7, 7, 7));
    let last = part(&rt, &[]);
    let four = flatten_tuple_4(part(&rt, &[]), part(&rt, &[]), part(&rt, &[]), last);
    holds(&rt, made(&rt, four) == (7, 7, 7, 7));
}

/// A part that wants memory.
fn wants_memory() -> Result<u8, Failure> {
    Err(Failure::Memory(AllocError))
}
