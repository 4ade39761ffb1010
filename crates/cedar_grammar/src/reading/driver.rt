//! Reads a whole text by one rule of the grammar, token after token, with one token of look-ahead.
ghost use Rattle.std.specs.Prelude.{◌≡◌, Some, None, IfOk, MatchResult};
ghost use Rattle.cedar_lexer.specs.Token.{lexeme_of};
ghost use Rattle.cedar_grammar.specs.grammar.WrittenTokens.{IsWritten};
ghost use Rattle.cedar_grammar.specs.faults.FirstFault.{unexpected_fault, early_at, large_at};
ghost use Rattle.cedar_grammar.specs.machines.Machine.{next, machine_of, allowed_by};
ghost use Rattle.cedar_grammar.specs.machines.Judged.{wanted_kinds, IsRead, FailsWith, GivesToken, StopsBadly, StopsAtToken, StopsAtEnd, IsStop};

use crate::reading::expected::{ClosersOnly, expected};
use crate::reading::node_builder::NodeBuilder;
use crate::reading::place::{loc_at, token_extent};
use crate::reading::put::put;
use crate::reading::token_read::TokenRead;
use cedar_expressions::{Source, Text};
use cedar_lexer::lexer::Lexer;
use cedar_lexer::token::{InvalidToken, Token, TokenKind};
use cedar_syntax::err::{Failure, ParseErrors, RawFault, ToCSTError};
use cedar_syntax::node::Node;
use std::alloc::{AllocError, Global};

/// A form of the grammar that is read token after token, as the state of its machine; its tree is
/// a `T`. What is done with a token is decided by its kind and the state's shape (`plan`), and
/// then done (`act`): so a token with which no sentence goes on leaves the state as it was.
pub trait PushParser<T: Drop>: Drop {
    ghost use Rattle.std.specs.Prelude.{◌≡◌, Some, IsTrue, IfOk};
    ghost use Rattle.cedar_lexer.specs.Token.{lexeme_of};
    ghost use Rattle.cedar_grammar.specs.grammar.WrittenTokens.{IsWritten};
    ghost use Rattle.cedar_grammar.specs.machines.Machine.{Reader};
    ghost use Rattle.cedar_grammar.specs.machines.Judged.{done_as};

    /// What is done with a token that is taken: decided once, by its kind alone.
    type Act: Drop + Copy;

    // how the form is read
    ghost reader: { Reader Self Self.Act T };

    /// Before the first token.
    fn start(alloc: Global) -> Self
        ensures { reader.start ≡ result };

    /// Before the first token again. A state that is large and mostly empty is emptied where it
    /// stands.
    #[inline(never)]
    fn restart(&mut self, alloc: Global)
        ensures { reader.start ≡ self.new }
    {
        put(self, Self::start(alloc));
    }

    /// What is done with a first token of this kind, or nothing where none begins with it.
    fn first(kind: TokenKind) -> Option<Self::Act>
        ensures { result ≡ reader.plan reader.start kind };

    /// What is done with a token of this kind, or nothing where no sentence has it next.
    fn plan(&self, kind: TokenKind) -> Option<Self::Act>
        ensures { result ≡ reader.plan self.now kind };

    /// Whether the tree can end here.
    fn ends(&self) -> bool
        ensures { result ≡ reader.ends self.now };

    /// Does with a token what is planned. Nothing is said of the state after want of memory.
    fn act(
        &mut self,
        builder: NodeBuilder<'_>,
        act: Self::Act,
        token: &Token<'_>,
    ) -> Result<TokenRead, AllocError>
        requires written { IsWritten (lexeme_of token.now) }
        requires is_planned { reader.plan self.old token.now.kind ≡ Some act }
        ensures { IfOk result
            (λ read. done_as read self.new ≡
            reader.act builder.entry.source.now self.old act (lexeme_of token.now)) };

    /// The tree, where one can end. Nothing is said of the state behind it.
    fn finish(&mut self, builder: NodeBuilder<'_>) -> Result<T, AllocError>
        requires { IsTrue (reader.ends self.old) }
        ensures { IfOk result
            (λ tree. reader.finish builder.entry.source.now self.old ≡ Some tree) };
}

/// Whether some sentence has this next, a kind of token or the end. A refusal asks it of each kind:
/// inlined there, what is planned isn't made, and no kind takes a call.
#[inline(always)]
pub fn allows<T: Drop, E: PushParser<T>>(state: &E, next: Option<TokenKind>) -> bool
    ensures { result ≡ allowed_by E.reader state.now next }
{
    match next {
        Some(kind) => state.plan(kind).is_some(),
        None => state.ends(),
    }
}

/// The recorded words for a number that 64 bits don't hold.
const TOO_LARGE: &str = "integer parse error: number too large to fit in target type";

/// The refusal of a text for one fault.
#[cold]
pub fn failure(alloc: Global, source: &Source, raw: RawFault) -> Failure
    ensures { FailsWith source.now raw result }
{
    match source.share() {
        Ok(src) => Failure::Errors(ParseErrors::from_cst(alloc, ToCSTError { raw, src })),
        Err(error) => Failure::Memory(error),
    }
}

/// No sentence goes on with this token.
#[cold]
pub fn unexpected<T: Drop, E: PushParser<T>>(
    alloc: Global,
    state: &E,
    narrowing: ClosersOnly,
    token: &Token<'_>,
) -> Result<RawFault, AllocError>
    ensures { IfOk result
        (λ raw. raw ≡ unexpected_fault (lexeme_of token.now)
        (wanted_kinds (allowed_by E.reader state.now) narrowing (Some token.now.kind))) }
{
    let expected = expected::<T, E>(alloc, state, narrowing, Some(token.kind))?;
    Ok(RawFault::UnrecognizedToken {
        start: token.start,
        end: token.end,
        token: Text::from_str(alloc, token.text)?,
        expected,
    })
}

/// No sentence ends at the end of the text, which stands at this place.
#[cold]
pub fn early<T: Drop, E: PushParser<T>>(
    alloc: Global,
    state: &E,
    narrowing: ClosersOnly,
    end: usize,
) -> Result<RawFault, AllocError>
    ensures { IfOk result
        (λ raw. raw ≡ early_at end (wanted_kinds (allowed_by E.reader state.now)
        narrowing None)) }
{
    let expected = expected::<T, E>(alloc, state, narrowing, None)?;
    Ok(RawFault::UnrecognizedEof {
        location: end,
        expected,
    })
}

/// This token is a number past 64 bits.
#[cold]
pub fn large_number(
    alloc: Global,
    source: &Source,
    token: &Token<'_>,
) -> Result<RawFault, AllocError>
    ensures { IfOk result (λ raw. raw ≡ large_at source.now (lexeme_of token.now)) }
{
    let text = Text::from_str(alloc, TOO_LARGE)?;
    let loc = loc_at(source, Some(token_extent(token)))?;
    Ok(RawFault::User {
        error: Node { node: text, loc },
    })
}

/// The next token of the text, or none at its end.
#[inline(always)]
pub fn next_token<'a>(
    alloc: Global,
    source: &Source,
    lexer: &mut Lexer<'a>,
) -> Result<Option<Token<'a>>, Failure>
    ensures { MatchResult result (λ ahead. GivesToken lexer.old ahead lexer.new)
        (λ f. StopsBadly source.now lexer.old f) }
{
    match lexer.next() {
        Some(Ok(token)) => Ok(Some(token)),
        Some(Err(InvalidToken { location })) => {
            Err(failure(alloc, source, RawFault::InvalidToken { location }))
        }
        None => Ok(None),
    }
}

/// The refusal of a text for a token with which no sentence goes on.
#[cold]
fn refuse<T: Drop, E: PushParser<T>>(
    alloc: Global,
    source: &Source,
    narrowing: ClosersOnly,
    state: &E,
    token: &Token<'_>,
) -> Failure
    requires { E.reader.plan state.now token.now.kind ≡ None }
    ensures { StopsAtToken (machine_of source.now E.reader) (allowed_by E.reader) narrowing
        source.now state.now (lexeme_of token.now) result }
{
    match unexpected::<T, E>(alloc, state, narrowing, token) {
        Ok(raw) => failure(alloc, source, raw),
        Err(error) => Failure::Memory(error),
    }
}

/// The refusal of a text for a number past 64 bits.
#[cold]
fn refuse_number(alloc: Global, source: &Source, token: &Token<'_>) -> Failure
    ensures { FailsWith source.now (large_at source.now (lexeme_of token.now)) result }
{
    match large_number(alloc, source, token) {
        Ok(raw) => failure(alloc, source, raw),
        Err(error) => Failure::Memory(error),
    }
}

/// The tree at the end of the text.
fn conclude<T: Drop, E: PushParser<T>>(
    alloc: Global,
    source: &Source,
    narrowing: ClosersOnly,
    mut state: E,
    end: usize,
) -> Result<T, Failure>
    ensures { MatchResult result (λ x. (machine_of source.now E.reader).finish state ≡ Some x)
        (λ f. StopsAtEnd (machine_of source.now E.reader) (allowed_by E.reader) narrowing
        source.now state end f) }
{
    if !state.ends() {
        let raw = early::<T, E>(alloc, &state, narrowing, end)?;
        return Err(failure(alloc, source, raw));
    }
    Ok(state.finish(NodeBuilder { alloc, source })?)
}

/// Reads the text, of which the source is a copy, to its end.
fn read<T: Drop, E: PushParser<T>>(
    alloc: Global,
    source: &Source,
    text: &str,
    narrowing: ClosersOnly,
) -> Result<T, Failure>
    requires { source.now ≡ text.now }
    ensures { MatchResult result (λ x. IsRead (machine_of source.now E.reader) source.now x)
        (λ f. IsStop (machine_of source.now E.reader) (allowed_by E.reader) narrowing source.now
        f) }
{
    let mut lexer = Lexer::new(text);
    let mut state = E::start(alloc);
    let mut end = 0;
    loop {
        match &lexer.next() {
            Some(Ok(token)) => {
                let Some(act) = state.plan(token.kind) else {
                    return Err(refuse::<T, E>(alloc, source, narrowing, &state, token));
                };
                match state.act(NodeBuilder { alloc, source }, act, token)? {
                    TokenRead::Done => end = token.end,
                    TokenRead::TooLarge => return Err(refuse_number(alloc, source, token)),
                }
            }
            Some(Err(bad)) => {
                let location = bad.location;
                return Err(failure(alloc, source, RawFault::InvalidToken { location }));
            }
            None => return conclude::<T, E>(alloc, source, narrowing, state, end),
        }
    }
}

/// The tree that a text has by this rule.
pub fn parse<T: Drop, E: PushParser<T>>(
    alloc: Global,
    text: &str,
    narrowing: ClosersOnly,
) -> Result<T, Failure>
    ensures { MatchResult result (λ x. IsRead (machine_of text.now E.reader) text.now x)
        (λ f. IsStop (machine_of text.now E.reader) (allowed_by E.reader) narrowing text.now f) }
{
    let source = Source::from_str(alloc, text)?;
    read::<T, E>(alloc, &source, text, narrowing)
}
