//! Reads a whole text by a rule in which reading goes on behind a fault, and tells all its faults.
ghost use Rattle.std.specs.Prelude.{◌≡◌, ℕ, List, [], Some, None, false, cond, IfOk, MatchResult, MatchOption};
ghost use Rattle.cedar_lexer.specs.Token.{lexeme_of};
ghost use Rattle.cedar_syntax.specs.faults.NonEmpty.{list_of};
ghost use Rattle.cedar_grammar.specs.declared.reading.mending.Phase.TheVariants as phase;
ghost use Rattle.cedar_grammar.specs.faults.MendedFaults.{fault_of, faults_with_last};
ghost use Rattle.cedar_grammar.specs.grammar.WrittenTokens.{IsWritten};
ghost use Rattle.cedar_grammar.specs.machines.Judged.{IsRead};
ghost use Rattle.cedar_grammar.specs.faults.FirstFault.{large_at};
ghost use Rattle.cedar_grammar.specs.machines.Machine.{machine_of, allowed_by};
ghost use Rattle.cedar_grammar.specs.machines.Marks.{mark_of};
ghost use Rattle.cedar_grammar.specs.machines.Recovery.{stopped};
ghost use Rattle.cedar_grammar.specs.machines.Skipping.{skip, skip_answer};
ghost use Rattle.cedar_grammar.specs.machines.Mending.{IsSkipping, IsSkippingBy, mended_stage, stopped_stage, bad_fault, refused_fault, bad_or, recovers_of, stage_of, skip_step_by, judgment_by, recovery_step_by, last_of, met_faults, RefusesWith, IsToldBy, IsTold};

use crate::never;
use crate::reading::driver::{PushParser, early, large_number, unexpected};
use crate::reading::expected::ClosersOnly;
use crate::reading::mark::as_mark;
use crate::reading::node_builder::NodeBuilder;
use crate::reading::recovery::{Recovering, RecoveryWay, Skipping, skip};
use crate::reading::token_read::TokenRead;
use cedar_expressions::{Items, Source};
use cedar_lexer::lexer::Lexer;
use cedar_lexer::token::Token;
use cedar_syntax::err::{Failure, NonEmpty, ParseError, ParseErrors, RawFault, ToCSTError};
use std::alloc::{AllocError, Global};
use std::mem;

/// A fault as it is told of a text.
pub trait FromRawFault: Drop {
    ghost use Rattle.std.specs.Prelude.{◌≡◌, ℕ, List, IfOk};
    ghost use Rattle.cedar_syntax.specs.declared.err.to_cst.RawFault.{RawFault};

    // what is told of a fault of the text
    ghost told: { List ℕ → RawFault → Self };

    /// What is told of this fault of the text.
    fn from_raw(source: &Source, raw: RawFault) -> Result<Self, AllocError>
        ensures { IfOk result (λ fault. fault ≡ told source.now raw) };
}

impl FromRawFault for ParseError {
    ghost use Rattle.cedar_grammar.specs.faults.MendedFaults.{fault_of};

    ghost told = { λ src raw. fault_of src raw };

    fn from_raw(source: &Source, raw: RawFault) -> Result<ParseError, AllocError> {
        let src = source.share()?;
        Ok(ParseError::ToCST(ToCSTError { raw, src }))
    }
}

/// A fault, and how it is left.
#[derive(Drop)]
pub struct FaultInHand<F> {
    pub way: RecoveryWay,
    pub fault: F,
}

/// What is done with the next token.
#[derive(Drop)]
pub enum Phase<F> {
    /// It is read.
    Reading,
    /// It is skipped, to leave a fault.
    Skipping(FaultInHand<F>),
    /// Nothing more: the parse has stopped at this fault.
    Stopped(F),
}

/// What has been read of a text.
#[derive(Drop)]
pub struct Run<E, F> {
    pub state: E,
    /// Where the last token that was read ends.
    pub end: usize,
    /// The faults behind which reading went on.
    pub mended: Items<F>,
    pub phase: Phase<F>,
}

/// Why a text has no tree: there was no memory, or it has these faults.
#[derive(Drop)]
pub enum Refusal<F> {
    Memory(AllocError),
    Faults(NonEmpty<F>),
}

impl<F: Drop> From<AllocError> for Refusal<F> {
    ghost use Rattle.std.specs.Prelude.{◌≡◌, alloc_error};
    ghost use Rattle.cedar_grammar.specs.declared.reading.mending.Refusal.TheVariants as refusal;

    ghost from_gives = { λ _ given. given ≡ refusal.Memory alloc_error };

    fn from(_: AllocError) -> Refusal<F> {
        Refusal::Memory(AllocError)
    }
}

/// Before the first token.
fn begin<T: Drop, E: PushParser<T>, F: FromRawFault>(alloc: Global) -> Run<E, F>
    ensures state { E.reader.start ≡ result.state }
    ensures rest { (result.end ≡ 0) × (result.mended ≡ []) × (result.phase ≡ phase.Reading) }
{
    Run {
        state: E::start(alloc),
        end: 0,
        mended: Items::new(alloc),
        phase: Phase::Reading,
    }
}

/// Skips a token by this way, to leave a fault.
fn leave_by<E: Recovering, F: FromRawFault>(
    alloc: Global,
    run: &mut Run<E, F>,
    way: RecoveryWay,
    token: &Token<'_>,
) -> Skipping
    ensures answer { skip_answer result run.new.state ≡ skip E.closed E.over way run.old.state
        (mark_of token.now.kind) }
    ensures rest { (run.new.end ≡ run.old.end) × (run.new.mended ≡ run.old.mended) ×
        (run.new.phase ≡ run.old.phase) }
{
    skip(alloc, &mut run.state, way, as_mark(token.kind))
}

/// A fault at a token, and what is done with the token to leave it.
#[cold]
fn leave<E: Recovering, F: FromRawFault>(
    alloc: Global,
    run: &mut Run<E, F>,
    pending: FaultInHand<F>,
    token: &Token<'_>,
) -> Result<(), AllocError>
    ensures { IfOk result
        (λ _. stage_of run.new ≡ skip_step_by E.closed E.over run.old.mended pending.way
        run.old.state pending.fault (lexeme_of token.now)) }
{
    match leave_by(alloc, run, pending.way, token) {
        Skipping::On => run.phase = Phase::Skipping(pending),
        Skipping::Over => {
            run.mended.push(pending.fault)?;
            run.end = token.end;
            run.phase = Phase::Reading;
        }
        Skipping::Stop => run.phase = Phase::Stopped(pending.fault),
    }
    Ok(())
}

/// Behind the last token that is skipped: reading goes on.
#[cold]
fn mend<E: Recovering, F: FromRawFault>(run: &mut Run<E, F>, end: usize) -> Result<(), AllocError>
    requires { IsSkipping run.old.phase }
    ensures { IfOk result (λ _. stage_of run.new ≡ mended_stage run.old end) }
{
    match mem::replace(&mut run.phase, Phase::Reading) {
        Phase::Skipping(pending) => {
            run.end = end;
            run.mended.push(pending.fault)
        }
        Phase::Reading | Phase::Stopped(_) => never!(),
    }
}

/// Behind a token at which skipping stops: nothing more is read.
#[cold]
fn stop<E: Recovering, F: FromRawFault>(run: &mut Run<E, F>)
    requires { IsSkipping run.old.phase }
    ensures { stage_of run.new ≡ stopped_stage run.old }
{
    match mem::replace(&mut run.phase, Phase::Reading) {
        Phase::Skipping(pending) => run.phase = Phase::Stopped(pending.fault),
        Phase::Reading | Phase::Stopped(_) => never!(),
    }
}

/// Skips one more token; the fault stays where it is until it is left.
fn skip_on<E: Recovering, F: FromRawFault>(
    alloc: Global,
    run: &mut Run<E, F>,
    way: RecoveryWay,
    token: &Token<'_>,
) -> Result<(), AllocError>
    requires { IsSkippingBy way run.old.phase }
    ensures { IfOk result
        (λ _. (pending : _) → run.old.phase ≡ phase.Skipping pending →
        stage_of run.new ≡ skip_step_by E.closed E.over run.old.mended way run.old.state
        pending.fault (lexeme_of token.now)) }
{
    match leave_by(alloc, run, way, token) {
        Skipping::On => Ok(()),
        Skipping::Over => mend(run, token.end),
        Skipping::Stop => {
            stop(run);
            Ok(())
        }
    }
}

/// A token with which no sentence goes on.
#[cold]
fn refuse<T: Drop, E: PushParser<T> + Recovering, F: FromRawFault>(
    alloc: Global,
    source: &Source,
    run: &mut Run<E, F>,
    token: &Token<'_>,
) -> Result<(), AllocError>
    requires { E.reader.plan run.old.state token.now.kind ≡ None }
    ensures { IfOk result
        (λ _. stage_of run.new ≡ judgment_by false
        (recovers_of (allowed_by E.reader) E.left E.closed E.over F.told source.now)
        run.old.mended run.old.end run.old.state (lexeme_of token.now)
        ((machine_of source.now E.reader).step run.old.state (lexeme_of token.now))) }
{
    let raw = unexpected::<T, E>(alloc, &run.state, ClosersOnly::Tokens, token)?;
    let fault = F::from_raw(source, raw)?;
    let way = run.state.way();
    leave(alloc, run, FaultInHand { way, fault }, token)
}

/// A number past 64 bits, where a number may stand: nothing more is read.
#[cold]
fn refuse_number<E: Recovering, F: FromRawFault>(
    alloc: Global,
    source: &Source,
    run: &mut Run<E, F>,
    token: &Token<'_>,
) -> Result<(), AllocError>
    ensures { IfOk result
        (λ _. stage_of run.new ≡ stopped run.old.mended
        (F.told source.now (large_at source.now (lexeme_of token.now)))) }
{
    let raw = large_number(alloc, source, token)?;
    run.phase = Phase::Stopped(F::from_raw(source, raw)?);
    Ok(())
}

/// Reads a token.
#[inline(always)]
fn judge<T: Drop, E: PushParser<T> + Recovering, F: FromRawFault>(
    alloc: Global,
    source: &Source,
    run: &mut Run<E, F>,
    token: &Token<'_>,
) -> Result<(), AllocError>
    requires written { IsWritten (lexeme_of token.now) }
    requires reading { run.old.phase ≡ phase.Reading }
    ensures { IfOk result
        (λ _. stage_of run.new ≡ judgment_by
        (allowed_by E.reader run.old.state (Some token.now.kind))
        (recovers_of (allowed_by E.reader) E.left E.closed E.over F.told source.now)
        run.old.mended run.old.end run.old.state (lexeme_of token.now)
        ((machine_of source.now E.reader).step run.old.state (lexeme_of token.now))) }
{
    let Some(act) = run.state.plan(token.kind) else {
        return refuse::<T, E, F>(alloc, source, run, token);
    };
    match run.state.act(NodeBuilder { alloc, source }, act, token)? {
        TokenRead::Done => {
            run.end = token.end;
            Ok(())
        }
        TokenRead::TooLarge => refuse_number(alloc, source, run, token),
    }
}

/// One more token.
#[inline(always)]
fn step<T: Drop, E: PushParser<T> + Recovering, F: FromRawFault>(
    alloc: Global,
    source: &Source,
    run: &mut Run<E, F>,
    token: &Token<'_>,
) -> Result<(), AllocError>
    requires { IsWritten (lexeme_of token.now) }
    ensures { IfOk result
        (λ _. stage_of run.new ≡ recovery_step_by (machine_of source.now E.reader)
        (allowed_by E.reader)
        (recovers_of (allowed_by E.reader) E.left E.closed E.over F.told source.now)
        (stage_of run.old) (lexeme_of token.now)) }
{
    match &run.phase {
        Phase::Reading => judge::<T, E, F>(alloc, source, run, token),
        Phase::Skipping(pending) => {
            let way = pending.way;
            skip_on(alloc, run, way, token)
        }
        Phase::Stopped(_) => Ok(()),
    }
}

/// The fault of the end, if the text can't end there.
fn end_fault<T: Drop, E: PushParser<T>, F: FromRawFault>(
    alloc: Global,
    source: &Source,
    run: &Run<E, F>,
) -> Result<Option<F>, AllocError>
    ensures { IfOk result
        (λ last. last ≡ cond (E.reader.ends run.now.state) None
        (Some (refused_fault F.told (allowed_by E.reader run.now.state) source.now
        run.now.end None))) }
{
    if run.state.ends() {
        return Ok(None);
    }
    let raw = early::<T, E>(alloc, &run.state, ClosersOnly::Tokens, run.end)?;
    Ok(Some(F::from_raw(source, raw)?))
}

/// The fault of a bad place, or the one in hand.
fn bad_or<F: FromRawFault>(source: &Source, bad: Option<usize>, fault: F) -> Result<F, AllocError>
    ensures { IfOk result (λ last. last ≡ bad_or F.told source.now bad fault) }
{
    match bad {
        Some(location) => F::from_raw(source, RawFault::InvalidToken { location }),
        None => Ok(fault),
    }
}

/// The fault at which the parse stops, if there is one: at the end, or at a bad place.
fn last_fault<T: Drop, E: PushParser<T> + Recovering, F: FromRawFault>(
    alloc: Global,
    source: &Source,
    run: &mut Run<E, F>,
    bad: Option<usize>,
) -> Result<Option<F>, AllocError>
    ensures last { IfOk result
        (λ last. last ≡ last_of (allowed_by E.reader)
        (recovers_of (allowed_by E.reader) E.left E.closed E.over F.told source.now)
        (bad_fault F.told source.now) (stage_of run.old) bad) }
    ensures state { run.new.state ≡ run.old.state }
    ensures mended { run.new.mended ≡ run.old.mended }
{
    match mem::replace(&mut run.phase, Phase::Reading) {
        Phase::Reading => match bad {
            Some(location) => {
                Ok(Some(F::from_raw(source, RawFault::InvalidToken { location })?))
            }
            None => end_fault::<T, E, F>(alloc, source, run),
        },
        Phase::Skipping(pending) => Ok(Some(bad_or(source, bad, pending.fault)?)),
        Phase::Stopped(fault) => Ok(Some(fault)),
    }
}

/// Items as a list of one or more.
fn one_or_more<T: Drop>(items: Items<T>) -> Option<NonEmpty<T>>
    ensures { MatchOption result (items ≡ []) (λ list. list_of list ≡ items) }
{
    if items.is_empty() {
        return None;
    }
    let mut items = items.into_vec();
    let head = items.remove(0);
    Some(NonEmpty {
        head,
        tail: Items::from(items),
    })
}

/// All faults, the one at which the parse stops first.
fn all_faults<F: Drop>(last: Option<F>, mended: Items<F>) -> Option<NonEmpty<F>>
    ensures { MatchOption result (faults_with_last last mended ≡ [])
        (λ faults. list_of faults ≡ faults_with_last last mended) }
{
    match last {
        Some(head) => Some(NonEmpty { head, tail: mended }),
        None => one_or_more(mended),
    }
}

/// The tree, or the faults, where no token follows.
fn conclude<T: Drop, E: PushParser<T> + Recovering, F: FromRawFault>(
    alloc: Global,
    source: &Source,
    mut run: Run<E, F>,
    bad: Option<usize>,
) -> Result<T, Refusal<F>>
    ensures tree { IfOk result (λ x. (machine_of source.now E.reader).finish run.state ≡ Some x) }
    ensures faults { MatchResult result
        (λ _. met_faults (allowed_by E.reader)
        (recovers_of (allowed_by E.reader) E.left E.closed E.over F.told source.now)
        (bad_fault F.told source.now) (stage_of run) bad ≡ [])
        (λ f. RefusesWith (met_faults (allowed_by E.reader)
        (recovers_of (allowed_by E.reader) E.left E.closed E.over F.told source.now)
        (bad_fault F.told source.now) (stage_of run) bad) f) }
{
    let last = last_fault::<T, E, F>(alloc, source, &mut run, bad)?;
    let Run {
        mut state,
        mended,
        ..
    } = run;
    match all_faults(last, mended) {
        Some(faults) => Err(Refusal::Faults(faults)),
        None => Ok(state.finish(NodeBuilder { alloc, source })?),
    }
}

/// Reads the text, of which the source is a copy, to its end.
fn read<T: Drop, E: PushParser<T> + Recovering, F: FromRawFault>(
    alloc: Global,
    source: &Source,
    text: &str,
) -> Result<T, Refusal<F>>
    requires { source.now ≡ text.now }
    ensures { MatchResult result (λ x. IsRead (machine_of source.now E.reader) source.now x)
        (λ f. IsToldBy (machine_of source.now E.reader) (allowed_by E.reader)
        (recovers_of (allowed_by E.reader) E.left E.closed E.over F.told source.now)
        (bad_fault F.told source.now) source.now f) }
{
    let mut lexer = Lexer::new(text);
    let mut run = begin::<T, E, F>(alloc);
    loop {
        match &lexer.next() {
            Some(Ok(token)) => step::<T, E, F>(alloc, source, &mut run, token)?,
            Some(Err(bad)) => {
                return conclude::<T, E, F>(alloc, source, run, Some(bad.location));
            }
            None => return conclude::<T, E, F>(alloc, source, run, None),
        }
    }
}

/// The tree that a text has by this rule, or all its faults.
pub fn parse_on<T: Drop, E: PushParser<T> + Recovering>(
    alloc: Global,
    text: &str,
) -> Result<T, Failure>
    ensures { MatchResult result (λ x. IsRead (machine_of text.now E.reader) text.now x)
        (λ f. IsTold (machine_of text.now E.reader) (allowed_by E.reader)
        (recovers_of (allowed_by E.reader) E.left E.closed E.over fault_of text.now)
        text.now f) }
{
    let source = Source::from_str(alloc, text)?;
    match read::<T, E, ParseError>(alloc, &source, text) {
        Ok(tree) => Ok(tree),
        Err(Refusal::Memory(error)) => Err(Failure::Memory(error)),
        Err(Refusal::Faults(faults)) => Err(Failure::Errors(ParseErrors { faults })),
    }
}
