//! Items that stand one behind another, or are parted by commas: those that are read, and the one
//! that has begun.
ghost use Rattle.std.specs.Prelude.{◌≡◌, [], Some, None, IfOk, OnOk, IsTrue};
ghost use Rattle.cedar_lexer.specs.Token.{lexeme_of};
ghost use Rattle.cedar_grammar.specs.grammar.WrittenTokens.{IsWritten};
ghost use Rattle.cedar_grammar.specs.grammar.Place.{extent_of, joint_extent};
ghost use Rattle.cedar_grammar.specs.machines.Machine.{option_image};
ghost use Rattle.cedar_grammar.specs.machines.Judged.{done_as};
ghost use Rattle.cedar_policy_machine.specs.machines.Sequences.{sequence, many_plan, list_plan, sequence_ends, sequence_end, item_begun, item_going, items_ended, next_item, sequence_act, IsItemPlan, IsSequencePlan};

use cedar_expressions::Items;
use cedar_grammar::never;
use cedar_grammar::reading::driver::PushParser;
use cedar_grammar::reading::extent::Extent;
use cedar_grammar::reading::node_builder::NodeBuilder;
use cedar_grammar::reading::place::token_extent;
use cedar_grammar::reading::put::put;
use cedar_grammar::reading::token_read::TokenRead;
use cedar_lexer::token::{Token, TokenKind};
use cedar_syntax::node::Node;
use std::alloc::{AllocError, Global};
use std::mem;

/// A form that is begun, and the bytes of its tokens so far.
#[derive(Drop)]
pub struct SpannedState<S> {
    pub extent: Option<Extent>,
    pub state: S,
}

/// The bytes up to this token.
#[inline(always)]
fn stretch(extent: &mut Option<Extent>, token: &Token<'_>)
    ensures { extent.new ≡ joint_extent extent.old (Some (extent_of (lexeme_of token.now))) }
{
    match extent {
        Some(extent) => extent.end = token.end,
        None => *extent = Some(token_extent(token)),
    }
}

impl<T: Drop, S: PushParser<T>> PushParser<Node<Option<T>>> for SpannedState<S> {
    ghost use Rattle.cedar_policy_machine.specs.machines.Placing.{placing_reader};

    type Act = S::Act;

    ghost reader = { placing_reader S.reader };

    fn start(alloc: Global) -> SpannedState<S> {
        SpannedState {
            extent: None,
            state: S::start(alloc),
        }
    }

    fn restart(&mut self, alloc: Global) {
        self.extent = None;
        self.state.restart(alloc);
    }

    fn first(kind: TokenKind) -> Option<S::Act> {
        S::first(kind)
    }

    #[inline(always)]
    fn plan(&self, kind: TokenKind) -> Option<S::Act> {
        self.state.plan(kind)
    }

    fn ends(&self) -> bool {
        self.state.ends()
    }

    #[inline(always)]
    fn act(
        &mut self,
        builder: NodeBuilder<'_>,
        act: S::Act,
        token: &Token<'_>,
    ) -> Result<TokenRead, AllocError> {
        stretch(&mut self.extent, token);
        self.state.act(builder, act, token)
    }

    fn finish(&mut self, builder: NodeBuilder<'_>) -> Result<Node<Option<T>>, AllocError> {
        let loc = builder.loc_at(self.extent)?;
        match self.state.finish(builder) {
            Ok(tree) => Ok(Node {
                node: Some(tree),
                loc,
            }),
            Err(error) => Err(error),
        }
    }
}

/// Items that are read, and the one that is begun.
#[derive(Drop)]
pub struct Sequence<S, T> {
    pub done: Items<T>,
    pub begun: Option<S>,
}

/// What is done with a token of a sequence, whose items do `A` with one.
#[derive(Drop, Clone, Copy)]
pub enum SequenceAct<A> {
    /// It is the begun item's.
    On(A),
    /// It begins an item, where none is begun.
    First(A),
    /// It begins an item behind the begun one, which has ended.
    Next(A),
    /// A comma, behind the begun item.
    Comma,
}

impl<T: Drop, S: PushParser<T>> Sequence<S, T> {
    /// Before the first item.
    pub fn new(alloc: Global) -> Sequence<S, T>
        ensures { result ≡ sequence [] None }
    {
        Sequence {
            done: Items::new(alloc),
            begun: None,
        }
    }

    /// Nothing is read or begun any more. Where no item is begun, none is let go: so the compiler
    /// copies none.
    pub fn clear(&mut self, alloc: Global)
        ensures { self.new ≡ sequence [] None }
    {
        put(&mut self.done, Items::new(alloc));
        match &self.begun {
            Some(_) => put(&mut self.begun, None),
            None => {}
        }
    }

    /// What is done with a token of this kind where an item may begin and none is begun.
    pub fn plan_item(kind: TokenKind) -> Option<SequenceAct<S::Act>>
        ensures { result ≡ option_image (λ act. SequenceAct.First act)
            (S.reader.plan S.reader.start kind) }
    {
        match S::first(kind) {
            Some(act) => Some(SequenceAct::First(act)),
            None => None,
        }
    }

    /// What is done with it where items stand one behind the other.
    #[inline(always)]
    pub fn plan_many(&self, kind: TokenKind) -> Option<SequenceAct<S::Act>>
        ensures { result ≡ many_plan (λ first. S.reader.plan S.reader.start first)
            S.reader.plan S.reader.ends self.now.begun kind }
    {
        match &self.begun {
            Some(item) => match item.plan(kind) {
                Some(act) => Some(SequenceAct::On(act)),
                None => {
                    if !item.ends() {
                        return None;
                    }
                    match S::first(kind) {
                        Some(act) => Some(SequenceAct::Next(act)),
                        None => None,
                    }
                }
            },
            None => Sequence::<S, T>::plan_item(kind),
        }
    }

    /// What is done with it where items are separated by commas.
    #[inline(always)]
    pub fn plan_listed(&self, kind: TokenKind) -> Option<SequenceAct<S::Act>>
        ensures { result ≡ list_plan (λ first. S.reader.plan S.reader.start first)
            S.reader.plan S.reader.ends self.now.begun kind }
    {
        match &self.begun {
            Some(item) => match item.plan(kind) {
                Some(act) => Some(SequenceAct::On(act)),
                None => match kind {
                    TokenKind::Comma if item.ends() => Some(SequenceAct::Comma),
                    _ => None,
                },
            },
            None => Sequence::<S, T>::plan_item(kind),
        }
    }

    /// Whether the items can end here.
    pub fn items_end(&self) -> bool
        ensures { result ≡ sequence_ends S.reader.ends self.now.begun }
    {
        match &self.begun {
            Some(item) => item.ends(),
            None => true,
        }
    }

    /// The tree of the item that has ended is put to the others.
    #[inline(never)]
    fn keep_item(&mut self, builder: NodeBuilder<'_>) -> Result<(), AllocError>
        requires { IsTrue (sequence_ends S.reader.ends self.old.begun) }
        ensures { OnOk result (sequence_end (S.reader.finish builder.entry.source.now)
            self.old.done self.old.begun ≡ Some self.new.done) }
    {
        match &mut self.begun {
            Some(item) => match item.finish(builder) {
                Ok(tree) => self.done.push(tree),
                Err(error) => Err(error),
            },
            None => Ok(()),
        }
    }

    /// The item that has ended is put to the others.
    #[inline(never)]
    pub fn end_item(&mut self, builder: NodeBuilder<'_>) -> Result<(), AllocError>
        requires { IsTrue (sequence_ends S.reader.ends self.old.begun) }
        ensures { OnOk result (items_ended (sequence_end (S.reader.finish builder.entry.source.now)
            self.old.done self.old.begun) ≡ Some self.new) }
    {
        self.keep_item(builder)?;
        self.begun = None;
        Ok(())
    }

    /// An item begins, in the place of one that may be there.
    #[inline(always)]
    fn enter(&mut self, alloc: Global)
        ensures { self.new ≡ sequence self.old.done (Some S.reader.start) }
    {
        match &mut self.begun {
            Some(item) => item.restart(alloc),
            None => put(&mut self.begun, Some(S::start(alloc))),
        }
    }

    /// The first token of an item.
    #[inline(never)]
    fn begin_item(
        &mut self,
        builder: NodeBuilder<'_>,
        act: S::Act,
        token: &Token<'_>,
    ) -> Result<TokenRead, AllocError>
        requires written { IsWritten (lexeme_of token.now) }
        requires is_planned { S.reader.plan S.reader.start token.now.kind ≡ Some act }
        ensures { IfOk result (λ read. done_as read self.new ≡ item_begun self.old.done
            (S.reader.act builder.entry.source.now S.reader.start act (lexeme_of token.now))) }
    {
        self.enter(builder.alloc);
        self.go_on(builder, act, token)
    }

    /// The first token of an item behind the begun one, which has ended.
    #[inline(never)]
    fn next_item(
        &mut self,
        builder: NodeBuilder<'_>,
        act: S::Act,
        token: &Token<'_>,
    ) -> Result<TokenRead, AllocError>
        requires written { IsWritten (lexeme_of token.now) }
        requires ended { IsTrue (sequence_ends S.reader.ends self.old.begun) }
        requires is_planned { S.reader.plan S.reader.start token.now.kind ≡ Some act }
        ensures { IfOk result (λ read. done_as read self.new ≡ next_item
            (sequence_end (S.reader.finish builder.entry.source.now) self.old.done self.old.begun)
            (S.reader.act builder.entry.source.now S.reader.start act (lexeme_of token.now))) }
    {
        self.keep_item(builder)?;
        self.begin_item(builder, act, token)
    }

    /// A token of the begun item.
    #[inline(always)]
    fn go_on(
        &mut self,
        builder: NodeBuilder<'_>,
        act: S::Act,
        token: &Token<'_>,
    ) -> Result<TokenRead, AllocError>
        requires written { IsWritten (lexeme_of token.now) }
        requires is_planned { IsItemPlan S.reader.plan self.old.begun token.now.kind act }
        ensures { IfOk result (λ read. done_as read self.new ≡ item_going S.reader
            builder.entry.source.now self.old.done self.old.begun act (lexeme_of token.now)) }
    {
        match &mut self.begun {
            Some(item) => item.act(builder, act, token),
            None => never!(),
        }
    }

    /// Does with a token what is planned.
    #[inline(always)]
    pub fn act_many(
        &mut self,
        builder: NodeBuilder<'_>,
        act: SequenceAct<S::Act>,
        token: &Token<'_>,
    ) -> Result<TokenRead, AllocError>
        requires written { IsWritten (lexeme_of token.now) }
        requires is_planned { IsSequencePlan S.reader self.old.begun token.now.kind act }
        ensures { IfOk result (λ read. done_as read self.new
            ≡ sequence_act S.reader builder.entry.source.now self.old act (lexeme_of token.now)) }
    {
        match act {
            SequenceAct::On(act) => self.go_on(builder, act, token),
            SequenceAct::First(act) => self.begin_item(builder, act, token),
            SequenceAct::Next(act) => self.next_item(builder, act, token),
            SequenceAct::Comma => {
                self.end_item(builder)?;
                Ok(TokenRead::Done)
            }
        }
    }

    /// The items that have ended, taken out.
    pub fn take(&mut self, builder: NodeBuilder<'_>) -> Result<Items<T>, AllocError>
        requires { IsTrue (sequence_ends S.reader.ends self.old.begun) }
        ensures { IfOk result (λ items. sequence_end (S.reader.finish builder.entry.source.now)
            self.old.done self.old.begun ≡ Some items) }
    {
        self.end_item(builder)?;
        Ok(mem::replace(&mut self.done, Items::new(builder.alloc)))
    }
}
