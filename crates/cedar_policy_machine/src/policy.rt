//! A policy: annotations, an effect, a scope in parentheses, conditions, and `;`.
ghost use Rattle.std.specs.Prelude.{◌≡◌, Some, IsTrue, OnOk};
ghost use Rattle.cedar_lexer.specs.Token.{lexeme_of};
ghost use Rattle.cedar_policy_machine.specs.machines.Annotation.{any_node};
ghost use Rattle.cedar_policy_machine.specs.machines.Policies.{sections, unknown_policy};
ghost use Rattle.cedar_policy_machine.specs.machines.Policy.{is_word, effect_read};
ghost use Rattle.cedar_policy_machine.specs.machines.Scope.{readers_of};

use crate::annotation::{AnnotationAct, AnnotationState, if_mark};
use crate::condition::{ConditionAct, ConditionState};
use crate::scope::{ElementAct, ElementState};
use crate::sequence::{Sequence, SequenceAct, SpannedState};
use cedar_expressions::Items;
use cedar_grammar::reading::driver::PushParser;
use cedar_grammar::reading::node_builder::NodeBuilder;
use cedar_grammar::reading::put::{put, take_node};
use cedar_grammar::reading::token_read::TokenRead;
use cedar_grammar::reading::tokens::{ident_node, if_ident};
use cedar_lexer::token::{Token, TokenKind};
use cedar_syntax::cst::{
    Add, Annotation, Cond, Expr, Ident, Name, Policy, PolicyImpl, VariableDef,
};
use cedar_syntax::node::Node;
use std::alloc::{AllocError, Global};
use std::mem;

/// The annotations of a policy.
pub type AnnotationSequence = Sequence<SpannedState<AnnotationState>, Node<Option<Annotation>>>;

/// The elements of its scope.
pub type ElementSequence<N, S, E> = Sequence<
    SpannedState<ElementState<N, S, E>>,
    Node<Option<VariableDef>>,
>;

/// Its conditions.
pub type ConditionSequence<E> = Sequence<SpannedState<ConditionState<E>>, Node<Option<Cond>>>;

/// Where a policy stands.
#[derive(Drop, Clone, Copy)]
pub enum Section {
    /// Annotations, or the effect, are to come.
    Annotations,
    /// Behind the effect.
    Effect,
    /// Behind `(`.
    Scope,
    /// Behind `)`.
    Conditions,
    /// Behind `;`.
    Closed,
}

/// What has been read of a policy, each part where it stays: annotations `A`, elements `V` and
/// conditions `C`.
#[derive(Drop)]
pub struct PolicyState<A, V, C> {
    pub section: Section,
    pub annotations: A,
    pub effect: Node<Option<Ident>>,
    pub scope: V,
    pub conditions: C,
}

/// A policy that is begun.
pub type Begun<N, S, E> = PolicyState<
    AnnotationSequence,
    ElementSequence<N, S, E>,
    ConditionSequence<E>,
>;

/// What is done with a token of a policy, whose parts do `A`, `V` and `C` with one.
#[derive(Drop, Clone, Copy)]
pub enum PolicyAct<A, V, C> {
    Annotation(A),
    Effect,
    /// `(`
    Open,
    Element(V),
    /// `)`
    Close,
    Condition(C),
    /// `;`
    Shut,
}

impl<N, S, E> PolicyState<AnnotationSequence, ElementSequence<N, S, E>, ConditionSequence<E>>
where
    N: PushParser<Node<Option<Name>>>,
    S: PushParser<Node<Option<Add>>>,
    E: PushParser<Node<Option<Expr>>>,
{
    /// A policy of which nothing is known.
    pub fn unknown(
        alloc: Global,
    ) -> PolicyState<AnnotationSequence, ElementSequence<N, S, E>, ConditionSequence<E>>
        ensures { result ≡ unknown_policy }
    {
        PolicyState {
            section: Section::Closed,
            annotations: Sequence::new(alloc),
            effect: Node {
                node: None,
                loc: None,
            },
            scope: Sequence::new(alloc),
            conditions: Sequence::new(alloc),
        }
    }

    /// Nothing is known of it any more.
    pub fn forget(&mut self, alloc: Global)
        ensures { self.new ≡ unknown_policy }
    {
        self.section = Section::Closed;
        self.annotations.clear(alloc);
        put(
            &mut self.effect,
            Node {
                node: None,
                loc: None,
            },
        );
        self.scope.clear(alloc);
        self.conditions.clear(alloc);
    }

    /// The effect behind the annotations.
    #[inline(never)]
    fn name(&mut self, builder: NodeBuilder<'_>, token: &Token<'_>) -> Result<(), AllocError>
        requires ended { IsTrue (
            (sections (readers_of N.reader S.reader E.reader)).annotations.ends
            self.old.annotations) }
        requires word { IsTrue (is_word token.now.kind) }
        ensures { OnOk result (effect_read self.old
            ((sections (readers_of N.reader S.reader E.reader)).annotations.finish
            builder.entry.source.now self.old.annotations)
            (any_node builder.entry.source.now (lexeme_of token.now)) ≡ Some self.new) }
    {
        self.annotations.end_item(builder)?;
        put(&mut self.effect, ident_node(builder, token)?);
        self.section = Section::Effect;
        Ok(())
    }
}

impl<N, S, E> PushParser<Policy>
    for PolicyState<AnnotationSequence, ElementSequence<N, S, E>, ConditionSequence<E>>
where
    N: PushParser<Node<Option<Name>>>,
    S: PushParser<Node<Option<Add>>>,
    E: PushParser<Node<Option<Expr>>>,
{
    ghost use Rattle.cedar_policy_machine.specs.machines.Policies.{sections};
    ghost use Rattle.cedar_policy_machine.specs.machines.Policy.{policy_reader};
    ghost use Rattle.cedar_policy_machine.specs.machines.Scope.{readers_of};

    type Act = PolicyAct<
        SequenceAct<AnnotationAct>,
        SequenceAct<ElementAct<N::Act, S::Act, E::Act>>,
        SequenceAct<ConditionAct<E::Act>>,
    >;

    ghost reader = { policy_reader (sections (readers_of N.reader S.reader E.reader)) };

    fn start(
        alloc: Global,
    ) -> PolicyState<AnnotationSequence, ElementSequence<N, S, E>, ConditionSequence<E>> {
        PolicyState {
            section: Section::Annotations,
            annotations: Sequence::new(alloc),
            effect: Node {
                node: None,
                loc: None,
            },
            scope: Sequence::new(alloc),
            conditions: Sequence::new(alloc),
        }
    }

    fn restart(&mut self, alloc: Global) {
        self.forget(alloc);
        self.section = Section::Annotations;
    }

    fn first(
        kind: TokenKind,
    ) -> Option<
        PolicyAct<
            SequenceAct<AnnotationAct>,
            SequenceAct<ElementAct<N::Act, S::Act, E::Act>>,
            SequenceAct<ConditionAct<E::Act>>,
        >,
    > {
        match AnnotationSequence::plan_item(kind) {
            Some(act) => Some(PolicyAct::Annotation(act)),
            None => if_ident(kind, PolicyAct::Effect),
        }
    }

    #[inline(always)]
    fn plan(
        &self,
        kind: TokenKind,
    ) -> Option<
        PolicyAct<
            SequenceAct<AnnotationAct>,
            SequenceAct<ElementAct<N::Act, S::Act, E::Act>>,
            SequenceAct<ConditionAct<E::Act>>,
        >,
    > {
        match self.section {
            Section::Conditions => match self.conditions.plan_many(kind) {
                Some(act) => Some(PolicyAct::Condition(act)),
                None => {
                    let shuts = matches!(kind, TokenKind::Semicolon) && self.conditions.items_end();
                    if_mark(shuts, PolicyAct::Shut)
                }
            },
            Section::Scope => match self.scope.plan_listed(kind) {
                Some(act) => Some(PolicyAct::Element(act)),
                None => {
                    let closes = matches!(kind, TokenKind::CloseParen) && self.scope.items_end();
                    if_mark(closes, PolicyAct::Close)
                }
            },
            Section::Annotations => match self.annotations.plan_many(kind) {
                Some(act) => Some(PolicyAct::Annotation(act)),
                None => {
                    if self.annotations.items_end() {
                        if_ident(kind, PolicyAct::Effect)
                    } else {
                        None
                    }
                }
            },
            Section::Effect => if_mark(matches!(kind, TokenKind::OpenParen), PolicyAct::Open),
            Section::Closed => None,
        }
    }

    fn ends(&self) -> bool {
        matches!(self.section, Section::Closed)
    }

    #[inline(always)]
    fn act(
        &mut self,
        builder: NodeBuilder<'_>,
        act: PolicyAct<
            SequenceAct<AnnotationAct>,
            SequenceAct<ElementAct<N::Act, S::Act, E::Act>>,
            SequenceAct<ConditionAct<E::Act>>,
        >,
        token: &Token<'_>,
    ) -> Result<TokenRead, AllocError> {
        match act {
            PolicyAct::Condition(act) => self.conditions.act_many(builder, act, token),
            PolicyAct::Element(act) => self.scope.act_many(builder, act, token),
            PolicyAct::Annotation(act) => self.annotations.act_many(builder, act, token),
            PolicyAct::Effect => {
                self.name(builder, token)?;
                Ok(TokenRead::Done)
            }
            PolicyAct::Open => {
                self.section = Section::Scope;
                Ok(TokenRead::Done)
            }
            PolicyAct::Close => {
                self.scope.end_item(builder)?;
                self.section = Section::Conditions;
                Ok(TokenRead::Done)
            }
            PolicyAct::Shut => {
                self.conditions.end_item(builder)?;
                self.section = Section::Closed;
                Ok(TokenRead::Done)
            }
        }
    }

    fn finish(&mut self, builder: NodeBuilder<'_>) -> Result<Policy, AllocError> {
        Ok(Policy::Policy(PolicyImpl {
            annotations: mem::replace(&mut self.annotations.done, Items::new(builder.alloc)),
            effect: take_node(&mut self.effect),
            variables: mem::replace(&mut self.scope.done, Items::new(builder.alloc)),
            conds: mem::replace(&mut self.conditions.done, Items::new(builder.alloc)),
        }))
    }
}
