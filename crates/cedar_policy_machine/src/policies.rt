//! One policy and policies, in which reading goes on behind a fault.
ghost use Rattle.std.specs.Prelude.{◌≡◌};
ghost use Rattle.cedar_policy_machine.specs.machines.Policies.{condition_way, begun_condition_way, policy_way, closed_condition, closed_policy};

use crate::condition::{ConditionPart, ConditionState};
use crate::policy::{
    AnnotationSequence, Begun, ConditionSequence, ElementSequence, PolicyState, Section,
};
use crate::sequence::{Sequence, SequenceAct, SpannedState};
use cedar_expressions::Items;
use cedar_grammar::reading::driver::PushParser;
use cedar_grammar::reading::node_builder::NodeBuilder;
use cedar_grammar::reading::put::put;
use cedar_grammar::reading::recovery::{Recovering, RecoveryWay};
use cedar_grammar::reading::token_read::TokenRead;
use cedar_lexer::token::{Token, TokenKind};
use cedar_syntax::cst::{Add, Expr, Name, Policy};
use cedar_syntax::node::Node;
use std::alloc::{AllocError, Global};

impl<E: PushParser<Node<Option<Expr>>>> ConditionState<E> {
    /// How a fault in it is left.
    fn way(&self) -> RecoveryWay
        ensures { result ≡ condition_way self.now.part }
    {
        match &self.part {
            ConditionPart::Opened | ConditionPart::Body(_) => RecoveryWay::ToBrace,
            ConditionPart::Start | ConditionPart::Word | ConditionPart::Closed(_) =>
                RecoveryWay::ToEnd,
        }
    }

    /// Nothing stands in its braces.
    fn shut(&mut self)
        ensures { self.new ≡ closed_condition self.old }
    {
        match &self.part {
            ConditionPart::Opened | ConditionPart::Body(_) => {
                put(&mut self.part, ConditionPart::Closed(None));
            }
            ConditionPart::Start | ConditionPart::Word | ConditionPart::Closed(_) => {}
        }
    }
}

/// How a fault in a condition is left, where one may be begun.
fn condition_way<E: PushParser<Node<Option<Expr>>>>(
    begun: &Option<SpannedState<ConditionState<E>>>,
) -> RecoveryWay
    ensures { result ≡ begun_condition_way begun.now }
{
    match begun {
        Some(condition) => condition.state.way(),
        None => RecoveryWay::ToEnd,
    }
}

impl<N, S, E> PolicyState<AnnotationSequence, ElementSequence<N, S, E>, ConditionSequence<E>>
where
    N: PushParser<Node<Option<Name>>>,
    S: PushParser<Node<Option<Add>>>,
    E: PushParser<Node<Option<Expr>>>,
{
    /// How a fault in it is left; behind a whole policy, as is said.
    fn way(&self, behind: RecoveryWay) -> RecoveryWay
        ensures { result ≡ policy_way behind self.now }
    {
        match self.section {
            Section::Conditions => condition_way(&self.conditions.begun),
            Section::Closed => behind,
            Section::Annotations | Section::Effect | Section::Scope => RecoveryWay::ToEnd,
        }
    }

    /// Nothing stands in the braces of the condition that is begun.
    fn close(&mut self)
        ensures { self.new ≡ closed_policy self.old }
    {
        match self.section {
            Section::Conditions => {
                if let Some(condition) = &mut self.conditions.begun {
                    condition.state.shut();
                }
            }
            Section::Annotations | Section::Effect | Section::Scope | Section::Closed => {}
        }
    }
}

impl<N, S, E> Recovering for SpannedState<Begun<N, S, E>>
where
    N: PushParser<Node<Option<Name>>>,
    S: PushParser<Node<Option<Add>>>,
    E: PushParser<Node<Option<Expr>>>,
{
    ghost use Rattle.cedar_grammar.specs.declared.reading.recovery.RecoveryWay.TheVariants as way;
    ghost use Rattle.cedar_policy_machine.specs.machines.Policies.{policy_way, policy_closing, policy_ending};

    ghost left = { λ s. policy_way way.Stop s.state };

    ghost closed = { λ s. policy_closing s };

    ghost over = { λ s. policy_ending s };

    fn way(&self) -> RecoveryWay {
        self.state.way(RecoveryWay::Stop)
    }

    fn close(&mut self) {
        self.state.close();
    }

    fn end(&mut self, alloc: Global) {
        self.state.forget(alloc);
    }
}

/// Policies that stand one behind the other.
pub type PolicySequence<N, S, E> = Sequence<SpannedState<Begun<N, S, E>>, Node<Option<Policy>>>;

/// What policies do with a token.
type PoliciesAct<N, S, E> = SequenceAct<<Begun<N, S, E> as PushParser<Policy>>::Act>;

impl<N, S, E> PushParser<Items<Node<Option<Policy>>>> for PolicySequence<N, S, E>
where
    N: PushParser<Node<Option<Name>>>,
    S: PushParser<Node<Option<Add>>>,
    E: PushParser<Node<Option<Expr>>>,
{
    ghost use Rattle.cedar_policy_machine.specs.machines.Policies.{all_policies_reader};
    ghost use Rattle.cedar_policy_machine.specs.machines.Scope.{readers_of};

    type Act = SequenceAct<<Begun<N, S, E> as PushParser<Policy>>::Act>;

    ghost reader = { all_policies_reader (readers_of N.reader S.reader E.reader) };

    fn start(alloc: Global) -> PolicySequence<N, S, E> {
        Sequence::new(alloc)
    }

    fn first(kind: TokenKind) -> Option<PoliciesAct<N, S, E>> {
        PolicySequence::<N, S, E>::plan_item(kind)
    }

    #[inline(always)]
    fn plan(&self, kind: TokenKind) -> Option<PoliciesAct<N, S, E>> {
        self.plan_many(kind)
    }

    fn ends(&self) -> bool {
        match &self.begun {
            Some(policy) => policy.ends(),
            None => true,
        }
    }

    #[inline(always)]
    fn act(
        &mut self,
        builder: NodeBuilder<'_>,
        act: PoliciesAct<N, S, E>,
        token: &Token<'_>,
    ) -> Result<TokenRead, AllocError> {
        self.act_many(builder, act, token)
    }

    fn finish(
        &mut self,
        builder: NodeBuilder<'_>,
    ) -> Result<Items<Node<Option<Policy>>>, AllocError> {
        self.take(builder)
    }
}

impl<N, S, E> Recovering for PolicySequence<N, S, E>
where
    N: PushParser<Node<Option<Name>>>,
    S: PushParser<Node<Option<Add>>>,
    E: PushParser<Node<Option<Expr>>>,
{
    ghost use Rattle.cedar_policy_machine.specs.machines.Policies.{begun_policy_way, policies_closing, policies_ending};

    ghost left = { λ s. begun_policy_way s.begun };

    ghost closed = { λ s. policies_closing s.done s.begun };

    ghost over = { λ s. policies_ending s.done };

    fn way(&self) -> RecoveryWay {
        match &self.begun {
            Some(policy) => policy.state.way(RecoveryWay::ToEnd),
            None => RecoveryWay::ToEnd,
        }
    }

    fn close(&mut self) {
        if let Some(policy) = &mut self.begun {
            policy.state.close();
        }
    }

    fn end(&mut self, alloc: Global) {
        match &mut self.begun {
            Some(policy) => {
                policy.extent = None;
                policy.state.forget(alloc);
            }
            None => {
                let over = SpannedState {
                    extent: None,
                    state: PolicyState::unknown(alloc),
                };
                put(&mut self.begun, Some(over));
            }
        }
    }
}

/// Policies as a whole text.
pub type SpannedSequence<N, S, E> = SpannedState<PolicySequence<N, S, E>>;

impl<N, S, E> Recovering for SpannedSequence<N, S, E>
where
    N: PushParser<Node<Option<Name>>>,
    S: PushParser<Node<Option<Add>>>,
    E: PushParser<Node<Option<Expr>>>,
{
    ghost use Rattle.cedar_policy_machine.specs.machines.Policies.{begun_policy_way, text_closing, text_ending};

    ghost left = { λ s. begun_policy_way s.state.begun };

    ghost closed = { λ s. text_closing s };

    ghost over = { λ s. text_ending s };

    fn way(&self) -> RecoveryWay {
        self.state.way()
    }

    fn close(&mut self) {
        self.state.close();
    }

    fn end(&mut self, alloc: Global) {
        self.state.end(alloc);
    }
}
