//! One policy and policies as whole texts.
use cedar_expression_machine::expression::start_symbols::{ExprState, SumState};
use cedar_expression_machine::words::state::PathState;
use cedar_expressions::Items;
use cedar_grammar::reading::driver::PushParser;
use cedar_grammar::reading::extent::Extent;
use cedar_grammar::reading::node_builder::NodeBuilder;
use cedar_grammar::reading::recovery::{Recovering, RecoveryWay};
use cedar_grammar::reading::token_read::TokenRead;
use cedar_lexer::token::{Token, TokenKind};
use cedar_policy_machine::policies::{PolicySequence, SpannedSequence};
use cedar_policy_machine::policy::Begun;
use cedar_policy_machine::sequence::SpannedState;
use cedar_syntax::cst::{Policies, Policy};
use cedar_syntax::node::Node;
use std::alloc::{AllocError, Global};

/// One policy that is read as a whole text.
pub type WholePolicyState = SpannedState<Begun<PathState, SumState, ExprState>>;

/// Policies that are.
type Many = PolicySequence<PathState, SumState, ExprState>;

/// Their trees.
type PolicyNodes = Items<Node<Option<Policy>>>;

/// Policies that are read as a whole text: without any, they stand at its beginning.
#[derive(Drop)]
pub struct WholePoliciesState {
    text: SpannedSequence<PathState, SumState, ExprState>,
}

impl PushParser<Node<Option<Policies>>> for WholePoliciesState {
    ghost use Rattle.cedar_text.specs.machines.PolicyParts.{whole_policies_reader};

    type Act = <Many as PushParser<PolicyNodes>>::Act;

    ghost reader = { whole_policies_reader };

    fn start(alloc: Global) -> WholePoliciesState {
        WholePoliciesState {
            text: SpannedState {
                extent: None,
                state: Many::start(alloc),
            },
        }
    }

    fn first(kind: TokenKind) -> Option<<Many as PushParser<PolicyNodes>>::Act> {
        Many::first(kind)
    }

    #[inline(always)]
    fn plan(&self, kind: TokenKind) -> Option<<Many as PushParser<PolicyNodes>>::Act> {
        self.text.plan(kind)
    }

    fn ends(&self) -> bool {
        self.text.ends()
    }

    #[inline(always)]
    fn act(
        &mut self,
        builder: NodeBuilder<'_>,
        act: <Many as PushParser<PolicyNodes>>::Act,
        token: &Token<'_>,
    ) -> Result<TokenRead, AllocError> {
        self.text.act(builder, act, token)
    }

    fn finish(&mut self, builder: NodeBuilder<'_>) -> Result<Node<Option<Policies>>, AllocError> {
        let policies = Policies(self.text.state.finish(builder)?);
        let place = match self.text.extent {
            Some(extent) => extent,
            None => Extent { start: 0, end: 0 },
        };
        builder.node_at(Some(place), policies)
    }
}

impl Recovering for WholePoliciesState {
    ghost use Rattle.cedar_policy_machine.specs.machines.Policies.{begun_policy_way, text_closing, text_ending};
    ghost use Rattle.cedar_text.specs.machines.PolicyParts.{whole_state};

    ghost left = { λ s. begun_policy_way s.text.state.begun };

    ghost closed = { λ s. whole_state (text_closing s.text) };

    ghost over = { λ s. whole_state (text_ending s.text) };

    fn way(&self) -> RecoveryWay {
        self.text.way()
    }

    fn close(&mut self) {
        self.text.close();
    }

    fn end(&mut self, alloc: Global) {
        self.text.end(alloc);
    }
}
