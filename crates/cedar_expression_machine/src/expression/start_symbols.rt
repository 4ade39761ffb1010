//! Expressions, sums and primaries, as whole texts and in a policy: each begins with an operand at
//! a place of its own, and ends as its own tree. What stands between is read by one state, whose
//! own `plan`, `ends` and `act` these impls call.

use crate::expression::plan::{plan_first, plan_first_unsigned};
use crate::expression::state::{Act, StartSymbol, State};
use cedar_grammar::reading::driver::PushParser;
use cedar_grammar::reading::node_builder::NodeBuilder;
use cedar_grammar::reading::token_read::TokenRead;
use cedar_lexer::token::{Token, TokenKind};
use cedar_syntax::cst::{Add, Expr, Primary};
use cedar_syntax::node::Node;
use std::alloc::{AllocError, Global};

/// A primary that is being read.
pub type PrimaryState = State;

/// An expression that is being read.
pub type ExprState = State;

/// A sum that is being read.
pub type SumState = State;

impl PushParser<Node<Option<Primary>>> for State {
    ghost use Rattle.cedar_expression_machine.specs.machines.WholeExpressions.{whole_primary_reader};

    type Act = Act;

    ghost reader = { whole_primary_reader };

    fn start(alloc: Global) -> State {
        State::start(alloc, StartSymbol::Primary)
    }

    fn first(kind: TokenKind) -> Option<Act> {
        plan_first_unsigned(kind)
    }

    fn plan(&self, kind: TokenKind) -> Option<Act> {
        self.plan(StartSymbol::Primary, kind)
    }

    fn ends(&self) -> bool {
        self.ends()
    }

    fn act(
        &mut self,
        builder: NodeBuilder<'_>,
        act: Act,
        token: &Token<'_>,
    ) -> Result<TokenRead, AllocError> {
        self.act(builder, act, token)
    }

    fn finish(&mut self, builder: NodeBuilder<'_>) -> Result<Node<Option<Primary>>, AllocError> {
        self.finish_primary(builder)
    }
}

impl PushParser<Node<Option<Expr>>> for State {
    ghost use Rattle.cedar_expression_machine.specs.machines.WholeExpressions.{whole_expression_reader};

    type Act = Act;

    ghost reader = { whole_expression_reader };

    fn start(alloc: Global) -> State {
        State::start(alloc, StartSymbol::Expr)
    }

    fn first(kind: TokenKind) -> Option<Act> {
        plan_first(kind)
    }

    fn plan(&self, kind: TokenKind) -> Option<Act> {
        self.plan(StartSymbol::Expr, kind)
    }

    fn ends(&self) -> bool {
        self.ends()
    }

    fn act(
        &mut self,
        builder: NodeBuilder<'_>,
        act: Act,
        token: &Token<'_>,
    ) -> Result<TokenRead, AllocError> {
        self.act(builder, act, token)
    }

    fn finish(&mut self, builder: NodeBuilder<'_>) -> Result<Node<Option<Expr>>, AllocError> {
        self.finish_expr(builder)
    }
}

impl PushParser<Node<Option<Add>>> for State {
    ghost use Rattle.cedar_expression_machine.specs.machines.WholeExpressions.{whole_sum_reader};

    type Act = Act;

    ghost reader = { whole_sum_reader };

    fn start(alloc: Global) -> State {
        State::start(alloc, StartSymbol::Sum)
    }

    fn first(kind: TokenKind) -> Option<Act> {
        plan_first(kind)
    }

    fn plan(&self, kind: TokenKind) -> Option<Act> {
        self.plan(StartSymbol::Sum, kind)
    }

    fn ends(&self) -> bool {
        self.ends()
    }

    fn act(
        &mut self,
        builder: NodeBuilder<'_>,
        act: Act,
        token: &Token<'_>,
    ) -> Result<TokenRead, AllocError> {
        self.act(builder, act, token)
    }

    fn finish(&mut self, builder: NodeBuilder<'_>) -> Result<Node<Option<Add>>, AllocError> {
        self.finish_sum(builder)
    }
}
