//! Before the first token of an expression, a sum or a primary.
ghost use Rattle.std.specs.Prelude.{◌≡◌, []};
ghost use Rattle.cedar_expression_machine.specs.machines.ExpressionStates.{opening};
ghost use Rattle.cedar_expression_machine.specs.machines.ExpressionShapes.{start_place};

use crate::expression::levels::begin::{fresh_levels, want_at};
use crate::expression::state::{OperandPlace, StartSymbol, State};
use cedar_syntax::stack::Stack;
use std::alloc::Global;

/// Where the first operand is wanted.
fn start_place(symbol: StartSymbol) -> OperandPlace
    ensures { result ≡ start_place symbol }
{
    match symbol {
        StartSymbol::Expr => OperandPlace::Expr,
        StartSymbol::Sum => OperandPlace::Operand,
        StartSymbol::Primary => OperandPlace::Primary,
    }
}

impl State {
    /// Before the first token.
    pub fn start(alloc: Global, symbol: StartSymbol) -> State
        ensures { result ≡ opening [] [] (start_place symbol) }
    {
        State {
            stack: Stack::new(alloc),
            levels: fresh_levels(Stack::new(alloc)),
            mode: want_at(start_place(symbol)),
        }
    }
}
