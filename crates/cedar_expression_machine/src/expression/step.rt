//! Does with a token what is planned.
ghost use Rattle.std.specs.Prelude.{◌≡◌, IfOk};
ghost use Rattle.cedar_lexer.specs.Token.{lexeme_of};
ghost use Rattle.cedar_grammar.specs.grammar.WrittenTokens.{IsWritten};
ghost use Rattle.cedar_grammar.specs.machines.Judged.{done_as};
ghost use Rattle.cedar_expression_machine.specs.machines.Expressions.{expression_act};
ghost use Rattle.cedar_expression_machine.specs.machines.Named.{named_reader};
ghost use Rattle.cedar_expression_machine.specs.machines.WholeExpressions.{IsPlanned};

use crate::expression::state::{Act, State};
use cedar_grammar::reading::node_builder::NodeBuilder;
use cedar_grammar::reading::token_read::TokenRead;
use cedar_lexer::token::Token;
use std::alloc::AllocError;

impl State {
    /// Does with a token what is planned. Nothing is said of the state after want of memory.
    pub fn act(
        &mut self,
        builder: NodeBuilder<'_>,
        act: Act,
        token: &Token<'_>,
    ) -> Result<TokenRead, AllocError>
        requires written { IsWritten (lexeme_of token.now) }
        requires is_planned { IsPlanned self.old token.now.kind act }
        ensures { IfOk result (λ read. done_as read self.new ≡ expression_act
            builder.entry.source.now named_reader self.old act (lexeme_of token.now)) }
    {
        match act {
            Act::Begin(begin) => self.begin(builder, begin, token),
            Act::Words(act) => self.read_words(builder, act, token),
            Act::Reduce(operator) => {
                self.reduce(builder)?;
                self.follow(builder, operator, token)?;
                Ok(TokenRead::Done)
            }
            Act::Guard(begin) => {
                self.open_guard(builder.alloc)?;
                self.begin(builder, begin, token)
            }
            Act::Key => {
                self.close_if_key(builder, token)?;
                Ok(TokenRead::Done)
            }
            Act::Field => {
                self.read_field(builder, token)?;
                Ok(TokenRead::Done)
            }
            Act::Follow(operator) => {
                self.follow(builder, operator, token)?;
                Ok(TokenRead::Done)
            }
        }
    }
}
