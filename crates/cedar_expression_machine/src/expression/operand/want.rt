//! A token where an operand is wanted.
ghost use Rattle.std.specs.Prelude.{◌≡◌, Some, IfOk, OnOk};
ghost use Rattle.cedar_lexer.specs.Token.{lexeme_of};
ghost use Rattle.cedar_grammar.specs.grammar.Place.{extent_of};
ghost use Rattle.cedar_grammar.specs.grammar.WrittenTokens.{IsWritten};
ghost use Rattle.cedar_grammar.specs.machines.Judged.{done_as};
ghost use Rattle.cedar_expression_machine.specs.declared.expression.state.Act.TheVariants as acts;
ghost use Rattle.cedar_expression_machine.specs.declared.expression.state.StartAct.TheVariants as begins;
ghost use Rattle.cedar_expression_machine.specs.machines.ExpressionModes.{IsBegun, WantsOperand, mode_signs};
ghost use Rattle.cedar_expression_machine.specs.machines.ExpressionStates.{has_primary};
ghost use Rattle.cedar_expression_machine.specs.machines.Expressions.{expression_act};
ghost use Rattle.cedar_expression_machine.specs.machines.Named.{named_reader};
ghost use Rattle.cedar_expression_machine.specs.machines.Wanting.{slot_at, slot_of_token};

use crate::expression::operand::begun_words;
use crate::expression::operand::slot::slot_at;
use crate::expression::state::{OperandMode, OperandPrefix, Spanned, StartAct, State};
use cedar_grammar::reading::class::SlotToken;
use cedar_grammar::reading::literal::as_number;
use cedar_grammar::reading::node_builder::NodeBuilder;
use cedar_grammar::reading::place::token_extent;
use cedar_grammar::reading::token_read::TokenRead;
use cedar_grammar::reading::tokens::string_node;
use cedar_lexer::token::Token;
use cedar_syntax::cst::{Literal, Primary};
use cedar_syntax::node::Node;
use std::alloc::AllocError;

impl State {
    /// The first of some words.
    #[inline(never)]
    fn begin_words(&mut self, builder: NodeBuilder<'_>, token: &Token<'_>) -> Result<(), AllocError>
        requires { IsBegun self.old token.now.kind begins.Word }
        ensures { OnOk result (Some self.new ≡ expression_act builder.entry.source.now named_reader
            self.old (acts.Begin begins.Word) (lexeme_of token.now)) }
    {
        let OperandPrefix { place, signs } = self.prefix();
        let words = begun_words::first(builder, token)?;
        let mode = OperandMode::Word {
            place,
            signs,
            words,
        };
        self.set_mode(mode);
        Ok(())
    }

    /// A number.
    #[inline(never)]
    fn read_number(
        &mut self,
        builder: NodeBuilder<'_>,
        token: &Token<'_>,
    ) -> Result<TokenRead, AllocError>
        requires written { IsWritten (lexeme_of token.now) }
        requires is_begun { IsBegun self.old token.now.kind begins.Number }
        ensures { IfOk result (λ read. done_as read self.new
            ≡ expression_act builder.entry.source.now named_reader self.old
            (acts.Begin begins.Number) (lexeme_of token.now)) }
    {
        let signs = self.prefix().signs;
        match as_number(token.text) {
            Some(number) => {
                let extent = Some(token_extent(token));
                let loc = builder.loc_at(extent)?;
                let tree = Primary::Literal(Node {
                    node: Some(Literal::Num(number)),
                    loc,
                });
                self.have_primary(builder, signs, Spanned { tree, extent })?;
                Ok(TokenRead::Done)
            }
            None => Ok(TokenRead::TooLarge),
        }
    }

    /// A string.
    #[inline(never)]
    fn read_string(&mut self, builder: NodeBuilder<'_>, token: &Token<'_>) -> Result<(), AllocError>
        requires written { IsWritten (lexeme_of token.now) }
        requires is_begun { IsBegun self.old token.now.kind begins.String }
        ensures { OnOk result (Some self.new ≡ expression_act builder.entry.source.now named_reader
            self.old (acts.Begin begins.String) (lexeme_of token.now)) }
    {
        let signs = self.prefix().signs;
        let extent = Some(token_extent(token));
        let string = string_node(builder, token)?;
        let loc = builder.loc_at(extent)?;
        let tree = Primary::Literal(Node {
            node: Some(Literal::Str(string)),
            loc,
        });
        self.have_primary(builder, signs, Spanned { tree, extent })
    }

    /// A slot.
    #[inline(never)]
    fn read_slot(
        &mut self,
        builder: NodeBuilder<'_>,
        slot: SlotToken,
        token: &Token<'_>,
    ) -> Result<(), AllocError>
        requires { WantsOperand self.old.mode }
        ensures { OnOk result (self.new
            ≡ has_primary builder.entry.source.now self.old.stack self.old.levels
            (mode_signs self.old.mode) (slot_at builder.entry.source.now
            (Some (extent_of (lexeme_of token.now))) (slot_of_token slot token.now.text.now))) }
    {
        let signs = self.prefix().signs;
        let item = slot_at(builder, Some(token_extent(token)), slot, token.text)?;
        self.have_primary(builder, signs, item)
    }

    /// A token where an operand is wanted.
    pub fn begin(
        &mut self,
        builder: NodeBuilder<'_>,
        begin: StartAct,
        token: &Token<'_>,
    ) -> Result<TokenRead, AllocError>
        requires written { IsWritten (lexeme_of token.now) }
        requires is_begun { IsBegun self.old token.now.kind begin }
        ensures { IfOk result (λ read. done_as read self.new
            ≡ expression_act builder.entry.source.now named_reader self.old (acts.Begin begin)
            (lexeme_of token.now)) }
    {
        match begin {
            StartAct::Word => self.begin_words(builder, token)?,
            StartAct::Number => return self.read_number(builder, token),
            StartAct::String => self.read_string(builder, token)?,
            StartAct::Slot(slot) => self.read_slot(builder, slot, token)?,
            StartAct::Sign(sign) => self.read_sign(sign, token_extent(token)),
            StartAct::Paren => self.open_paren(builder.alloc, token_extent(token))?,
            StartAct::Bracket => self.open_set(builder.alloc, token_extent(token))?,
            StartAct::Brace => self.open_record(builder.alloc, token_extent(token))?,
            StartAct::Ends(_) => self.end_list(builder, token_extent(token))?,
        }
        Ok(TokenRead::Done)
    }
}
