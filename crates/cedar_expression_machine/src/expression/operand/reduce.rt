//! What words are read as, once the token behind them is there.
ghost use Rattle.std.specs.Prelude.{◌≡◌, [], ◌∷◌, Some, IfOk, OnOk};
ghost use Rattle.cedar_lexer.specs.Token.{lexeme_of};
ghost use Rattle.cedar_syntax.specs.trees.Trees.{name_of};
ghost use Rattle.cedar_grammar.specs.grammar.WrittenTokens.{IsWritten};
ghost use Rattle.cedar_syntax.specs.declared.cst.Primary.TheVariants as primary;
ghost use Rattle.cedar_grammar.specs.machines.Judged.{done_as};
ghost use Rattle.cedar_expression_machine.specs.declared.expression.state.Act.TheVariants as acts;
ghost use Rattle.cedar_expression_machine.specs.declared.expression.state.Frame.TheVariants as frame;
ghost use Rattle.cedar_expression_machine.specs.declared.expression.state.OperandPlace.TheVariants as place;
ghost use Rattle.cedar_expression_machine.specs.machines.Closing.{if_key, if_operand, if_primary, spanned_tree};
ghost use Rattle.cedar_expression_machine.specs.declared.expression.state.OperandMode.TheVariants as mode;
ghost use Rattle.cedar_expression_machine.specs.declared.words.state.PathState.TheVariants as paths;
ghost use Rattle.cedar_expression_machine.specs.declared.words.state.WordsState.TheVariants as begun;
ghost use Rattle.cedar_expression_machine.specs.machines.ExpressionModes.{HasEndedWords, HasEntity, HasPath, mode_signs, reduced, words_extent};
ghost use Rattle.cedar_expression_machine.specs.machines.ExpressionStates.{has_operand, has_primary, opening};
ghost use Rattle.cedar_expression_machine.specs.machines.Expressions.{expression_act, name_at};
ghost use Rattle.cedar_expression_machine.specs.machines.Named.{named_reader};
ghost use Rattle.cedar_expression_machine.specs.machines.Wanting.{literal_at};
ghost use Rattle.cedar_expression_machine.specs.machines.WholeExpressions.{IsPlanned};
ghost use Rattle.cedar_expression_machine.specs.machines.Words.{path_extent, word_node};

use crate::expression::levels::alone::alone_expr;
use crate::expression::levels::begin::{fresh_levels, have, no_signs, operand_of, want_at};
use crate::expression::operand::begun_words::{path_extent, single_word};
use crate::expression::state::{
    Frame, Guard, Operand, OperandMode, OperandPlace, Signs, SingleWord, Spanned, State,
};
use crate::words::state::{Entity, Path, PathState, WordsAct, WordsState};
use cedar_expressions::Items;
use cedar_grammar::never;
use cedar_grammar::reading::extent::Extent;
use cedar_grammar::reading::node_builder::NodeBuilder;
use cedar_grammar::reading::place::token_extent;
use cedar_grammar::reading::put::put;
use cedar_grammar::reading::token_read::TokenRead;
use cedar_lexer::token::Token;
use cedar_syntax::cst::{Expr, Ident, Literal, Member, Name, Primary};
use cedar_syntax::node::Node;
use cedar_syntax::stack::Stack;
use std::alloc::{AllocError, Global};
use std::mem;

/// An entity as an operand.
pub fn ref_at(entity: Entity) -> Spanned<Primary>
    ensures { result ≡ spanned_tree (Some entity.extent) (primary.Ref entity.node) }
{
    let Entity { node, extent } = entity;
    Spanned {
        tree: Primary::Ref(node),
        extent: Some(extent),
    }
}

/// The word `if` alone as a name.
fn if_primary(
    builder: NodeBuilder<'_>,
    extent: Option<Extent>,
) -> Result<Spanned<Primary>, AllocError>
    ensures { IfOk result (λ item. item ≡ if_primary builder.entry.source.now extent) }
{
    let name = builder.node_at(extent, Ident::If)?;
    let path = Items::new(builder.alloc);
    let tree = Primary::Name(builder.node_at(extent, Name { path, name })?);
    Ok(Spanned { tree, extent })
}

/// The word `if` right of `has`.
pub fn if_operand(builder: NodeBuilder<'_>, extent: Option<Extent>) -> Result<Operand, AllocError>
    ensures { IfOk result (λ operand. operand ≡ if_operand builder.entry.source.now extent) }
{
    let item = if_primary(builder, extent)?;
    Ok(Operand {
        signs: no_signs(),
        member: Member {
            item: item.into_node(builder)?,
            access: Items::new(builder.alloc),
        },
        extent,
        is_if: true,
    })
}

/// The word `if` as a key.
fn if_key(
    builder: NodeBuilder<'_>,
    extent: Option<Extent>,
) -> Result<Node<Option<Expr>>, AllocError>
    ensures { IfOk result (λ key. key ≡ if_key builder.entry.source.now extent) }
{
    let item = if_primary(builder, extent)?;
    let operand = operand_of(builder, no_signs(), item)?;
    alone_expr(builder, operand, false)?.into_node(builder)
}

impl State {
    /// Words go on.
    pub fn read_words(
        &mut self,
        builder: NodeBuilder<'_>,
        act: WordsAct,
        token: &Token<'_>,
    ) -> Result<TokenRead, AllocError>
        requires written { IsWritten (lexeme_of token.now) }
        requires is_planned { IsPlanned self.old token.now.kind (acts.Words act) }
        ensures { IfOk result (λ read. done_as read self.new ≡ expression_act
            builder.entry.source.now named_reader self.old (acts.Words act)
            (lexeme_of token.now)) }
    {
        match &mut self.mode {
            OperandMode::Word { words, .. } => { words.act_words(builder, act, token) }
            OperandMode::Want { .. } | OperandMode::Have { .. } => unreachable!(),
        }
    }

    /// The signs before words that have ended.
    #[inline(always)]
    fn word_signs(&self) -> Signs
        requires { HasEndedWords self.now.mode }
        ensures { result ≡ mode_signs self.now.mode }
    {
        match &self.mode {
            OperandMode::Word { signs, .. } => *signs,
            OperandMode::Want { .. } | OperandMode::Have { .. } => never!(),
        }
    }

    /// `true` or `false`, which hold nothing.
    #[inline(always)]
    fn reduce_bool(&mut self, builder: NodeBuilder<'_>, literal: Literal) -> Result<(), AllocError>
        requires { HasEndedWords self.old.mode }
        ensures { OnOk result (self.new ≡ has_primary builder.entry.source.now self.old.stack
            self.old.levels (mode_signs self.old.mode)
            (literal_at builder.entry.source.now (words_extent self.old.mode) literal)) }
    {
        let signs = self.word_signs();
        let extent = self.words_extent();
        let loc = builder.loc_at(extent)?;
        let tree = Primary::Literal(Node {
            node: Some(literal),
            loc,
        });
        self.have_primary(builder, signs, Spanned { tree, extent })
    }

    /// The word `if` right of `has`.
    #[inline(never)]
    fn reduce_if(&mut self, builder: NodeBuilder<'_>) -> Result<(), AllocError>
        ensures { OnOk result (self.new ≡ has_operand self.old.stack self.old.levels
            (if_operand builder.entry.source.now (words_extent self.old.mode))) }
    {
        let operand = if_operand(builder, self.words_extent())?;
        self.set_mode(have(operand));
        Ok(())
    }

    /// A name: the path is taken out.
    #[inline(never)]
    fn reduce_name(&mut self, builder: NodeBuilder<'_>) -> Result<(), AllocError>
        requires { HasPath self.old.mode }
        ensures { (p : _) (sg : _) (x : _) → self.old.mode ≡ mode.Word p sg
            (begun.Path (paths.Have x)) → OnOk result (self.new ≡ has_primary
            builder.entry.source.now self.old.stack self.old.levels sg
            (name_at builder.entry.source.now (spanned_tree (Some (path_extent x))
            (name_of x.before (word_node builder.entry.source.now x.last))))) }
    {
        let signs = self.word_signs();
        let path = self.take_path();
        let extent = Some(path_extent(&path));
        let of_last = builder.loc_at(Some(path.last.extent))?;
        let loc = builder.loc_at(extent)?;
        let name = Name {
            path: path.before,
            name: Node {
                node: Some(path.last.ident),
                loc: of_last,
            },
        };
        let tree = Primary::Name(Node {
            node: Some(name),
            loc,
        });
        self.have_primary(builder, signs, Spanned { tree, extent })
    }

    /// The path that has ended, taken out.
    #[inline(always)]
    fn take_path(&mut self) -> Path
        requires { HasPath self.old.mode }
        ensures path { (p : _) (sg : _) (x : _) → self.old.mode ≡ mode.Word p sg
            (begun.Path (paths.Have x)) → result ≡ x }
        ensures stack { self.new.stack ≡ self.old.stack }
        ensures levels { self.new.levels ≡ self.old.levels }
    {
        match &mut self.mode {
            OperandMode::Word { words, .. } => {
                match mem::replace(words, WordsState::Path(PathState::Start)) {
                    WordsState::Path(PathState::Have(path)) => path,
                    _ => never!(),
                }
            }
            OperandMode::Want { .. } | OperandMode::Have { .. } => never!(),
        }
    }

    /// An entity, which is taken out.
    #[inline(never)]
    fn reduce_ref(&mut self, builder: NodeBuilder<'_>) -> Result<(), AllocError>
        requires { HasEntity self.old.mode }
        ensures { OnOk result (Some self.new ≡ reduced builder.entry.source.now self.old) }
    {
        match &mut self.mode {
            OperandMode::Word { signs, words, .. } => {
                let signs = *signs;
                match mem::replace(words, WordsState::Path(PathState::Start)) {
                    WordsState::Entity(entity) => {
                        self.have_primary(builder, signs, ref_at(entity))
                    }
                    _ => never!(),
                }
            }
            OperandMode::Want { .. } | OperandMode::Have { .. } => never!(),
        }
    }

    /// Words that have ended become the operand that they are.
    #[inline(never)]
    pub fn reduce(&mut self, builder: NodeBuilder<'_>) -> Result<(), AllocError>
        requires { HasEndedWords self.old.mode }
        ensures { OnOk result (Some self.new ≡ reduced builder.entry.source.now self.old) }
    {
        match &self.mode {
            OperandMode::Word { words, .. } => match words {
                WordsState::Path(PathState::Have(path)) => match single_word(path) {
                    SingleWord::True => self.reduce_bool(builder, Literal::True),
                    SingleWord::False => self.reduce_bool(builder, Literal::False),
                    SingleWord::If => self.reduce_if(builder),
                    SingleWord::Name => self.reduce_name(builder),
                },
                WordsState::Entity(_) => self.reduce_ref(builder),
                WordsState::Path(PathState::Start | PathState::Behind(_)) | WordsState::Inits(_) =>
                    never!(),
            },
            OperandMode::Want { .. } | OperandMode::Have { .. } => never!(),
        }
    }

    /// Words that have ended are the word `if`: a conditional begins, and its guard is wanted.
    #[inline(never)]
    pub fn open_guard(&mut self, alloc: Global) -> Result<(), AllocError>
        ensures { OnOk result (self.new ≡ opening (frame.Guard record {
          branches = self.old.levels.branches;
          opened = words_extent self.old.mode;
        } ∷ self.old.stack) [] place.Expr) }
    {
        let opened = self.words_extent();
        let branches = mem::replace(&mut self.levels.branches, Stack::new(alloc));
        self.stack.push(Frame::Guard(Guard { branches, opened }))?;
        put(&mut self.levels, fresh_levels(Stack::new(alloc)));
        put(&mut self.mode, want_at(OperandPlace::Expr));
        Ok(())
    }

    /// The bytes of a path that has ended.
    #[inline(always)]
    fn words_extent(&self) -> Option<Extent>
        ensures { result ≡ words_extent self.now.mode }
    {
        match &self.mode {
            OperandMode::Word {
                words: WordsState::Path(PathState::Have(path)),
                ..
            } => { Some(path_extent(path)) }
            _ => None,
        }
    }

    /// `if` and a colon where a key is wanted.
    #[inline(never)]
    pub fn close_if_key(
        &mut self,
        builder: NodeBuilder<'_>,
        token: &Token<'_>,
    ) -> Result<(), AllocError>
        requires { IsPlanned self.old token.now.kind acts.Key }
        ensures { OnOk result (Some self.new ≡ expression_act builder.entry.source.now named_reader
            self.old acts.Key (lexeme_of token.now)) }
    {
        let extent = self.words_extent();
        let tree = if_key(builder, extent)?;
        put(&mut self.levels, fresh_levels(Stack::new(builder.alloc)));
        put(&mut self.mode, want_at(OperandPlace::Expr));
        self.begin_value(Spanned { tree, extent }, token_extent(token));
        Ok(())
    }
}
