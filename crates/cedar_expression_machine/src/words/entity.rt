//! Paths and entity literals. A word is read as a path until the next token tells; behind `::` a
//! string or a brace makes an entity.
ghost use Rattle.std.specs.Prelude.{◌≡◌, [], Some, IsTrue, IfOk, OnOk};
ghost use Rattle.cedar_lexer.specs.Token.{lexeme_of};
ghost use Rattle.cedar_lexer.specs.declared.token.TokenKind.TheVariants as kind;
ghost use Rattle.cedar_grammar.specs.grammar.Place.{extent_of};
ghost use Rattle.cedar_syntax.specs.tokens.Tokens.{any_of};
ghost use Rattle.cedar_grammar.specs.grammar.WrittenTokens.{IsWritten, Written};
ghost use Rattle.cedar_grammar.specs.machines.Machine.{is_some};
ghost use Rattle.cedar_grammar.specs.machines.Judged.{done_as};
ghost use Rattle.cedar_expression_machine.specs.machines.Words.{entity_with_extent, uid_of, opened, inits_at, inits_named, inits_parted, with_value, inits_valued, inits_closed, init_act, words_named, words_opened, in_inits, words_act};
ghost use Rattle.cedar_expression_machine.specs.machines.WordShapes as shape;
ghost use Rattle.cedar_expression_machine.specs.machines.WordShapes.{more_plan, item_plan, value_plan, init_shape, init_plan, words_plan, words_shape};

use crate::words::nodes::{word_node, word_of};
use crate::words::state::{
    Entity, InitAct, InitPlace, Inits, OpenEntity, Path, PathAct, PathState, Word, WordsAct,
    WordsState,
};
use cedar_expressions::{Boxed, Items, Source};
use cedar_grammar::never;
use cedar_grammar::reading::driver::PushParser;
use cedar_grammar::reading::extent::Extent;
use cedar_grammar::reading::literal::as_number;
use cedar_grammar::reading::node_builder::NodeBuilder;
use cedar_grammar::reading::place::{node_at, token_extent};
use cedar_grammar::reading::put::put;
use cedar_grammar::reading::token_read::TokenRead;
use cedar_grammar::reading::tokens::{if_ident, string_node};
use cedar_lexer::token::{Token, TokenKind};
use cedar_syntax::cst::{Literal, Ref, RefInit};
use cedar_syntax::node::Node;
use std::alloc::{AllocError, Global};
use std::mem;

/// An entity literal at its bytes.
fn entity_of(builder: NodeBuilder<'_>, reference: Ref, extent: Extent) -> Result<Entity, AllocError>
    ensures { IfOk result
        (λ entity. entity ≡ entity_with_extent builder.entry.source.now reference extent) }
{
    let node = builder.node_at(Some(extent), reference)?;
    Ok(Entity {
        node: Boxed::new(builder.alloc, node)?,
        extent,
    })
}

/// A path and a string.
fn uid_of(builder: NodeBuilder<'_>, path: Path, token: &Token<'_>) -> Result<Entity, AllocError>
    requires { Written kind.StringLit token.now.text.now }
    ensures { IfOk result
        (λ entity. entity ≡ uid_of builder.entry.source.now path (lexeme_of token.now)) }
{
    let start = path.start;
    let eid = string_node(builder, token)?;
    let path = path.into_name(builder.source)?;
    let extent = Extent {
        start,
        end: token.end,
    };
    entity_of(builder, Ref::Uid { path, eid }, extent)
}

/// An entity literal whose brace opens.
fn open_entity(builder: NodeBuilder<'_>, path: Path) -> Result<OpenEntity, AllocError>
    ensures { IfOk result (λ begun. begun ≡ opened builder.entry.source.now path) }
{
    let start = path.start;
    let path = path.into_name(builder.source)?;
    Ok(OpenEntity {
        path: Boxed::new(builder.alloc, path)?,
        start,
        inits: Items::new(builder.alloc),
    })
}

/// What is done with a token of this kind behind `::`.
fn plan_more(kind: TokenKind) -> Option<WordsAct>
    ensures { result ≡ more_plan kind }
{
    match kind {
        TokenKind::StringLit => Some(WordsAct::Eid),
        TokenKind::OpenBrace => Some(WordsAct::Open),
        _ => if_ident(kind, WordsAct::Path(PathAct::More)),
    }
}

/// What is done with it where an item may stand.
fn plan_item(kind: TokenKind) -> Option<InitAct>
    ensures { result ≡ item_plan kind }
{
    match kind {
        TokenKind::CloseBrace => Some(InitAct::Close),
        _ => if_ident(kind, InitAct::Key),
    }
}

/// What is done with it where a value stands.
fn plan_value(kind: TokenKind) -> Option<InitAct>
    ensures { result ≡ value_plan kind }
{
    match kind {
        TokenKind::True => Some(InitAct::True),
        TokenKind::False => Some(InitAct::False),
        TokenKind::Number => Some(InitAct::Number),
        TokenKind::StringLit => Some(InitAct::String),
        _ => None,
    }
}

impl InitPlace {
    /// What is done with a token of this kind in braces.
    fn plan(&self, kind: TokenKind) -> Option<InitAct>
        ensures { result ≡ init_plan (init_shape self.now) kind }
    {
        match self {
            InitPlace::Item => plan_item(kind),
            InitPlace::Key(_) => match kind {
                TokenKind::Colon => Some(InitAct::Colon),
                _ => None,
            },
            InitPlace::Value(_) => plan_value(kind),
            InitPlace::Behind => match kind {
                TokenKind::Comma => Some(InitAct::Comma),
                TokenKind::CloseBrace => Some(InitAct::Close),
                _ => None,
            },
        }
    }
}

impl OpenEntity {
    /// One item more.
    fn push(
        &mut self,
        source: &Source,
        key: Word,
        value: Literal,
        extent: Extent,
    ) -> Result<(), AllocError>
        ensures { OnOk result (self.new ≡ with_value source.now self.old key value extent) }
    {
        let whole = Extent {
            start: key.extent.start,
            end: extent.end,
        };
        let value = node_at(source, Some(extent), value)?;
        let key = word_node(source, key)?;
        self.inits
            .push(node_at(source, Some(whole), RefInit(key, value))?)
    }
}

impl Inits {
    /// The key of an item.
    fn name(self, alloc: Global, token: &Token<'_>) -> Result<WordsState, AllocError>
        requires { IsTrue (is_some (any_of token.now.kind [])) }
        ensures { IfOk result (λ state. Some state
            ≡ inits_named self.begun (any_of token.now.kind token.now.text.now)
            (extent_of (lexeme_of token.now))) }
    {
        let Inits { begun, place: _ } = self;
        let place = InitPlace::Key(word_of(alloc, token)?);
        Ok(WordsState::Inits(Inits { begun, place }))
    }

    /// `:` behind the key.
    fn part(self) -> WordsState
        requires { init_plan (init_shape self.place) kind.Colon ≡ Some InitAct.Colon }
        ensures { Some result ≡ inits_parted self.begun self.place }
    {
        let Inits { begun, place } = self;
        match place {
            InitPlace::Key(key) => {
                let place = InitPlace::Value(key);
                WordsState::Inits(Inits { begun, place })
            }
            InitPlace::Item | InitPlace::Value(_) | InitPlace::Behind => never!(),
        }
    }

    /// A value behind the `:`.
    fn put(self, source: &Source, value: Literal, extent: Extent) -> Result<WordsState, AllocError>
        requires { init_shape self.place ≡ shape.value }
        ensures { IfOk result (λ state. Some state
            ≡ inits_valued source.now self.begun self.place value extent) }
    {
        let Inits { mut begun, place } = self;
        match place {
            InitPlace::Value(key) => {
                begun.push(source, key, value, extent)?;
                let place = InitPlace::Behind;
                Ok(WordsState::Inits(Inits { begun, place }))
            }
            InitPlace::Item | InitPlace::Key(_) | InitPlace::Behind => never!(),
        }
    }

    /// `,` behind an item.
    fn go_on(self) -> WordsState
        ensures { result ≡ inits_at self.begun InitPlace.Item }
    {
        let Inits { begun, place: _ } = self;
        let place = InitPlace::Item;
        WordsState::Inits(Inits { begun, place })
    }

    /// The closing brace.
    fn close(self, builder: NodeBuilder<'_>, end: Extent) -> Result<WordsState, AllocError>
        ensures { IfOk result
            (λ state. state ≡ inits_closed builder.entry.source.now self.begun end) }
    {
        let OpenEntity { path, start, inits } = self.begun;
        let reference = Ref::Ref {
            path: path.into_inner(),
            rinits: inits,
        };
        let end = end.end;
        let entity = entity_of(builder, reference, Extent { start, end })?;
        Ok(WordsState::Entity(entity))
    }

    /// What a token in braces makes of the literal, or nothing if it is a number that doesn't fit.
    fn read(
        self,
        builder: NodeBuilder<'_>,
        act: InitAct,
        token: &Token<'_>,
    ) -> Result<Option<WordsState>, AllocError>
        requires written { IsWritten (lexeme_of token.now) }
        requires is_planned { init_plan (init_shape self.place) token.now.kind ≡ Some act }
        ensures { IfOk result (λ state. state
            ≡ init_act builder.entry.source.now self.begun self.place act (lexeme_of token.now)) }
    {
        let extent = token_extent(token);
        match act {
            InitAct::Key => Ok(Some(self.name(builder.alloc, token)?)),
            InitAct::Colon => Ok(Some(self.part())),
            InitAct::True => Ok(Some(self.put(builder.source, Literal::True, extent)?)),
            InitAct::False => Ok(Some(self.put(builder.source, Literal::False, extent)?)),
            InitAct::Number => match as_number(token.text) {
                Some(number) => Ok(Some(self.put(builder.source, Literal::Num(number), extent)?)),
                None => Ok(None),
            },
            InitAct::String => {
                let text = string_node(builder, token)?;
                Ok(Some(self.put(builder.source, Literal::Str(text), extent)?))
            }
            InitAct::Comma => Ok(Some(self.go_on())),
            InitAct::Close => Ok(Some(self.close(builder, extent)?)),
        }
    }
}

impl WordsState {
    /// What is done with a token of this kind.
    #[inline(always)]
    pub fn plan_words(&self, kind: TokenKind) -> Option<WordsAct>
        ensures { result ≡ words_plan (words_shape self.now) kind }
    {
        match self {
            WordsState::Path(PathState::Start) => if_ident(kind, WordsAct::Path(PathAct::First)),
            WordsState::Path(PathState::Have(_)) => match kind {
                TokenKind::ColonColon => Some(WordsAct::Path(PathAct::Colons)),
                _ => None,
            },
            WordsState::Path(PathState::Behind(_)) => plan_more(kind),
            WordsState::Inits(inits) => match inits.place.plan(kind) {
                Some(act) => Some(WordsAct::Init(act)),
                None => None,
            },
            WordsState::Entity(_) => None,
        }
    }

    /// A string behind `::`.
    #[inline(never)]
    fn name(&mut self, builder: NodeBuilder<'_>, token: &Token<'_>) -> Result<(), AllocError>
        requires written { IsWritten (lexeme_of token.now) }
        requires is_planned { words_plan (words_shape self.old) token.now.kind
            ≡ Some WordsAct.Eid }
        ensures { OnOk result
            (Some self.new ≡ words_named builder.entry.source.now self.old (lexeme_of token.now)) }
    {
        match mem::replace(self, WordsState::Path(PathState::Start)) {
            WordsState::Path(PathState::Behind(path)) => {
                let entity = uid_of(builder, path, token)?;
                put(self, WordsState::Entity(entity));
                Ok(())
            }
            WordsState::Path(PathState::Start | PathState::Have(_))
            | WordsState::Inits(_)
            | WordsState::Entity(_) => never!(),
        }
    }

    /// `{` behind `::`.
    #[inline(never)]
    fn open(&mut self, builder: NodeBuilder<'_>) -> Result<(), AllocError>
        requires { words_plan (words_shape self.old) kind.OpenBrace ≡ Some WordsAct.Open }
        ensures { OnOk result (Some self.new ≡ words_opened builder.entry.source.now self.old) }
    {
        match mem::replace(self, WordsState::Path(PathState::Start)) {
            WordsState::Path(PathState::Behind(path)) => {
                let begun = open_entity(builder, path)?;
                let place = InitPlace::Item;
                put(self, WordsState::Inits(Inits { begun, place }));
                Ok(())
            }
            WordsState::Path(PathState::Start | PathState::Have(_))
            | WordsState::Inits(_)
            | WordsState::Entity(_) => never!(),
        }
    }

    /// A token in braces.
    #[inline(never)]
    fn list(
        &mut self,
        builder: NodeBuilder<'_>,
        act: InitAct,
        token: &Token<'_>,
    ) -> Result<TokenRead, AllocError>
        requires written { IsWritten (lexeme_of token.now) }
        requires is_planned { words_plan (words_shape self.old) token.now.kind
            ≡ Some (WordsAct.Init act) }
        ensures { IfOk result (λ read. done_as read self.new
            ≡ in_inits builder.entry.source.now self.old act (lexeme_of token.now)) }
    {
        match mem::replace(self, WordsState::Path(PathState::Start)) {
            WordsState::Inits(inits) => match inits.read(builder, act, token)? {
                Some(next) => {
                    put(self, next);
                    Ok(TokenRead::Done)
                }
                None => Ok(TokenRead::TooLarge),
            },
            WordsState::Path(_) | WordsState::Entity(_) => never!(),
        }
    }

    /// Does with a token what is planned.
    pub fn act_words(
        &mut self,
        builder: NodeBuilder<'_>,
        act: WordsAct,
        token: &Token<'_>,
    ) -> Result<TokenRead, AllocError>
        requires written { IsWritten (lexeme_of token.now) }
        requires is_planned { words_plan (words_shape self.old) token.now.kind ≡ Some act }
        ensures { IfOk result (λ read. done_as read self.new
            ≡ words_act builder.entry.source.now self.old act (lexeme_of token.now)) }
    {
        match act {
            WordsAct::Path(act) => {
                match self {
                    WordsState::Path(path) => path.act_path(builder, act, token)?,
                    WordsState::Inits(_) | WordsState::Entity(_) => never!(),
                }
                Ok(TokenRead::Done)
            }
            WordsAct::Eid => {
                self.name(builder, token)?;
                Ok(TokenRead::Done)
            }
            WordsAct::Open => {
                self.open(builder)?;
                Ok(TokenRead::Done)
            }
            WordsAct::Init(act) => self.list(builder, act, token),
        }
    }
}

/// An entity literal as a whole text.
impl PushParser<Node<Option<Ref>>> for WordsState {
    ghost use Rattle.cedar_expression_machine.specs.machines.Words.{ref_reader};

    type Act = WordsAct;

    ghost reader = { ref_reader };

    fn start(alloc: Global) -> WordsState {
        WordsState::Path(PathState::Start)
    }

    fn first(kind: TokenKind) -> Option<WordsAct> {
        if_ident(kind, WordsAct::Path(PathAct::First))
    }

    fn plan(&self, kind: TokenKind) -> Option<WordsAct> {
        self.plan_words(kind)
    }

    fn ends(&self) -> bool {
        matches!(self, WordsState::Entity(_))
    }

    fn act(
        &mut self,
        builder: NodeBuilder<'_>,
        act: WordsAct,
        token: &Token<'_>,
    ) -> Result<TokenRead, AllocError> {
        self.act_words(builder, act, token)
    }

    fn finish(&mut self, builder: NodeBuilder<'_>) -> Result<Node<Option<Ref>>, AllocError> {
        match mem::replace(self, WordsState::Path(PathState::Start)) {
            WordsState::Entity(entity) => Ok(entity.node.into_inner()),
            WordsState::Path(_) | WordsState::Inits(_) => never!(),
        }
    }
}
