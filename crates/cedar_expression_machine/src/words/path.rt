//! Paths: identifiers with `::` between them. A path alone is a name.
ghost use Rattle.std.specs.Prelude.{◌≡◌, [], Some, IsTrue, IfOk, OnOk};
ghost use Rattle.cedar_lexer.specs.Token.{lexeme_of};
ghost use Rattle.cedar_lexer.specs.declared.token.TokenKind.TheVariants as kind;
ghost use Rattle.cedar_grammar.specs.grammar.Place.{extent_of};
ghost use Rattle.cedar_syntax.specs.tokens.Tokens.{any_of};
ghost use Rattle.cedar_grammar.specs.grammar.LooseWords.{is_common};
ghost use Rattle.cedar_grammar.specs.machines.Machine.{is_some};
ghost use Rattle.cedar_expression_machine.specs.machines.Words.{one_word_path, with_word, path_begun, path_parted, path_longer, path_act, path_node, is_name};
ghost use Rattle.cedar_expression_machine.specs.machines.WordShapes.{path_plan, path_shape};

use crate::words::nodes::{word_node, word_of};
use crate::words::state::{Path, PathAct, PathState, Word};
use cedar_expressions::{Items, Source};
use cedar_grammar::never;
use cedar_grammar::reading::driver::PushParser;
use cedar_grammar::reading::extent::Extent;
use cedar_grammar::reading::node_builder::NodeBuilder;
use cedar_grammar::reading::place::node_at;
use cedar_grammar::reading::put::put;
use cedar_grammar::reading::token_read::TokenRead;
use cedar_grammar::reading::tokens::if_ident;
use cedar_lexer::token::{Token, TokenKind};
use cedar_syntax::cst::{Ident, Name};
use cedar_syntax::node::Node;
use std::alloc::{AllocError, Global};
use std::mem;

/// One identifier alone.
pub fn first_word(alloc: Global, word: Word) -> Path
    ensures { result ≡ one_word_path word }
{
    Path {
        before: Items::new(alloc),
        start: word.extent.start,
        last: word,
    }
}

/// A path with one identifier more.
pub fn with_word(source: &Source, path: Path, word: Word) -> Result<Path, AllocError>
    ensures { IfOk result (λ longer. longer ≡ with_word source.now path word) }
{
    let Path {
        mut before,
        start,
        last,
    } = path;
    before.push(word_node(source, last)?)?;
    Ok(Path {
        before,
        start,
        last: word,
    })
}

/// Whether this is none of `true`, `false` and `if`.
fn is_common(ident: &Ident) -> bool
    ensures { result ≡ is_common ident.now }
{
    match ident {
        Ident::True | Ident::False | Ident::If => false,
        _ => true,
    }
}

impl Path {
    /// Whether it is a name.
    pub fn is_name(&self) -> bool
        ensures { result ≡ is_name self.now }
    {
        !self.before.is_empty() || is_common(&self.last.ident)
    }

    /// The path as a name, at its bytes.
    #[inline(always)]
    pub fn into_name(self, source: &Source) -> Result<Node<Option<Name>>, AllocError>
        ensures { IfOk result (λ name. name ≡ path_node source.now self) }
    {
        let Path {
            before: path,
            start,
            last,
        } = self;
        let end = last.extent.end;
        let name = word_node(source, last)?;
        node_at(source, Some(Extent { start, end }), Name { path, name })
    }
}

impl PathState {
    /// What is done with a token of this kind.
    pub fn plan_path(&self, kind: TokenKind) -> Option<PathAct>
        ensures { result ≡ path_plan (path_shape self.now) kind }
    {
        match self {
            PathState::Start => if_ident(kind, PathAct::First),
            PathState::Have(_) => match kind {
                TokenKind::ColonColon => Some(PathAct::Colons),
                _ => None,
            },
            PathState::Behind(_) => if_ident(kind, PathAct::More),
        }
    }

    /// An identifier where the path begins.
    fn begin(&mut self, alloc: Global, token: &Token<'_>) -> Result<(), AllocError>
        requires { IsTrue (is_some (any_of token.now.kind [])) }
        ensures { OnOk result
            (Some self.new ≡ path_begun (any_of token.now.kind token.now.text.now)
            (extent_of (lexeme_of token.now))) }
    {
        let word = word_of(alloc, token)?;
        put(self, PathState::Have(first_word(alloc, word)));
        Ok(())
    }

    /// `::` behind an identifier.
    fn part(&mut self)
        requires { path_plan (path_shape self.old) kind.ColonColon ≡ Some PathAct.Colons }
        ensures { Some self.new ≡ path_parted self.old }
    {
        match mem::replace(self, PathState::Start) {
            PathState::Have(path) => put(self, PathState::Behind(path)),
            PathState::Start | PathState::Behind(_) => never!(),
        }
    }

    /// An identifier behind `::`.
    fn go_on(&mut self, builder: NodeBuilder<'_>, token: &Token<'_>) -> Result<(), AllocError>
        requires { path_plan (path_shape self.old) token.now.kind ≡ Some PathAct.More }
        ensures { OnOk result
            (Some self.new ≡ path_longer builder.entry.source.now self.old
            (any_of token.now.kind token.now.text.now) (extent_of (lexeme_of token.now))) }
    {
        match mem::replace(self, PathState::Start) {
            PathState::Behind(path) => {
                let path = with_word(builder.source, path, word_of(builder.alloc, token)?)?;
                put(self, PathState::Have(path));
                Ok(())
            }
            PathState::Start | PathState::Have(_) => never!(),
        }
    }

    /// Does with a token what is planned.
    pub fn act_path(
        &mut self,
        builder: NodeBuilder<'_>,
        act: PathAct,
        token: &Token<'_>,
    ) -> Result<(), AllocError>
        requires { path_plan (path_shape self.old) token.now.kind ≡ Some act }
        ensures { OnOk result
            (Some self.new
            ≡ path_act builder.entry.source.now self.old act (lexeme_of token.now)) }
    {
        match act {
            PathAct::First => self.begin(builder.alloc, token),
            PathAct::Colons => {
                self.part();
                Ok(())
            }
            PathAct::More => self.go_on(builder, token),
        }
    }
}

/// A name, as a whole text and in a policy.
impl PushParser<Node<Option<Name>>> for PathState {
    ghost use Rattle.cedar_expression_machine.specs.machines.Words.{name_reader};

    type Act = PathAct;

    ghost reader = { name_reader };

    fn start(alloc: Global) -> PathState {
        PathState::Start
    }

    fn first(kind: TokenKind) -> Option<PathAct> {
        if_ident(kind, PathAct::First)
    }

    fn plan(&self, kind: TokenKind) -> Option<PathAct> {
        self.plan_path(kind)
    }

    fn ends(&self) -> bool {
        match self {
            PathState::Have(path) => path.is_name(),
            PathState::Start | PathState::Behind(_) => false,
        }
    }

    fn act(
        &mut self,
        builder: NodeBuilder<'_>,
        act: PathAct,
        token: &Token<'_>,
    ) -> Result<TokenRead, AllocError> {
        self.act_path(builder, act, token)?;
        Ok(TokenRead::Done)
    }

    fn finish(&mut self, builder: NodeBuilder<'_>) -> Result<Node<Option<Name>>, AllocError> {
        match mem::replace(self, PathState::Start) {
            PathState::Have(path) => path.into_name(builder.source),
            PathState::Start | PathState::Behind(_) => never!(),
        }
    }
}
