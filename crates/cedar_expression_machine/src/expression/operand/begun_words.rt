//! What expressions ask of the machine of words that they hold.
ghost use Rattle.std.specs.Prelude.{◌≡◌, [], Some, IsTrue, IfOk};
ghost use Rattle.cedar_lexer.specs.Token.{lexeme_of};
ghost use Rattle.cedar_syntax.specs.tokens.Tokens.{any_of};
ghost use Rattle.cedar_grammar.specs.machines.Machine.{is_some, option_image};
ghost use Rattle.cedar_expression_machine.specs.machines.Expressions.{single_word};
ghost use Rattle.cedar_expression_machine.specs.machines.Named.{named_reader};
ghost use Rattle.cedar_expression_machine.specs.machines.NamedShapes.{is_condition, named_outline};
ghost use Rattle.cedar_expression_machine.specs.machines.Wanting.{first_words};
ghost use Rattle.cedar_expression_machine.specs.machines.Words.{word_node, path_extent};
ghost use Rattle.cedar_expression_machine.specs.machines.WordShapes.{path_kind, words_shape};

use crate::expression::state::SingleWord;
use crate::words::nodes::word_of;
use crate::words::path::first_word;
use crate::words::state::{Path, PathState, WordsState};
use cedar_grammar::reading::extent::Extent;
use cedar_grammar::reading::node_builder::NodeBuilder;
use cedar_lexer::token::Token;
use cedar_syntax::cst::Ident;
use std::alloc::AllocError;

/// What a path alone is.
#[inline(always)]
pub fn single_word(path: &Path) -> SingleWord
    ensures { (src : _) → result ≡ single_word path.now.before (word_node src path.now.last) }
{
    if !path.before.is_empty() {
        return SingleWord::Name;
    }
    match &path.last.ident {
        Ident::True => SingleWord::True,
        Ident::False => SingleWord::False,
        Ident::If => SingleWord::If,
        _ => SingleWord::Name,
    }
}

/// The bytes of a path.
#[inline(always)]
pub fn path_extent(path: &Path) -> Extent
    ensures { result ≡ path_extent path.now }
{
    Extent {
        start: path.start,
        end: path.last.extent.end,
    }
}

/// The first of them.
#[inline(always)]
pub fn first(builder: NodeBuilder<'_>, token: &Token<'_>) -> Result<WordsState, AllocError>
    requires { IsTrue (is_some (any_of token.now.kind [])) }
    ensures { IfOk result (λ words. Some words
        ≡ first_words builder.entry.source.now named_reader (lexeme_of token.now)) }
{
    let word = word_of(builder.alloc, token)?;
    Ok(WordsState::Path(PathState::Have(first_word(builder.alloc, word))))
}

/// Whether a path is the word `if` alone.
fn is_condition(path: &Path) -> bool
    ensures { result ≡ is_condition (path_kind path.now) }
{
    path.before.is_empty() && matches!(path.last.ident, Ident::If)
}

/// Whether they are the word `if` alone, where they can end.
pub fn ends(words: &WordsState) -> Option<bool>
    ensures { result ≡ option_image named_outline.is_if
        (named_outline.outline.finish (words_shape words.now)) }
{
    match words {
        WordsState::Path(PathState::Have(path)) => Some(is_condition(path)),
        WordsState::Path(PathState::Start | PathState::Behind(_)) => None,
        WordsState::Inits(_) => None,
        WordsState::Entity(_) => Some(false),
    }
}
