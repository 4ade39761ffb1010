//! A law of the machines of paths and entity literals. It is a function that does nothing: its
//! contract is the law.
ghost use Rattle.std.specs.Prelude.{◌≡◌, ◌≢◌, ℕ, List, None};
ghost use Rattle.cedar_lexer.specs.declared.token.TokenKind.{TokenKind};
ghost use Rattle.cedar_lexer.specs.declared.token.TokenKind.TheVariants as kind;
ghost use Rattle.cedar_syntax.specs.tokens.Tokens.{any_of};
ghost use Rattle.cedar_grammar.specs.machines.Machine.{IsParser, IsOutside, Shapes};
ghost use Rattle.cedar_expression_machine.specs.machines.Words.{paths, words_machine};
ghost use Rattle.cedar_expression_machine.specs.machines.WordsRead.{ReadsWholePath, ReadsWords};
ghost use Rattle.cedar_expression_machine.specs.machines.WordShapes.{path_shapes, path_shape, path_kind, words_shapes, words_shape, words_kind};

/// What the machines of paths and of entity literals show of themselves to one that holds them.
pub fn words_are_parsed()
    ensures paths { (src : List ℕ) → IsParser (paths src) (ReadsWholePath src) }
    ensures shapes_of_paths { (src : List ℕ) → Shapes
        (paths src) path_shapes path_shape path_kind }
    ensures words { (src : List ℕ) → IsParser (words_machine src) (ReadsWords src) }
    ensures shapes_of_words { (src : List ℕ) → Shapes
        (words_machine src) words_shapes words_shape words_kind }
    ensures outside { (src : List ℕ) (k : TokenKind) → ((text : List ℕ) → any_of k text ≡ None)
        → k ≢ kind.ColonColon → IsOutside (words_machine src) k }
{}
