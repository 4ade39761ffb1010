//! Laws of the cut. Each is a function that does nothing: its contract is the law.
ghost use Rattle.std.specs.Prelude.{◌≡◌, ◌↔◌, ◌⊎◌, ℕ, ◌≤◌, List, [], ◌∷◌, ◌++◌, Option, Result, length, ◌+◌, codes};
ghost use Rattle.std.specs.Iterator.{Drains};
ghost use Rattle.std.specs.Str.{IsUtf8, IsCharBoundary};
ghost use Rattle.cedar_lexer.specs.declared.token.Token.{Token};
ghost use Rattle.cedar_lexer.specs.declared.token.InvalidToken.{InvalidToken};
ghost use Rattle.cedar_lexer.specs.Token.{Lexeme};
ghost use Rattle.cedar_lexer.specs.Cut.{Layout, Cuts, CutsFrom, StopsAt, StopsFrom, IsTokenRange, StandInOrder};
ghost use Rattle.cedar_lexer.specs.LexerState.{IsNextToken, LexerAnswers, fresh_lexer, IsCutOrStop, AnswersAre};
ghost use Rattle.cedar_lexer.specs.Varied.{IsPadding, BeginsAt, FitsBefore, last_end};
ghost use Rattle.cedar_lexer.specs.Words.{TokenText, AreSpelled, words_of, texts_of, tokens_text, open_word, close_word};

/// A text has at most one cut.
pub fn at_most_one_cut()
    ensures { (source : List ℕ) (ts us : List Lexeme) → Cuts source ts → Cuts source us → ts ≡ us }
{}

/// A text cuts into tokens or has a bad place, not both, and then just one.
pub fn a_cut_or_one_bad_place()
    ensures cuts_or_stops { (source : List ℕ) → IsUtf8 source
        → ((ts : List Lexeme) × Cuts source ts) ⊎ ((ts : List Lexeme) × (place : ℕ)
        × StopsAt source ts place) }
    ensures not_both { (source : List ℕ) (ts us : List Lexeme) (place : ℕ) → Cuts source ts
        → ¬ (StopsAt source us place) }
    ensures one_place { (source : List ℕ) (ts us : List Lexeme) (p q : ℕ) → StopsAt source ts p
        → StopsAt source us q → (ts ≡ us) × (p ≡ q) }
{}

/// The next token from a place begins each cut from there, and what is left of that is a cut from
/// its end.
pub fn next_token_of_each_cut()
    ensures cuts { (source : List ℕ) (i : ℕ) (t : Lexeme) (us : List Lexeme)
        → IsNextToken source i t → (CutsFrom source i us
        ↔ ((ts : List Lexeme) × (us ≡ t ∷ ts) × CutsFrom source t.end ts)) }
    ensures stops { (source : List ℕ) (i : ℕ) (t : Lexeme) (us : List Lexeme) (place : ℕ)
        → IsNextToken source i t → (StopsFrom source i us place
        ↔ ((ts : List Lexeme) × (us ≡ t ∷ ts) × StopsFrom source t.end ts place)) }
{}

/// What is laid out from one place to the next, and from there on, is laid out one after the
/// other.
pub fn beginnings_join()
    ensures { (source : List ℕ) (ts us : List Lexeme) (i j k : ℕ) → Layout source i ts j
        → Layout source j us k → Layout source i (ts ++ us) k }
{}

/// The tokens of a text are nonempty ranges of it between characters, one behind the other, and
/// their texts are these ranges.
pub fn tokens_stand_in_order()
    ensures whole { (source : List ℕ) (ts : List Lexeme) (place : ℕ) → IsUtf8 source
        → Layout source 0 ts place → StandInOrder source 0 ts × IsCharBoundary source place }
    ensures next { (source : List ℕ) (i : ℕ) (t : Lexeme) → IsUtf8 source
        → IsCharBoundary source i → IsNextToken source i t → (i ≤ t.start)
        × IsTokenRange source t }
{}

/// All answers of a new lexer, one after the other until it answers nothing: the tokens of the
/// text's cut, or those before its bad place and then the invalid token there.
pub fn whole_run()
    ensures { (source : List ℕ) (answers : List (Result Token InvalidToken))
        → Drains LexerAnswers (fresh_lexer source) answers → (ts : List Lexeme) × (bad : Option ℕ)
        × IsCutOrStop source 0 ts bad × AnswersAre answers ts bad }
{}

/// Spellings with one space between two cut into tokens of these kinds and texts.
pub fn spaced_words_are_cut()
    ensures { (words : List TokenText) → AreSpelled words → (ts : List Lexeme)
        × Cuts (tokens_text (texts_of words)) ts × (words_of ts ≡ words) }
{}

/// White space, or a comment with its line end, straight before a token leaves the words of a text
/// as they are; so do parentheses put around the bytes of some tokens, but for themselves.
pub fn varied_texts_are_cut()
    ensures padding { (front padding rest : List ℕ) (ts : List Lexeme)
        → IsUtf8 (front ++ rest) → Cuts (front ++ rest) ts → BeginsAt (length front) ts
        → (p : IsPadding padding) → FitsBefore p (length front) ts
        → (us : List Lexeme) × Cuts (front ++ (padding ++ rest)) us × (words_of us ≡ words_of ts) }
    ensures parentheses { (front middle rest : List ℕ) (before : List Lexeme) (t : Lexeme)
        (ts after : List Lexeme)
        → IsUtf8 (front ++ (middle ++ rest))
        → Cuts (front ++ (middle ++ rest)) (before ++ t ∷ (ts ++ after))
        → t.start ≡ length front → last_end (t ∷ ts) ≡ length front + length middle
        → (us : List Lexeme)
        × Cuts (front ++ (codes "(" ++ (middle ++ (codes ")" ++ rest)))) us
        × (words_of us ≡ words_of before ++ (open_word ∷ (words_of (t ∷ ts)
        ++ (close_word ∷ words_of after)))) }
{}
