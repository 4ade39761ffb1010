//! Laws of layouts. Each is a function that does nothing: its contract is the law.
ghost use Rattle.std.specs.Prelude.{◌≡◌, ◌<◌, ◌⊎◌, ◌++◌, ◌^◌, [], ℕ, List, codes, length};
ghost use Rattle.cedar_lexer.specs.Cut.{Cuts};
ghost use Rattle.cedar_lexer.specs.Token.{Lexeme};
ghost use Rattle.cedar_lexer.specs.Words.{words_of};
ghost use Rattle.cedar_layout.specs.Ends.{EndCleanly};
ghost use Rattle.cedar_layout.specs.Entries.{entries_of, entries_in};
ghost use Rattle.cedar_layout.specs.Laid.{LaidItem, MayStand, MayFollow, start, file_text, pieces_of};
ghost use Rattle.cedar_layout.specs.Layouts.{LayoutRule, laid_out};
ghost use Rattle.cedar_layout.specs.Pieces.{SpacedItem, IsReadAs, items_of};
ghost use Rattle.cedar_layout.specs.Steps.{KeepsSteps};
ghost use Rattle.cedar_layout.specs.Style.{style};
ghost use Rattle.cedar_layout.specs.Whole.{KeepsWhole, KeepsOperands};
ghost use Rattle.cedar_layout.specs.Widths.{KeepsWidth};
ghost use Rattle.cedar_layout.specs.declared.options.LayoutOptions.{LayoutOptions};

/// A text is read as one list of pieces at most. Its words are spelled, its comments are whole,
/// and the first alone of those between two words may stand on the line of the word before.
pub fn one_reading()
    ensures one { (source : List ℕ) (ps qs : List SpacedItem) → IsReadAs source ps
        → IsReadAs source qs
        → ps ≡ qs }
    ensures stands { (source : List ℕ) (ps : List SpacedItem) → IsReadAs source ps
        → MayFollow start (items_of ps) }
{}

/// The items of a text are its tokens and, of the skips between them, the comments, in order and
/// none left out.
pub fn items_are_of_the_cut()
    ensures { (source : List ℕ) (ts : List Lexeme) (ps : List SpacedItem) (cut : Cuts source ts)
        → IsReadAs source ps → entries_in (items_of ps) ≡ entries_of cut }
{}

/// Items written with any separators that may stand there are read as just these items, and a
/// blank line before those that have one.
pub fn laid_items_are_read()
    ensures { (items : List LaidItem) → MayStand start items
        → IsReadAs (file_text items) (pieces_of items) }
{}

/// Whatever a layout decides by a text's words and comments: the text that it makes cuts, has the
/// same words, and the same comments between them; laid out again it is the same, byte for byte.
/// No line of it ends with a space, a tab, a vertical tab or a form feed, but within a word, and a
/// line feed ends it.
pub fn layouts_keep()
    ensures cuts { (layout : LayoutRule) (source : List ℕ) (ps : List SpacedItem)
        → IsReadAs source ps
        → (qs : List SpacedItem) × IsReadAs (laid_out layout ps) qs }
    ensures words { (layout : LayoutRule) (source : List ℕ) (ps : List SpacedItem)
        (ts us : List Lexeme)
        → IsReadAs source ps → Cuts source ts → Cuts (laid_out layout ps) us
        → words_of us ≡ words_of ts }
    ensures items { (layout : LayoutRule) (source : List ℕ) (ps qs : List SpacedItem)
        → IsReadAs source ps → IsReadAs (laid_out layout ps) qs → items_of qs ≡ items_of ps }
    ensures stays { (layout : LayoutRule) (source : List ℕ) (ps qs : List SpacedItem)
        → IsReadAs source ps → IsReadAs (laid_out layout ps) qs
        → laid_out layout qs ≡ laid_out layout ps }
    ensures clean { (layout : LayoutRule) (source : List ℕ) (ps : List SpacedItem)
        (us : List Lexeme)
        → IsReadAs source ps → Cuts (laid_out layout ps) us
        → EndCleanly (laid_out layout ps) 0 us }
    ensures ended { (layout : LayoutRule) (ps : List SpacedItem) → (laid_out layout ps ≡ [])
        ⊎ ((front : List ℕ) × (laid_out layout ps ≡ front ++ codes "\n")) }
{}

/// In a text that the style lays out no word passes the width behind a gap of its line at which
/// that may end: one does only where its line could not have ended before it. Of comments nothing
/// is said: one beside a word may pass the width.
pub fn lines_keep_the_width()
    ensures { (options : LayoutOptions) (source : List ℕ) (ps : List SpacedItem)
        → IsReadAs source ps
        → length source < 2 ^ 63
        → KeepsWidth options.width ps (laid_out (style options) ps) }
{}

/// In a text that the style lays out each line in a bracket begins one or more steps of `indent`
/// spaces deeper than the line on which the bracket opens, its end as deep as that line, and each
/// line outside of brackets at the margin; but none begins further on than the width.
pub fn lines_begin_in_step()
    ensures { (options : LayoutOptions) (source : List ℕ) (ps : List SpacedItem)
        → IsReadAs source ps
        → options.width < 2 ^ 64
        → KeepsSteps options ps (laid_out (style options) ps) }
{}

/// In a text that the style lays out no line begins in a bracket that fits on its line, from where
/// it opens up to where the line can end next behind it, without a comment; nor in an operand that
/// fits on its line, from where it begins up to the next `&&`, `||`, `then`, `else`, comma or
/// bracket's end.
pub fn what_fits_stays_whole()
    ensures brackets { (options : LayoutOptions) (source : List ℕ) (ps : List SpacedItem)
        → IsReadAs source ps
        → length source < 2 ^ 63
        → KeepsWhole options.width ps (laid_out (style options) ps) }
    ensures operands { (options : LayoutOptions) (source : List ℕ) (ps : List SpacedItem)
        → IsReadAs source ps
        → length source < 2 ^ 63
        → KeepsOperands options.width ps (laid_out (style options) ps) }
{}
