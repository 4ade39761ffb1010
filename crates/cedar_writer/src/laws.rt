//! Laws of what is written. Each is a function that does nothing: its contract is the law.
ghost use Rattle.std.specs.Prelude.{◌≡◌, ◌<◌, ◌^◌, ℕ, List, [], ◌++◌, length};
ghost use Rattle.std.specs.List.{fold};
ghost use Rattle.std.specs.Str.{IsUtf8};
ghost use Rattle.cedar_lexer.specs.Cut.{Cuts};
ghost use Rattle.cedar_lexer.specs.Spelling.{Spells};
ghost use Rattle.cedar_lexer.specs.Token.{Lexeme};
ghost use Rattle.cedar_lexer.specs.Words.{TokenText, AreSpelled, words_of};
ghost use Rattle.cedar_lexer.specs.declared.token.TokenKind.TheVariants as kind;
ghost use Rattle.cedar_expressions.specs.Value.{Value};
ghost use Rattle.cedar_expressions.specs.WithoutPlaces.{without_places};
ghost use Rattle.cedar_expressions.specs.Written.{entity_text};
ghost use Rattle.cedar_expressions.specs.declared.atoms.PatternElem.{PatternElem};
ghost use Rattle.cedar_expressions.specs.declared.entity.EntityUID.{EntityUID};
ghost use Rattle.cedar_conversion.specs.strict.Extensions.{Extensions};
ghost use Rattle.cedar_conversion.specs.strict.Strict.{Sort, Means};
ghost use Rattle.cedar_conversion.specs.strict.StrictWords.{IsEntity};
ghost use denote.Ref.{Bor};
ghost use Rattle.either.specs.declared.Either.{Either};
ghost use Rattle.cedar_policy_store.specs.declared.template.Template.{Template};
ghost use Rattle.cedar_policy_store.specs.Listing.{IsListing};
ghost use Rattle.cedar_policy_store.specs.PlaceFree.{Policy, set_meaning};
ghost use Rattle.cedar_policy_store.specs.PolicyMaps.{PolicyMaps};
ghost use Rattle.cedar_policy_conversion.specs.PolicyMeaning.{with_policy, no_policies};
ghost use Rattle.cedar_policy_conversion.specs.StrictPolicy.{IsPolicy, IsPolicySet};
ghost use Rattle.cedar_syntax.specs.strings.Pattern.{IsPattern, HasPatternFaults};
ghost use Rattle.cedar_syntax.specs.strings.Piece.{IsUnescaped, HasEscapeFaults};
ghost use Rattle.cedar_syntax.specs.tokens.Tokens.{between_quotes};
ghost use Rattle.cedar_expressions.specs.Escapes.{escaped_text, escaped_pattern, quoted};
ghost use Rattle.cedar_writer.specs.NumberedSets.{IsNumberedSet};
ghost use Rattle.cedar_writer.specs.Spacing.{line_of};
ghost use Rattle.cedar_writer.specs.Writable.{IsWritable, IsWritablePattern};
ghost use Rattle.cedar_writer.specs.WrittenPolicies.{Parts, assembled, policy_words, IsWritableEntity, IsWritablePolicy, AreWritablePolicies, policies_words, numbered_policies};
ghost use Rattle.cedar_writer.specs.WrittenTexts.{numbered, templates_lent};
ghost use Rattle.cedar_writer.specs.WrittenWords.{entity_words};
ghost use Rattle.cedar_writer.specs.Writing.{words, sort_of};

/// An escaped text has no escape fault, stands for the text, and is a string's between quotes.
pub fn escaped_texts_stand()
    ensures faultless { (text : List ℕ) → IsUtf8 text → HasEscapeFaults (escaped_text text) [] }
    ensures unescaped { (text : List ℕ) → IsUtf8 text → IsUnescaped (escaped_text text) text }
    ensures spelled { (text : List ℕ) → IsUtf8 text
        → Spells kind.StringLit (quoted (escaped_text text)) }
    ensures between { (raw : List ℕ) → between_quotes (quoted raw) ≡ raw }
{}

/// The same of patterns.
pub fn escaped_patterns_stand()
    ensures faultless { (elems : List PatternElem) → IsWritablePattern elems
        → HasPatternFaults (escaped_pattern elems) [] }
    ensures stands { (elems : List PatternElem) → IsWritablePattern elems
        → IsPattern (escaped_pattern elems) elems }
    ensures spelled { (elems : List PatternElem) → IsWritablePattern elems
        → Spells kind.StringLit (quoted (escaped_pattern elems)) }
{}

/// Tokens with the words of a writable value mean it, but for the places of its slots.
pub fn written_words_mean()
    ensures { (table : Extensions) (limit : ℕ) (value : Value) → IsWritable table limit value
        → (us : List Lexeme) → words_of us ≡ words table value
        → (meant : Value) × Means table limit (sort_of value) us meant
        × (without_places meant ≡ without_places value) }
{}

/// What spelled tokens mean is writable: so its words mean it again, wherever they stand.
pub fn what_is_meant_is_writable()
    ensures writable { (table : Extensions) (limit : ℕ) (sort : Sort) (ts : List Lexeme)
        (value : Value) → AreSpelled (words_of ts) → Means table limit sort ts value
        → IsWritable table limit value }
    ensures again { (table : Extensions) (limit : ℕ) (sort : Sort) (ts us : List Lexeme)
        (value : Value) → AreSpelled (words_of ts) → Means table limit sort ts value
        → words_of us ≡ words table value
        → (meant : Value) × Means table limit (sort_of value) us meant
        × (without_places meant ≡ without_places value) }
{}

/// Tokens with the words of a writable policy mean it.
pub fn written_policies_mean()
    ensures { (table : Extensions) (limit : ℕ) (id : List ℕ) (parts : Parts)
        → IsWritablePolicy table limit parts → (us : List Lexeme)
        → words_of us ≡ policy_words table parts
        → IsPolicy table limit id us (assembled id parts) }
{}

/// The policies that spelled tokens mean are writable.
pub fn meant_policies_are_writable()
    ensures { (table : Extensions) (limit : ℕ) (id : List ℕ) (ts : List Lexeme) (policy : Policy)
        → AreSpelled (words_of ts) → IsPolicy table limit id ts policy
        → (parts : Parts) × IsWritablePolicy table limit parts × (assembled id parts ≡ policy) }
{}

/// Tokens with the words of writable policies, one behind another, mean the set of them.
pub fn written_sets_mean()
    ensures { (table : Extensions) (limit : ℕ) (all : List Parts)
        → AreWritablePolicies table limit all → (us : List Lexeme)
        → words_of us ≡ policies_words table all []
        → IsPolicySet table limit us (fold with_policy no_policies (numbered_policies 0 all)) }
{}

/// The policies of a set in their order, under `policy0`, `policy1` and so on, are the set itself
/// where they bear these names there, and where each template has a slot in its scope, as a text
/// tells a template from a static policy.
pub fn numbered_sets_are_themselves()
    ensures { (set : PolicyMaps) (all : List (Either (Bor Template) (Bor Template)))
        → IsNumberedSet set → IsListing set all
        → numbered (templates_lent all) ≡ set_meaning set }
{}

/// The set that tokens mean is such a set, so what is written of it is read back as it: the
/// policies stand under the names that the tokens give them, in that order. The tokens are fewer
/// than 2^64, as those of every text are that fits an address space.
pub fn sets_of_texts_are_numbered()
    ensures { (table : Extensions) (limit : ℕ) (ts : List Lexeme) (set : PolicyMaps)
        → length ts < 2 ^ 64 → IsPolicySet table limit ts (set_meaning set)
        → IsNumberedSet set }
{}

/// Spelled words in a line are cut as just these words.
pub fn lines_are_cut()
    ensures { (all : List TokenText) → AreSpelled all
        → (ts : List Lexeme) × Cuts (line_of all) ts × (words_of ts ≡ all) }
{}

/// What is written of an entity is what is shown of it; it is cut into tokens that are that
/// entity.
pub fn entity_texts_stand()
    ensures shown { (uid : EntityUID) → line_of (entity_words uid) ≡ entity_text uid }
    ensures cut { (uid : EntityUID) → IsWritableEntity uid
        → (ts : List Lexeme) × Cuts (entity_text uid) ts × IsEntity ts uid }
{}
