//! Laws that join the definitions: what a text's tree is converted to is what its tokens mean.
ghost use Rattle.std.specs.Prelude.{◌≡◌, ◌↔◌, ◌⊎◌, ℕ, List, [], ◌∷◌, Option, Some, Ok, Err, true};
ghost use Rattle.std.specs.List.{All, Contains};
ghost use Rattle.std.specs.Option.{option_map};
ghost use Rattle.std.specs.Map.{keys_of};
ghost use Rattle.cedar_lexer.specs.Cut.{Cuts};
ghost use Rattle.cedar_lexer.specs.Spelling.{IsIdentifierText};
ghost use Rattle.cedar_lexer.specs.Token.{Lexeme};
ghost use Rattle.cedar_expressions.specs.Keys.{repeats_key};
ghost use Rattle.cedar_expressions.specs.Path.{Path, is_identifier, name_text};
ghost use Rattle.cedar_expressions.specs.Value.{Value};
ghost use Rattle.cedar_expressions.specs.WithoutPlaces.{without_places};
ghost use Rattle.cedar_expressions.specs.Written.{entity_text};
ghost use Rattle.cedar_expressions.specs.declared.entity.EntityUID.{EntityUID};
ghost use Rattle.cedar_writer.specs.WrittenPolicies.{IsWritableEntity};
ghost use Rattle.cedar_syntax.specs.declared.loc.Loc.{Loc};
ghost use Rattle.cedar_syntax.specs.declared.cst.Expr.{Expr as Tree};
ghost use Rattle.cedar_syntax.specs.declared.cst.Ident.{Ident};
ghost use Rattle.cedar_syntax.specs.declared.cst.NegOp.TheVariants as sign;
ghost use Rattle.cedar_syntax.specs.declared.cst.Policies.{Policies as SetTree};
ghost use Rattle.cedar_syntax.specs.declared.cst.Policy.{Policy as PolicyTree};
ghost use Rattle.cedar_syntax.specs.declared.cst.Primary.{Primary};
ghost use Rattle.cedar_syntax.specs.declared.cst.Ref.{Ref};
ghost use Rattle.cedar_syntax.specs.declared.cst.RelOp.TheVariants as rel;
ghost use Rattle.cedar_syntax.specs.tokens.Signs.{sign_limit};
ghost use Rattle.cedar_syntax.specs.trees.Forms.{located, expr_form, primary_form};
ghost use Rattle.cedar_syntax.specs.trees.Located as f;
ghost use Rattle.cedar_syntax.specs.trees.Located.{Located, Form, Parts};
ghost use Rattle.cedar_syntax.specs.trees.Tree as t;
ghost use Rattle.cedar_syntax.specs.trees.Unlocated.{unlocated};
ghost use Rattle.cedar_grammar.specs.grammar.Grammar.{IsTreeOf};
ghost use Rattle.cedar_grammar.specs.grammar.LooseExpressions.{ReadsExpr, ReadsPrimary};
ghost use Rattle.cedar_grammar.specs.grammar.LoosePolicies.{ReadsPolicies, ReadsPolicy};
ghost use Rattle.cedar_grammar.specs.grammar.LooseWords.{ReadsIdent, ReadsRef};
ghost use Rattle.cedar_syntax.specs.strings.Piece.{IsLaidOut};
ghost use Rattle.cedar_grammar.specs.grammar.Place.{placed};
ghost use Rattle.cedar_syntax.specs.trees.Trees.{Cell};
ghost use Rattle.cedar_policy_parser.specs.faults.Alone.{HasValue, HaveValues, OperandsHaveValues, quotients, ArePairs, ComesTo, IsAlone, IsBareName};
ghost use Rattle.cedar_conversion.specs.outcome.Conversion.{Converts, key_again, outcome, value_outcome};
ghost use Rattle.cedar_policy_parser.specs.faults.Due.{HaveDueFaults, OfParts};
ghost use Rattle.cedar_policy_parser.specs.faults.DueKinds.{AreDueIn, IsDue, IsProduct, kinds_of_site};
ghost use Rattle.cedar_conversion.specs.parts.Entities.{entity_outcome};
ghost use Rattle.cedar_conversion.specs.strict.Extensions.{Extensions};
ghost use Rattle.cedar_conversion.specs.parts.Literals.{string_outcome};
ghost use Rattle.cedar_conversion.specs.parts.Names.{any_ident, valid_ident};
ghost use Rattle.cedar_conversion.specs.outcome.Detail as detail;
ghost use Rattle.cedar_expressions.specs.declared.operators.UnaryOp.TheVariants as signs;
ghost use Rattle.cedar_conversion.specs.outcome.Outcome.{Kind, outcome_value, detailed_outcome, fault_outcome, ambiguous_operators, arbitrary_variable, expression_construction_error, invalid_single_eq, unary_op_limit};
ghost use Rattle.cedar_policy_parser.specs.faults.Sites as sites;
ghost use Rattle.cedar_policy_parser.specs.faults.Sites.{Site};
ghost use Rattle.cedar_policy_parser.specs.faults.Standing.{AreTokensOf, StandWithin};
ghost use Rattle.cedar_conversion.specs.strict.Strict.{Means, expression};
ghost use Rattle.cedar_conversion.specs.parts.Strings.{layout};

use cedar_text::text_to_cst::laws::expressions;
use cedar_writer::laws::entity_texts_stand;

/// What a text's tree is converted to is what its tokens mean.
pub fn converted_is_meant()
    ensures { (table : Extensions) (src : List ℕ) (ts : List Lexeme) (x : Tree) (w : Value)
        → ReadsExpr src ts x → Converts table (located expr_form (placed src ts x)) w
        → Means table sign_limit expression ts w }
{}

/// Tokens that mean something have a tree that is converted to it.
pub fn meant_is_converted()
    ensures { (table : Extensions) (src : List ℕ) (ts : List Lexeme) (w : Value)
        → Means table sign_limit expression ts w
        → (x : Tree) × ReadsExpr src ts x × Converts table
        (located expr_form (placed src ts x)) w }
{}

/// Tokens with a tree mean what it is converted to and nothing else.
pub fn same_meaning()
    ensures { (table : Extensions) (src : List ℕ) (ts : List Lexeme) (x : Tree) (w : Value)
        → ReadsExpr src ts x
        → Means table sign_limit expression ts w ↔ Converts table
        (located expr_form (placed src ts x)) w }
{
    expressions();
}

/// Tokens have at most one meaning.
pub fn one_meaning()
    ensures { (table : Extensions) (ts : List Lexeme) (v w : Value)
        → Means table sign_limit expression ts v → Means table sign_limit expression ts w → v ≡ w }
{
    expressions();
}

/// Trees that differ in their places alone are converted to the same value, the places of its
/// slots aside, or none of them to any.
pub fn values_see_no_place()
    ensures { (table : Extensions) (m n : Located) → unlocated m ≡ unlocated n
        → option_map without_places (outcome_value (value_outcome table m))
        ≡ option_map without_places (outcome_value (value_outcome table n)) }
{}

/// A relation whose operands have values is refused for its operators alone, at its place: two or
/// more are `AmbiguousOperators`, a single `=` is `InvalidSingleEq`. A product whose operands have
/// values is refused for each `/` and `%` in order, at its place, and for nothing else. More signs
/// than the limit are `UnaryOpLimit` alone, at the place of the operand with its signs, whatever
/// the operand is. A record of which each key is an attribute and each value a value, with a key
/// twice, is `ExpressionConstructionError` alone, at its place. A name that is no variable is
/// `ArbitraryVariable` alone where an expression is wanted, in parentheses or not, at its place.
///
/// So is a whole expression that is one of these and no more, bare or in parentheses (`IsAlone`):
/// an `Expr` node's tree is `located expr_form` of the node, and `to_expr` gives its
/// `value_outcome`. Where an expression that is read from tokens is one of these bare (`ComesTo`),
/// wherever it stands in a text, that place is the expression's own.
pub fn refused_alone()
    ensures ambiguous { (table : Extensions) (place : Option Loc) (a b c : Located)
        (op next : t.Operator)
        (rest : Parts) → HasValue table a → HaveValues table place
        (f.more op b (f.more next c rest))
        → outcome table (f.at place (f.chain t.relation a (f.more op b (f.more next c rest))))
        ≡ fault_outcome ambiguous_operators place }
    ensures ambiguous_alone { (table : Extensions) (tree : Located) (place : Option Loc)
        (a b c : Located) (op next : t.Operator) (rest : Parts)
        → IsAlone tree (f.at place (f.chain t.relation a (f.more op b (f.more next c rest))))
        → HasValue table a → HaveValues table place (f.more op b (f.more next c rest))
        → value_outcome table tree ≡ fault_outcome ambiguous_operators place }
    ensures single_eq { (table : Extensions) (place : Option Loc) (a b : Located)
        → HasValue table a → HasValue table b
        → outcome table (f.at place (f.chain t.relation a
        (f.more (t.compare rel.InvalidSingleEq) b f.none)))
        ≡ fault_outcome invalid_single_eq place }
    ensures single_eq_alone { (table : Extensions) (tree : Located) (place : Option Loc)
        (a b : Located)
        → IsAlone tree (f.at place (f.chain t.relation a
        (f.more (t.compare rel.InvalidSingleEq) b f.none)))
        → HasValue table a → HasValue table b
        → value_outcome table tree ≡ fault_outcome invalid_single_eq place }
    ensures quotients { (table : Extensions) (place : Option Loc) (a : Located) (rest : Parts)
        → HasValue table a → OperandsHaveValues table rest → ¬ (quotients place rest ≡ [])
        → outcome table (f.at place (f.chain t.product a rest)) ≡ Err (quotients place rest) }
    ensures quotients_alone { (table : Extensions) (tree : Located) (place : Option Loc)
        (a : Located) (rest : Parts)
        → IsAlone tree (f.at place (f.chain t.product a rest))
        → HasValue table a → OperandsHaveValues table rest → ¬ (quotients place rest ≡ [])
        → value_outcome table tree ≡ Err (quotients place rest) }
    ensures bangs { (table : Extensions) (place : Option Loc) (a : Located)
        → outcome table (f.at place (f.unary (Some sign.OverBang) a))
        ≡ detailed_outcome unary_op_limit place (detail.sign signs.Not) }
    ensures bangs_alone { (table : Extensions) (tree : Located) (place : Option Loc)
        (a : Located)
        → IsAlone tree (f.at place (f.unary (Some sign.OverBang) a))
        → value_outcome table tree ≡ detailed_outcome unary_op_limit place
        (detail.sign signs.Not) }
    ensures dashes { (table : Extensions) (place : Option Loc) (a : Located)
        → outcome table (f.at place (f.unary (Some sign.OverDash) a))
        ≡ detailed_outcome unary_op_limit place (detail.sign signs.Neg) }
    ensures dashes_alone { (table : Extensions) (tree : Located) (place : Option Loc)
        (a : Located)
        → IsAlone tree (f.at place (f.unary (Some sign.OverDash) a))
        → value_outcome table tree ≡ detailed_outcome unary_op_limit place
        (detail.sign signs.Neg) }
    ensures repeated_key { (table : Extensions) (place : Option Loc) (inits : Parts)
        (pairs : List (List ℕ × Value))
        → ArePairs table inits pairs → repeats_key (keys_of pairs) ≡ true
        → outcome table (f.at place (f.record_of inits))
        ≡ detailed_outcome expression_construction_error place
        (detail.spelling_there (key_again [] (keys_of pairs))) }
    ensures repeated_key_alone { (table : Extensions) (tree : Located) (place : Option Loc)
        (inits : Parts) (pairs : List (List ℕ × Value))
        → IsAlone tree (f.at place (f.record_of inits))
        → ArePairs table inits pairs → repeats_key (keys_of pairs) ≡ true
        → value_outcome table tree ≡ detailed_outcome expression_construction_error place
        (detail.spelling_there (key_again [] (keys_of pairs))) }
    ensures lone_name { (table : Extensions) (tree : Located) (place : Option Loc) (path : Path)
        → IsBareName tree place path
        → value_outcome table tree ≡ detailed_outcome arbitrary_variable place
        (detail.spelling (name_text path)) }
    ensures own_place { (src : List ℕ) (ts : List Lexeme) (x : Tree) (place : Option Loc)
        (form : Form)
        → ReadsExpr src ts x → ComesTo (located expr_form (placed src ts x)) (f.at place form)
        → place ≡ (placed src ts x).loc }
    ensures text_place { (text : List ℕ) (tree : Cell Tree) (place : Option Loc) (form : Form)
        → IsTreeOf ReadsExpr text tree → ComesTo (located expr_form tree) (f.at place form)
        → place ≡ tree.loc }
{}

/// What a text's tree is refused with stands within the tree's place, each fault at a known place
/// of the same text; it is never of an empty node nor of an identifier's spelling, and there is a
/// fault. So it is with each expression that is read from some of a text's tokens, wherever it
/// stands in an expression or a policy.
pub fn faults_stand_within()
    ensures whole { (table : Extensions) (text : List ℕ) (tree : Cell Tree)
        → IsTreeOf ReadsExpr text tree
        → StandWithin tree.loc (value_outcome table (located expr_form tree)) }
    ensures each { (table : Extensions) (text : List ℕ) (ts : List Lexeme) (x : Tree)
        → AreTokensOf text ts → ReadsExpr text ts x
        → StandWithin (placed text ts x).loc
        (value_outcome table (located expr_form (placed text ts x))) }
{}

/// The same of the tree of a primary's text where a string is wanted, of an entity's, and of an
/// identifier's where a name is to hold it.
pub fn faults_of_leaves_stand_within()
    ensures strings { (text : List ℕ) (tree : Cell Primary) → IsTreeOf ReadsPrimary text tree
        → StandWithin tree.loc (string_outcome (located primary_form tree)) }
    ensures entities { (text : List ℕ) (tree : Cell Ref) → IsTreeOf ReadsRef text tree
        → StandWithin tree.loc (entity_outcome tree) }
    ensures identifiers { (text : List ℕ) (tree : Cell Ident) → IsTreeOf ReadsIdent text tree
        → StandWithin tree.loc (valid_ident tree) }
{}

/// Each fault that a text's tree is refused with has a kind that is due at a site of the tree
/// whose place holds the fault's. So it is with each expression that is read from some of a text's
/// tokens, wherever it stands in an expression or a policy.
pub fn faults_are_due()
    ensures whole { (table : Extensions) (text : List ℕ) (tree : Cell Tree)
        → IsTreeOf ReadsExpr text tree
        → AreDueIn table (sites.wanted sites.expression (located expr_form tree))
        (value_outcome table (located expr_form tree)) }
    ensures each { (table : Extensions) (text : List ℕ) (ts : List Lexeme) (x : Tree)
        → AreTokensOf text ts → ReadsExpr text ts x
        → AreDueIn table (sites.wanted sites.expression (located expr_form (placed text ts x)))
        (value_outcome table (located expr_form (placed text ts x))) }
{}

/// A condition with `when` or `unless` whose expression isn't converted is refused with just the
/// expression's faults, each of a kind that is due in it: in a text's policy, and in each policy
/// of a text's set.
pub fn condition_faults_are_due()
    ensures policies { (table : Extensions) (text : List ℕ) (tree : Cell PolicyTree)
        → IsTreeOf ReadsPolicy text tree → OfParts (HaveDueFaults table) tree }
    ensures sets { (table : Extensions) (text : List ℕ) (tree : Cell SetTree) (set : SetTree)
        → IsTreeOf ReadsPolicies text tree → tree.node ≡ Some set
        → All (OfParts (HaveDueFaults table)) set.0 }
{}

/// A kind is due at no site but where the rules name it, nor beside another one at the same site,
/// but at a product, which may have both a `/` and a `%`.
pub fn other_kinds_are_not_due()
    ensures named { (table : Extensions) (site : Site) (kind : Kind)
        → IsDue table kind site → Contains (kinds_of_site site) kind }
    ensures alone { (table : Extensions) (site : Site) (kind other : Kind)
        → IsDue table kind site → IsDue table other site → (kind ≡ other) ⊎ IsProduct site }
{}

/// The pieces that a string is taken for are those that its raw text is laid out of, of which
/// there are no others (`cedar_syntax::unescape::laws::one_layout`).
pub fn strings_are_laid_out()
    ensures { (raw : List ℕ) → IsLaidOut raw (layout raw) }
{}

/// What is spelled as an identifier is one for tokens and for names.
pub fn one_spelling()
    ensures { (text : List ℕ) → IsIdentifierText text ↔ (is_identifier text ≡ true) }
{}

/// The identifier of a text, a word of the language too, is any identifier: its node gives the
/// text of the one token.
pub fn identifier_is_any()
    ensures { (text : List ℕ) (tree : Cell Ident) → IsTreeOf ReadsIdent text tree
        → (token : Lexeme) × Cuts text (token ∷ []) × (any_ident tree ≡ Ok token.text) }
{}

/// What is shown of an entity, and written of it, is read as that entity: the tree of the text,
/// which `parse_ref` answers, is converted to it by `to_ref`.
pub fn shown_entities_are_read()
    ensures { (uid : EntityUID) → IsWritableEntity uid
        → (tree : Cell Ref) × IsTreeOf ReadsRef (entity_text uid) tree
        × (entity_outcome tree ≡ Ok uid) }
{
    entity_texts_stand();
}
