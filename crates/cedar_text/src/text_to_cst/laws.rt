//! Laws of the rules by which a whole text is read. Each is a function that does nothing: its
//! contract is the law.
ghost use Rattle.std.specs.Prelude.{◌≡◌, ℕ, List, IsTrue};
ghost use Rattle.std.specs.List.{All};
ghost use Rattle.std.specs.Str.{IsUtf8};
ghost use Rattle.cedar_lexer.specs.declared.token.TokenKind.{TokenKind};
ghost use Rattle.cedar_lexer.specs.declared.token.TokenKind.TheVariants as kind;
ghost use Rattle.cedar_syntax.specs.declared.cst.Expr.{Expr};
ghost use Rattle.cedar_syntax.specs.declared.cst.Policies.{Policies};
ghost use Rattle.cedar_syntax.specs.declared.cst.Policy.{Policy};
ghost use Rattle.cedar_syntax.specs.declared.cst.Primary.{Primary};
ghost use Rattle.cedar_syntax.specs.declared.err.faults.ParseError.{ParseError};
ghost use Rattle.cedar_grammar.specs.faults.Expected.{by_name, IsIn, stand_by_name};
ghost use Rattle.cedar_grammar.specs.printing.Formatted.{formatted};
ghost use Rattle.cedar_grammar.specs.grammar.Grammar.{IsTreeOf};
ghost use Rattle.cedar_grammar.specs.faults.Leftmost.{StandsLeftmost};
ghost use Rattle.cedar_grammar.specs.grammar.LooseExpressions.{ReadsExpr, ReadsPrimary};
ghost use Rattle.cedar_grammar.specs.grammar.LoosePolicies.{ReadsPolicies, ReadsPolicy};
ghost use Rattle.cedar_grammar.specs.grammar.LooseWords.{ReadsIdent, ReadsName, ReadsRef};
ghost use Rattle.cedar_grammar.specs.faults.MendedFaults.{HasFaultList, HasOneFaultList, NothingBefore, PoliciesBefore};
ghost use Rattle.cedar_grammar.specs.printing.PrintLaw.{PrintLaw, HasSameTree};
ghost use Rattle.cedar_syntax.specs.trees.TreePlaces.{IsPlace, node_places, expr_places, policies_places, policy_places, primary_places};
ghost use Rattle.cedar_syntax.specs.trees.Trees.{Cell};
ghost use Rattle.cedar_syntax.specs.trees.Unlocated.{unlocated_name, unlocated_ref};
ghost use Rattle.cedar_syntax.specs.trees.UnlocatedTrees.{unlocated_expr, unlocated_ident, unlocated_primary, unlocated_policy, unlocated_policies};
ghost use Rattle.cedar_syntax.specs.trees.Unplaced.{expr_tree, primary_tree, name_tree, ref_tree, ident_tree, policy_tree, policies_tree};
ghost use Rattle.cedar_text.specs.TextRules.{IsTextRule};
ghost use Rattle.cedar_text.specs.TreeDepth.{NestsAsTold};

use cedar_grammar::reading::expected::ClosersOnly;

/// Tokens have at most one entity literal. They have one, or a first fault and then just one,
/// never both. And each sentence stands in a text: the tokens of some text are of its kinds, and
/// have one. A text's tokens go on with each sentence that they begin, behind the same bytes.
pub fn entity_literals()
    ensures { IsTextRule ReadsRef ClosersOnly.Never }
{}

/// The same of names.
pub fn names()
    ensures { IsTextRule ReadsName ClosersOnly.Never }
{}

/// The same of single identifiers.
pub fn identifiers()
    ensures { IsTextRule ReadsIdent ClosersOnly.Never }
{}

/// The same of expressions.
pub fn expressions()
    ensures { IsTextRule ReadsExpr ClosersOnly.TokensAndEnd }
{}

/// The same of primaries.
pub fn primaries()
    ensures { IsTextRule ReadsPrimary ClosersOnly.TokensAndEnd }
{}

/// The same of policies. And mending comes to an end: tokens have a list of faults, and just one.
pub fn policies()
    ensures rule { IsTextRule ReadsPolicies ClosersOnly.Tokens }
    ensures fault_list { HasFaultList ReadsPolicies PoliciesBefore }
    ensures one_list { HasOneFaultList ReadsPolicies PoliciesBefore }
{}

/// The same of single policies.
pub fn single_policies()
    ensures rule { IsTextRule ReadsPolicy ClosersOnly.Tokens }
    ensures fault_list { HasFaultList ReadsPolicy NothingBefore }
    ensures one_list { HasOneFaultList ReadsPolicy NothingBefore }
{}

/// The printed text of a tree that a text has cuts into tokens that have a tree by the same rule
/// which is the same up to places, and no other. So do policies in lines, a line feed behind each.
pub fn printed_texts()
    ensures policies { PrintLaw ReadsPolicies unlocated_policies policies_tree }
    ensures single_policies { PrintLaw ReadsPolicy unlocated_policy policy_tree }
    ensures expressions { PrintLaw ReadsExpr unlocated_expr expr_tree }
    ensures primaries { PrintLaw ReadsPrimary unlocated_primary primary_tree }
    ensures entity_literals { PrintLaw ReadsRef unlocated_ref ref_tree }
    ensures names { PrintLaw ReadsName unlocated_name name_tree }
    ensures identifiers { PrintLaw ReadsIdent unlocated_ident ident_tree }
    ensures lines { (text : List ℕ) (x : Cell Policies) → IsTreeOf ReadsPolicies text x
        → HasSameTree ReadsPolicies unlocated_policies x (formatted x) }
{}

/// At most one fault of a list starts before all others there.
pub fn leftmost_faults()
    ensures one_leftmost { (xs : List ParseError) (x y : ParseError) → StandsLeftmost x xs
        → StandsLeftmost y xs → x ≡ y }
{}

/// Each place in the tree of a text is a range of the text, on boundaries of characters.
pub fn expressions_stand_in_texts()
    ensures expressions { (text : List ℕ) (x : Cell Expr) → IsUtf8 text
        → IsTreeOf ReadsExpr text x → All (IsPlace text) (node_places expr_places x) }
    ensures primaries { (text : List ℕ) (x : Cell Primary) → IsUtf8 text
        → IsTreeOf ReadsPrimary text x → All (IsPlace text) (node_places primary_places x) }
{}

/// The same of policies.
pub fn policies_stand_in_texts()
    ensures policies { (text : List ℕ) (x : Cell Policies) → IsUtf8 text
        → IsTreeOf ReadsPolicies text x → All (IsPlace text) (node_places policies_places x) }
    ensures single_policies { (text : List ℕ) (x : Cell Policy) → IsUtf8 text
        → IsTreeOf ReadsPolicy text x → All (IsPlace text) (node_places policy_places x) }
{}

/// The table of kinds stands in byte order of their names, and each kind is in it.
pub fn kinds_by_name()
    ensures sorted { IsTrue (stand_by_name by_name) }
    ensures each { (k : TokenKind) → IsIn k by_name }
{}

/// The tree of a text nests no deeper than `nesting` tells of the text: an expression of it stands
/// in no more brackets and `if`s.
pub fn trees_nest_as_told()
    ensures expressions { NestsAsTold ReadsExpr expr_tree }
    ensures primaries { NestsAsTold ReadsPrimary primary_tree }
    ensures policies { NestsAsTold ReadsPolicies policies_tree }
    ensures policy { NestsAsTold ReadsPolicy policy_tree }
{}
