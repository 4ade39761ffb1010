//! Laws of the grammar: the printed text of a tree, policies in lines, tokens with the same words.
//! Each is a function that does nothing: its contract is the law.
ghost use Rattle.std.specs.Prelude.{◌≡◌, ℕ, List};
ghost use Rattle.cedar_syntax.specs.declared.cst.Policies.{Policies};
ghost use Rattle.cedar_grammar.specs.faults.FirstFault.{HasOneTree};
ghost use Rattle.cedar_grammar.specs.printing.Formatted.{formatted};
ghost use Rattle.cedar_grammar.specs.grammar.Grammar.{IsTreeOf};
ghost use Rattle.cedar_grammar.specs.grammar.LooseExpressions.{ReadsExpr, ReadsPrimary};
ghost use Rattle.cedar_grammar.specs.grammar.LoosePolicies.{ReadsPolicy, ReadsPolicies};
ghost use Rattle.cedar_grammar.specs.grammar.LooseWords.{ReadsIdent, ReadsName, ReadsRef};
ghost use Rattle.cedar_grammar.specs.printing.PrintLaw.{PrintLaw, HasSameTree, SameUpToPlaces};
ghost use Rattle.cedar_grammar.specs.printing.SameWords.{SameWordsLaw};
ghost use Rattle.cedar_syntax.specs.trees.Trees.{Cell};
ghost use Rattle.cedar_syntax.specs.trees.Unlocated.{unlocated_name, unlocated_ref};
ghost use Rattle.cedar_syntax.specs.trees.UnlocatedTrees.{unlocated_expr, unlocated_ident, unlocated_primary, unlocated_policy, unlocated_policies};
ghost use Rattle.cedar_syntax.specs.trees.Unplaced.{expr_tree, primary_tree, name_tree, ref_tree, ident_tree, policy_tree, policies_tree};

/// Where tokens have at most one tree, the printed text of a tree that a text has cuts into tokens
/// that have a tree which is the same up to places, and no other.
pub fn print_law()
    ensures expressions { HasOneTree ReadsExpr → PrintLaw ReadsExpr unlocated_expr expr_tree }
    ensures primaries { HasOneTree ReadsPrimary
        → PrintLaw ReadsPrimary unlocated_primary primary_tree }
    ensures entity_literals { HasOneTree ReadsRef → PrintLaw ReadsRef unlocated_ref ref_tree }
    ensures names { HasOneTree ReadsName → PrintLaw ReadsName unlocated_name name_tree }
    ensures identifiers { HasOneTree ReadsIdent → PrintLaw ReadsIdent unlocated_ident ident_tree }
    ensures single_policies { HasOneTree ReadsPolicy
        → PrintLaw ReadsPolicy unlocated_policy policy_tree }
    ensures policies { HasOneTree ReadsPolicies
        → PrintLaw ReadsPolicies unlocated_policies policies_tree }
{}

/// The same of policies in lines, a line feed behind each; trees that are the same up to places
/// are the same in lines.
pub fn formatted_policies()
    ensures again { HasOneTree ReadsPolicies → (text : List ℕ) (node : Cell Policies)
        → IsTreeOf ReadsPolicies text node
        → HasSameTree ReadsPolicies unlocated_policies node (formatted node) }
    ensures stays { (x y : Cell Policies) → SameUpToPlaces unlocated_policies x y
        → formatted x ≡ formatted y }
{}

/// What tokens are read as, other tokens with the same words, so the same kinds and texts, are
/// read as too, up to places.
pub fn same_words()
    ensures expressions { SameWordsLaw ReadsExpr unlocated_expr }
    ensures primaries { SameWordsLaw ReadsPrimary unlocated_primary }
    ensures entity_literals { SameWordsLaw ReadsRef unlocated_ref }
    ensures names { SameWordsLaw ReadsName unlocated_name }
    ensures identifiers { SameWordsLaw ReadsIdent unlocated_ident }
    ensures single_policies { SameWordsLaw ReadsPolicy unlocated_policy }
    ensures policies { SameWordsLaw ReadsPolicies unlocated_policies }
{}
