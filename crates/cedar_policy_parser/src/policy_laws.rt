//! Laws that join the definitions: what the trees of policies are converted to is what their
//! tokens mean.
ghost use Rattle.std.specs.Prelude.{◌≡◌, ◌≢◌, ◌↔◌, ◌≤◌, ℕ, List, [], map, Option, Some, None, Ok, Err, Bool};
ghost use Rattle.std.specs.List.{All};
ghost use Rattle.either.specs.declared.Either.TheVariants.{Left, Right};
ghost use Rattle.cedar_expressions.specs.Value.{Value};
ghost use Rattle.cedar_expressions.specs.declared.atoms.Var.{Var};
ghost use Rattle.cedar_lexer.specs.Cut.{Cuts};
ghost use Rattle.cedar_lexer.specs.Token.{Lexeme};
ghost use Rattle.cedar_lexer.specs.Words.{words_of};
ghost use Rattle.cedar_policy_store.specs.PlaceFree as free;
ghost use Rattle.cedar_syntax.specs.declared.cst.Annotation.{Annotation};
ghost use Rattle.cedar_syntax.specs.declared.cst.Cond.{Cond};
ghost use Rattle.cedar_syntax.specs.declared.cst.Expr.{Expr};
ghost use Rattle.cedar_syntax.specs.declared.cst.Ident.{Ident};
ghost use Rattle.cedar_syntax.specs.declared.cst.Policies.{Policies as SetTree};
ghost use Rattle.cedar_syntax.specs.declared.cst.Policy.{Policy as PolicyTree};
ghost use Rattle.cedar_syntax.specs.declared.cst.Policy.TheVariants as trees;
ghost use Rattle.cedar_syntax.specs.declared.cst.PolicyImpl.{PolicyImpl};
ghost use Rattle.cedar_syntax.specs.declared.cst.Ref.{Ref};
ghost use Rattle.cedar_syntax.specs.tokens.Signs.{sign_limit};
ghost use Rattle.cedar_syntax.specs.declared.loc.Loc.{Loc};
ghost use Rattle.cedar_syntax.specs.declared.node.Node.{Node};
ghost use Rattle.cedar_syntax.specs.trees.Forms.{located, expr_form};
ghost use Rattle.cedar_syntax.specs.trees.Located.{Located};
ghost use Rattle.cedar_grammar.specs.grammar.Grammar.{IsTreeOf};
ghost use Rattle.cedar_grammar.specs.grammar.LoosePolicies.{ReadsPolicies, ReadsPolicy};
ghost use Rattle.cedar_grammar.specs.grammar.Place.{placed};
ghost use Rattle.cedar_grammar.specs.printing.PrintLaw.{SameUpToPlaces};
ghost use Rattle.cedar_syntax.specs.trees.Trees.{Cell};
ghost use Rattle.cedar_syntax.specs.trees.UnlocatedTrees.{unlocated_policies};
ghost use Rattle.cedar_policy_conversion.specs.AnnotationKeys.{annotation_outcome, annotations_outcome, with_new_key};
ghost use Rattle.cedar_policy_parser.specs.faults.Blocks.{PartsStandWithin, faults_from, policy_faults, set_faults};
ghost use Rattle.cedar_policy_conversion.specs.Conditions.{condition_outcome, condition_slot_fault, condition_word, is_when_of};
ghost use Rattle.cedar_conversion.specs.outcome.Conversion.{Converts, value_outcome};
ghost use Rattle.cedar_policy_parser.specs.faults.Due.{HoldsCondition, IsWhenOrUnless, IsTellable, OfParts, RefusesEffect, TellsExtra, TellsMissing};
ghost use Rattle.cedar_conversion.specs.parts.Entities.{entity_outcome};
ghost use Rattle.cedar_conversion.specs.parts.Literals.{string_outcome};
ghost use Rattle.cedar_conversion.specs.parts.Names.{any_ident, valid_ident};
ghost use Rattle.cedar_conversion.specs.strict.Extensions.{Extensions};
ghost use Rattle.cedar_conversion.specs.outcome.Detail as detail;
ghost use Rattle.cedar_conversion.specs.outcome.Outcome.{NamedFault, detailed_outcome, next, outcome_value, empty_clause, invalid_condition};
ghost use Rattle.cedar_policy_conversion.specs.Policies as k;
ghost use Rattle.cedar_policy_conversion.specs.Policies.{TemplateParts, meaning_of};
ghost use Rattle.cedar_policy_conversion.specs.PolicyMeaning.{IsStatic};
ghost use Rattle.cedar_policy_conversion.specs.References.{referent_outcome, single_entity, entity_or_slot, one_or_multiple};
ghost use Rattle.cedar_policy_conversion.specs.Scope.{scope_outcome};
ghost use Rattle.cedar_policy_parser.specs.faults.Standing.{StandWithin};
ghost use Rattle.cedar_policy_parser.specs.meaning.LaidOut.{HaveSameWords, KeepsTree, KeepsMeaning};
ghost use Rattle.cedar_policy_parser.specs.meaning.StrictPolicy.{IsPolicy, IsPolicySet};
ghost use Rattle.cedar_expressions.specs.Slots.{slots_of};

use cedar_text::text_to_cst::laws::{policies, single_policies};

/// What a policy's tree is converted to is what its tokens mean.
pub fn policy_is_meant()
    ensures { (table : Extensions) (src id : List ℕ) (ts : List Lexeme)
        (x : PolicyTree) (parts : TemplateParts)
        → ReadsPolicy src ts x → k.template_outcome table id (placed src ts x) ≡ Ok parts
        → IsPolicy table sign_limit id ts (meaning_of parts) }
{}

/// Tokens that mean a policy have a tree that is converted to it.
pub fn meant_is_policy()
    ensures { (table : Extensions) (src id : List ℕ) (ts : List Lexeme) (policy : free.Policy)
        → IsPolicy table sign_limit id ts policy
        → (x : PolicyTree) × (parts : TemplateParts) × ReadsPolicy src ts x
        × (k.template_outcome table id (placed src ts x) ≡ Ok parts)
        × (meaning_of parts ≡ policy) }
{}

/// A policy's tree is converted where a static policy is wanted exactly where it is converted and
/// what its tokens mean has no slot in its scope, and to the same. Tokens that mean such a policy
/// have a tree that is converted to it there.
pub fn static_policy_is_meant()
    ensures converted { (table : Extensions) (src id : List ℕ)
        (ts : List Lexeme) (x : PolicyTree) (parts : TemplateParts)
        → ReadsPolicy src ts x
        → (k.static_outcome table id (placed src ts x) ≡ Ok parts)
        ↔ ((k.template_outcome table id (placed src ts x) ≡ Ok parts)
        × IsPolicy table sign_limit id ts (meaning_of parts) × IsStatic (meaning_of parts)) }
    ensures meant { (table : Extensions) (src id : List ℕ) (ts : List Lexeme)
        (policy : free.Policy)
        → IsPolicy table sign_limit id ts policy → IsStatic policy
        → (x : PolicyTree) × (parts : TemplateParts) × ReadsPolicy src ts x
        × (k.static_outcome table id (placed src ts x) ≡ Ok parts)
        × (meaning_of parts ≡ policy) }
{}

/// Where either is wanted, a policy's tree is converted to a static policy exactly where what its
/// tokens mean has no slot in its scope, and else to a template. Tokens that mean one or the other
/// have a tree that is converted to it as such.
pub fn side_is_meant()
    ensures static_policies { (table : Extensions) (src id : List ℕ)
        (ts : List Lexeme) (x : PolicyTree) (parts : TemplateParts)
        → ReadsPolicy src ts x
        → (k.either_outcome table id (placed src ts x) ≡ Ok (Left parts))
        ↔ ((k.template_outcome table id (placed src ts x) ≡ Ok parts)
        × IsPolicy table sign_limit id ts (meaning_of parts) × IsStatic (meaning_of parts)) }
    ensures templates { (table : Extensions) (src id : List ℕ)
        (ts : List Lexeme) (x : PolicyTree) (parts : TemplateParts)
        → ReadsPolicy src ts x
        → (k.either_outcome table id (placed src ts x) ≡ Ok (Right parts))
        ↔ ((k.template_outcome table id (placed src ts x) ≡ Ok parts)
        × IsPolicy table sign_limit id ts (meaning_of parts) × ¬ (IsStatic (meaning_of parts))) }
    ensures meant_static { (table : Extensions) (src id : List ℕ) (ts : List Lexeme)
        (policy : free.Policy)
        → IsPolicy table sign_limit id ts policy → IsStatic policy
        → (x : PolicyTree) × (parts : TemplateParts) × ReadsPolicy src ts x
        × (k.either_outcome table id (placed src ts x) ≡ Ok (Left parts))
        × (meaning_of parts ≡ policy) }
    ensures meant_template { (table : Extensions) (src id : List ℕ) (ts : List Lexeme)
        (policy : free.Policy)
        → IsPolicy table sign_limit id ts policy → ¬ (IsStatic policy)
        → (x : PolicyTree) × (parts : TemplateParts) × ReadsPolicy src ts x
        × (k.either_outcome table id (placed src ts x) ≡ Ok (Right parts))
        × (meaning_of parts ≡ policy) }
{}

/// What the tree of a set is converted to is what its tokens mean; so is the tree that a whole
/// text has, be it of no tokens.
pub fn set_is_meant()
    ensures tokens { (table : Extensions) (src : List ℕ) (ts : List Lexeme)
        (x : SetTree) (set : free.Policies)
        → ReadsPolicies src ts x → k.policies_outcome table (placed src ts x) ≡ Ok set
        → IsPolicySet table sign_limit ts set }
    ensures text { (table : Extensions) (text : List ℕ) (tree : Cell SetTree) (set : free.Policies)
        → IsTreeOf ReadsPolicies text tree → k.policies_outcome table tree ≡ Ok set
        → (ts : List Lexeme) × Cuts text ts × IsPolicySet table sign_limit ts set }
{}

/// Tokens that mean a set have a tree that is converted to it; so has a text that is cut into
/// them, be it into none.
pub fn meant_is_set()
    ensures tokens { (table : Extensions) (src : List ℕ) (ts : List Lexeme) (set : free.Policies)
        → IsPolicySet table sign_limit ts set
        → (x : SetTree) × ReadsPolicies src ts x
        × (k.policies_outcome table (placed src ts x) ≡ Ok set) }
    ensures text { (table : Extensions) (text : List ℕ) (ts : List Lexeme) (set : free.Policies)
        → Cuts text ts → IsPolicySet table sign_limit ts set
        → (tree : Cell SetTree) × IsTreeOf ReadsPolicies text tree
        × (k.policies_outcome table tree ≡ Ok set) }
{}

/// Trees of sets that differ in their places alone are converted to the same set, or neither of
/// them to any.
pub fn sets_see_no_place()
    ensures { (table : Extensions) (x y : Cell SetTree) → SameUpToPlaces unlocated_policies x y
        → outcome_value (k.policies_outcome table x) ≡ outcome_value (k.policies_outcome table y) }
{}

/// Tokens of a policy have at most one meaning under a name.
pub fn one_policy()
    ensures { (table : Extensions) (id : List ℕ) (ts : List Lexeme) (v w : free.Policy)
        → IsPolicy table sign_limit id ts v → IsPolicy table sign_limit id ts w → v ≡ w }
{
    single_policies();
}

/// Tokens of a set have at most one meaning.
pub fn one_set()
    ensures { (table : Extensions) (ts : List Lexeme) (v w : free.Policies)
        → IsPolicySet table sign_limit ts v → IsPolicySet table sign_limit ts w → v ≡ w }
{
    policies();
}

/// What the tree of a policy, or of a set, is refused with stands within its place, each fault at
/// a known place of the same text; it is never of an empty node nor of an identifier's spelling,
/// and there is a fault. What a policy of a set is refused with stands within that policy's place;
/// what its effect, an annotation or a condition is refused with within its own place, and what
/// its scope is refused with within the policy's.
pub fn policy_faults_stand_within()
    ensures policies { (table : Extensions) (text id : List ℕ)
        (tree : Cell PolicyTree)
        → IsTreeOf ReadsPolicy text tree
        → StandWithin tree.loc (k.template_outcome table id tree) }
    ensures sets { (table : Extensions) (text : List ℕ)
        (tree : Cell SetTree)
        → IsTreeOf ReadsPolicies text tree
        → StandWithin tree.loc (k.policies_outcome table tree) }
    ensures members { (table : Extensions) (text id : List ℕ)
        (tree : Cell SetTree) (set : SetTree)
        → IsTreeOf ReadsPolicies text tree → tree.node ≡ Some set
        → All (λ node. StandWithin node.loc (k.template_outcome table id node)) set.0 }
    ensures parts { (table : Extensions) (text : List ℕ) (tree : Cell PolicyTree)
        (parts : PolicyImpl)
        → IsTreeOf ReadsPolicy text tree → tree.node ≡ Some (trees.Policy parts)
        → PartsStandWithin table tree.loc parts }
    ensures member_parts { (table : Extensions) (text : List ℕ)
        (tree : Cell SetTree) (set : SetTree)
        → IsTreeOf ReadsPolicies text tree → tree.node ≡ Some set
        → All (λ node. (parts : PolicyImpl) → node.node ≡ Some (trees.Policy parts)
        → PartsStandWithin table node.loc parts) set.0 }
{}

/// The faults of a set are those of its policies, one after another, whatever name each has. Those
/// of a policy are those of its effect, of each annotation, of its scope and of each condition, in
/// this order.
pub fn blocks()
    ensures set { (table : Extensions) (id : List ℕ)
        (nodes : List (Node (Option PolicyTree)))
        → faults_from (k.set_outcome table nodes) ≡ set_faults table id nodes }
    ensures policy { (table : Extensions) (id : List ℕ) (place : Option Loc)
        (parts : PolicyImpl)
        → faults_from (k.template_of table id place (trees.Policy parts))
        ≡ policy_faults table parts }
{}

/// In a parsed policy, and in each policy of a parsed set, a refused effect is `InvalidEffect`
/// alone; its scope has a `MissingScopeVariable` just for each element that is missing, and an
/// `ExtraScopeElement` just for each beyond three. A condition whose word is neither `when` nor
/// `unless` is `InvalidCondition` alone; with one of them it is `EmptyClause` alone if it has no
/// expression, and, if its expression converts, just a `SlotsInConditionClause` for each slot, in
/// order, where the slot stands within the condition. No fault of a policy's or a set's tree, by
/// hand too, is of a name that two policies have, nor a text's own, whatever of the two kinds of
/// policy is wanted; nor is one of the tree of an expression, also where an entity, a slot or a set
/// of entities is wanted, of a string, of an entity, of an identifier, where a name is to hold it
/// or not, nor of an effect, of one or more annotations, of a scope or of a condition. Where a
/// policy's or a set's tree, or a part of a policy, is refused there is a fault.
pub fn due()
    ensures effect { (text : List ℕ) (tree : Cell PolicyTree)
        → IsTreeOf ReadsPolicy text tree → OfParts RefusesEffect tree }
    ensures missing { (table : Extensions) (text : List ℕ) (tree : Cell PolicyTree)
        → IsTreeOf ReadsPolicy text tree → OfParts (TellsMissing table) tree }
    ensures extra { (table : Extensions) (text : List ℕ) (tree : Cell PolicyTree)
        → IsTreeOf ReadsPolicy text tree → OfParts (TellsExtra table) tree }
    ensures member_effect { (text : List ℕ) (tree : Cell SetTree) (set : SetTree)
        → IsTreeOf ReadsPolicies text tree → tree.node ≡ Some set
        → All (OfParts RefusesEffect) set.0 }
    ensures member_missing { (table : Extensions) (text : List ℕ)
        (tree : Cell SetTree) (set : SetTree)
        → IsTreeOf ReadsPolicies text tree → tree.node ≡ Some set
        → All (OfParts (TellsMissing table)) set.0 }
    ensures member_extra { (table : Extensions) (text : List ℕ)
        (tree : Cell SetTree) (set : SetTree)
        → IsTreeOf ReadsPolicies text tree → tree.node ≡ Some set
        → All (OfParts (TellsExtra table)) set.0 }
    ensures policy_names { (table : Extensions) (id : List ℕ)
        (tree : Cell PolicyTree)
        → All IsTellable (faults_from (k.template_outcome table id tree)) }
    ensures static_names { (table : Extensions) (id : List ℕ)
        (tree : Cell PolicyTree)
        → All IsTellable (faults_from (k.static_outcome table id tree)) }
    ensures either_names { (table : Extensions) (id : List ℕ)
        (tree : Cell PolicyTree)
        → All IsTellable (faults_from (k.either_outcome table id tree)) }
    ensures set_names { (table : Extensions) (tree : Cell SetTree)
        → All IsTellable (faults_from (k.policies_outcome table tree)) }
    ensures value_names { (table : Extensions) (tree : Located)
        → All IsTellable (faults_from (value_outcome table tree)) }
    ensures string_names { (tree : Located)
        → All IsTellable (faults_from (string_outcome tree)) }
    ensures entity_names { (node : Node (Option Ref))
        → All IsTellable (faults_from (entity_outcome node)) }
    ensures identifier_names { (node : Node (Option Ident))
        → All IsTellable (faults_from (valid_ident node)) }
    ensures word_names { (node : Node (Option Ident))
        → All IsTellable (faults_from (any_ident node)) }
    ensures single_names { (var : Var) (node : Node (Option Expr))
        → All IsTellable (faults_from (referent_outcome single_entity var node)) }
    ensures reference_names { (var : Var) (node : Node (Option Expr))
        → All IsTellable (faults_from (referent_outcome entity_or_slot var node)) }
    ensures multiple_names { (var : Var) (node : Node (Option Expr))
        → All IsTellable (faults_from (referent_outcome one_or_multiple var node)) }
    ensures effect_names { (node : Node (Option Ident))
        → All IsTellable (faults_from (k.effect_outcome node)) }
    ensures annotation_names { (keys : List (List ℕ)) (node : Node (Option Annotation))
        → All IsTellable (faults_from (next (annotation_outcome node) (with_new_key keys))) }
    ensures annotations_names { (nodes : List (Node (Option Annotation)))
        → All IsTellable (faults_from (annotations_outcome nodes)) }
    ensures scope_names { (table : Extensions) (parts : PolicyImpl)
        → All IsTellable (faults_from (scope_outcome table parts)) }
    ensures condition_names { (table : Extensions) (node : Node (Option Cond))
        → All IsTellable (faults_from (condition_outcome table node)) }
    ensures policy_refused { (table : Extensions) (id : List ℕ)
        (tree : Cell PolicyTree) (faults : List NamedFault)
        → k.template_outcome table id tree ≡ Err faults → faults ≢ [] }
    ensures set_refused { (table : Extensions) (tree : Cell SetTree)
        (faults : List NamedFault)
        → k.policies_outcome table tree ≡ Err faults → faults ≢ [] }
    ensures effect_refused { (node : Node (Option Ident)) (faults : List NamedFault)
        → k.effect_outcome node ≡ Err faults → faults ≢ [] }
    ensures annotation_refused { (keys : List (List ℕ)) (node : Node (Option Annotation))
        (faults : List NamedFault)
        → next (annotation_outcome node) (with_new_key keys) ≡ Err faults → faults ≢ [] }
    ensures scope_refused { (table : Extensions) (parts : PolicyImpl) (faults : List NamedFault)
        → scope_outcome table parts ≡ Err faults → faults ≢ [] }
    ensures condition_refused { (table : Extensions) (node : Node (Option Cond))
        (faults : List NamedFault)
        → condition_outcome table node ≡ Err faults → faults ≢ [] }
    ensures other_word { (table : Extensions) (node : Node (Option Cond))
        (word : Ident) (place : Option Loc) (expr : Option (Node (Option Expr)))
        → HoldsCondition node word place expr → ¬ (IsWhenOrUnless word)
        → condition_outcome table node
        ≡ detailed_outcome invalid_condition place (detail.word word) }
    ensures no_clause { (table : Extensions) (node : Node (Option Cond))
        (word : Ident) (place : Option Loc)
        → HoldsCondition node word place None → IsWhenOrUnless word
        → condition_outcome table node
        ≡ detailed_outcome empty_clause node.loc (detail.word word) }
    ensures slots { (table : Extensions) (node : Node (Option Cond))
        (word : Ident) (place : Option Loc) (when : Bool) (expr : Node (Option Expr))
        (value : Value)
        → HoldsCondition node word place (Some expr) → is_when_of place word ≡ Ok when
        → Converts table (located expr_form expr) value
        → faults_from (condition_outcome table node)
        ≡ map (condition_slot_fault node.loc (condition_word when)) (slots_of value) }
{}

/// What tokens mean with a limit of signs they mean with each higher one.
pub fn old_meaning_is_kept()
    ensures { (table : Extensions) (low high : ℕ) (ts : List Lexeme) (set : free.Policies)
        → low ≤ high → IsPolicySet table low ts set → IsPolicySet table high ts set }
{}

/// Tokens of the same kinds and texts, wherever they stand, mean the same set.
pub fn same_words_mean_the_same()
    ensures { (table : Extensions) (ts us : List Lexeme) (set : free.Policies)
        → IsPolicySet table sign_limit ts set → words_of us ≡ words_of ts
        → IsPolicySet table sign_limit us set }
{}

/// A text that cuts into the same words as another one has its tree, places aside, and no other
/// one, and means the same sets.
pub fn same_words_are_the_same_policies()
    ensures tree { (text other : List ℕ) → HaveSameWords text other → KeepsTree text other }
    ensures meaning { (text other : List ℕ) → HaveSameWords text other
        → KeepsMeaning text other }
{
    policies();
}
