//! What holds of all templates and sets.
ghost use Rattle.std.specs.Prelude.{◌≡◌, ◌↔◌, IsTrue, [], false};
ghost use Rattle.cedar_policy_store.specs.PlaceFree.{template_meaning, set_meaning, has_slot_in_scope};
ghost use Rattle.cedar_policy_store.specs.TemplateSlots.{condition_slots, template_slots};

use crate::{PolicySet, Template};

/// Two templates are equal exactly if they mean the same, places aside.
pub fn equal_templates()
    ensures { (x y : Template)
        → IsTrue (⟦<Template as PartialEq>⟧.eq x y) ↔ (template_meaning x ≡ template_meaning y) }
{}

/// Two sets are equal exactly if they mean the same, places aside.
pub fn equal_sets()
    ensures { (x y : PolicySet)
        → IsTrue (⟦<PolicySet as PartialEq>⟧.eq x y) ↔ (set_meaning x ≡ set_meaning y) }
{}

/// A template whose condition has no slot has none exactly if its scope has none; that doesn't
/// depend on places.
pub fn static_by_scope()
    ensures { (t : Template) → condition_slots t.condition ≡ []
        → (template_slots t ≡ []) ↔ (has_slot_in_scope (template_meaning t) ≡ false) }
{}
