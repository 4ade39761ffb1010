//! The slots of trees, and the variables and the slots of templates that they stand for.
use super::assertions::{holds, made, refusal, says, shows};
use super::names::text;
use cedar_expressions::{SlotId, Var};
use cedar_syntax::cst::Slot;
use cedar_syntax::err::Failure;

/// A variable, and whether `?principal` and `?resource` are its slots.
const SLOTS: [(Var, bool, bool); 4] = [
    (Var::Principal, true, false),
    (Var::Action, false, false),
    (Var::Resource, false, true),
    (Var::Context, false, false),
];

#[test]
fn slots_match_their_variables(rt: HostRuntime) {
    let other = Slot::Other(text(&rt, "?action"));
    for (var, principal, resource) in &SLOTS {
        holds(&rt, Slot::Principal.matches(*var) == *principal);
        holds(&rt, Slot::Resource.matches(*var) == *resource);
        holds(&rt, !other.matches(*var));
    }
    drop(other);
}

#[test]
fn slots_are_those_of_templates(rt: HostRuntime) {
    for id in &[SlotId::Principal, SlotId::Resource] {
        let slot = Slot::from(*id);
        holds(&rt, made(&rt, slot.to_slot_id(rt.alloc())) == *id);
        drop(slot);
    }
    shows(&rt, &Slot::from(SlotId::Principal), "?principal");
    shows(&rt, &Slot::from(SlotId::Resource), "?resource");
}

#[test]
fn another_slot_is_refused_without_a_place(rt: HostRuntime) {
    let other = Slot::Other(text(&rt, "?action"));
    let failure = refusal(&rt, other.to_slot_id(rt.alloc()));
    if let Failure::Errors(faults) = &failure {
        holds(
            &rt,
            faults.len() == 1 && faults.primary_source_span().is_none(),
        );
    }
    says(&rt, failure, "`?action` is not a valid template slot");
    drop(other);
}
