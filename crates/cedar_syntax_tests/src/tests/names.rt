//! Names, entities, words and wrappers: what is refused, how they are written, and that a copy
//! equals its source.
use super::assertions::{
    agrees, copies, copies_of, holds, is_copied, list_of_two, made, refusal, says, says_and_copies,
    shows,
};
use cedar_expressions::{
    AddOp, AnyId, BinaryCall, Boxed, Eid, EntityType, EntityUID, ExpressionConstructionError, Id,
    InternalName, Items, ListCall, Literal, Name, PatternElem, Place, Slot, SlotId, Source, Text,
    UnaryCall, UnaryOp, UnreservedId, Var,
};
use std::process::Abort;

/// A text of its own.
pub(super) fn text(rt: &(impl Abort + AllocGlobal), bytes: &str) -> Text {
    made(rt, Text::from_str(rt.alloc(), bytes))
}

/// The identifier that a word is.
pub(super) fn id(rt: &(impl Abort + AllocGlobal), word: &str) -> Id {
    Id::new(text(rt, word)).expect(rt, "no identifier")
}

/// A name of two parts, which may be reserved.
pub(super) fn internal_name(
    rt: &(impl Abort + AllocGlobal),
    first: &str,
    last: &str,
) -> InternalName {
    let mut path = Vec::new(rt.alloc());
    made(rt, path.push(id(rt, first)));
    InternalName::new(id(rt, last), path)
}

/// A name of two parts.
pub(super) fn name(rt: &(impl Abort + AllocGlobal), first: &str, last: &str) -> Name {
    made(rt, Name::try_from(internal_name(rt, first, last)))
}

#[test]
fn a_reserved_identifier_is_refused(rt: HostRuntime) {
    copies(&rt, made(&rt, UnreservedId::try_from(id(&rt, "cedar"))));
    let refused = refusal(&rt, UnreservedId::try_from(id(&rt, "__cedar")));
    shows(&rt, refused.name(), "__cedar");
    drop(refused);
}

const RESERVED_NAMES: [(&str, &str, &str); 2] = [
    ("App", "__cedar", "App::__cedar"),
    ("__cedar", "App", "__cedar::App"),
];

#[test]
fn reserved_names_are_refused(rt: HostRuntime) {
    for (first, last, written) in &RESERVED_NAMES {
        let refused = refusal(&rt, Name::try_from(internal_name(&rt, first, last)));
        shows(&rt, refused.name(), written);
        copies(&rt, refused);
    }
}

#[test]
fn names_are_ordered(rt: HostRuntime) {
    let (group, user) = (name(&rt, "App", "Group"), name(&rt, "App", "User"));
    holds(&rt, group < user);
    holds(&rt, user.basename().as_str() == "User");
    drop((group, user));
}

#[test]
fn names_are_written_and_copied(rt: HostRuntime) {
    says_and_copies(&rt, name(&rt, "App", "User"), "App::User");
    let single = made(&rt, UnreservedId::try_from(id(&rt, "ip")));
    says(&rt, Name::from(single), "ip");
    copies(&rt, internal_name(&rt, "__cedar", "A"));
}

/// An entity whose identifier has a quote.
pub(super) fn entity(rt: &(impl Abort + AllocGlobal)) -> EntityUID {
    let user = EntityType::from(name(rt, "App", "User"));
    EntityUID::from_components(user, Eid::new(text(rt, "a\"b")))
}

#[test]
fn entities_are_written_and_copied(rt: HostRuntime) {
    let entity = entity(&rt);
    holds(&rt, entity.eid().as_str() == "a\"b");
    says_and_copies(&rt, entity, "App::User::\"a\\\"b\"");
}

#[test]
fn words_are_written(rt: HostRuntime) {
    shows(&rt, &AddOp::Plus, "+");
    shows(&rt, &AddOp::Minus, "-");
    shows(&rt, &UnaryOp::Not, "!");
    shows(&rt, &UnaryOp::Neg, "-");
    shows(&rt, &Literal::Bool(true), "true");
    shows(&rt, &Literal::Long(-5), "-5");
    shows(&rt, &Var::Principal, "principal");
    shows(&rt, &Var::Action, "action");
    shows(&rt, &Var::Resource, "resource");
    shows(&rt, &Var::Context, "context");
    shows(&rt, &SlotId::Principal, "?principal");
    shows(&rt, &SlotId::Resource, "?resource");
}

#[test]
fn words_and_places_are_copied(rt: HostRuntime) {
    let place = Place {
        offset: 3,
        length: 4,
    };
    let slot = Slot {
        id: SlotId::Principal,
        place: Some(place),
    };
    copies(&rt, place);
    copies(&rt, slot);
    copies(&rt, AddOp::Minus);
    copies(&rt, UnaryOp::Neg);
    copies(&rt, Var::Context);
    copies(&rt, SlotId::Resource);
    copies(&rt, PatternElem::Char('a'));
}

#[test]
fn parts_of_names_are_copied(rt: HostRuntime) {
    copies(&rt, text(&rt, "a b"));
    copies(
        &rt,
        AnyId::new(text(&rt, "if")).expect(&rt, "no identifier"),
    );
    copies(&rt, id(&rt, "a"));
    copies(&rt, Eid::new(text(&rt, "a b")));
    copies(&rt, EntityType::from(name(&rt, "A", "B")));
    copies(&rt, Literal::EntityUID(entity(&rt)));
    let repeated = ExpressionConstructionError::duplicate_key(text(&rt, "a"));
    copies(&rt, repeated);
}

#[test]
fn calls_and_what_holds_parts_are_copied(rt: HostRuntime) {
    let entity_type = EntityType::from(name(&rt, "A", "B"));
    is_copied(&rt, BinaryCall::IsIn(entity_type));
    is_copied(&rt, UnaryCall::GetAttr(text(&rt, "a")));
    is_copied(&rt, ListCall::Extension(name(&rt, "A", "f")));
    is_copied(&rt, Some(text(&rt, "a")));
    is_copied(&rt, (text(&rt, "a"), SlotId::Principal));
    copies(&rt, made(&rt, Boxed::new(rt.alloc(), text(&rt, "a"))));
}

#[test]
fn items_are_copied_read_and_taken(rt: HostRuntime) {
    let mut items = Items::from(list_of_two(&rt, text(&rt, "b"), text(&rt, "a")));
    copies_of(&rt, &items);
    holds(&rt, items.len() == 2);
    agrees(&rt, items.pop(), Some(text(&rt, "a")), "the last");
    for item in items.iter() {
        holds(&rt, item.as_str() == "b");
    }
    drop(items);
}

#[test]
fn sources_are_shared(rt: HostRuntime) {
    let source = made(&rt, Source::from_str(rt.alloc(), "abc"));
    let shared = made(&rt, source.share());
    holds(&rt, shared == source);
    drop(shared);
    says_and_copies(&rt, source, "abc");
}
