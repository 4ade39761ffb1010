//! What is told of a text as it is made: nothing of it is handed out yet, so it is let go where
//! memory is refused.
ghost use Rattle.std.specs.Prelude.{◌≡◌, ◌≤◌, [], length, map};
ghost use Rattle.std.specs.Vec.{vec_capacity};
ghost use Rattle.cedar_lexer.specs.Names.{kind_name};

use crate::answer::{CedarAnnotation, CedarEntity, CedarRange, CedarRelated};
use cedar_report::Finding;

/// An annotation, not handed out yet.
#[derive(Drop)]
pub(crate) struct MadeAnnotation {
    pub key: String,
    pub value: String,
}

/// An entity, not handed out yet.
#[derive(Drop)]
pub(crate) struct MadeEntity {
    pub entity_type: String,
    pub id: String,
}

/// What is asked of a variable, with room for its entities as they are handed out.
#[derive(Drop)]
pub(crate) struct MadeScope {
    pub operator: &'static str,
    pub entity_type: String,
    pub entities: Vec<MadeEntity>,
    pub room: Vec<CedarEntity>,
    pub is_slot: bool,
    ghost fits: { length entities.items ≤ vec_capacity room },
    ghost empty: { room.items ≡ [] },
}

/// A policy, not handed out yet, with room for its annotations as they are handed out.
#[derive(Drop)]
pub(crate) struct MadePolicy {
    pub id: String,
    pub printed: String,
    pub annotations: Vec<MadeAnnotation>,
    pub room: Vec<CedarAnnotation>,
    pub scope: MadeScopes,
    pub place: CedarRange,
    pub is_template: bool,
    pub is_forbid: bool,
    ghost fits: { length annotations.items ≤ vec_capacity room },
    ghost empty: { room.items ≡ [] },
}

/// What a policy asks of each variable.
#[derive(Drop)]
pub(crate) struct MadeScopes {
    pub principal: MadeScope,
    pub action: MadeScope,
    pub resource: MadeScope,
}

/// A finding, not handed out yet, with the names of its kinds, and room for its other places as
/// they are handed out.
#[derive(Drop)]
pub(crate) struct MadeFault {
    pub finding: Finding,
    pub expected: Vec<&'static [u8]>,
    pub room: Vec<CedarRelated>,
    ghost named: { map (λ name. name.now) expected.items
        ≡ map kind_name finding.expected.items },
    ghost fits: { length finding.related.items ≤ vec_capacity room },
    ghost empty: { room.items ≡ [] },
}
