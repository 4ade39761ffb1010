//! The values of Cedar's expressions, and the small owners of text and lists that every tree of
//! this repository is made of.
#![tactic(auto)]

mod atoms;
mod boxed;
mod builder;
mod copy;
mod entity;
mod errors;
mod escape;
mod expr;
mod expr_builder;
mod ids;
mod items;
pub mod laws;
mod names;
mod operators;
mod owned_text;
mod parts;
mod place;
mod record_keys;
mod release;
mod short;
mod show;
mod slot_entities;
mod slots;
mod source;
mod stack;
mod text;
mod try_clone;

pub use atoms::{Literal, PatternElem, SlotId, Var};
pub use boxed::Boxed;
pub use builder::ExprBuilderInfallibleBuild;
pub use entity::{Eid, EntityType, EntityUID};
pub use errors::{ExpressionConstructionError, RecordError};
pub use escape::{EscapedText, push_escaped};
pub use expr::{BinaryCall, BinaryOp, Expr, ExprKind, ListCall, NaryOp, UnaryCall};
pub use expr_builder::ExprBuilder;
pub use ids::{AnyId, Id, UnreservedId};
pub use items::Items;
pub use names::{InternalName, Name, ReservedNameError};
pub use operators::{AddOp, UnaryOp};
pub use owned_text::OwnedText;
pub use place::{NodePlace, Place, Slot};
pub use slot_entities::SlotEntities;
pub use slots::Subexpressions;
pub use source::Source;
pub use text::Text;
pub use try_clone::TryClone;
