//! From texts to expressions, policies and sets of them, and from these to texts; the conversions
//! of trees, and the laws that join text and meaning.
//!
//! It passes on what its calls take and give: the modules of the crates below under their names,
//! the values, the policies, and the owners of text and lists. So a program names this crate
//! alone, and `either` where it makes an `Either`.
#![tactic(auto)]

pub mod formatter;
pub mod laws;
pub mod layout;
pub mod lexer;
mod parse;
pub mod policy_laws;

pub use cedar_expressions::{
    AddOp, AnyId, BinaryCall, BinaryOp, Boxed, Eid, EntityType, EntityUID, EscapedText, Expr,
    ExprBuilder, ExprBuilderInfallibleBuild, ExprKind, ExpressionConstructionError, Id,
    InternalName, Items, ListCall, Literal, Name, NaryOp, NodePlace, OwnedText, PatternElem, Place,
    RecordError, ReservedNameError, Slot, SlotEntities, SlotId, Source, Subexpressions, Text,
    TryClone, UnaryCall, UnaryOp, UnreservedId, Var, push_escaped,
};
pub use cedar_layout::LayoutOptions;
pub use cedar_policy_conversion::cst_to_ast::{
    AnnotationAst, ExprAst, ExtStyles, GeneratedPolicyIds, IdentAst, MemberAst, OneOrMultipleRefs,
    PoliciesAst, PolicyAst, PolicyImplAst, PrimaryAst, RefAst, Scope,
};
pub use cedar_policy_conversion::{cst_to_ast, names, to_ref_or_refs};
pub use cedar_policy_store::{
    ActionConstraint, Annotation, Annotations, Effect, EntityReference, LinkError, NotStatic,
    Policies, PolicyID, PolicySet, PolicySetError, PrincipalConstraint,
    PrincipalOrResourceConstraint, RefusedTemplate, ResourceConstraint, StaticPolicy, Template,
    UnexpectedSlotError,
};
pub use cedar_syntax::{cst, err, loc, node, position, unescape, util};
pub use cedar_text::{nesting, text_to_cst};
pub use cedar_writer::{
    NotWritable, NotWritten, expr_to_cedar, laws as writer_laws, policyset_to_cedar,
    static_policy_to_cedar, template_to_cedar,
};
pub use formatter::format_policies;
pub use layout::layout_policies;
pub use parse::{parse_expression, parse_policyset};
