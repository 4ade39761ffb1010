//! The calls that a section can name.

use crate::conversions::{self, ConversionCall};
use crate::parts::{self, PartCall};
use crate::runs;
use crate::texts::{self, TextCall};
use crate::trees::{self, TreeCall};
use cedar_syntax::err::Failure;
use std::alloc::{AllocError, Global};

/// The calls that there are.
#[derive(Clone, Copy)]
enum Call {
    Tree(TreeCall),
    Conversion(ConversionCall),
    Part(PartCall),
    Text(TextCall),
    Run,
}

/// Their names.
const CALLS: [(&str, Call); 43] = [
    ("parse_expr", Call::Tree(TreeCall::Expr)),
    ("parse_primary", Call::Tree(TreeCall::Primary)),
    ("parse_ref", Call::Tree(TreeCall::Ref)),
    ("parse_name", Call::Tree(TreeCall::Name)),
    ("parse_ident", Call::Tree(TreeCall::Ident)),
    ("parse_policy", Call::Tree(TreeCall::Policy)),
    ("parse_policies", Call::Tree(TreeCall::Policies)),
    (
        "parse_expression",
        Call::Conversion(ConversionCall::Expression),
    ),
    (
        "parse_policyset",
        Call::Conversion(ConversionCall::PolicySet),
    ),
    ("ExtStyles", Call::Conversion(ConversionCall::Table)),
    ("same_set", Call::Conversion(ConversionCall::SameSet)),
    ("format_policies", Call::Conversion(ConversionCall::Lines)),
    ("layout_policies", Call::Conversion(ConversionCall::Layout)),
    (
        "expr_to_cedar",
        Call::Conversion(ConversionCall::WrittenExpression),
    ),
    (
        "policyset_to_cedar",
        Call::Conversion(ConversionCall::WrittenSet),
    ),
    ("Expr::to_ref", Call::Part(PartCall::ExprToRef)),
    (
        "Expr::to_ref_or_slot",
        Call::Part(PartCall::ExprToRefOrSlot),
    ),
    ("Expr::to_refs", Call::Part(PartCall::ExprToRefs)),
    ("Expr::to_expr", Call::Part(PartCall::BuilderCalls)),
    ("Member::to_lit", Call::Part(PartCall::MemberToLit)),
    (
        "Primary::to_string_literal",
        Call::Part(PartCall::PrimaryToStringLiteral),
    ),
    ("Ref::to_ref", Call::Part(PartCall::RefToRef)),
    (
        "Ident::to_valid_ident",
        Call::Part(PartCall::IdentToValidIdent),
    ),
    ("Ident::to_any_ident", Call::Part(PartCall::IdentToAnyIdent)),
    (
        "Annotation::to_kv_pair",
        Call::Part(PartCall::AnnotationToKvPair),
    ),
    (
        "PolicyImpl::get_ast_annotations",
        Call::Part(PartCall::GetAstAnnotations),
    ),
    (
        "PolicyImpl::extract_scope",
        Call::Part(PartCall::ExtractScope),
    ),
    (
        "Policy::to_template",
        Call::Part(PartCall::PolicyToTemplate),
    ),
    (
        "Policy::to_policy_template",
        Call::Part(PartCall::PolicyToPolicyTemplate),
    ),
    (
        "Policy::to_policy_or_template",
        Call::Part(PartCall::PolicyToPolicyOrTemplate),
    ),
    ("Policy::to_policy", Call::Part(PartCall::PolicyToPolicy)),
    (
        "Policies::with_generated_policyids",
        Call::Part(PartCall::GeneratedPolicyIds),
    ),
    ("Policies::to_policyset", Call::Part(PartCall::SharedTree)),
    ("PolicySet::add", Call::Part(PartCall::Added)),
    ("ParseErrors::extend", Call::Text(TextCall::Extend)),
    ("Lexer::next", Call::Text(TextCall::Lexer)),
    ("nesting", Call::Text(TextCall::Nesting)),
    ("to_unescaped_string", Call::Text(TextCall::UnescapedString)),
    ("to_pattern", Call::Text(TextCall::Pattern)),
    ("identifiers", Call::Text(TextCall::Identifiers)),
    ("expected_to_string", Call::Text(TextCall::Expected)),
    ("ToCSTError::help", Call::Text(TextCall::HelpOfInvalidToken)),
    ("run", Call::Run),
];

/// The call of a name. (A function over the list: over the list itself each goal would hold all of
/// it.)
fn call_named(calls: &[(&str, Call)], name: &str) -> Option<Call> {
    for (known, call) in calls {
        if *known == name {
            return Some(*call);
        }
    }
    None
}

/// What a section's call, with the words behind its name, gives for a text.
pub(crate) fn answer(alloc: Global, section: &str, text: &str) -> Result<String, AllocError> {
    let (name, words) = section.split_once(' ').unwrap_or((section, ""));
    match call_named(&CALLS, name) {
        Some(Call::Tree(call)) => trees::answer(alloc, call, words, text),
        Some(Call::Conversion(call)) => conversions::answer(alloc, call, words, text),
        Some(Call::Part(call)) => parts::answer(alloc, call, words, text),
        Some(Call::Text(call)) => texts::answer(alloc, call, text),
        Some(Call::Run) => runs::answer(alloc, words, text),
        None => String::from_str(alloc, "no such call"),
    }
}

/// Whether a section's call reads a text as a tree.
pub(crate) fn reads_trees(section: &str) -> bool {
    let (name, _) = section.split_once(' ').unwrap_or((section, ""));
    match call_named(&CALLS, name) {
        Some(Call::Text(_) | Call::Run) | None => false,
        Some(_) => true,
    }
}

/// Why a section's call, with the words behind its name, refuses a text, if it does. What it gives
/// is let go.
pub(crate) fn refusal(
    alloc: Global,
    section: &str,
    text: &str,
) -> Result<Option<Failure>, AllocError> {
    let (name, words) = section.split_once(' ').unwrap_or((section, ""));
    match call_named(&CALLS, name) {
        Some(Call::Tree(call)) => Ok(trees::refusal(alloc, call, text)),
        Some(Call::Conversion(call)) => conversions::refusal(alloc, call, words, text),
        Some(Call::Part(call)) => Ok(parts::refusal(alloc, call, words, text)),
        Some(Call::Text(_) | Call::Run) | None => Ok(None),
    }
}
