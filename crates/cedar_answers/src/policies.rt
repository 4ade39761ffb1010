//! The policies of a text. First all that is told of them is made, in values that are let go where
//! memory is refused; then it is handed out, which takes no memory.
ghost use Rattle.std.specs.Prelude.{◌≡◌, ◌≤◌, ◌++◌, [], length, map, IfOk, IfErr, OnOk};
ghost use Rattle.std.specs.Option.{option_map};
ghost use Rattle.std.specs.Vec.{vec_capacity};
ghost use Rattle.cedar_conversion.specs.strict.CedarExtensions.{cedar_extensions};
ghost use Rattle.cedar_conversion.specs.strict.Table.{table_of};
ghost use Rattle.cedar_policy_parser.specs.faults.Refused.{RefusesSet};
ghost use Rattle.cedar_syntax.specs.faults.ParseErrors.{IsMemory};
ghost use Rattle.cedar_answers.specs.Answers.{AnswersPolicies, ArePoliciesOf, MeansPolicySet};
ghost use Rattle.cedar_answers.specs.Made.{policy_made};
ghost use Rattle.cedar_answers.specs.Told.{as_list, policies_told, policy_read, told_from};

use crate::answer::{ACCEPTED, CedarAnswer, CedarPolicy, NO_MEMORY, NOT_UTF8, bare};
use crate::made::MadePolicy;
use crate::policy::{handed_policy, made_numbered};
use crate::refusals::refused;
use crate::sets::{Parsed, read};
use cedar_policy_parser::cst::Policy;
use cedar_policy_parser::err::Failure;
use cedar_policy_parser::node::Node;
use cedar_policy_parser::{ExtStyles, PolicySet};
use cedar_report::Lines;
use std::alloc::{AllocError, Global};

/// What is told of policies, under Cedar's own extensions.
pub fn answer(alloc: Global, text: &[u8]) -> CedarAnswer
    ensures { AnswersPolicies cedar_extensions text.now result }
{
    match str::from_utf8(text) {
        Ok(text) => answer_text(alloc, text),
        Err(_) => bare(NOT_UTF8),
    }
}

fn answer_text(alloc: Global, text: &str) -> CedarAnswer
    ensures { AnswersPolicies cedar_extensions text.now result }
{
    match ExtStyles::cedar(alloc) {
        Ok(styles) => answer_under(alloc, text, &styles),
        Err(_) => bare(NO_MEMORY),
    }
}

fn answer_under(alloc: Global, text: &str, styles: &ExtStyles) -> CedarAnswer
    ensures { AnswersPolicies (table_of styles.now) text.now result }
{
    match policies_of(alloc, text, styles) {
        Ok(policies) => with_policies(policies),
        Err(failure) => refused(alloc, text, &failure),
    }
}

/// An answer with policies alone.
fn with_policies(policies: &'static [CedarPolicy]) -> CedarAnswer
    ensures status { result.status ≡ 0 }
    ensures policies { result.policies.now ≡ policies.now }
    ensures faults { result.faults.now ≡ [] }
    ensures text { result.text.now ≡ [] }
{
    CedarAnswer {
        policies,
        ..bare(ACCEPTED)
    }
}

/// The policies that a text means, handed out. Any other text is refused with its faults, or it is
/// want of memory.
fn policies_of(
    alloc: Global,
    text: &str,
    styles: &ExtStyles,
) -> Result<&'static [CedarPolicy], Failure>
    ensures meant { IfOk result (λ policies. MeansPolicySet (table_of styles.now) text.now) }
    ensures told { IfOk result (λ policies. ArePoliciesOf
        (table_of styles.now) text.now policies.now) }
    ensures only { MeansPolicySet (table_of styles.now) text.now → IfErr result IsMemory }
    ensures refused { IfErr result (λ failure. RefusesSet
        (table_of styles.now) failure text.now) }
{
    let parsed = read(alloc, text, styles)?;
    let policies = shown(alloc, text, &parsed)?;
    Ok(policies)
}

/// What is told of a text's policies, handed out.
fn shown(alloc: Global, text: &str, parsed: &Parsed) -> Result<&'static [CedarPolicy], AllocError>
    ensures { IfOk result (λ policies.
        map policy_read policies.now ≡ policies_told text.now parsed.now.set parsed.now.tree) }
{
    let lines = Lines::of(alloc, text)?;
    let made = made_tree(alloc, &lines, parsed)?;
    let room = Vec::with_capacity(alloc, made.len())?;
    Ok(handed_policies(made, room))
}

/// What is told of a tree's policies.
fn made_tree(
    alloc: Global,
    lines: &Lines<'_>,
    parsed: &Parsed,
) -> Result<Vec<MadePolicy>, AllocError>
    ensures { IfOk result (λ all. map policy_made all.items
        ≡ policies_told lines.now.text.now parsed.now.set parsed.now.tree) }
{
    match parsed.tree.as_inner() {
        Some(policies) => made_policies(alloc, lines, policies.0.as_slice(), &parsed.set),
        None => Ok(Vec::new(alloc)),
    }
}

/// What is told of the policies of some nodes, in their order.
fn made_policies(
    alloc: Global,
    lines: &Lines<'_>,
    nodes: &[Node<Option<Policy>>],
    set: &PolicySet,
) -> Result<Vec<MadePolicy>, AllocError>
    ensures { IfOk result (λ all.
        map policy_made all.items ≡ told_from lines.now.text.now set.now 0 nodes.now) }
{
    let mut all = Vec::with_capacity(alloc, nodes.len())?;
    let mut count = 0;
    for node in nodes {
        keep(&mut all, made_numbered(alloc, lines, count, node, set)?)?;
        count += 1;
    }
    Ok(all)
}

/// Keeps a policy, if there is one.
fn keep(all: &mut Vec<MadePolicy>, policy: Option<MadePolicy>) -> Result<(), AllocError>
    ensures { OnOk result (map policy_made all.new.items
        ≡ map policy_made all.old.items ++ as_list (option_map policy_made policy)) }
{
    match policy {
        Some(policy) => Ok(all.push(policy)?),
        None => Ok(()),
    }
}

/// Hands all out; there is room for it.
fn handed_policies(made: Vec<MadePolicy>, room: Vec<CedarPolicy>) -> &'static [CedarPolicy]
    requires fits { length made.items ≤ vec_capacity room }
    requires empty { room.items ≡ [] }
    ensures { map policy_read result.now ≡ map policy_made made.items }
{
    let mut all = room;
    for policy in made {
        all.push_reserved(handed_policy(policy));
    }
    all.leak()
}
