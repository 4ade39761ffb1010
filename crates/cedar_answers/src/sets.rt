//! The tree and the set of a text of policies.
ghost use Rattle.std.specs.Prelude.{length, IfOk, IfErr};
ghost use Rattle.cedar_conversion.specs.strict.Table.{table_of};
ghost use Rattle.cedar_grammar.specs.grammar.Grammar.{IsTreeOf};
ghost use Rattle.cedar_grammar.specs.grammar.LoosePolicies.{ReadsPolicies};
ghost use Rattle.cedar_policy_parser.specs.faults.Refused.{RefusesSet};
ghost use Rattle.cedar_policy_parser.specs.meaning.Formatted.{MeansSet};
ghost use Rattle.cedar_policy_store.specs.PlaceFree as free;
ghost use Rattle.cedar_policy_store.specs.PlaceFree.{set_meaning};
ghost use Rattle.cedar_syntax.specs.faults.ParseErrors.{IsMemory};
ghost use Rattle.cedar_answers.specs.Told.{HasNumbered, nodes_of};

use cedar_policy_parser::cst::Policies;
use cedar_policy_parser::err::Failure;
use cedar_policy_parser::node::Node;
use cedar_policy_parser::text_to_cst::parse_policies;
use cedar_policy_parser::{ExtStyles, PoliciesAst, PolicySet};
use std::alloc::Global;

/// The tree of a text, and the set that it means.
#[derive(Drop)]
pub(crate) struct Parsed {
    pub tree: Node<Option<Policies>>,
    pub set: PolicySet,
}

/// The tree and the set of a text that means policies. Any other text is refused with its faults,
/// or it is want of memory.
pub(crate) fn read(alloc: Global, text: &str, styles: &ExtStyles) -> Result<Parsed, Failure>
    ensures tree { IfOk result (λ parsed. IsTreeOf ReadsPolicies text.now parsed.tree) }
    ensures set { IfOk result (λ parsed.
        MeansSet (table_of styles.now) text.now (set_meaning parsed.set)) }
    ensures each { IfOk result (λ parsed.
        HasNumbered parsed.set (length (nodes_of parsed.tree.node))) }
    ensures only { (set : free.Policies) → MeansSet (table_of styles.now) text.now set
        → IfErr result IsMemory }
    ensures refused { IfErr result (λ failure. RefusesSet
        (table_of styles.now) failure text.now) }
{
    let tree = parse_policies(alloc, text)?;
    let set = tree.to_policyset(alloc, styles)?;
    Ok(Parsed { tree, set })
}
