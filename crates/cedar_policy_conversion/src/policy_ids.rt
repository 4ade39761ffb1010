//! Names for the policies of a set.
ghost use Rattle.std.specs.Prelude.{◌≡◌, IfOk};
ghost use Rattle.cedar_policy_conversion.specs.PolicyMeaning.{policy_id};
ghost use Rattle.cedar_policy_conversion.specs.GeneratedIds as k;

use cedar_policy_store::PolicyID;
use cedar_syntax::cst::Policy;
use cedar_syntax::node::Node;
use std::alloc::{AllocError, Global};
use std::fmt::Write;

/// Room for the longest name: a `usize` has up to 20 digits.
const LONGEST: usize = "policy".len() + 20;

/// The name that a set gives the policy behind so many others: `policy0`, `policy1` and so on.
pub fn policy_id(alloc: Global, count: usize) -> Result<PolicyID, AllocError>
    ensures { IfOk result (λ id. id ≡ policy_id count) }
{
    let mut text = String::with_capacity(alloc, LONGEST)?;
    match write!(text, "policy{count}") {
        Ok(()) => Ok(PolicyID::new(text)),
        Err(_) => Err(AllocError),
    }
}

/// The policies of a set with their names: `policy` and how many stand before it. After want of
/// memory it has ended.
#[derive(Drop)]
pub struct GeneratedPolicyIds<'a> {
    alloc: Global,
    count: usize,
    nodes: &'a [Node<Option<Policy>>],
}

impl<'a> GeneratedPolicyIds<'a> {
    pub(crate) fn new(alloc: Global, nodes: &'a [Node<Option<Policy>>]) -> GeneratedPolicyIds<'a>
        ensures { k.remaining_nodes result ≡ k.named_policies 0 nodes.now }
    {
        GeneratedPolicyIds {
            alloc,
            nodes,
            count: 0,
        }
    }
}

impl<'a> Iterator for GeneratedPolicyIds<'a> {
    type Item = Result<(PolicyID, &'a Node<Option<Policy>>), AllocError>;

    ghost use Rattle.std.specs.Iterator.{item_count};
    ghost use Rattle.cedar_policy_conversion.specs.GeneratedIds.{GivesNext, remaining_nodes};

    ghost next_gives = { GivesNext };

    ghost remaining = { item_count remaining_nodes };

    fn next(&mut self) -> Option<Result<(PolicyID, &'a Node<Option<Policy>>), AllocError>> {
        let node = self.nodes.get(self.count)?;
        match policy_id(self.alloc, self.count) {
            Ok(id) => {
                self.count += 1;
                Some(Ok((id, node)))
            }
            Err(error) => {
                self.nodes = &[];
                Some(Err(error))
            }
        }
    }
}
