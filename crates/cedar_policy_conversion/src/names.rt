//! Identifiers, converted.
ghost use Rattle.cedar_conversion.specs.parts.Names.{any_ident as any_outcome, valid_ident as valid_outcome};
ghost use Rattle.cedar_conversion.specs.outcome.Seen.{Gives, itself};

use cedar_conversion::answer::failure::told;
use cedar_conversion::leaves::names::{any_id, valid_id};
use cedar_expressions::{AnyId, Id};
use cedar_syntax::cst::Ident;
use cedar_syntax::err::Failure;
use cedar_syntax::node::Node;
use std::alloc::Global;

/// An identifier that a name may hold.
pub fn valid_ident(alloc: Global, node: &Node<Option<Ident>>) -> Result<Id, Failure>
    ensures { Gives itself result (valid_outcome node.now) }
{
    told(valid_id(alloc, node))
}

/// Any identifier, the reserved words too.
pub fn any_ident(alloc: Global, node: &Node<Option<Ident>>) -> Result<AnyId, Failure>
    ensures { Gives itself result (any_outcome node.now) }
{
    told(any_id(alloc, node))
}
