//! Levels of the grammar that are one part alone: a chain without operators, an operand without
//! signs, a primary without accesses. Each walk down to what stands there alone asks these calls.
ghost use Rattle.std.specs.Prelude.{◌≡◌, ◌≢◌, List, [], Option, IfSome, MatchOption};
ghost use Rattle.std.specs.Option.{option_copied, option_map};
ghost use Rattle.cedar_syntax.specs.declared.node.Node.{Node as Held};
ghost use Rattle.cedar_syntax.specs.declared.cst.Add.{Add as Sum};
ghost use Rattle.cedar_syntax.specs.declared.cst.RelOp.{RelOp};
ghost use Rattle.cedar_syntax.specs.declared.cst.Relation.TheVariants as relations;
ghost use Rattle.cedar_syntax.specs.declared.cst.Or.{out-Or};
ghost use Rattle.cedar_syntax.specs.declared.cst.Add.{out-Add};
ghost use Rattle.cedar_syntax.specs.declared.cst.Mult.{out-Mult};
ghost use Rattle.cedar_syntax.specs.declared.cst.Unary.{out-Unary};
ghost use Rattle.cedar_syntax.specs.trees.Forms.{located, or_form, and_form, relation_form, add_form, mult_form, unary_form, member_form, primary_form};
ghost use Rattle.cedar_conversion.specs.outcome.LonePart.{lone_part, no_sign};

use cedar_syntax::cst::{Add, And, Member, Mult, NegOp, Or, Primary, Relation, Unary};
use cedar_syntax::node::Node;

/// A level of the grammar, of which one part may stand alone.
pub trait SingleChild {
    ghost use Rattle.cedar_syntax.specs.trees.Located.{Form};

    /// What stands one level below.
    type Part;

    // the form of a level, and of what stands one level below
    ghost form: { Self → Form };

    ghost part_form: { Self.Part → Form };

    /// The one part of a level that is this part alone.
    fn single_child(&self) -> Option<&Node<Option<Self::Part>>>
        ensures part { option_map (located part_form) (option_copied result)
            ≡ lone_part (form self.now) };
}

/// The first of several parts, if it is the only one.
#[inline(always)]
fn only<'a, P, T>(first: &'a P, others: &[T]) -> Option<&'a P>
    ensures { MatchOption result (others.now ≢ [])
        (λ part. (part.now ≡ first.now) × (others.now ≡ [])) }
{
    if others.is_empty() { Some(first) } else { None }
}

/// Whether nothing is to be applied to an operand.
#[inline(always)]
fn no_sign(op: Option<NegOp>) -> bool
    ensures { result ≡ no_sign op }
{
    matches!(op, None | Some(NegOp::Bang(0)) | Some(NegOp::Dash(0)))
}

impl SingleChild for Or {
    type Part = And;

    ghost form = { or_form };

    ghost part_form = { and_form };

    #[inline(always)]
    fn single_child(&self) -> Option<&Node<Option<And>>>
        ensures part { option_map (located and_form) (option_copied result)
            ≡ lone_part (or_form self.now) }
        ensures below { IfSome result (λ part. part.now ≡ (out-Or self.now).initial) }
    {
        only(&self.initial, self.extended.as_slice())
    }
}

impl SingleChild for And {
    type Part = Relation;

    ghost form = { and_form };

    ghost part_form = { relation_form };

    #[inline(always)]
    fn single_child(&self) -> Option<&Node<Option<Relation>>>
        ensures part { option_map (located relation_form) (option_copied result)
            ≡ lone_part (and_form self.now) }
        ensures below { IfSome result (λ part. part.now ≡ self.now.initial) }
    {
        only(&self.initial, self.extended.as_slice())
    }
}

impl SingleChild for Relation {
    type Part = Add;

    ghost form = { relation_form };

    ghost part_form = { add_form };

    #[inline(always)]
    fn single_child(&self) -> Option<&Node<Option<Add>>>
        ensures part { option_map (located add_form) (option_copied result)
            ≡ lone_part (relation_form self.now) }
        ensures below { IfSome result (λ part. (others : List (RelOp × Held (Option Sum)))
            × (self.now ≡ relations.Common part.now others)) }
    {
        match self {
            Relation::Common { initial, extended } => only(initial, extended.as_slice()),
            Relation::Has { .. } => None,
            Relation::Like { .. } => None,
            Relation::IsIn { .. } => None,
        }
    }
}

impl SingleChild for Add {
    type Part = Mult;

    ghost form = { add_form };

    ghost part_form = { mult_form };

    #[inline(always)]
    fn single_child(&self) -> Option<&Node<Option<Mult>>>
        ensures part { option_map (located mult_form) (option_copied result)
            ≡ lone_part (add_form self.now) }
        ensures below { IfSome result (λ part. part.now ≡ (out-Add self.now).initial) }
    {
        only(&self.initial, self.extended.as_slice())
    }
}

impl SingleChild for Mult {
    type Part = Unary;

    ghost form = { mult_form };

    ghost part_form = { unary_form };

    #[inline(always)]
    fn single_child(&self) -> Option<&Node<Option<Unary>>>
        ensures part { option_map (located unary_form) (option_copied result)
            ≡ lone_part (mult_form self.now) }
        ensures below { IfSome result (λ part. part.now ≡ (out-Mult self.now).initial) }
    {
        only(&self.initial, self.extended.as_slice())
    }
}

impl SingleChild for Unary {
    type Part = Member;

    ghost form = { unary_form };

    ghost part_form = { member_form };

    #[inline(always)]
    fn single_child(&self) -> Option<&Node<Option<Member>>>
        ensures part { option_map (located member_form) (option_copied result)
            ≡ lone_part (unary_form self.now) }
        ensures below { IfSome result (λ part. part.now ≡ (out-Unary self.now).item) }
    {
        if no_sign(self.op) {
            Some(&self.item)
        } else {
            None
        }
    }
}

impl SingleChild for Member {
    type Part = Primary;

    ghost form = { member_form };

    ghost part_form = { primary_form };

    #[inline(always)]
    fn single_child(&self) -> Option<&Node<Option<Primary>>>
        ensures part { option_map (located primary_form) (option_copied result)
            ≡ lone_part (member_form self.now) }
        ensures below { IfSome result (λ part. part.now ≡ self.now.item) }
    {
        only(&self.item, self.access.as_slice())
    }
}
