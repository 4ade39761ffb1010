//! What a tree is made of, in order: its tokens, and the expressions that stand straight in it,
//! which aren't gone into.
ghost use Rattle.std.specs.Prelude.{◌≡◌, ◌++◌, [], ◌∷◌, List, OnOk, codes};
ghost use Rattle.cedar_syntax.specs.printing.Printed.{Texts, printed, option_texts, rel_op_texts, add_op_texts, mult_op_texts, neg_op_texts};
ghost use Rattle.cedar_syntax.specs.printing.Printing.{texts_behind_mark, in_row, between, option_behind_mark, node_texts, pair_texts};
ghost use Rattle.cedar_syntax.specs.printing.Pieces.{piece_texts, piece_exprs, leaf_texts, next_texts, next_exprs, pieces_texts, exprs_in};
ghost use Rattle.cedar_syntax.specs.trees.Unplaced.{expr_tree, data_tree, access_tree, primary_tree, relation_tree, add_tree, and_tree, member_tree, mult_tree, or_tree, init_tree, unary_tree, ident_tree, name_tree, literal_tree, slot_tree, ref_tree};
ghost use Rattle.cedar_syntax.specs.trees.Inside.{option_inside, all_inside, data_inside, or_inside, and_inside, relation_inside, add_inside, mult_inside, unary_inside, member_inside, access_inside, primary_inside, init_inside};
ghost use Rattle.cedar_syntax.specs.declared.cst.Expr.{Expr};

use crate::cst::{
    Add, AddOp, And, Expr, ExprData, Ident, Literal, MemAccess, Member, Mult, MultOp, Name, NegOp,
    Or, Primary, RecInit, Ref, RelOp, Relation, Slot, Unary,
};
use crate::node::Node;
use crate::stack::Stack;
use cedar_expressions::{Boxed, Items};
use std::alloc::AllocError;

/// A token, a part that holds no expression, or an expression.
#[derive(Clone, Copy)]
pub enum Piece<'a> {
    Token(&'static str),
    Compare(RelOp),
    Add(AddOp),
    Multiply(MultOp),
    Neg(NegOp),
    Ident(&'a Ident),
    Name(&'a Name),
    Literal(&'a Literal),
    Ref(&'a Ref),
    Slot(&'a Slot),
    Expr(&'a Expr),
}

impl<'a> Piece<'a> {
    /// The expression that this is.
    pub fn expr(&self) -> Option<&'a Expr>
        ensures texts { piece_texts self.now ≡ leaf_texts self.now ++ next_texts result }
        ensures exprs { piece_exprs self.now ≡ next_exprs result }
    {
        match self {
            Piece::Token(_)
            | Piece::Compare(_)
            | Piece::Add(_)
            | Piece::Multiply(_)
            | Piece::Neg(_)
            | Piece::Ident(_)
            | Piece::Name(_)
            | Piece::Literal(_)
            | Piece::Ref(_)
            | Piece::Slot(_) => None,
            Piece::Expr(expr) => Some(expr),
        }
    }
}

/// A tree that can be unfolded into its pieces.
pub trait Unfold {
    ghost tokens: { Self → Texts };

    ghost inside: { Self → List Expr };

    /// Puts the pieces before the others, the first of them on top.
    fn unfold<'a>(&'a self, rest: &mut Stack<Piece<'a>>) -> Result<(), AllocError>
    where
        ensures texts { OnOk result (pieces_texts rest.new
            ≡ tokens self.now ++ pieces_texts rest.old) }
        ensures exprs { OnOk result (exprs_in rest.new ≡ inside self.now ++ exprs_in rest.old) };
}

/// Each item behind the token `mark`.
fn unfold_marked<'a, T: Unfold>(
    mark: &'static str,
    items: &'a [T],
    rest: &mut Stack<Piece<'a>>,
) -> Result<(), AllocError>
    ensures texts { OnOk result (pieces_texts rest.new
        ≡ texts_behind_mark mark.now T.tokens items.now ++ pieces_texts rest.old) }
    ensures exprs { OnOk result (exprs_in rest.new
        ≡ all_inside T.inside items.now ++ exprs_in rest.old) }
{
    for item in items.iter().rev() {
        item.unfold(rest)?;
        rest.push(Piece::Token(mark))?;
    }
    Ok(())
}

/// The items with the token `,` between two.
fn unfold_listed<'a, T: Unfold>(
    items: &'a [T],
    rest: &mut Stack<Piece<'a>>,
) -> Result<(), AllocError>
    ensures texts { OnOk result (pieces_texts rest.new
        ≡ between (codes ",") T.tokens items.now ++ pieces_texts rest.old) }
    ensures exprs { OnOk result (exprs_in rest.new
        ≡ all_inside T.inside items.now ++ exprs_in rest.old) }
{
    match items.split_first() {
        None => Ok(()),
        Some((first, others)) => {
            unfold_marked(",", others, rest)?;
            first.unfold(rest)
        }
    }
}

/// What is there behind the token `mark`.
fn unfold_opt_marked<'a, T: Unfold>(
    mark: &'static str,
    item: &'a Option<T>,
    rest: &mut Stack<Piece<'a>>,
) -> Result<(), AllocError>
    ensures texts { OnOk result (pieces_texts rest.new
        ≡ option_behind_mark mark.now T.tokens item.now ++ pieces_texts rest.old) }
    ensures exprs { OnOk result (exprs_in rest.new
        ≡ option_inside T.inside item.now ++ exprs_in rest.old) }
{
    match item {
        None => Ok(()),
        Some(item) => {
            item.unfold(rest)?;
            rest.push(Piece::Token(mark))
        }
    }
}

impl<T: Unfold> Unfold for Option<T> {
    ghost tokens = { option_texts T.tokens };

    ghost inside = { option_inside T.inside };

    fn unfold<'a>(&'a self, rest: &mut Stack<Piece<'a>>) -> Result<(), AllocError> {
        match self {
            None => Ok(()),
            Some(value) => value.unfold(rest),
        }
    }
}

impl<T: Unfold> Unfold for Node<T> {
    ghost tokens = { node_texts T.tokens };

    ghost inside = { λ n. T.inside n.node };

    fn unfold<'a>(&'a self, rest: &mut Stack<Piece<'a>>) -> Result<(), AllocError> {
        self.node.unfold(rest)
    }
}

impl<T: Unfold> Unfold for Boxed<T> {
    ghost tokens = { T.tokens };

    ghost inside = { T.inside };

    fn unfold<'a>(&'a self, rest: &mut Stack<Piece<'a>>) -> Result<(), AllocError> {
        self.as_ref().unfold(rest)
    }
}

/// An operator and the operand behind it.
impl<A: Unfold, T: Unfold> Unfold for (A, T) {
    ghost tokens = { pair_texts A.tokens T.tokens };

    ghost inside = { λ pair. A.inside pair.0 ++ T.inside pair.1 };

    fn unfold<'a>(&'a self, rest: &mut Stack<Piece<'a>>) -> Result<(), AllocError> {
        self.1.unfold(rest)?;
        self.0.unfold(rest)
    }
}

impl<T: Unfold> Unfold for Items<T> {
    ghost tokens = { in_row T.tokens };

    ghost inside = { all_inside T.inside };

    fn unfold<'a>(&'a self, rest: &mut Stack<Piece<'a>>) -> Result<(), AllocError> {
        for item in self.as_slice().iter().rev() {
            item.unfold(rest)?;
        }
        Ok(())
    }
}

impl Unfold for RelOp {
    ghost tokens = { rel_op_texts };

    ghost inside = { λ x. [] };

    fn unfold<'a>(&'a self, rest: &mut Stack<Piece<'a>>) -> Result<(), AllocError> {
        rest.push(Piece::Compare(*self))
    }
}

impl Unfold for AddOp {
    ghost tokens = { add_op_texts };

    ghost inside = { λ x. [] };

    fn unfold<'a>(&'a self, rest: &mut Stack<Piece<'a>>) -> Result<(), AllocError> {
        rest.push(Piece::Add(*self))
    }
}

impl Unfold for MultOp {
    ghost tokens = { mult_op_texts };

    ghost inside = { λ x. [] };

    fn unfold<'a>(&'a self, rest: &mut Stack<Piece<'a>>) -> Result<(), AllocError> {
        rest.push(Piece::Multiply(*self))
    }
}

impl Unfold for NegOp {
    ghost tokens = { neg_op_texts };

    ghost inside = { λ x. [] };

    fn unfold<'a>(&'a self, rest: &mut Stack<Piece<'a>>) -> Result<(), AllocError> {
        rest.push(Piece::Neg(*self))
    }
}

impl Unfold for Ident {
    ghost tokens = { λ x. printed (ident_tree x) };

    ghost inside = { λ x. [] };

    fn unfold<'a>(&'a self, rest: &mut Stack<Piece<'a>>) -> Result<(), AllocError> {
        rest.push(Piece::Ident(self))
    }
}

impl Unfold for Name {
    ghost tokens = { λ x. printed (name_tree x) };

    ghost inside = { λ x. [] };

    fn unfold<'a>(&'a self, rest: &mut Stack<Piece<'a>>) -> Result<(), AllocError> {
        rest.push(Piece::Name(self))
    }
}

impl Unfold for Literal {
    ghost tokens = { λ x. printed (literal_tree x) };

    ghost inside = { λ x. [] };

    fn unfold<'a>(&'a self, rest: &mut Stack<Piece<'a>>) -> Result<(), AllocError> {
        rest.push(Piece::Literal(self))
    }
}

impl Unfold for Ref {
    ghost tokens = { λ x. printed (ref_tree x) };

    ghost inside = { λ x. [] };

    fn unfold<'a>(&'a self, rest: &mut Stack<Piece<'a>>) -> Result<(), AllocError> {
        rest.push(Piece::Ref(self))
    }
}

impl Unfold for Slot {
    ghost tokens = { λ x. printed (slot_tree x) };

    ghost inside = { λ x. [] };

    fn unfold<'a>(&'a self, rest: &mut Stack<Piece<'a>>) -> Result<(), AllocError> {
        rest.push(Piece::Slot(self))
    }
}

impl Unfold for Expr {
    ghost tokens = { λ x. printed (expr_tree x) };

    ghost inside = { λ x. x ∷ [] };

    fn unfold<'a>(&'a self, rest: &mut Stack<Piece<'a>>) -> Result<(), AllocError> {
        rest.push(Piece::Expr(self))
    }
}

impl Unfold for ExprData {
    ghost tokens = { λ x. printed (data_tree x) };

    ghost inside = { data_inside };

    fn unfold<'a>(&'a self, rest: &mut Stack<Piece<'a>>) -> Result<(), AllocError> {
        match self {
            ExprData::Or(or) => or.unfold(rest),
            ExprData::If(guard, consequent, alternative) => {
                alternative.unfold(rest)?;
                rest.push(Piece::Token("else"))?;
                consequent.unfold(rest)?;
                rest.push(Piece::Token("then"))?;
                guard.unfold(rest)?;
                rest.push(Piece::Token("if"))
            }
        }
    }
}

impl Unfold for Or {
    ghost tokens = { λ x. printed (or_tree x) };

    ghost inside = { or_inside };

    fn unfold<'a>(&'a self, rest: &mut Stack<Piece<'a>>) -> Result<(), AllocError> {
        unfold_marked("||", self.extended.as_slice(), rest)?;
        self.initial.unfold(rest)
    }
}

impl Unfold for And {
    ghost tokens = { λ x. printed (and_tree x) };

    ghost inside = { and_inside };

    fn unfold<'a>(&'a self, rest: &mut Stack<Piece<'a>>) -> Result<(), AllocError> {
        unfold_marked("&&", self.extended.as_slice(), rest)?;
        self.initial.unfold(rest)
    }
}

impl Unfold for Relation {
    ghost tokens = { λ x. printed (relation_tree x) };

    ghost inside = { relation_inside };

    fn unfold<'a>(&'a self, rest: &mut Stack<Piece<'a>>) -> Result<(), AllocError> {
        match self {
            Relation::Common { initial, extended } => {
                extended.unfold(rest)?;
                initial.unfold(rest)
            }
            Relation::Has { target, field } => {
                field.unfold(rest)?;
                rest.push(Piece::Token("has"))?;
                target.unfold(rest)
            }
            Relation::Like { target, pattern } => {
                pattern.unfold(rest)?;
                rest.push(Piece::Token("like"))?;
                target.unfold(rest)
            }
            Relation::IsIn {
                target,
                entity_type,
                in_entity,
            } => {
                unfold_opt_marked("in", in_entity, rest)?;
                entity_type.unfold(rest)?;
                rest.push(Piece::Token("is"))?;
                target.unfold(rest)
            }
        }
    }
}

impl Unfold for Add {
    ghost tokens = { λ x. printed (add_tree x) };

    ghost inside = { add_inside };

    fn unfold<'a>(&'a self, rest: &mut Stack<Piece<'a>>) -> Result<(), AllocError> {
        self.extended.unfold(rest)?;
        self.initial.unfold(rest)
    }
}

impl Unfold for Mult {
    ghost tokens = { λ x. printed (mult_tree x) };

    ghost inside = { mult_inside };

    fn unfold<'a>(&'a self, rest: &mut Stack<Piece<'a>>) -> Result<(), AllocError> {
        self.extended.unfold(rest)?;
        self.initial.unfold(rest)
    }
}

impl Unfold for Unary {
    ghost tokens = { λ x. printed (unary_tree x) };

    ghost inside = { unary_inside };

    fn unfold<'a>(&'a self, rest: &mut Stack<Piece<'a>>) -> Result<(), AllocError> {
        self.item.unfold(rest)?;
        self.op.unfold(rest)
    }
}

impl Unfold for Member {
    ghost tokens = { λ x. printed (member_tree x) };

    ghost inside = { member_inside };

    fn unfold<'a>(&'a self, rest: &mut Stack<Piece<'a>>) -> Result<(), AllocError> {
        self.access.unfold(rest)?;
        self.item.unfold(rest)
    }
}

impl Unfold for MemAccess {
    ghost tokens = { λ x. printed (access_tree x) };

    ghost inside = { access_inside };

    fn unfold<'a>(&'a self, rest: &mut Stack<Piece<'a>>) -> Result<(), AllocError> {
        match self {
            MemAccess::Field(field) => {
                field.unfold(rest)?;
                rest.push(Piece::Token("."))
            }
            MemAccess::Call(arguments) => {
                rest.push(Piece::Token(")"))?;
                unfold_listed(arguments.as_slice(), rest)?;
                rest.push(Piece::Token("("))
            }
            MemAccess::Index(index) => {
                rest.push(Piece::Token("]"))?;
                index.unfold(rest)?;
                rest.push(Piece::Token("["))
            }
        }
    }
}

impl Unfold for Primary {
    ghost tokens = { λ x. printed (primary_tree x) };

    ghost inside = { primary_inside };

    fn unfold<'a>(&'a self, rest: &mut Stack<Piece<'a>>) -> Result<(), AllocError> {
        match self {
            Primary::Literal(literal) => literal.unfold(rest),
            Primary::Ref(reference) => reference.unfold(rest),
            Primary::Name(name) => name.unfold(rest),
            Primary::Slot(slot) => slot.unfold(rest),
            Primary::Expr(expr) => {
                rest.push(Piece::Token(")"))?;
                expr.unfold(rest)?;
                rest.push(Piece::Token("("))
            }
            Primary::EList(elements) => {
                rest.push(Piece::Token("]"))?;
                unfold_listed(elements.as_slice(), rest)?;
                rest.push(Piece::Token("["))
            }
            Primary::RInits(fields) => {
                rest.push(Piece::Token("}"))?;
                unfold_listed(fields.as_slice(), rest)?;
                rest.push(Piece::Token("{"))
            }
        }
    }
}

impl Unfold for RecInit {
    ghost tokens = { λ x. printed (init_tree x) };

    ghost inside = { init_inside };

    fn unfold<'a>(&'a self, rest: &mut Stack<Piece<'a>>) -> Result<(), AllocError> {
        self.1.unfold(rest)?;
        rest.push(Piece::Token(":"))?;
        self.0.unfold(rest)
    }
}
