//! Expressions are let go by a loop, however deep they are, and it takes no memory: on the way
//! down what else is in an expression waits where it stands, and the way back up stands there in
//! the place of a part. That is the part which is taken last, so that each node is met once on the
//! way down, and once on the way back for each of its parts.
ghost use Rattle.std.specs.Prelude.{◌≡◌, ◌≤◌, ◌<◌, ◌+◌, suc, None, Some};
ghost use Rattle.cedar_expressions.specs.Forks.{forks, three_forks, two_forks, fork_forks, waiting_forks, StepsDown, StemOrForked, IsRest};

mod lists;

use crate::{
    AddOp, BinaryCall, BinaryOp, Boxed, Expr, ExprKind, Items, ListCall, Literal, NaryOp, Text,
    UnaryCall, Var,
};
use lists::{step_items, step_operands, step_pairs, step_terms};
use std::mem;

/// What is to be let go of an expression that may have more parts than one.
pub(crate) enum Fork {
    /// A condition and what stands for either answer.
    Three(Box<(Expr, Expr, Expr)>),
    /// Two parts.
    Two(Box<(Expr, Expr)>),
    /// A first operand and later ones.
    Operands(Box<Expr>, Vec<Expr>),
    /// The operands of a sum.
    Terms(Box<Expr>, Vec<(AddOp, Expr)>),
    /// The elements of a list.
    Items(Vec<Expr>),
    /// The pairs of a record.
    Pairs(Vec<(Text, Expr)>),
}

/// What is left of an expression behind its outermost call.
enum Rest {
    /// Nothing: it had no part.
    Nothing,
    /// Its one part.
    Operand(Boxed<Expr>),
    /// Its parts.
    Parts(Fork),
}

impl Expr {
    /// Whether there is one part at most at each level, down to the end.
    #[tactic(auto, using(crate::proofs::ForksAt::of_expr, crate::proofs::ForksAt::of_val, crate::proofs::ForksAt::of_var, crate::proofs::ForksAt::of_slot, crate::proofs::ForksAt::of_ite, crate::proofs::ForksAt::of_unary, crate::proofs::ForksAt::of_binary, crate::proofs::ForksAt::of_nary, crate::proofs::ForksAt::of_sum, crate::proofs::ForksAt::of_list, crate::proofs::ForksAt::of_record))]
    fn is_stem(&self) -> bool
        ensures { StemOrForked (forks self.now) result }
    {
        let mut at = self;
        loop {
            match at.kind() {
                ExprKind::Val(_) => return true,
                ExprKind::Var(_) => return true,
                ExprKind::Slot(_) => return true,
                ExprKind::Unary(_, operand) => at = operand.as_ref(),
                ExprKind::Ite(_) => return false,
                ExprKind::Binary(_, _) => return false,
                ExprKind::Nary(_, _, _) => return false,
                ExprKind::Sum(_, _) => return false,
                ExprKind::List(_, _) => return false,
                ExprKind::Record(_) => return false,
            }
        }
    }

    /// Some expression without parts.
    #[inline(always)]
    #[tactic(auto, using(crate::proofs::ForksAt::of_expr, crate::proofs::ForksAt::of_val, crate::proofs::ForksAt::of_var, crate::proofs::ForksAt::of_slot, crate::proofs::ForksAt::of_ite, crate::proofs::ForksAt::of_unary, crate::proofs::ForksAt::of_binary, crate::proofs::ForksAt::of_nary, crate::proofs::ForksAt::of_sum, crate::proofs::ForksAt::of_list, crate::proofs::ForksAt::of_record))]
    fn leaf() -> Expr
        ensures { forks result ≡ 0 }
    {
        Expr::at(ExprKind::Var(Var::Principal), None)
    }

    /// Lets the outermost call go.
    #[inline(always)]
    #[tactic(auto, using(crate::proofs::ForksAt::of_expr, crate::proofs::ForksAt::of_val, crate::proofs::ForksAt::of_var, crate::proofs::ForksAt::of_slot, crate::proofs::ForksAt::of_ite, crate::proofs::ForksAt::of_unary, crate::proofs::ForksAt::of_binary, crate::proofs::ForksAt::of_nary, crate::proofs::ForksAt::of_sum, crate::proofs::ForksAt::of_list, crate::proofs::ForksAt::of_record))]
    fn rest(self) -> Rest
        ensures { IsRest self result }
    {
        match self.into_kind() {
            ExprKind::Val(literal) => {
                end_literal(literal);
                Rest::Nothing
            }
            ExprKind::Var(_) => Rest::Nothing,
            ExprKind::Slot(_) => Rest::Nothing,
            ExprKind::Ite(parts) => Rest::Parts(Fork::Three(parts.into_box())),
            ExprKind::Unary(call, operand) => {
                end_call(call);
                Rest::Operand(operand)
            }
            ExprKind::Binary(call, parts) => {
                drop(call);
                Rest::Parts(Fork::Two(parts.into_box()))
            }
            ExprKind::Nary(_, first, rest) => {
                Rest::Parts(Fork::Operands(first.into_box(), rest.into_vec()))
            }
            ExprKind::Sum(first, rest) => {
                Rest::Parts(Fork::Terms(first.into_box(), rest.into_vec()))
            }
            ExprKind::List(call, items) => {
                drop(call);
                Rest::Parts(Fork::Items(items.into_vec()))
            }
            ExprKind::Record(pairs) => Rest::Parts(Fork::Pairs(pairs.into_vec())),
        }
    }

    /// Lets calls of one part go, from the outermost down, until there are several.
    #[inline(always)]
    fn outer_fork(self) -> Option<Fork>
        ensures { waiting_forks result ≤ forks self }
    {
        match self.rest() {
            Rest::Nothing => None,
            Rest::Operand(operand) => fork_below(operand),
            Rest::Parts(fork) => Some(fork),
        }
    }

    /// The same, and lets calls of two parts go of which one is a stem, as most comparisons are, so
    /// that nothing has to wait for them.
    #[inline(always)]
    pub(crate) fn fork(self) -> Option<Fork>
        ensures { waiting_forks result ≤ forks self }
    {
        match self.outer_fork() {
            None => None,
            Some(fork) => fork.below_stems(),
        }
    }

    /// Lets a stem go.
    #[inline(always)]
    #[tactic(auto, using(crate::proofs::ForksAt::some_fork))]
    fn end(self)
        requires { forks self ≡ 0 }
    {
        match self.outer_fork() {
            None => {}
            Some(_fork) => unreachable!(),
        }
    }
}

/// Lets a constant go: a number and a truth value take nothing beside themselves.
#[inline(always)]
fn end_literal(literal: Literal) {
    match literal {
        Literal::Bool(_) => {}
        Literal::Long(_) => {}
        Literal::String(text) => drop(text),
        Literal::EntityUID(entity) => drop(entity),
    }
}

/// Lets a call go, without its operand.
#[inline(always)]
fn end_call(call: UnaryCall) {
    match call {
        UnaryCall::Op(_) => {}
        UnaryCall::IsEmpty => {}
        UnaryCall::Like(pattern) => drop(pattern),
        UnaryCall::Is(entity_type) => drop(entity_type),
        UnaryCall::GetAttr(attr) => drop(attr),
        UnaryCall::ExtendedHasAttr(first, rest) => drop((first, rest)),
    }
}

fn fork_below(operand: Boxed<Expr>) -> Option<Fork>
    ensures { waiting_forks result ≤ forks operand }
{
    let mut at = operand;
    loop {
        match at.into_inner().rest() {
            Rest::Nothing => return None,
            Rest::Operand(operand) => at = operand,
            Rest::Parts(fork) => return Some(fork),
        }
    }
}

/// Lets calls of two parts go of which one is a stem, from the outermost down.
fn below_two(parts: Box<(Expr, Expr)>) -> Option<Fork>
    ensures { waiting_forks result ≤ suc (two_forks parts.value) }
{
    let mut parts = parts;
    loop {
        let next = if parts.1.is_stem() {
            let (first, second) = Box::into_inner(parts);
            second.end();
            first.outer_fork()
        } else if parts.0.is_stem() {
            let (first, second) = Box::into_inner(parts);
            first.end();
            second.outer_fork()
        } else {
            return Some(Fork::Two(parts));
        };
        match next {
            None => return None,
            Some(Fork::Two(inner)) => parts = inner,
            Some(fork) => return Some(fork),
        }
    }
}

impl Fork {
    /// The same; what isn't a call of two parts is as it was.
    #[inline(always)]
    fn below_stems(self) -> Option<Fork>
        ensures { waiting_forks result ≤ fork_forks self }
    {
        match self {
            Fork::Two(parts) => below_two(parts),
            fork => Some(fork),
        }
    }

    /// Goes down as far as it goes, lets go what is there, and answers what waits.
    pub(crate) fn descend(self) -> Option<Fork>
        ensures { waiting_forks result < fork_forks self }
    {
        let mut up = None;
        let mut part = self.step(&mut up);
        while let Some(fork) = part {
            part = fork.step(&mut up);
        }
        up
    }

    /// Takes a part out, and lets what else there is wait, with what waited in it; or lets all go.
    fn step(self, up: &mut Option<Fork>) -> Option<Fork>
        ensures { StepsDown (fork_forks self) up.old result up.new }
    {
        match self {
            Fork::Three(parts) => step_three(parts, up),
            Fork::Two(parts) => step_two(parts, up),
            Fork::Operands(first, rest) => step_operands(first, rest, up),
            Fork::Terms(first, rest) => step_terms(first, rest, up),
            Fork::Items(items) => step_items(items, up),
            Fork::Pairs(pairs) => step_pairs(pairs, up),
        }
    }

    /// An expression that holds it, to stand in the place of a part.
    #[inline(always)]
    #[tactic(auto, using(crate::proofs::ForksAt::of_expr, crate::proofs::ForksAt::of_val, crate::proofs::ForksAt::of_var, crate::proofs::ForksAt::of_slot, crate::proofs::ForksAt::of_ite, crate::proofs::ForksAt::of_unary, crate::proofs::ForksAt::of_binary, crate::proofs::ForksAt::of_nary, crate::proofs::ForksAt::of_sum, crate::proofs::ForksAt::of_list, crate::proofs::ForksAt::of_record))]
    fn into_expr(self) -> Expr
        ensures { forks result ≡ fork_forks self }
    {
        match self {
            Fork::Three(parts) => Expr::at(ExprKind::Ite(Boxed::from(parts)), None),
            Fork::Two(parts) => {
                let call = BinaryCall::Op(BinaryOp::And);
                Expr::at(ExprKind::Binary(call, Boxed::from(parts)), None)
            }
            Fork::Operands(first, rest) => {
                let first = Boxed::from(first);
                Expr::at(ExprKind::Nary(NaryOp::And, first, Items::from(rest)), None)
            }
            Fork::Terms(first, rest) => {
                let first = Boxed::from(first);
                Expr::at(ExprKind::Sum(first, Items::from(rest)), None)
            }
            Fork::Items(items) => {
                Expr::at(ExprKind::List(ListCall::Set, Items::from(items)), None)
            }
            Fork::Pairs(pairs) => Expr::at(ExprKind::Record(Items::from(pairs)), None),
        }
    }
}

/// Lets a fork wait, where nothing does.
#[inline(always)]
fn wait(up: &mut Option<Fork>, waits: Option<Fork>)
    requires { up.old ≡ None }
    ensures { up.new ≡ waits }
{
    match mem::replace(up, waits) {
        None => {}
        Some(_fork) => unreachable!(),
    }
}

fn step_three(parts: Box<(Expr, Expr, Expr)>, up: &mut Option<Fork>) -> Option<Fork>
    ensures { StepsDown (suc (three_forks parts.value)) up.old result up.new }
{
    if !parts.2.is_stem() {
        return step_third(parts, up);
    }
    if !parts.1.is_stem() {
        return step_second(parts, up);
    }
    let (first, second, third) = Box::into_inner(parts);
    second.end();
    third.end();
    first.fork()
}

fn step_third(parts: Box<(Expr, Expr, Expr)>, up: &mut Option<Fork>) -> Option<Fork>
    requires { 0 < forks parts.value.2 }
    ensures { StepsDown (suc (three_forks parts.value)) up.old result up.new }
{
    let mut parts = parts;
    let third = take_third(&mut parts, up.take());
    wait(up, Some(Fork::Three(parts)));
    third.fork()
}

/// Takes the third part out, and leaves the way back up in the place of the first.
fn take_third(parts: &mut (Expr, Expr, Expr), way: Option<Fork>) -> Expr
    ensures taken { result ≡ parts.old.2 }
    ensures left { three_forks parts.new + forks parts.old.2
        ≡ three_forks parts.old + waiting_forks way }
{
    match way {
        None => mem::replace(&mut parts.2, Expr::leaf()),
        Some(fork) => {
            let first = mem::replace(&mut parts.0, fork.into_expr());
            mem::replace(&mut parts.2, first)
        }
    }
}

/// The same of the second part, where the third is a stem.
fn step_second(parts: Box<(Expr, Expr, Expr)>, up: &mut Option<Fork>) -> Option<Fork>
    requires { 0 < forks parts.value.1 }
    ensures { StepsDown (suc (three_forks parts.value)) up.old result up.new }
{
    let mut parts = parts;
    let second = take_second(&mut parts, up.take());
    wait(up, Some(Fork::Three(parts)));
    second.fork()
}

fn take_second(parts: &mut (Expr, Expr, Expr), way: Option<Fork>) -> Expr
    ensures taken { result ≡ parts.old.1 }
    ensures left { three_forks parts.new + forks parts.old.1
        ≡ three_forks parts.old + waiting_forks way }
{
    match way {
        None => mem::replace(&mut parts.1, Expr::leaf()),
        Some(fork) => {
            let first = mem::replace(&mut parts.0, fork.into_expr());
            mem::replace(&mut parts.1, first)
        }
    }
}

fn step_two(parts: Box<(Expr, Expr)>, up: &mut Option<Fork>) -> Option<Fork>
    ensures { StepsDown (suc (two_forks parts.value)) up.old result up.new }
{
    if parts.0.is_stem() {
        let (first, second) = Box::into_inner(parts);
        first.end();
        return second.fork();
    }
    if parts.1.is_stem() {
        let (first, second) = Box::into_inner(parts);
        second.end();
        return first.fork();
    }
    match up.take() {
        None => step_alone(parts, up),
        Some(fork) => step_first(parts, fork, up),
    }
}

/// The second part is taken out first, and the first waits alone.
fn step_alone(parts: Box<(Expr, Expr)>, up: &mut Option<Fork>) -> Option<Fork>
    requires { up.old ≡ None }
    ensures { StepsDown (suc (two_forks parts.value)) None result up.new }
{
    let (first, second) = Box::into_inner(parts);
    wait(up, first.fork());
    second.fork()
}

/// The first part is taken out first, and the way back up waits in its place.
fn step_first(parts: Box<(Expr, Expr)>, way: Fork, up: &mut Option<Fork>) -> Option<Fork>
    requires inner { 0 < forks parts.value.0 }
    requires free { up.old ≡ None }
    ensures { StepsDown (suc (two_forks parts.value)) (Some way) result up.new }
{
    let mut parts = parts;
    let first = mem::replace(&mut parts.0, way.into_expr());
    wait(up, Some(Fork::Two(parts)));
    first.fork()
}
