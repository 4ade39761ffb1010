//! Lists of expressions are let go from the last element to the first: what is left of a list waits,
//! with what waited in the place of its first element, in whose stead the popped one's room is used.
ghost use Rattle.std.specs.Prelude.{◌≡◌, ◌≤◌, ◌<◌, ◌+◌, suc};
ghost use Rattle.std.specs.Vec.{vec_len, vec_capacity};
ghost use Rattle.cedar_expressions.specs.Forks.{forks, items_forks, terms_forks, pairs_forks, waiting_forks, StepsDown};

use super::{Fork, wait};
use crate::{AddOp, Expr, Text};
use std::mem;

pub(super) fn step_operands(
    first: Box<Expr>,
    rest: Vec<Expr>,
    up: &mut Option<Fork>,
) -> Option<Fork>
    ensures { StepsDown (suc (forks first.value + items_forks rest.items)) up.old result up.new }
{
    let mut rest = rest;
    while let Some(item) = rest.pop() {
        if let Some(part) = item.fork() {
            keep_operands(first, rest, up);
            return Some(part);
        }
    }
    rest.destroy_empty();
    Box::into_inner(first).fork()
}

/// Lets a first operand and later ones wait, with what waited in the place of the first.
fn keep_operands(first: Box<Expr>, rest: Vec<Expr>, up: &mut Option<Fork>)
    requires { vec_len rest < vec_capacity rest }
    ensures { waiting_forks up.new
        ≡ suc (forks first.value + items_forks rest.items) + waiting_forks up.old }
{
    let mut first = first;
    let mut rest = rest;
    match up.take() {
        None => wait(up, Some(Fork::Operands(first, rest))),
        Some(fork) => {
            rest.push_reserved(Box::replace(&mut first, fork.into_expr()));
            wait(up, Some(Fork::Operands(first, rest)));
        }
    }
}

pub(super) fn step_terms(
    first: Box<Expr>,
    rest: Vec<(AddOp, Expr)>,
    up: &mut Option<Fork>,
) -> Option<Fork>
    ensures { StepsDown (suc (forks first.value + terms_forks rest.items)) up.old result up.new }
{
    let mut rest = rest;
    while let Some((_, item)) = rest.pop() {
        if let Some(part) = item.fork() {
            keep_terms(first, rest, up);
            return Some(part);
        }
    }
    rest.destroy_empty();
    Box::into_inner(first).fork()
}

/// Lets the operands of a sum wait, with what waited in the place of the first.
fn keep_terms(first: Box<Expr>, rest: Vec<(AddOp, Expr)>, up: &mut Option<Fork>)
    requires { vec_len rest < vec_capacity rest }
    ensures { waiting_forks up.new
        ≡ suc (forks first.value + terms_forks rest.items) + waiting_forks up.old }
{
    let mut first = first;
    let mut rest = rest;
    match up.take() {
        None => wait(up, Some(Fork::Terms(first, rest))),
        Some(fork) => {
            let operand = Box::replace(&mut first, fork.into_expr());
            rest.push_reserved((AddOp::Plus, operand));
            wait(up, Some(Fork::Terms(first, rest)));
        }
    }
}

pub(super) fn step_items(items: Vec<Expr>, up: &mut Option<Fork>) -> Option<Fork>
    ensures { StepsDown (suc (items_forks items.items)) up.old result up.new }
{
    let mut items = items;
    while let Some(item) = items.pop() {
        if let Some(part) = item.fork() {
            keep_items(items, up);
            return Some(part);
        }
    }
    items.destroy_empty();
    None
}

/// Lets the elements of a list wait, with what waited in the place of the first.
fn keep_items(items: Vec<Expr>, up: &mut Option<Fork>)
    requires { vec_len items < vec_capacity items }
    ensures { waiting_forks up.new ≤ suc (items_forks items.items) + waiting_forks up.old }
{
    let mut items = items;
    if items.is_empty() {
        items.destroy_empty();
        return;
    }
    match up.take() {
        None => wait(up, Some(Fork::Items(items))),
        Some(fork) => {
            let first = mem::replace(&mut items[0], fork.into_expr());
            items.push_reserved(first);
            wait(up, Some(Fork::Items(items)));
        }
    }
}

pub(super) fn step_pairs(pairs: Vec<(Text, Expr)>, up: &mut Option<Fork>) -> Option<Fork>
    ensures { StepsDown (suc (pairs_forks pairs.items)) up.old result up.new }
{
    let mut pairs = pairs;
    while let Some((key, value)) = pairs.pop() {
        match value.fork() {
            None => drop(key),
            Some(part) => {
                keep_pairs(pairs, key, up);
                return Some(part);
            }
        }
    }
    pairs.destroy_empty();
    None
}

/// Lets the pairs of a record wait, with what waited in the place of the first value, which goes
/// behind a key that isn't needed any more.
fn keep_pairs(pairs: Vec<(Text, Expr)>, key: Text, up: &mut Option<Fork>)
    requires { vec_len pairs < vec_capacity pairs }
    ensures { waiting_forks up.new ≤ suc (pairs_forks pairs.items) + waiting_forks up.old }
{
    let mut pairs = pairs;
    if pairs.is_empty() {
        drop(key);
        pairs.destroy_empty();
        return;
    }
    match up.take() {
        None => {
            drop(key);
            wait(up, Some(Fork::Pairs(pairs)));
        }
        Some(fork) => {
            let first = mem::replace(&mut pairs[0].1, fork.into_expr());
            pairs.push_reserved((key, first));
            wait(up, Some(Fork::Pairs(pairs)));
        }
    }
}
