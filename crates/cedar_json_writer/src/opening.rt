//! What stands in the place of an expression that is next to be written.
#![tactic(auto, unfolding(crate::specs::Forms::value_json, crate::specs::FunctionKeys::keys_called, crate::specs::machines::Pending::weight))]

ghost use Rattle.std.specs.Prelude.{◌≡◌, ◌+◌, ◌<◌, ◌++◌, OnOk, Option, map, codes};
ghost use Rattle.json.specs.Json.{string};
ghost use Rattle.json.specs.Tree.{json_tokens};
ghost use Rattle.cedar_expressions.specs.declared.atoms.Literal.TheVariants as literals;
ghost use Rattle.cedar_expressions.specs.declared.place.Place.{Place};
ghost use Rattle.cedar_expressions.specs.Meaning.{expr_meaning, unary_call, binary_call, between_call, nary_call, list_call};
ghost use Rattle.cedar_expressions.specs.Value as v;
ghost use Rattle.cedar_expressions.specs.Value.{values, terms, fields};
ghost use Rattle.cedar_expressions.specs.Written.{var_text, slot_text};
ghost use Rattle.cedar_json_writer.specs.Forms.{arg, value_json, between_key};
ghost use Rattle.cedar_json_writer.specs.FunctionKeys.{keys_called};
ghost use Rattle.cedar_json_writer.specs.machines.Pending.{term_value, field_value, all_tokens, all_called, all_weights, weight, PutsValue};

use crate::attributes::{open_attribute, open_has};
use crate::chains::{open_nary, open_sum};
use crate::todo::{Pending, Todo, put_all};
use cedar_expressions::{
    BinaryCall, BinaryOp, EntityType, EntityUID, Expr, ExprKind, ListCall, Literal, PatternElem,
    SlotId, Text, UnaryCall, UnaryOp, Var,
};
use std::alloc::AllocError;

/// Puts in the place of an expression what it is written as.
pub fn open<'a>(expr: &'a Expr, todo: &mut Pending<'a>) -> Result<(), AllocError>
    ensures { PutsValue (expr_meaning expr.now) result todo.old todo.new }
{
    match expr.kind() {
        ExprKind::Val(literal) => open_literal(literal, todo),
        ExprKind::Var(var) => open_var(*var, todo),
        ExprKind::Slot(slot) => open_slot(*slot, todo),
        ExprKind::Ite(parts) => open_conditional(parts.as_ref(), todo),
        ExprKind::Unary(call, a) => open_unary(call, a.as_ref(), todo),
        ExprKind::Binary(call, parts) => open_binary(call, parts.as_ref(), todo),
        ExprKind::Nary(op, first, rest) => open_nary(*op, first.as_ref(), rest.as_slice(), todo),
        ExprKind::Sum(first, rest) => open_sum(first.as_ref(), rest.as_slice(), todo),
        ExprKind::List(call, items) => open_list(call, items.as_slice(), todo),
        ExprKind::Record(pairs) => open_record(pairs.as_slice(), todo),
    }
}

fn open_var<'a>(var: Var, todo: &mut Pending<'a>) -> Result<(), AllocError>
    ensures { PutsValue (v.var var) result todo.old todo.new }
{
    let word = Todo::Text(var_word(var));
    put_all(todo, &[Todo::Open, Todo::Key("Var"), word, Todo::Close])
}

fn open_slot<'a>(slot: SlotId, todo: &mut Pending<'a>) -> Result<(), AllocError>
    ensures { (place : Option Place) → PutsValue
        (v.slot (record { id = slot; place = place })) result todo.old todo.new }
{
    let word = Todo::Text(slot_word(slot));
    put_all(todo, &[Todo::Open, Todo::Key("Slot"), word, Todo::Close])
}

fn var_word(var: Var) -> &'static str
    ensures { result.now ≡ var_text var }
{
    match var {
        Var::Principal => "principal",
        Var::Action => "action",
        Var::Resource => "resource",
        Var::Context => "context",
    }
}

/// The word of a slot.
pub fn slot_word(slot: SlotId) -> &'static str
    ensures { result.now ≡ slot_text slot }
{
    match slot {
        SlotId::Principal => "?principal",
        SlotId::Resource => "?resource",
    }
}

fn open_literal<'a>(literal: &'a Literal, todo: &mut Pending<'a>) -> Result<(), AllocError>
    ensures { PutsValue (v.val literal.now) result todo.old todo.new }
{
    match literal {
        Literal::Bool(truth) => {
            let value = Todo::Truth(*truth);
            put_all(todo, &[Todo::Open, Todo::Key("Value"), value, Todo::Close])
        }
        Literal::Long(number) => {
            let value = Todo::Number(*number);
            put_all(todo, &[Todo::Open, Todo::Key("Value"), value, Todo::Close])
        }
        Literal::String(text) => {
            let value = Todo::Text(text.as_str());
            put_all(todo, &[Todo::Open, Todo::Key("Value"), value, Todo::Close])
        }
        Literal::EntityUID(entity) => open_entity(entity, todo),
    }
}

fn open_entity<'a>(entity: &'a EntityUID, todo: &mut Pending<'a>) -> Result<(), AllocError>
    ensures { PutsValue (v.val (literals.EntityUID entity.now)) result todo.old todo.new }
{
    let items = [
        Todo::Open,
        Todo::Key("Value"),
        Todo::Open,
        Todo::Key("__entity"),
        Todo::Open,
        Todo::Key("type"),
        Todo::Name(entity.entity_type().name()),
        Todo::Key("id"),
        Todo::Text(entity.eid().as_str()),
        Todo::Close,
        Todo::Close,
        Todo::Close,
    ];
    put_all(todo, &items)
}

fn open_conditional<'a>(
    parts: &'a (Expr, Expr, Expr),
    todo: &mut Pending<'a>,
) -> Result<(), AllocError>
    ensures { PutsValue (v.ite (expr_meaning parts.now.0) (expr_meaning parts.now.1)
        (expr_meaning parts.now.2)) result todo.old todo.new }
{
    let items = [
        Todo::Open,
        Todo::Key("if-then-else"),
        Todo::Open,
        Todo::Key("if"),
        Todo::Expr(&parts.0),
        Todo::Key("then"),
        Todo::Expr(&parts.1),
        Todo::Key("else"),
        Todo::Expr(&parts.2),
        Todo::Close,
        Todo::Close,
    ];
    put_all(todo, &items)
}

fn open_unary<'a>(
    call: &'a UnaryCall,
    a: &'a Expr,
    todo: &mut Pending<'a>,
) -> Result<(), AllocError>
    ensures { PutsValue (unary_call call.now (expr_meaning a.now)) result todo.old todo.new }
{
    match call {
        UnaryCall::Op(UnaryOp::Not) => open_arg("!", a, todo),
        UnaryCall::Op(UnaryOp::Neg) => open_arg("neg", a, todo),
        UnaryCall::IsEmpty => open_arg("isEmpty", a, todo),
        UnaryCall::Like(pattern) => open_like(a, pattern.as_slice(), todo),
        UnaryCall::Is(entity_type) => open_typed(a, entity_type, todo),
        UnaryCall::GetAttr(attr) => open_attribute(a, attr.as_str(), todo),
        UnaryCall::ExtendedHasAttr(first, rest) => open_has(a, first, rest, todo),
    }
}

fn open_like<'a>(
    a: &'a Expr,
    pattern: &'a [PatternElem],
    todo: &mut Pending<'a>,
) -> Result<(), AllocError>
    ensures { PutsValue (v.like (expr_meaning a.now) pattern.now) result todo.old todo.new }
{
    let items = [
        Todo::Open,
        Todo::Key("like"),
        Todo::Open,
        Todo::Key("left"),
        Todo::Expr(a),
        Todo::Key("pattern"),
        Todo::OpenList,
        Todo::Pattern(pattern),
        Todo::Close,
        Todo::Close,
    ];
    put_all(todo, &items)
}

/// An operator with one operand.
fn open_arg<'a>(key: &'a str, a: &'a Expr, todo: &mut Pending<'a>) -> Result<(), AllocError>
    ensures tokens { OnOk result (all_tokens todo.new
        ≡ json_tokens (arg key.now (value_json (expr_meaning a.now))) ++ all_tokens todo.old) }
    ensures less { OnOk result
        (all_weights todo.new < weight (expr_meaning a.now) + 20 + all_weights todo.old) }
    ensures called { OnOk result
        (all_called todo.new ≡ keys_called (expr_meaning a.now) (all_called todo.old)) }
{
    let items = [
        Todo::Open,
        Todo::Key(key),
        Todo::Open,
        Todo::Key("arg"),
        Todo::Expr(a),
        Todo::Close,
        Todo::Close,
    ];
    put_all(todo, &items)
}

/// An operator with an operand and a name beside it.
fn open_typed<'a>(
    a: &'a Expr,
    entity_type: &'a EntityType,
    todo: &mut Pending<'a>,
) -> Result<(), AllocError>
    ensures { PutsValue (v.is_entity_type (expr_meaning a.now) entity_type.now) result
        todo.old todo.new }
{
    let items = [
        Todo::Open,
        Todo::Key("is"),
        Todo::Open,
        Todo::Key("left"),
        Todo::Expr(a),
        Todo::Key("entity_type"),
        Todo::Name(entity_type.name()),
        Todo::Close,
        Todo::Close,
    ];
    put_all(todo, &items)
}

fn open_binary<'a>(
    call: &'a BinaryCall,
    parts: &'a (Expr, Expr),
    todo: &mut Pending<'a>,
) -> Result<(), AllocError>
    ensures { PutsValue (binary_call call.now (expr_meaning parts.now.0)
        (expr_meaning parts.now.1)) result todo.old todo.new }
{
    match call {
        BinaryCall::Op(op) => open_between(*op, &parts.0, &parts.1, todo),
        BinaryCall::IsIn(entity_type) => open_typed_in(entity_type, &parts.0, &parts.1, todo),
    }
}

fn open_typed_in<'a>(
    entity_type: &'a EntityType,
    a: &'a Expr,
    b: &'a Expr,
    todo: &mut Pending<'a>,
) -> Result<(), AllocError>
    ensures { PutsValue (v.is_in_entity_type (expr_meaning a.now) entity_type.now
        (expr_meaning b.now)) result todo.old todo.new }
{
    let items = [
        Todo::Open,
        Todo::Key("is"),
        Todo::Open,
        Todo::Key("left"),
        Todo::Expr(a),
        Todo::Key("entity_type"),
        Todo::Name(entity_type.name()),
        Todo::Key("in"),
        Todo::Expr(b),
        Todo::Close,
        Todo::Close,
    ];
    put_all(todo, &items)
}

fn open_between<'a>(
    op: BinaryOp,
    a: &'a Expr,
    b: &'a Expr,
    todo: &mut Pending<'a>,
) -> Result<(), AllocError>
    ensures { PutsValue (between_call op (expr_meaning a.now) (expr_meaning b.now)) result
        todo.old todo.new }
{
    let items = [
        Todo::Open,
        Todo::Key(binary_key(op)),
        Todo::Open,
        Todo::Key("left"),
        Todo::Expr(a),
        Todo::Key("right"),
        Todo::Expr(b),
        Todo::Close,
        Todo::Close,
    ];
    put_all(todo, &items)
}

fn binary_key(op: BinaryOp) -> &'static str
    ensures { result.now ≡ between_key op }
{
    match op {
        BinaryOp::And => "&&",
        BinaryOp::Less => "<",
        BinaryOp::LessEq => "<=",
        BinaryOp::Greater => ">",
        BinaryOp::GreaterEq => ">=",
        BinaryOp::Eq => "==",
        BinaryOp::NotEq => "!=",
        BinaryOp::In => "in",
        BinaryOp::Contains => "contains",
        BinaryOp::ContainsAll => "containsAll",
        BinaryOp::ContainsAny => "containsAny",
        BinaryOp::GetTag => "getTag",
        BinaryOp::HasTag => "hasTag",
    }
}

fn open_list<'a>(
    call: &'a ListCall,
    items: &'a [Expr],
    todo: &mut Pending<'a>,
) -> Result<(), AllocError>
    ensures { PutsValue (list_call call.now (values (map expr_meaning items.now))) result
        todo.old todo.new }
{
    let key = match call {
        ListCall::Set => Todo::Key("Set"),
        ListCall::Extension(function) => Todo::Function(function),
    };
    let items = [
        Todo::Open,
        key,
        Todo::OpenList,
        Todo::Items(items),
        Todo::Close,
    ];
    put_all(todo, &items)
}

fn open_record<'a>(pairs: &'a [(Text, Expr)], todo: &mut Pending<'a>) -> Result<(), AllocError>
    ensures { PutsValue (v.«record» (fields (map field_value pairs.now))) result
        todo.old todo.new }
{
    let items = [
        Todo::Open,
        Todo::Key("Record"),
        Todo::Open,
        Todo::Pairs(pairs),
        Todo::Close,
    ];
    put_all(todo, &items)
}
